// What the definitions promise: theorems and the bench table. No code.
// SPDX-License-Identifier: Apache-2.0
#![tactic(auto)]
