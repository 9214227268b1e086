// What feeds promise: every state met is sound, and a spare takes over. No code.
// SPDX-License-Identifier: Apache-2.0
#![tactic(auto)]
