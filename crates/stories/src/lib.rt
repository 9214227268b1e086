// Laws only: clearing away does not change the story (C-20).
// SPDX-License-Identifier: Apache-2.0
#![tactic(auto)]
