// Laws only: what a host sees at the library's door, image to image.
// SPDX-License-Identifier: Apache-2.0
#![tactic(auto)]
