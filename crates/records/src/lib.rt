// Records: numbers in bytes, the table of kinds, framing, the bodies of images and feeds.
// SPDX-License-Identifier: Apache-2.0
#![tactic(auto)]

pub mod bodies;
pub mod body;
pub mod fields;
pub mod frame;
pub mod kinds;
pub mod layout;
pub mod requests;
pub mod sending;
pub mod writing;
