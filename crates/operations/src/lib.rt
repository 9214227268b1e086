// The eight operations of the lock state, each a value in and a value out.
// SPDX-License-Identifier: Apache-2.0
#![tactic(auto)]

pub mod acknowledge;
pub mod answers;
mod checks;
mod defuncts;
pub mod delete;
mod entering;
pub mod insert;
pub mod insert_vehicle;
pub mod numbers;
mod ordered;
pub mod renew;
pub mod replace;
mod trees;
