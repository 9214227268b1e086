// Document 01's number of every answer: 0 where nothing was refused. Six functions and no trait: each is the table of its own
// refusals, and six impls would be the same tables with more lines around them.
// SPDX-License-Identifier: Apache-2.0
ghost use Rattle.std.specs.Prelude.{◌≡◌};
ghost use Rattle.operations.specs.Answers.{paper_of, renewal_paper, deletion_paper, expiration_paper, acknowledgement_paper, expiry_paper};

use crate::answers::{DeletionRefusal, Expiration, Refusal, RenewalRefusal, StateRefusal};

#[tactic(auto, unfolding(crate::specs::Answers::paper_of))]
pub fn of_answer(a: Result<(), Refusal>) -> u64
    ensures { result ≡ (paper_of a).number }
{
    match a {
        Ok(()) => 0,
        Err(Refusal::DuplicateId(_)) => 1,
        Err(Refusal::DuplicateScope) => 2,
        Err(Refusal::ActiveLockNotFound(_)) => 3,
        Err(Refusal::ParentNotFound(_)) => 4,
        Err(Refusal::ParentNotVehicle(_)) => 5,
        Err(Refusal::ReplacementScopeConflict) => 6,
        Err(Refusal::CoverageConflict(_, _)) => 7,
        Err(Refusal::RevisionOverflow) => 8,
        Err(Refusal::NotRootVehicle) => 11,
        Err(Refusal::BadChild(_)) => 11,
        Err(Refusal::OtherOwner(_, _)) => 11,
        Err(Refusal::NotCovered(_, _)) => 11,
        Err(Refusal::Invariant) => 11,
        Err(Refusal::UnsoundState(_)) => 12,
        Err(Refusal::NoRoom) => 13,
        Err(Refusal::BadList) => 14,
    }
}

#[tactic(auto, unfolding(crate::specs::Answers::renewal_paper))]
pub fn of_renewal(a: Result<(), RenewalRefusal>) -> u64
    ensures { result ≡ (renewal_paper a).number }
{
    match a {
        Ok(()) => 0,
        Err(RenewalRefusal::ActiveLockNotFound(_)) => 3,
        Err(RenewalRefusal::RevisionOverflow) => 8,
        Err(RenewalRefusal::LockExpired) => 9,
        Err(RenewalRefusal::RenewalNotExtension) => 10,
        Err(RenewalRefusal::UnsoundState(_)) => 12,
    }
}

#[tactic(auto, unfolding(crate::specs::Answers::deletion_paper))]
pub fn of_deletion(a: Result<(), DeletionRefusal>) -> u64
    ensures { result ≡ (deletion_paper a).number }
{
    match a {
        Ok(()) => 0,
        Err(DeletionRefusal::ActiveLockNotFound(_)) => 3,
        Err(DeletionRefusal::RevisionOverflow) => 8,
        Err(DeletionRefusal::UnsoundState(_)) => 12,
    }
}

#[tactic(auto, unfolding(crate::specs::Answers::expiration_paper))]
pub fn of_expiration(a: Result<Expiration, StateRefusal>) -> u64
    ensures { result ≡ (expiration_paper a).number }
{
    match a {
        Ok(Expiration::Done) => 0,
        Ok(Expiration::Stale) => 0,
        Ok(Expiration::NotDue(_)) => 0,
        Err(StateRefusal::RevisionOverflow) => 8,
        Err(StateRefusal::UnsoundState(_)) => 12,
    }
}

#[tactic(auto, unfolding(crate::specs::Answers::acknowledgement_paper))]
pub fn of_acknowledgement(a: Result<bool, StateRefusal>) -> u64
    ensures { result ≡ (acknowledgement_paper a).number }
{
    match a {
        Ok(true) => 0,
        Ok(false) => 0,
        Err(StateRefusal::RevisionOverflow) => 8,
        Err(StateRefusal::UnsoundState(_)) => 12,
    }
}

#[tactic(auto, unfolding(crate::specs::Answers::expiry_paper))]
pub fn of_expiry(a: Result<(), StateRefusal>) -> u64
    ensures { result ≡ (expiry_paper a).number }
{
    match a {
        Ok(()) => 0,
        Err(StateRefusal::RevisionOverflow) => 8,
        Err(StateRefusal::UnsoundState(_)) => 12,
    }
}
