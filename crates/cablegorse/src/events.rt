// What a step over the feed tells, as number and values. The numbers are feed's.
// SPDX-License-Identifier: Apache-2.0
ghost use Rattle.std.specs.Prelude.{◌≡◌, Err};
ghost use Rattle.lists.specs.Papers.{paper};
ghost use Rattle.lookups.specs.Papers.{id_values};
ghost use Rattle.operations.specs.Answers.{spot_values, paper_of, renewal_paper, deletion_paper, expiration_paper, acknowledgement_paper, expiry_paper};
ghost use Rattle.calls.specs.Calls.{outcome_paper};
ghost use Rattle.feed.specs.Feed.{event_paper};
ghost use Rattle.cablegorse.specs.Telling.{told_of};

use crate::Told;
use calls::Outcome;
use feed::events::FeedRefusal;
use feed::numbers;
use ids::LockId;
use operations::answers::{DeletionRefusal, Expiration, Refusal, RenewalRefusal, StateRefusal};

// ---- the values of each kind of answer, beside the number that is given
fn of_conflict(n: u32, id: LockId, at: Option<u8>) -> Told
    ensures { result ≡ told_of (paper n (id_values id (spot_values at))) }
{
    match at {
        None => Told::new(n, &[id.hi, id.lo, 0, 0]),
        Some(e) => Told::new(n, &[id.hi, id.lo, 1, e as u64]),
    }
}

#[tactic(auto, unfolding(operations::specs::Answers::paper_of))]
fn of_answer(n: u32, a: Result<(), Refusal>) -> Told
    ensures { result ≡ told_of (paper n (paper_of a).values) }
{
    match a {
        Ok(()) => Told::new(n, &[]),
        Err(Refusal::DuplicateId(i)) => Told::new(n, &[i.hi, i.lo]),
        Err(Refusal::DuplicateScope) => Told::new(n, &[]),
        Err(Refusal::ActiveLockNotFound(i)) => Told::new(n, &[i.hi, i.lo]),
        Err(Refusal::ParentNotFound(i)) => Told::new(n, &[i.hi, i.lo]),
        Err(Refusal::ParentNotVehicle(i)) => Told::new(n, &[i.hi, i.lo]),
        Err(Refusal::ReplacementScopeConflict) => Told::new(n, &[]),
        Err(Refusal::CoverageConflict(i, at)) => of_conflict(n, i, at),
        Err(Refusal::RevisionOverflow) => Told::new(n, &[]),
        Err(Refusal::NotRootVehicle) => Told::new(n, &[1]),
        Err(Refusal::BadChild(i)) => Told::new(n, &[2, i.hi, i.lo]),
        Err(Refusal::OtherOwner(i, j)) => Told::new(n, &[3, i.hi, i.lo, j.hi, j.lo]),
        Err(Refusal::NotCovered(i, j)) => Told::new(n, &[4, i.hi, i.lo, j.hi, j.lo]),
        Err(Refusal::Invariant) => Told::new(n, &[0]),
        Err(Refusal::UnsoundState(x)) => Told::new(n, &[x as u64]),
        Err(Refusal::NoRoom) => Told::new(n, &[]),
        Err(Refusal::BadList) => Told::new(n, &[]),
    }
}

#[tactic(auto, unfolding(operations::specs::Answers::renewal_paper))]
fn of_renewal(n: u32, a: Result<(), RenewalRefusal>) -> Told
    ensures { result ≡ told_of (paper n (renewal_paper a).values) }
{
    match a {
        Ok(()) => Told::new(n, &[]),
        Err(RenewalRefusal::ActiveLockNotFound(i)) => Told::new(n, &[i.hi, i.lo]),
        Err(RenewalRefusal::RevisionOverflow) => Told::new(n, &[]),
        Err(RenewalRefusal::LockExpired) => Told::new(n, &[]),
        Err(RenewalRefusal::RenewalNotExtension) => Told::new(n, &[]),
        Err(RenewalRefusal::UnsoundState(x)) => Told::new(n, &[x as u64]),
    }
}

#[tactic(auto, unfolding(operations::specs::Answers::deletion_paper))]
fn of_deletion(n: u32, a: Result<(), DeletionRefusal>) -> Told
    ensures { result ≡ told_of (paper n (deletion_paper a).values) }
{
    match a {
        Ok(()) => Told::new(n, &[]),
        Err(DeletionRefusal::ActiveLockNotFound(i)) => Told::new(n, &[i.hi, i.lo]),
        Err(DeletionRefusal::RevisionOverflow) => Told::new(n, &[]),
        Err(DeletionRefusal::UnsoundState(x)) => Told::new(n, &[x as u64]),
    }
}

#[tactic(auto, unfolding(operations::specs::Answers::expiration_paper))]
fn of_expiration(n: u32, a: Result<Expiration, StateRefusal>) -> Told
    ensures { result ≡ told_of (paper n (expiration_paper a).values) }
{
    match a {
        Ok(Expiration::Done) => Told::new(n, &[0]),
        Ok(Expiration::Stale) => Told::new(n, &[1]),
        Ok(Expiration::NotDue(time)) => Told::new(n, &[2, time]),
        Err(StateRefusal::RevisionOverflow) => Told::new(n, &[]),
        Err(StateRefusal::UnsoundState(x)) => Told::new(n, &[x as u64]),
    }
}

#[tactic(auto, unfolding(operations::specs::Answers::acknowledgement_paper))]
fn of_acknowledgement(n: u32, a: Result<bool, StateRefusal>) -> Told
    ensures { result ≡ told_of (paper n (acknowledgement_paper a).values) }
{
    match a {
        Ok(true) => Told::new(n, &[1]),
        Ok(false) => Told::new(n, &[0]),
        Err(StateRefusal::RevisionOverflow) => Told::new(n, &[]),
        Err(StateRefusal::UnsoundState(x)) => Told::new(n, &[x as u64]),
    }
}

#[tactic(auto, unfolding(operations::specs::Answers::expiry_paper))]
fn of_expiry(n: u32, a: Result<(), StateRefusal>) -> Told
    ensures { result ≡ told_of (paper n (expiry_paper a).values) }
{
    match a {
        Ok(()) => Told::new(n, &[]),
        Err(StateRefusal::RevisionOverflow) => Told::new(n, &[]),
        Err(StateRefusal::UnsoundState(x)) => Told::new(n, &[x as u64]),
    }
}

// ---- what the operation answered
#[tactic(auto, unfolding(calls::specs::Calls::outcome_paper))]
fn of_outcome(n: u32, outcome: Outcome) -> Told
    ensures { result ≡ told_of (paper n (outcome_paper outcome).values) }
{
    match outcome {
        Outcome::Inserted(a) => of_answer(n, a),
        Outcome::VehicleInserted(a) => of_answer(n, a),
        Outcome::Renewed(a) => of_renewal(n, a),
        Outcome::Deleted(a) => of_deletion(n, a),
        Outcome::ExpirationBegun(a) => of_expiration(n, a),
        Outcome::Replaced(a) => of_answer(n, a),
        Outcome::Acknowledged(a) => of_acknowledgement(n, a),
        Outcome::DefunctsExpired(a) => of_expiry(n, a),
    }
}

// ---- the event
#[tactic(auto, unfolding(feed::specs::Feed::event_paper))]
fn of_refusal(n: u32, why: FeedRefusal) -> Told
    ensures { result ≡ told_of (paper n (event_paper (Err why)).values) }
{
    match why {
        FeedRefusal::UnsoundState(x) => Told::new(n, &[x as u64]),
        FeedRefusal::Torn(x) => Told::new(n, &[x as u64]),
        FeedRefusal::BadKind(x) => Told::new(n, &[x as u64]),
        FeedRefusal::BadField(x) => Told::new(n, &[x as u64]),
        FeedRefusal::Repeat(x) => Told::new(n, &[x as u64]),
        FeedRefusal::Ahead(x) => Told::new(n, &[x as u64]),
    }
}

impl From<Result<Outcome, FeedRefusal>> for Told {
    ghost from_gives = { λ e t. t ≡ told_of (event_paper e) };

    fn from(e: Result<Outcome, FeedRefusal>) -> Told {
        let n = numbers::number(e) as u32;
        match e {
            Err(why) => of_refusal(n, why),
            Ok(outcome) => of_outcome(n, outcome),
        }
    }
}
