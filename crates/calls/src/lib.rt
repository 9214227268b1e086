// Every operation as one call: whoever guards, records or repeats operations does it around `perform`, not eight times.
// SPDX-License-Identifier: Apache-2.0
#![tactic(auto)]

ghost use Rattle.std.specs.Prelude.{◌≡◌};
ghost use Rattle.operations.specs.Insert.{insert_active_on};
ghost use Rattle.operations.specs.Vehicle.{insert_vehicle_on};
ghost use Rattle.operations.specs.Renew.{renew_on};
ghost use Rattle.operations.specs.Delete.{delete_on, begin_expiration_on};
ghost use Rattle.operations.specs.Replace.{commit_replacement_on};
ghost use Rattle.operations.specs.Acknowledge.{acknowledge_on, expire_defunct_on};
ghost use Rattle.calls.specs.declared.Outcome.TheVariants as O;
ghost use Rattle.calls.specs.Calls.{removing, plain, by_insert, by_renew, by_delete, by_expiration, by_replace, by_acknowledge, by_expiry, perform_on, outcome_paper};

use ids::LockId;
use operations::answers::{DeletionRefusal, Expiration, Refusal, RenewalRefusal, StateRefusal};
use operations::{acknowledge, delete, insert, insert_vehicle, numbers, renew, replace};
use records::requests::{ExpirationRequest, RenewRequest, ReplaceRequest, Request};
use state::{ActiveLock, LockState};

// What the operation answered.
#[derive(Clone, Copy, PartialEq, Eq)]
pub enum Outcome {
    Inserted(Result<(), Refusal>),
    VehicleInserted(Result<(), Refusal>),
    Renewed(Result<(), RenewalRefusal>),
    Deleted(Result<(), DeletionRefusal>),
    ExpirationBegun(Result<Expiration, StateRefusal>),
    Replaced(Result<(), Refusal>),
    Acknowledged(Result<bool, StateRefusal>),
    DefunctsExpired(Result<(), StateRefusal>),
}

// The removed locks stand in the first gone places, the ids of the defunct entries that expired in the first lapsed; blanks
// after them. The state is the one that the operation left, refused or not.
#[derive(Clone, Copy)]
pub struct Performed {
    pub outcome: Outcome,
    pub gone: usize,
    pub removed: [ActiveLock; LockState::ACTIVE],
    pub lapsed: usize,
    pub ids: [LockId; LockState::DEFUNCT],
    pub state: LockState,
}

fn removing(
    outcome: Outcome,
    gone: usize,
    removed: [ActiveLock; LockState::ACTIVE],
    state: LockState,
) -> Performed
    ensures { result ≡ removing outcome gone removed state }
{
    Performed {
        outcome,
        gone,
        removed,
        lapsed: 0,
        ids: [LockId { hi: 0, lo: 0 }; LockState::DEFUNCT],
        state,
    }
}

// Nothing was removed.
fn plain(outcome: Outcome, state: LockState) -> Performed
    ensures { result ≡ plain outcome state }
{
    let b = state::blank_active();
    removing(outcome, 0, [b; LockState::ACTIVE], state)
}

// ---- each operation in a function of its own, so that their results share one place on the stack
fn by_insert(state: LockState, lock: ActiveLock) -> Performed
    ensures { result ≡ by_insert O.Inserted (insert_active_on state lock) }
{
    let done = insert::insert_active(state, lock);
    plain(Outcome::Inserted(done.told), done.state)
}

fn by_vehicle(state: LockState, lock: ActiveLock, list: &[u64]) -> Performed
    ensures { result ≡ by_insert O.VehicleInserted (insert_vehicle_on state lock list.now) }
{
    let done = insert_vehicle::insert_vehicle(state, lock, list);
    plain(Outcome::VehicleInserted(done.told), done.state)
}

fn by_renew(state: LockState, asked: RenewRequest) -> Performed
    ensures { result ≡ by_renew (renew_on state asked.id asked.expires asked.now asked.given asked.metadata) }
{
    let done = renew::renew(
        state,
        asked.id,
        asked.expires,
        asked.now,
        asked.given,
        asked.metadata,
    );
    plain(Outcome::Renewed(done.told), done.state)
}

fn by_delete(state: LockState, id: LockId) -> Performed
    ensures { result ≡ by_delete (delete_on state id) }
{
    let done = delete::delete(state, id);
    let told = done.told;
    removing(
        Outcome::Deleted(told.answer),
        told.gone,
        told.removed,
        done.state,
    )
}

fn by_expiration(state: LockState, asked: ExpirationRequest) -> Performed
    ensures { result ≡ by_expiration (begin_expiration_on state asked.id asked.now) }
{
    let done = delete::begin_expiration(state, asked.id, asked.now);
    let told = done.told;
    removing(
        Outcome::ExpirationBegun(told.answer),
        told.gone,
        told.removed,
        done.state,
    )
}

fn by_replace(state: LockState, asked: ReplaceRequest, list: &[u64]) -> Performed
    ensures { result ≡ by_replace (commit_replacement_on state list.now asked.lock asked.breaker asked.broken) }
{
    let done = replace::commit_replacement(state, list, asked.lock, asked.breaker, asked.broken);
    let told = done.told;
    removing(
        Outcome::Replaced(told.answer),
        told.gone,
        told.removed,
        done.state,
    )
}

fn by_acknowledge(state: LockState, id: LockId) -> Performed
    ensures { result ≡ by_acknowledge (acknowledge_on state id) }
{
    let done = acknowledge::acknowledge_defunct(state, id);
    plain(Outcome::Acknowledged(done.told), done.state)
}

fn by_expiry(state: LockState, now: u64) -> Performed
    ensures { result ≡ by_expiry (expire_defunct_on state now) }
{
    let done = acknowledge::expire_defunct(state, now);
    let told = done.told;
    let ids = told.ids;
    let b = state::blank_active();
    Performed {
        outcome: Outcome::DefunctsExpired(told.answer),
        gone: 0,
        removed: [b; LockState::ACTIVE],
        lapsed: told.gone,
        ids,
        state: done.state,
    }
}

// The list holds the ids of the two requests that have some; the others don't read it.
#[tactic(auto, unfolding(crate::specs::Calls::perform_on))]
pub fn perform(state: LockState, request: Request, list: &[u64]) -> Performed
    ensures { result ≡ perform_on state request list.now }
{
    match request {
        Request::Insert(lock) => by_insert(state, lock),
        Request::InsertVehicle(lock) => by_vehicle(state, lock, list),
        Request::Renew(asked) => by_renew(state, asked),
        Request::Delete(id) => by_delete(state, id),
        Request::BeginExpiration(asked) => by_expiration(state, asked),
        Request::Replace(asked) => by_replace(state, asked, list),
        Request::Acknowledge(id) => by_acknowledge(state, id),
        Request::ExpireDefunct(now) => by_expiry(state, now),
    }
}

// Document 01's number of the answer.
#[tactic(auto, unfolding(crate::specs::Calls::outcome_paper))]
pub fn number(outcome: Outcome) -> u64
    ensures { result ≡ (outcome_paper outcome).number }
{
    match outcome {
        Outcome::Inserted(a) => numbers::of_answer(a),
        Outcome::VehicleInserted(a) => numbers::of_answer(a),
        Outcome::Renewed(a) => numbers::of_renewal(a),
        Outcome::Deleted(a) => numbers::of_deletion(a),
        Outcome::ExpirationBegun(a) => numbers::of_expiration(a),
        Outcome::Replaced(a) => numbers::of_answer(a),
        Outcome::Acknowledged(a) => numbers::of_acknowledgement(a),
        Outcome::DefunctsExpired(a) => numbers::of_expiry(a),
    }
}
