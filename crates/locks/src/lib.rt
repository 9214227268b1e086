// Source document 001's functions over the lock state.
// SPDX-License-Identifier: Apache-2.0
#![tactic(auto)]

ghost use Rattle.std.specs.Prelude.{◌≡◌, not, Err};
ghost use Rattle.std.specs.List.{list_any};
ghost use Rattle.lists.specs.Lists.{find};
ghost use Rattle.state.specs.Locks.{is_vehicle, is_group, has_id_d};
ghost use Rattle.state.specs.Model.{model_of};
ghost use Rattle.lookups.specs.Reads.{on_sound};
ghost use Rattle.operations.specs.Answers.{rule_of};
ghost use Rattle.locks.specs.Locks.{response_of, vehicle_owner_on, has_non_vehicle_on, prepare_update_on, dropped, as_dropping, delete_defunct_on};
ghost use Rattle.locks.specs.Code.{judge_entry, judge_drop};
ghost use Rattle.locks.specs.declared.UpdateRefusal.TheVariants as update;
ghost use Rattle.locks.specs.declared.DroppingRefusal.TheVariants as dropping;

use ids::LockId;
use operations::answers::{Left, StateRefusal};
use rules::Unsound;
use state::{ActiveLock, DefunctLock, LockState, ScopeKey};

// The response class of a refusal number.
#[derive(Clone, Copy, PartialEq, Eq)]
pub enum Response {
    BadRequest,
    Conflict,
    InternalServerError,
    Forbidden,
}

// Why a runtime update may not begin.
#[derive(Clone, Copy, PartialEq, Eq)]
pub enum UpdateRefusal {
    UnsoundState(u8),
    FunctionalGroupLocksHeld,
    EcuLocksHeld,
}

// Why a defunct entry is not deleted.
#[derive(Clone, Copy, PartialEq, Eq)]
pub enum DroppingRefusal {
    RevisionOverflow,
    UnsoundState(u8),
    Forbidden,
}

// What a deletion tells: whether the entry was there, on that scope, and went. The state beside it is the one that is left.
pub type Dropped = Left<Result<bool, DroppingRefusal>>;

impl From<Unsound> for UpdateRefusal {
    ghost from_gives = { λ u e. e ≡ update.UnsoundState (rule_of u) };

    fn from(u: Unsound) -> UpdateRefusal {
        let Unsound::Rule(n) = u;
        UpdateRefusal::UnsoundState(n)
    }
}

impl From<Unsound> for DroppingRefusal {
    ghost from_gives = { λ u e. e ≡ dropping.UnsoundState (rule_of u) };

    fn from(u: Unsound) -> DroppingRefusal {
        let Unsound::Rule(n) = u;
        DroppingRefusal::UnsoundState(n)
    }
}

// The original's map_state_error, by numbers.
pub fn response_class(number: u64) -> Option<Response>
    ensures { result ≡ response_of number }
{
    match number {
        10 => Some(Response::BadRequest),
        2 | 6..=7 | 9 => Some(Response::Conflict),
        1 | 3..=5 | 8 | 11 => Some(Response::InternalServerError),
        26 => Some(Response::Forbidden),
        _ => None,
    }
}

pub fn vehicle_lock_owner_sub(s: LockState) -> Result<Option<u16>, Unsound>
    ensures { result ≡ vehicle_owner_on s }
{
    match lookups::reads::active_for_scope(s, ScopeKey::Vehicle)? {
        Some(a) => Ok(Some(a.lock.subject)),
        None => Ok(None),
    }
}

// A test of a line each, so not one function that takes it.
fn has_group(locks: &[ActiveLock]) -> bool
    ensures { result ≡ list_any (λ a. is_group a.lock.scope) locks.now }
{
    locks.iter().any(|a| state::is_group(a.lock.scope))
}

fn has_other(locks: &[ActiveLock]) -> bool
    ensures { result ≡ list_any (λ a. not (is_vehicle a.lock.scope)) locks.now }
{
    locks.iter().any(|a| !state::is_vehicle(a.lock.scope))
}

pub fn has_non_vehicle_locks(s: LockState) -> Result<bool, Unsound>
    ensures { result ≡ has_non_vehicle_on s }
{
    rules::broken(s)?;
    Ok(has_other(s.active_locks()))
}

// The generation is kept outside the state: a runtime update needs only vehicle locks, or none.
pub fn prepare_runtime_update(s: LockState, generation: u64) -> Result<u64, UpdateRefusal>
    ensures { result ≡ prepare_update_on s generation }
{
    rules::broken(s)?;
    if has_group(s.active_locks()) {
        return Err(UpdateRefusal::FunctionalGroupLocksHeld);
    }
    // no group's, so an ECU's
    if has_other(s.active_locks()) {
        return Err(UpdateRefusal::EcuLocksHeld);
    }
    Ok(generation.saturating_add(1))
}

fn judge_entry(d: DefunctLock, scope: ScopeKey, subject: u16) -> Result<bool, DroppingRefusal>
    ensures { result ≡ judge_entry scope subject d }
{
    if !state::same_scope(d.lock.scope, scope) {
        return Ok(false);
    }
    if d.lock.subject != subject {
        return Err(DroppingRefusal::Forbidden);
    }
    Ok(true)
}

// Whether the entry may go. The state is not tested yet, so a count past the limit is taken as the limit.
fn judge(s: &LockState, id: LockId, scope: ScopeKey, subject: u16) -> Result<bool, DroppingRefusal>
    ensures { result ≡ judge_drop scope subject (find (has_id_d id) (model_of s.now).defunct) }
{
    match s.find_defunct(id) {
        Some(d) => judge_entry(d, scope, subject),
        None => Ok(false),
    }
}

fn as_dropping(told: Result<bool, StateRefusal>) -> Result<bool, DroppingRefusal>
    ensures { result ≡ as_dropping told }
{
    match told {
        Ok(gone) => Ok(gone),
        Err(StateRefusal::RevisionOverflow) => Err(DroppingRefusal::RevisionOverflow),
        Err(StateRefusal::UnsoundState(n)) => Err(DroppingRefusal::UnsoundState(n)),
    }
}

// Nothing is deleted: 12 comes before what is told.
fn untouched(s: LockState, told: Result<bool, DroppingRefusal>) -> Dropped
    ensures { result ≡ on_sound s (λ rule. dropped (Err (dropping.UnsoundState rule)) s) (dropped told s) }
{
    match rules::broken(s) {
        Ok(()) => Left { told, state: s },
        Err(why) => Left {
            told: Err(DroppingRefusal::from(why)),
            state: s,
        },
    }
}

// The judgement comes first and the test after it, so that the state is tested once: an acknowledgement tests it itself.
pub fn delete_defunct(s: LockState, id: LockId, scope: ScopeKey, subject: u16) -> Dropped
    ensures { result ≡ delete_defunct_on s id scope subject }
{
    match judge(&s, id, scope, subject) {
        Ok(true) => {
            let r = operations::acknowledge::acknowledge_defunct(s, id);
            Left {
                told: as_dropping(r.told),
                state: r.state,
            }
        }
        Ok(false) => untouched(s, Ok(false)),
        Err(why) => untouched(s, Err(why)),
    }
}
