// insert_active: 12, 1, 2, 4, 5, 11.3, 11.4, 7, 8, 13; and what it shares with the other ways to put a lock in.
// SPDX-License-Identifier: Apache-2.0
#![tactic(auto, unfolding(crate::specs::Answers::refuse_if, crate::specs::Answers::and_then, crate::specs::Answers::is_done, lookups::specs::Reads::on_sound, crate::specs::Code::judge_bundled, crate::specs::Code::closing))]

ghost use Rattle.std.specs.Prelude.{◌≡◌, ◌≤◌, ◌<◌};
ghost use Rattle.state.specs.Model.{model_of, state_of, full};
ghost use Rattle.operations.specs.Checks.{last_revision};
ghost use Rattle.operations.specs.Insert.{inserted_in, judge_insert, insert_active_on};
ghost use Rattle.operations.specs.Code.{Ready, judge_bundled, on_tested, closing};

use crate::answers::{Inserted, Refusal};
use crate::{checks, defuncts, ordered};
use state::{ActiveLock, LockState};

// ---- the checks, and whether there is room for one lock more
fn judged(s: &LockState, new: ActiveLock) -> Result<(), Refusal>
    requires { (s.now.actives ≤ 64) × (s.now.defuncts ≤ 128) }
    ensures { result ≡ judge_bundled full (model_of s.now) new }
{
    let locks = s.active_locks();
    checks::check_id(locks, s.defunct_locks(), new)?;
    checks::check_insert(locks, new)?;
    checks::check_revision(s.revision)?;
    checks::check_room(locks.len())
}

// What refuses the lock: 12, then the checks.
fn allowed(s: &LockState, new: ActiveLock) -> Result<(), Refusal>
    ensures { result ≡ on_tested s.now (judge_insert full (model_of s.now) new) }
{
    rules::broken(*s)?;
    judged(s, new)
}

// ---- the change
// The lock is put in at its place, and the entries that it covers go.
pub(crate) fn inserted(s: &mut LockState, new: ActiveLock)
    requires { Ready s.old × (s.old.actives < 64) × (s.old.revision ≡ last_revision → ⊥) }
    ensures { s.new ≡ state_of (inserted_in (model_of s.old) new) }
{
    let n = s.actives + 1;
    ordered::put_in(&mut s.active[..n], new);
    s.actives = n;
    s.revision += 1;
    defuncts::shed_in(s, |d| defuncts::is_superseded(new, *d));
}

// The state that comes of a change is tested, as the original's validate_invariants does: the closing check.
pub(crate) fn closed(next: &LockState) -> Result<(), Refusal>
    ensures { result ≡ closing next.now }
{
    if rules::broken(*next).is_err() {
        return Err(Refusal::Invariant);
    }
    Ok(())
}

pub fn insert_active(mut s: LockState, lock: ActiveLock) -> Inserted
    ensures { result ≡ insert_active_on s lock }
{
    let new = state::normal_form(lock);
    let mut told = allowed(&s, new);
    if told.is_ok() {
        let mut next = s;
        inserted(&mut next, new);
        told = closed(&next);
        if told.is_ok() {
            s = next;
        }
    }
    Inserted { told, state: s }
}
