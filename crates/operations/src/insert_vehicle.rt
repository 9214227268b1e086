// insert_vehicle: 12, 14, 11.1, then the listed children (3, 11.2), 1, 2, 8, the lowest child with 11.3 before 11.4, 13.
// SPDX-License-Identifier: Apache-2.0
#![tactic(auto, unfolding(crate::specs::Answers::refuse_if, crate::specs::Answers::and_then, crate::specs::Answers::is_done, lookups::specs::Reads::on_sound, crate::specs::Vehicle::judge_vehicle, crate::specs::Vehicle::nest, crate::specs::Vehicle::adopt))]

ghost use Rattle.std.specs.Prelude.{Bool, map, ◌≡◌};
ghost use Rattle.std.specs.Fn.{FnReturnsAt};
ghost use Rattle.state.specs.Model.{model_of, full};
ghost use Rattle.operations.specs.Trees.{is_listed};
ghost use Rattle.operations.specs.Vehicle.{nest, adopt, judge_vehicle, insert_vehicle_on};
ghost use Rattle.operations.specs.Code.{on_tested, Tells};

use crate::answers::{Inserted, Refusal};
use crate::{checks, insert};
use state::{ActiveLock, LockState};

// What refuses the lock: 12, then the checks.
fn allowed(s: &LockState, new: ActiveLock, list: &[u64]) -> Result<(), Refusal>
    ensures { result ≡ on_tested s.now (judge_vehicle full (model_of s.now) new list.now) }
{
    rules::broken(*s)?;
    let locks = s.active_locks();
    checks::check_list(list)?;
    checks::check_root(new)?;
    checks::check_ids(locks, list, true)?;
    checks::check_id(locks, s.defunct_locks(), new)?;
    checks::check_scope(locks, new)?;
    checks::check_revision(s.revision)?;
    checks::check_taken(locks, list, new)?;
    checks::check_room(locks.len())
}

// ---- the change
pub(crate) fn nested(new: ActiveLock, a: ActiveLock) -> ActiveLock
    ensures { result ≡ nest new a }
{
    ActiveLock {
        parent: new.lock.id,
        child: true,
        ..a
    }
}

// Those that the test picks become its children.
pub(crate) fn taken_in<F: Fn(&ActiveLock) -> bool>(
    locks: &mut [ActiveLock],
    new: ActiveLock,
    takes: F,
)
    requires { F.IsAlwaysCallable takes }
    ensures { (p : ActiveLock → Bool) → Tells (FnReturnsAt F.Fn takes) p → locks.new ≡ map (adopt p new) locks.old }
{
    for a in locks.iter_mut() {
        if takes(a) {
            *a = nested(new, *a);
        }
    }
}

pub fn insert_vehicle(mut s: LockState, lock: ActiveLock, list: &[u64]) -> Inserted
    ensures { result ≡ insert_vehicle_on s lock list.now }
{
    let new = state::normal_form(lock);
    let mut told = allowed(&s, new, list);
    if told.is_ok() {
        let mut locks = s.active;
        taken_in(
            &mut locks[..s.actives],
            new,
            |a| ids::listed(list, a.lock.id),
        );
        let mut next = s;
        next.active = locks;
        insert::inserted(&mut next, new);
        told = insert::closed(&next);
        if told.is_ok() {
            s = next;
        }
    }
    Inserted { told, state: s }
}
