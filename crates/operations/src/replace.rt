// commit_replacement: 12, 14, 3 lowest, 1, 6; the trees out, entered as defunct; 2, 4, 5, 11.3, 11.4, 7, 8, lowest adopted
// 11.4, 13.
// SPDX-License-Identifier: Apache-2.0
#![tactic(auto, using(lists::proofs::Tests::codes), unfolding(crate::specs::Answers::refuse_if, crate::specs::Answers::and_then, crate::specs::Answers::is_done, lookups::specs::Reads::on_sound, crate::specs::Code::check_entry, crate::specs::Replace::orphan))]

ghost use Rattle.std.specs.Prelude.{map, ◌≡◌, ◌<◌, length, take};
ghost use Rattle.lists.specs.Lists.{filter, insert_by};
ghost use Rattle.lists.specs.Places.{in_places};
ghost use Rattle.state.specs.Locks.{akey, blank_active};
ghost use Rattle.state.specs.Model.{model_of};
ghost use Rattle.operations.specs.Answers.{and_then, first_refusal};
ghost use Rattle.operations.specs.Checks.{check_list, check_revision, check_child};
ghost use Rattle.operations.specs.Vehicle.{adopt};
ghost use Rattle.operations.specs.Replace.{orphan, commit_replacement_on};
ghost use Rattle.operations.specs.Code.{Placed, check_insert, check_entry, on_tested, replaced_or};

use crate::answers::{Refusal, Removing, Replaced, Replacement};
use crate::{checks, entering, insert, insert_vehicle, ordered, trees};
use state::{ActiveLock, LockState};

// What is judged on the state at entry: 12, 14, 3, 1, 6.
fn judged_entry(s: &LockState, list: &[u64], new: ActiveLock) -> Result<(), Refusal>
    ensures { result ≡ on_tested s.now (and_then (check_list list.now) (check_entry (model_of s.now).active (model_of s.now).defunct list.now new)) }
{
    rules::broken(*s)?;
    let locks = s.active_locks();
    checks::check_list(list)?;
    checks::check_ids(locks, list, false)?;
    checks::check_id(locks, s.defunct_locks(), new)?;
    checks::check_holder(locks, list, new)
}

// ---- a vehicle lock takes in every other parentless lock of its subject
fn is_orphan(new: ActiveLock, a: ActiveLock) -> bool
    ensures { result ≡ orphan new a }
{
    let lock = new.lock;
    let scope = lock.scope;
    state::is_vehicle(scope)
        & !state::has_id(new.lock.id, a)
        & !a.child
        & (a.lock.subject == new.lock.subject)
}

// What is judged on the locks that stay: 2, 4, 5, 11.3, 11.4, 7, 8, 11.4 of those taken in.
fn judged_left(revision: u64, locks: &[ActiveLock], new: ActiveLock) -> Result<(), Refusal>
    ensures { result ≡ and_then (check_insert locks.now new) (and_then (check_revision revision) (first_refusal (check_child new) (filter (orphan new) locks.now))) }
{
    checks::check_insert(locks, new)?;
    checks::check_revision(revision)?;
    for a in locks {
        if is_orphan(new, *a) {
            checks::check_child(new, *a)?;
        }
    }
    Ok(())
}

// The new lock among those that stay, which become its children where it takes them in.
fn joined(
    mut locks: [ActiveLock; LockState::ACTIVE],
    n: usize,
    new: ActiveLock,
) -> [ActiveLock; LockState::ACTIVE]
    requires { Placed locks n × (n < 64) }
    ensures { result ≡ in_places 64 blank_active (insert_by akey new (map (adopt (orphan new) new) (take n locks))) }
{
    insert_vehicle::taken_in(&mut locks[..n], new, |a| is_orphan(new, *a));
    ordered::put_in(&mut locks[..n + 1], new);
    locks
}

// The next state, and the locks that went, where nothing refuses.
fn replaced(
    s: &LockState,
    list: &[u64],
    lock: ActiveLock,
    by: u32,
    at: u64,
) -> Result<Replaced, Refusal>
    requires { (length s.now.active ≡ 64) × (length s.now.defunct ≡ 128) }
    ensures { replaced_or s.now result ≡ commit_replacement_on s.now list.now lock by at }
{
    let new = state::normal_form(lock);
    judged_entry(s, list, new)?;
    let cut = trees::roots_out(s.active_locks(), list);
    // the one copy of the list: a refusal leaves the state as it was
    let mut kept = s.active;
    let removed = trees::moved_down(&cut, &mut kept);
    let n = cut.left;
    judged_left(s.revision, &kept[..n], new)?;
    let entries = s.defunct;
    let table = entering::entered(entries, s.defuncts, removed, cut.gone, new, by, at);
    if (n == LockState::ACTIVE) | (LockState::DEFUNCT < table.count) {
        return Err(Refusal::NoRoom);
    }
    let active = joined(kept, n, new);
    let defunct = table.list;
    let next = LockState {
        revision: s.revision + 1,
        active,
        actives: n + 1,
        defunct,
        defuncts: table.count,
    };
    insert::closed(&next)?;
    Ok(Replaced {
        told: Replacement {
            answer: Ok(()),
            gone: cut.gone,
            removed,
        },
        state: next,
    })
}

pub fn commit_replacement(
    s: LockState,
    list: &[u64],
    lock: ActiveLock,
    by: u32,
    at: u64,
) -> Replaced
    ensures { result ≡ commit_replacement_on s list.now lock by at }
{
    match replaced(&s, list, lock, by, at) {
        Ok(done) => done,
        Err(refusal) => Replaced {
            told: Removing::nothing(Err(refusal)),
            state: s,
        },
    }
}
