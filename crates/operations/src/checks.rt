// The checks of insertions and of a replacement, in the order of specs/Checks.antt, each with the number that it refuses
// by.
// SPDX-License-Identifier: Apache-2.0
#![tactic(auto, using(lists::proofs::Tests::codes, lists::proofs::Std::any_std), unfolding(crate::specs::Answers::refuse_if, crate::specs::Answers::and_then, crate::specs::Answers::is_done, crate::specs::Checks::check_list, crate::specs::Checks::check_id, crate::specs::Checks::check_scope, crate::specs::Checks::check_clear, crate::specs::Checks::conflicts, crate::specs::Checks::at_last_lem, crate::specs::Checks::check_revision, crate::specs::Checks::check_root, crate::specs::Checks::missing, crate::specs::Checks::check_active, crate::specs::Checks::settled_lock, crate::specs::Checks::check_free, crate::specs::Checks::check_listed, crate::specs::Checks::check_owner, crate::specs::Checks::check_cover, crate::specs::Checks::check_child, crate::specs::Checks::check_holder, crate::specs::Code::check_parent, crate::specs::Code::check_nesting, crate::specs::Code::check_insert, crate::specs::Code::check_named, crate::specs::Code::is_lower))]

ghost use Rattle.std.specs.Prelude.{◌≡◌, eqb, not, ◌&&◌};
ghost use Rattle.std.specs.List.{list_any};
ghost use Rattle.lists.specs.Lists.{find, filter};
ghost use Rattle.lists.specs.Tests.{Yes};
ghost use Rattle.ids.specs.Words.{ascending_ids};
ghost use Rattle.state.specs.Locks.{has_id, has_id_d};
ghost use Rattle.lookups.specs.Reads.{on_scope};
ghost use Rattle.std.specs.Prelude.{Ok, Err};
ghost use Rattle.operations.specs.declared.answers.Refusal.TheVariants.{DuplicateId, DuplicateScope, ActiveLockNotFound, ParentNotFound, ParentNotVehicle, ReplacementScopeConflict, CoverageConflict, RevisionOverflow, NotRootVehicle, BadChild, OtherOwner, NotCovered, NoRoom, BadList};
ghost use Rattle.operations.specs.Answers.{refuse_if, first_refusal};
ghost use Rattle.operations.specs.Trees.{in_tree, is_listed};
ghost use Rattle.operations.specs.Checks.{check_list, check_id, check_scope, conflicts, conflict_with, check_clear, check_revision, check_root, settled_lock, check_active, check_listed, check_child, check_holder};
ghost use Rattle.operations.specs.Code.{check_parent, check_nesting, check_insert, check_named, is_lower};

use crate::answers::Refusal;
use crate::trees;
use ids::LockId;
use state::{ActiveLock, DefunctLock, LockState, ScopeKey};

// ---- 14
pub(crate) fn check_list(list: &[u64]) -> Result<(), Refusal>
    ensures { result ≡ check_list list.now }
{
    if ids::is_odd(list) {
        return Err(Refusal::BadList);
    }
    Ok(())
}

// ---- 1
// A chain each, of either kind of lock: one function that takes the test would be no shorter.
fn id_active(locks: &[ActiveLock], id: LockId) -> bool
    ensures { result ≡ list_any (has_id id) locks.now }
{
    locks.iter().any(|a| state::has_id(id, *a))
}

fn id_defunct(entries: &[DefunctLock], id: LockId) -> bool
    ensures { result ≡ list_any (has_id_d id) entries.now }
{
    entries.iter().any(|d| state::has_id_defunct(id, *d))
}

pub(crate) fn check_id(
    locks: &[ActiveLock],
    entries: &[DefunctLock],
    new: ActiveLock,
) -> Result<(), Refusal>
    ensures { result ≡ check_id locks.now entries.now new }
{
    let id = new.lock.id;
    if id_active(locks, id) | id_defunct(entries, id) {
        return Err(Refusal::DuplicateId(id));
    }
    Ok(())
}

// ---- 2
fn is_held(locks: &[ActiveLock], scope: ScopeKey) -> bool
    ensures { result ≡ list_any (on_scope scope) locks.now }
{
    locks.iter().any(|a| lookups::on_scope(scope, *a))
}

pub(crate) fn check_scope(locks: &[ActiveLock], new: ActiveLock) -> Result<(), Refusal>
    ensures { result ≡ check_scope locks.now new }
{
    if is_held(locks, new.lock.scope) {
        return Err(Refusal::DuplicateScope);
    }
    Ok(())
}

// ---- 5, 11.3, 11.4
fn check_parent(new: ActiveLock, parent: ActiveLock) -> Result<(), Refusal>
    ensures { result ≡ check_parent new parent }
{
    let up = new.parent;
    let id = new.lock.id;
    if !state::is_vehicle(parent.lock.scope) {
        return Err(Refusal::ParentNotVehicle(up));
    }
    if parent.lock.subject != new.lock.subject {
        return Err(Refusal::OtherOwner(id, up));
    }
    if !parent.lock.coverage.contains(new.lock.coverage) {
        return Err(Refusal::NotCovered(id, up));
    }
    Ok(())
}

// The lock with this id.
pub(crate) fn lock_with(locks: &[ActiveLock], id: LockId) -> Option<ActiveLock>
    ensures { result ≡ find (has_id id) locks.now }
{
    locks.iter().copied().find(|a| state::has_id(id, *a))
}

// ---- 4, and then
fn check_nesting(locks: &[ActiveLock], new: ActiveLock) -> Result<(), Refusal>
    ensures { result ≡ check_nesting locks.now new }
{
    if !new.child {
        return Ok(());
    }
    match lock_with(locks, new.parent) {
        None => Err(Refusal::ParentNotFound(new.parent)),
        Some(parent) => check_parent(new, parent),
    }
}

// ---- 7
fn in_conflict(new: ActiveLock, a: ActiveLock) -> bool
    ensures { result ≡ conflicts new a }
{
    a.lock.coverage.meets(new.lock.coverage)
        & (a.lock.subject != new.lock.subject)
        & !state::is_vehicle(new.lock.scope)
}

// A lock that the new one conflicts with, and where the two meet. Locks in conflict overlap, so `None` can't come.
fn conflict_with(new: ActiveLock, a: ActiveLock) -> Result<(), Refusal>
    requires { Yes (conflicts new a) }
    ensures { result ≡ conflict_with new a }
{
    match a.lock.coverage.overlaps(new.lock.coverage) {
        None => Ok(()),
        Some(at) => Err(Refusal::CoverageConflict(a.lock.id, at)),
    }
}

// The first lock that the new one conflicts with, which has the lowest id.
fn clash(locks: &[ActiveLock], new: ActiveLock) -> Option<ActiveLock>
    ensures { result ≡ find (conflicts new) locks.now }
{
    locks.iter().copied().find(|a| in_conflict(new, *a))
}

fn check_clear(locks: &[ActiveLock], new: ActiveLock) -> Result<(), Refusal>
    ensures { result ≡ check_clear locks.now new }
{
    match clash(locks, new) {
        None => Ok(()),
        Some(other) => conflict_with(new, other),
    }
}

// ---- 2, 4, 5, 11.3, 11.4, 7
pub(crate) fn check_insert(locks: &[ActiveLock], new: ActiveLock) -> Result<(), Refusal>
    ensures { result ≡ check_insert locks.now new }
{
    check_scope(locks, new)?;
    check_nesting(locks, new)?;
    check_clear(locks, new)
}

// ---- 8
pub(crate) fn check_revision(revision: u64) -> Result<(), Refusal>
    ensures { result ≡ check_revision revision }
{
    if revision == u64::MAX {
        return Err(Refusal::RevisionOverflow);
    }
    Ok(())
}

// ---- 13: an insertion adds one active lock and only sheds defunct ones
pub(crate) fn check_room(n: usize) -> Result<(), Refusal>
    ensures { result ≡ refuse_if (eqb n 64) (Err NoRoom) (Ok tt) }
{
    if n == LockState::ACTIVE {
        return Err(Refusal::NoRoom);
    }
    Ok(())
}

// ---- 11.1
pub(crate) fn check_root(new: ActiveLock) -> Result<(), Refusal>
    ensures { result ≡ check_root new }
{
    if !state::is_vehicle(new.lock.scope) | new.child {
        return Err(Refusal::NotRootVehicle);
    }
    Ok(())
}

// ---- 3
fn check_active(locks: &[ActiveLock], id: LockId) -> Result<(), Refusal>
    ensures { result ≡ check_active locks.now id }
{
    if id_active(locks, id) {
        return Ok(());
    }
    Err(Refusal::ActiveLockNotFound(id))
}

fn is_settled(a: ActiveLock) -> bool
    ensures { result ≡ settled_lock a }
{
    state::is_vehicle(a.lock.scope) | a.child
}

fn is_stuck(locks: &[ActiveLock], id: LockId) -> bool
    ensures { result ≡ list_any (λ a. has_id id a && settled_lock a) locks.now }
{
    locks
        .iter()
        .any(|a| state::has_id(id, *a) && is_settled(*a))
}

// ---- 3, 11.2
fn check_listed(locks: &[ActiveLock], id: LockId) -> Result<(), Refusal>
    ensures { result ≡ check_listed locks.now id }
{
    check_active(locks, id)?;
    if is_stuck(locks, id) {
        return Err(Refusal::BadChild(id));
    }
    Ok(())
}

// An id that names a child, or a root.
fn check_named(locks: &[ActiveLock], id: LockId, child: bool) -> Result<(), Refusal>
    ensures { result ≡ check_named child locks.now id }
{
    if child {
        return check_listed(locks, id);
    }
    check_active(locks, id)
}

fn is_lower(id: LockId, lowest: Option<LockId>) -> bool
    ensures { result ≡ is_lower id lowest }
{
    match lowest {
        None => true,
        Some(low) => ids::less(id, low),
    }
}

// Of the listed ids the lowest that is refused. A list need not be sorted and may repeat an id.
pub(crate) fn check_ids(locks: &[ActiveLock], list: &[u64], child: bool) -> Result<(), Refusal>
    ensures { result ≡ first_refusal (check_named child locks.now) (ascending_ids list.now) }
{
    let words = list.len();
    let mut lowest = None;
    let mut j: usize = 0;
    while 1 < words - j {
        let id = LockId {
            hi: list[j],
            lo: list[j + 1],
        };
        j += 2;
        if is_lower(id, lowest) {
            let told = check_named(locks, id, child);
            if told.is_err() {
                lowest = Some(id);
            }
        }
    }
    match lowest {
        None => Ok(()),
        Some(id) => check_named(locks, id, child),
    }
}

// ---- 11.3, 11.4 of one lock that the new vehicle lock takes in
pub(crate) fn check_child(new: ActiveLock, child: ActiveLock) -> Result<(), Refusal>
    ensures { result ≡ check_child new child }
{
    let id = child.lock.id;
    let up = new.lock.id;
    if new.lock.subject != child.lock.subject {
        return Err(Refusal::OtherOwner(id, up));
    }
    if !new.lock.coverage.contains(child.lock.coverage) {
        return Err(Refusal::NotCovered(id, up));
    }
    Ok(())
}

// Of the listed locks the first that is refused.
pub(crate) fn check_taken(
    locks: &[ActiveLock],
    list: &[u64],
    new: ActiveLock,
) -> Result<(), Refusal>
    ensures { result ≡ first_refusal (check_child new) (filter (is_listed list.now) locks.now) }
{
    for a in locks {
        if ids::listed(list, a.lock.id) {
            check_child(new, *a)?;
        }
    }
    Ok(())
}

// ---- 6
// Whether the lock is in the tree of a listed root.
fn in_trees(locks: &[ActiveLock], list: &[u64], a: ActiveLock) -> bool
    ensures { result ≡ list_any (λ r. in_tree r a && is_listed list.now r) locks.now }
{
    locks
        .iter()
        .any(|r| trees::in_tree(*r, a) && ids::listed(list, r.lock.id))
}

// Whether a holder of the scope is outside the trees.
fn held_outside(locks: &[ActiveLock], list: &[u64], new: ActiveLock) -> bool
    ensures { result ≡ list_any (λ a. on_scope new.lock.scope a && not (list_any (λ r. in_tree r a && is_listed list.now r) locks.now)) locks.now }
{
    locks.iter().any(|a| lookups::on_scope(new.lock.scope, *a) && !in_trees(locks, list, *a))
}

pub(crate) fn check_holder(
    locks: &[ActiveLock],
    list: &[u64],
    new: ActiveLock,
) -> Result<(), Refusal>
    ensures { result ≡ check_holder locks.now list.now new }
{
    if held_outside(locks, list, new) {
        return Err(Refusal::ReplacementScopeConflict);
    }
    Ok(())
}
