// Trees of active locks that are removed.
// SPDX-License-Identifier: Apache-2.0
ghost use Rattle.std.specs.Prelude.{Bool, map, ◌≡◌, ◌≤◌, length};
ghost use Rattle.std.specs.Fn.{FnReturnsAt};
ghost use Rattle.lists.specs.Places.{in_places};
ghost use Rattle.state.specs.Locks.{blank_active};
ghost use Rattle.operations.specs.Trees.{child_of, in_tree, tree_parts, start_parts, roots_parts};
ghost use Rattle.operations.specs.Code.{parts_in, Sorting, Low, Tells, lock_at, start_halves, take_halves, tree_halves, root_halves, halves_of, places_of};

use state::{ActiveLock, LockState};

// What stays, and what went, in the order of its going: places in the list that came in, so that each lock is moved once,
// at the end; the proofs speak so of the locks at them, too.
#[derive(Clone, Copy)]
pub(crate) struct Split<T> {
    pub left: usize,
    pub kept: [T; LockState::ACTIVE],
    pub gone: usize,
    pub removed: [T; LockState::ACTIVE],
}

fn child_of(r: ActiveLock, a: ActiveLock) -> bool
    ensures { result ≡ child_of r a }
{
    a.child & ids::same(a.parent, r.lock.id)
}

// Whether a goes with the root r.
pub(crate) fn in_tree(r: ActiveLock, a: ActiveLock) -> bool
    ensures { result ≡ in_tree r a }
{
    child_of(r, a) | lookups::narrow_of(r, a) | state::has_id(r.lock.id, a)
}

// One step: the places whose lock goes are listed, and those that stay are written into a fresh list.
fn take_out<F: Fn(&ActiveLock) -> bool>(
    s: &Split<usize>,
    locks: &[ActiveLock],
    goes: F,
) -> Split<usize>
    requires sorting { Sorting (length locks.now) s.now }
    requires callable { F.IsAlwaysCallable goes }
    ensures { (p : ActiveLock → Bool) → Tells (FnReturnsAt F.Fn goes) p → result ≡ places_of (take_halves (λ j. p (lock_at locks.now j)) (halves_of s.now)) }
{
    let mut kept = [0usize; LockState::ACTIVE];
    let mut left = 0;
    let mut removed = s.removed;
    let mut gone = s.gone;
    for &j in &s.kept[..s.left] {
        if goes(&locks[j]) {
            removed[gone] = j;
            gone += 1;
        } else {
            kept[left] = j;
            left += 1;
        }
    }
    Split {
        left,
        kept,
        gone,
        removed,
    }
}

// The tree of r goes: the children, then what a group covers, then the root.
fn cut_tree(s: &Split<usize>, locks: &[ActiveLock], r: &ActiveLock) -> Split<usize>
    requires { Sorting (length locks.now) s.now }
    ensures { result ≡ places_of (tree_halves locks.now r.now (halves_of s.now)) }
{
    let s = take_out(s, locks, |a| child_of(*r, *a));
    let s = take_out(&s, locks, |a| lookups::narrow_of(*r, *a));
    take_out(&s, locks, |a| state::has_id(r.lock.id, *a))
}

// A root that went with an earlier tree takes nothing with it.
fn root_out(s: &Split<usize>, locks: &[ActiveLock], r: &ActiveLock) -> Split<usize>
    requires { Sorting (length locks.now) s.now }
    ensures { result ≡ places_of (root_halves locks.now r.now (halves_of s.now)) }
{
    for &j in &s.kept[..s.left] {
        if state::has_id(r.lock.id, locks[j]) {
            return cut_tree(s, locks, r);
        }
    }
    *s
}

fn all_places(n: usize) -> Split<usize>
    requires { n ≤ 64 }
    ensures { result ≡ places_of (start_halves n) }
{
    let mut kept = [0usize; LockState::ACTIVE];
    for i in 0..n {
        kept[i] = i;
    }
    Split {
        left: n,
        kept,
        gone: 0,
        removed: [0; LockState::ACTIVE],
    }
}

fn locks_at(locks: &[ActiveLock], places: &[usize]) -> [ActiveLock; LockState::ACTIVE]
    requires { (length places.now ≤ 64) × Low (length locks.now) places.now }
    ensures { result ≡ in_places 64 blank_active (map (lock_at locks.now) places.now) }
{
    let mut out = [state::blank_active(); LockState::ACTIVE];
    for (i, &j) in places.iter().enumerate() {
        out[i] = locks[j];
    }
    out
}

// Within the one list that is held (02, C-14): those that go are read out of it first; then each place takes its lock, from
// itself or from a later place, and the places left over are blanked.
pub(crate) fn moved_down(
    s: &Split<usize>,
    locks: &mut [ActiveLock],
) -> [ActiveLock; LockState::ACTIVE]
    requires { Sorting (length locks.old) s.now × (length locks.old ≡ 64) }
    ensures kept { locks.new ≡ in_places 64 blank_active (map (lock_at locks.old) (halves_of s.now).kept) }
    ensures removed { result ≡ in_places 64 blank_active (map (lock_at locks.old) (halves_of s.now).gone) }
{
    let removed = locks_at(locks, &s.removed[..s.gone]);
    for i in 0..s.left {
        let a = locks[s.kept[i]];
        locks[i] = a;
    }
    let blank = state::blank_active();
    for i in s.left..LockState::ACTIVE {
        locks[i] = blank;
    }
    removed
}

// The places without the tree of r.
pub(crate) fn tree_out(locks: &[ActiveLock], r: &ActiveLock) -> Split<usize>
    requires { length locks.now ≤ 64 }
    ensures sorting { Sorting (length locks.now) result }
    ensures parts { parts_in locks.now (halves_of result) ≡ tree_parts r.now (start_parts locks.now) }
{
    cut_tree(&all_places(locks.len()), locks, r)
}

// The places without the trees of the listed roots, ascending, each from what then remains.
pub(crate) fn roots_out(locks: &[ActiveLock], list: &[u64]) -> Split<usize>
    requires { length locks.now ≤ 64 }
    ensures sorting { Sorting (length locks.now) result }
    ensures parts { parts_in locks.now (halves_of result) ≡ roots_parts list.now locks.now }
{
    let mut out = all_places(locks.len());
    for r in locks {
        if ids::listed(list, r.lock.id) {
            out = root_out(&out, locks, r);
        }
    }
    out
}
