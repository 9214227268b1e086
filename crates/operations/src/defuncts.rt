// Defunct entries that go.
// SPDX-License-Identifier: Apache-2.0
ghost use Rattle.std.specs.Prelude.{List, ◌≡◌, ℕ, ◌≤◌, length, map, None};
ghost use Rattle.std.specs.Prelude.{Bool};
ghost use Rattle.std.specs.Fn.{FnReturnsAt};
ghost use Rattle.lists.specs.Tests.{Yes};
ghost use Rattle.lists.specs.Lists.{filter, ascending};
ghost use Rattle.lists.specs.Places.{Holds};
ghost use Rattle.state.specs.Locks.{dkey, blank_defunct};
ghost use Rattle.state.specs.Model.{model_of};
ghost use Rattle.operations.specs.Defuncts.{remove_all, superseded};
ghost use Rattle.operations.specs.Code.{took_over, gone_key, left_by, entry_at, last_from, landed, Led, Ready, Settled, Tells, with_entries};

use crate::ordered;
use ids::LockId;
use rules::rows::Keyed;
use state::{ActiveLock, DefunctLock, LockState};

// Room for every defunct entry, and for every active lock beside them.
pub(crate) const PLACES: usize = LockState::ACTIVE + LockState::DEFUNCT;

// The entries in the first places, ascending by id; blanks after them. What the laws of an array with that room are about.
#[derive(Clone, Copy)]
pub(crate) struct Table {
    pub count: usize,
    pub entries: [DefunctLock; PLACES],
}

// ---- entries that go
// An entry that pointed at e.
pub(crate) fn took_over(e: DefunctLock, d: DefunctLock) -> DefunctLock
    ensures { result ≡ took_over e d }
{
    let lock = d.lock;
    let target = e.target;
    DefunctLock {
        lock: lock,
        target: target,
        expires: d.expires,
        broken: d.broken,
        breaker: d.breaker,
        holder: e.holder,
    }
}

pub(crate) fn is_superseded(new: ActiveLock, d: DefunctLock) -> bool
    ensures { result ≡ superseded new d }
{
    let lock = new.lock;
    let scope = lock.scope;
    let coverage = lock.coverage;
    (d.lock.subject == lock.subject) & lookups::covers_defunct(scope, coverage, d)
}

// ---- entries that go, within their list
// What an entry that goes leaves to those that point at it.
#[derive(Clone, Copy)]
struct Gone {
    id: LockId,
    target: LockId,
    holder: u16,
}

impl Keyed for Gone {
    ghost row_key = { gone_key };

    fn id(&self) -> LockId {
        self.id
    }
}

// For each the place that its target has among them; their number where it has none.
fn steps(gone: &[Gone]) -> [usize; LockState::DEFUNCT]
    requires { length gone.now ≤ 128 }
    ensures { (length result ≡ 128) × ((l : List DefunctLock) → gone.now ≡ map left_by l → Yes (ascending dkey l) → Led l (length l) result) }
{
    let mut out = [0usize; LockState::DEFUNCT];
    for (i, g) in gone.iter().enumerate() {
        out[i] = ordered::place(gone, g.target).unwrap_or(gone.len());
    }
    out
}

// The last of n entries that the walk from a place meets; n where it meets none. One that meets none twice has at most n
// turns.
fn last_of(next: &[usize], n: usize, first: usize) -> usize
    requires { n ≤ length next.now }
    ensures { (gone : List DefunctLock) → Led gone n next.now → entry_at gone result ≡ last_from n gone (entry_at gone first) None }
{
    let mut last = n;
    let mut at = first;
    for _ in 0..n {
        if n <= at {
            return last;
        }
        last = at;
        at = next[at];
    }
    last
}

// What is left of an entry that stays: it takes over from the last that its walk meets.
fn handed_on(gone: &[Gone], next: &[usize], d: DefunctLock) -> DefunctLock
    requires { length gone.now ≤ length next.now }
    ensures { (l : List DefunctLock) → gone.now ≡ map left_by l → Yes (ascending dkey l) → Led l (length l) next.now → result ≡ landed l d }
{
    let n = gone.len();
    let k = last_of(next, n, ordered::place(gone, d.target).unwrap_or(n));
    if n <= k {
        return d;
    }
    DefunctLock {
        target: gone[k].target,
        holder: gone[k].holder,
        ..d
    }
}

// The entries that go hand their targets and holders on to those that stay, which are moved down; the places left over are
// blanked. How many stay. Where all go, no place of a target is looked for.
fn shed<F: Fn(&DefunctLock) -> bool>(entries: &mut [DefunctLock], goes: F) -> usize
    requires settled { Settled entries.old }
    requires callable { F.IsAlwaysCallable goes }
    ensures { (p : DefunctLock → Bool) → Tells (FnReturnsAt F.Fn goes) p → Holds (length entries.old) blank_defunct (remove_all (filter p entries.old) entries.old) entries.new result }
{
    let nobody = LockId { hi: 0, lo: 0 };
    let mut gone = [Gone {
        id: nobody,
        target: nobody,
        holder: 0,
    }; LockState::DEFUNCT];
    let mut n = 0;
    for d in entries.iter() {
        if goes(d) {
            gone[n] = Gone {
                id: d.lock.id,
                target: d.target,
                holder: d.holder,
            };
            n += 1;
        }
    }
    let gone = &gone[..n];
    if n == entries.len() {
        entries.fill(state::blank_defunct());
        return 0;
    }
    let next = steps(gone);
    let mut left = 0;
    for i in 0..entries.len() {
        let d = entries[i];
        if !goes(&d) {
            entries[left] = handed_on(gone, &next, d);
            left += 1;
        }
    }
    entries[left..].fill(state::blank_defunct());
    left
}

// The same within a state.
pub(crate) fn shed_in<F: Fn(&DefunctLock) -> bool>(s: &mut LockState, goes: F)
    requires ready { Ready s.old }
    requires callable { F.IsAlwaysCallable goes }
    ensures { (p : DefunctLock → Bool) → Tells (FnReturnsAt F.Fn goes) p → s.new ≡ with_entries s.old (remove_all (filter p (model_of s.old).defunct) (model_of s.old).defunct) }
{
    let n = s.defuncts;
    s.defuncts = shed(&mut s.defunct[..n], goes);
}
