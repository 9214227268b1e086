// The reads of the lock state. Each tests the state first (12, with the rule).
// SPDX-License-Identifier: Apache-2.0
#![tactic(auto)]

ghost use Rattle.std.specs.Prelude.{◌≡◌};
ghost use Rattle.lookups.specs.Reads.{on_scope, narrow, group_over, covers_defunct, uncovered};

use coverage::LockCoverage;
use ids::LockId;
use state::{ActiveLock, DefunctLock, LockState, ScopeKey};

mod chain;
pub mod reads;
mod search;

// The locks that a group lock covers: their number, and their ids, ascending; blanks after them. Fixed memory: a
// list that is handed out has its places and their number.
#[derive(Clone, Copy, PartialEq, Eq)]
pub struct Narrow {
    pub count: usize,
    pub ids: [LockId; LockState::ACTIVE],
}

// What a lock needs to keep its control units in a session: the original's TesterPresentType.
#[derive(Clone, Copy, PartialEq, Eq)]
pub enum TesterPresent {
    Ecu(u8),
    Functional(u8),
}

// Who holds what replaced a defunct lock, and how many defunct entries the walk passed after the given record.
#[derive(Clone, Copy, PartialEq, Eq)]
pub struct Holder {
    pub subject: u16,
    pub links: u64,
}

// ---- tests of one lock, which the operations share
pub fn on_scope(scope: ScopeKey, a: ActiveLock) -> bool
    ensures { result ≡ on_scope scope a }
{
    let l = a.lock;
    let k = l.scope;
    state::same_scope(k, scope)
}

// An ECU lock of the same subject whose ECU the group r covers.
pub fn narrow_of(r: ActiveLock, a: ActiveLock) -> bool
    ensures { result ≡ narrow r a }
{
    let l = r.lock;
    let m = a.lock;
    let g = l.scope;
    let c = l.coverage;
    let k = m.scope;
    state::is_group(g) & (m.subject == l.subject) & state::ecu_in(c, k)
}

// A lock on the scope with the coverage protects all that the entry protected.
pub fn covers_defunct(scope: ScopeKey, coverage: LockCoverage, d: DefunctLock) -> bool
    ensures { result ≡ covers_defunct scope coverage d }
{
    let l = d.lock;
    let k = l.scope;
    let c = l.coverage;
    state::is_vehicle(scope) | state::same_scope(scope, k) | coverage.contains(c)
}

// The subject's group lock that covers the ECU.
pub fn group_over(subject: u16, ecu: u8, a: ActiveLock) -> bool
    ensures { result ≡ group_over subject ecu a }
{
    let l = a.lock;
    let k = l.scope;
    let c = l.coverage;
    state::is_group(k) & (l.subject == subject) & c.contains_ecu(ecu)
}

// An unexpired entry of the subject that a new lock would overlap without covering it.
pub fn is_uncovered(
    subject: u16,
    scope: ScopeKey,
    coverage: LockCoverage,
    now: u64,
    d: DefunctLock,
) -> bool
    ensures { result ≡ uncovered subject scope coverage now d }
{
    let l = d.lock;
    let k = l.scope;
    let c = l.coverage;
    let touches = state::is_vehicle(k) | state::same_scope(k, scope) | c.meets(coverage);
    (l.subject == subject) & (now < d.expires) & touches & !covers_defunct(scope, coverage, d)
}
