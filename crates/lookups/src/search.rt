// Searches of the two lists. The first lock that fits has the lowest id, since the lists ascend.
// SPDX-License-Identifier: Apache-2.0
ghost use Rattle.std.specs.Prelude.{◌≡◌, ◌≤◌, map, length};
ghost use Rattle.std.specs.List.{list_any};
ghost use Rattle.lists.specs.Lists.{filter, any, find};
ghost use Rattle.lookups.specs.Reads.{ids_told, on_scope, narrow, group_over, uncovered, present_for, needs};
ghost use Rattle.lookups.specs.Code.{scope_of, own_need, Alone};

use crate::{Narrow, TesterPresent};
use coverage::LockCoverage;
use ids::LockId;
use state::{ActiveLock, DefunctLock, LockState, ScopeKey};

// A chain each, told apart by its test: one function that takes the test would be no shorter.
pub(crate) fn find_scope(locks: &[ActiveLock], scope: ScopeKey) -> Option<ActiveLock>
    ensures { result ≡ find (on_scope scope) locks.now }
{
    locks.iter().copied().find(|a| crate::on_scope(scope, *a))
}

pub(crate) fn find_group(locks: &[ActiveLock], subject: u16, ecu: u8) -> Option<ActiveLock>
    ensures { result ≡ find (group_over subject ecu) locks.now }
{
    locks
        .iter()
        .copied()
        .find(|a| crate::group_over(subject, ecu, *a))
}

pub(crate) fn find_uncovered(
    entries: &[DefunctLock],
    subject: u16,
    scope: ScopeKey,
    coverage: LockCoverage,
    now: u64,
) -> Option<DefunctLock>
    ensures { result ≡ find (uncovered subject scope coverage now) entries.now }
{
    entries
        .iter()
        .copied()
        .find(|d| crate::is_uncovered(subject, scope, coverage, now, *d))
}

// The ids of the locks that a group lock covers, ascending. Fixed memory: no heap to collect into, so a count and places.
pub(crate) fn narrow_ids(locks: &[ActiveLock], broad: ActiveLock) -> Narrow
    requires { length locks.now ≤ 64 }
    ensures { result ≡ ids_told (map (λ a. a.lock.id) (filter (narrow broad) locks.now)) }
{
    let mut ids = [LockId { hi: 0, lo: 0 }; LockState::ACTIVE];
    let mut count: usize = 0;
    for a in locks {
        if crate::narrow_of(broad, *a) {
            ids[count] = a.lock.id;
            count += 1;
        }
    }
    Narrow { count, ids }
}

fn has_group(locks: &[ActiveLock], subject: u16, ecu: u8) -> bool
    ensures { result ≡ list_any (group_over subject ecu) locks.now }
{
    locks.iter().any(|a| crate::group_over(subject, ecu, *a))
}

// What a lock of the subject on the scope needs: nothing of its own where a group lock of the subject covers its ECU.
pub(crate) fn present_for(
    locks: &[ActiveLock],
    subject: u16,
    scope: ScopeKey,
) -> Option<TesterPresent>
    ensures { result ≡ present_for locks.now subject scope }
{
    match scope {
        ScopeKey::Vehicle => None,
        ScopeKey::Ecu(e) => {
            if has_group(locks, subject, e) {
                return None;
            }
            Some(TesterPresent::Ecu(e))
        }
        ScopeKey::FunctionalGroup(g) => Some(TesterPresent::Functional(g)),
    }
}

// The scope of the lock that may need it.
fn scope_of(t: TesterPresent) -> ScopeKey
    ensures { result ≡ scope_of t }
{
    match t {
        TesterPresent::Ecu(e) => ScopeKey::Ecu(e),
        TesterPresent::Functional(g) => ScopeKey::FunctionalGroup(g),
    }
}

// Whether the subject's lock on that scope needs just this.
fn own_need(locks: &[ActiveLock], subject: u16, t: TesterPresent) -> bool
    ensures { result ≡ own_need locks.now subject t }
{
    match t {
        TesterPresent::Ecu(e) => !has_group(locks, subject, e),
        TesterPresent::Functional(_) => true,
    }
}

// Whether some lock needs this: there is one lock a scope, so the one on its scope tells.
pub(crate) fn is_needed(locks: &[ActiveLock], t: TesterPresent) -> bool
    requires { Alone locks.now }
    ensures { result ≡ any (needs locks.now t) locks.now }
{
    let k = scope_of(t);
    if let Some(a) = find_scope(locks, k) {
        return own_need(locks, a.lock.subject, t);
    }
    false
}
