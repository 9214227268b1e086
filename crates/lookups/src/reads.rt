// The reads of the original, by its names. Each tests the state first: 12, with the rule.
// SPDX-License-Identifier: Apache-2.0
ghost use Rattle.std.specs.Prelude.{◌≡◌};
ghost use Rattle.lookups.specs.Reads.{revision_on, active_for_scope_on, active_by_id_on, defunct_by_id_on, active_at_on, defunct_at_on, covered_narrow_on, covering_group_on, tester_present_for_on, tester_present_needed_on, uncovered_defunct_on, current_holder_on};

use crate::{Holder, Narrow, TesterPresent, chain, search};
use coverage::LockCoverage;
use ids::LockId;
use rules::Unsound;
use state::{ActiveLock, DefunctLock, LockState, ScopeKey};

// The reads that are alike past the test stay functions by their names, which the documents and the boundary have.
pub fn revision(s: LockState) -> Result<u64, Unsound>
    ensures { result ≡ revision_on s }
{
    rules::broken(s)?;
    Ok(s.revision)
}

pub fn active_for_scope(s: LockState, scope: ScopeKey) -> Result<Option<ActiveLock>, Unsound>
    ensures { result ≡ active_for_scope_on s scope }
{
    rules::broken(s)?;
    Ok(search::find_scope(s.active_locks(), scope))
}

pub fn active_by_id(s: LockState, id: LockId) -> Result<Option<ActiveLock>, Unsound>
    ensures { result ≡ active_by_id_on s id }
{
    rules::broken(s)?;
    Ok(s.find_active(id))
}

pub fn defunct_by_id(s: LockState, id: LockId) -> Result<Option<DefunctLock>, Unsound>
    ensures { result ≡ defunct_by_id_on s id }
{
    rules::broken(s)?;
    Ok(s.find_defunct(id))
}

// The original's active(): the i-th lock, in order of the ids.
pub fn active_at(s: LockState, i: usize) -> Result<Option<ActiveLock>, Unsound>
    ensures { result ≡ active_at_on s i }
{
    rules::broken(s)?;
    Ok(s.active_locks().get(i).copied())
}

// The original's defunct(): the i-th entry, in order of the ids.
pub fn defunct_at(s: LockState, i: usize) -> Result<Option<DefunctLock>, Unsound>
    ensures { result ≡ defunct_at_on s i }
{
    rules::broken(s)?;
    Ok(s.defunct_locks().get(i).copied())
}

pub fn covered_narrow_locks(s: LockState, broad: ActiveLock) -> Result<Narrow, Unsound>
    ensures { result ≡ covered_narrow_on s broad }
{
    rules::broken(s)?;
    Ok(search::narrow_ids(s.active_locks(), broad))
}

pub fn covering_functional_group(
    s: LockState,
    subject: u16,
    ecu: u8,
) -> Result<Option<ActiveLock>, Unsound>
    ensures { result ≡ covering_group_on s subject ecu }
{
    rules::broken(s)?;
    Ok(search::find_group(s.active_locks(), subject, ecu))
}

pub fn tester_present_for(
    s: LockState,
    subject: u16,
    scope: ScopeKey,
) -> Result<Option<TesterPresent>, Unsound>
    ensures { result ≡ tester_present_for_on s subject scope }
{
    rules::broken(s)?;
    Ok(search::present_for(s.active_locks(), subject, scope))
}

pub fn tester_present_needed(s: LockState, t: TesterPresent) -> Result<bool, Unsound>
    ensures { result ≡ tester_present_needed_on s t }
{
    rules::broken(s)?;
    Ok(search::is_needed(s.active_locks(), t))
}

pub fn uncovered_defunct(
    s: LockState,
    subject: u16,
    scope: ScopeKey,
    coverage: LockCoverage,
    now: u64,
) -> Result<Option<DefunctLock>, Unsound>
    ensures { result ≡ uncovered_defunct_on s subject scope coverage now }
{
    rules::broken(s)?;
    Ok(search::find_uncovered(s.defunct_locks(), subject, scope, coverage, now))
}

// Who holds what replaced the record, and how many defunct entries the walk passed after it: at most 128.
pub fn current_holder(s: LockState, d: DefunctLock) -> Result<Holder, Unsound>
    ensures { result ≡ current_holder_on s d }
{
    rules::broken(s)?;
    Ok(chain::walk(&s, d))
}
