// The lock state: scopes, locks, the two lists in their places.
// SPDX-License-Identifier: Apache-2.0
#![tactic(auto)]

ghost use Rattle.std.specs.Prelude.{◌≡◌};
ghost use Rattle.lists.specs.Lists.{find};
ghost use Rattle.state.specs.Locks.{is_vehicle, is_group, ecu_in, scope_code, same_scope, blank_lock, blank_active, blank_defunct, normal_coverage, normal, has_id, has_id_d};
ghost use Rattle.state.specs.Model.{empty_model, state_of, model_of};

use coverage::LockCoverage;
use ids::LockId;

// Vehicle is first, so a blank is the all-zero value.
#[derive(Clone, Copy, PartialEq, Eq)]
pub enum ScopeKey {
    Vehicle,
    Ecu(u8),
    FunctionalGroup(u8),
}

// What an active and a defunct lock share: document 01's "lock start". A field has the original's name unless it says
// another; a name of one word stays one in the definitions, which would have to quote `broken_at`.
// Large fields first: the compiler keeps the declared order.
#[derive(Clone, Copy, PartialEq, Eq)]
pub struct Lock {
    pub id: LockId,
    pub coverage: LockCoverage,
    // principal: who asked, in whole; an opaque number
    pub principal: u32,
    pub metadata: u32,
    // principal's subject, which owners are compared by
    pub subject: u16,
    pub scope: ScopeKey,
    pub exclusive: bool,
}

// The original's fields of the lock itself stand in `lock`.
#[derive(Clone, Copy, PartialEq, Eq)]
pub struct ActiveLock {
    pub lock: Lock,
    // parent_vehicle_lock_id, where child says that there is one; else zero
    // The flag stands beside the parent: rule 0 refuses a parent without it (rules/specs/Rules.antt, neat_a), which no Option holds.
    pub parent: LockId,
    // expires_at
    pub expires: u64,
    pub child: bool,
}

#[derive(Clone, Copy, PartialEq, Eq)]
pub struct DefunctLock {
    pub lock: Lock,
    // replacement_lock_id
    pub target: LockId,
    // original_expires_at
    pub expires: u64,
    // broken_at
    pub broken: u64,
    // broken_by
    pub breaker: u32,
    // replacement_holder
    pub holder: u16,
}

// Each list stands in the first places of its array, ascending by id; unused places are blank. The original's two other
// maps, active_by_scope and children_by_vehicle, are read off the active locks.
#[derive(Clone, Copy)]
pub struct LockState {
    pub revision: u64,
    // active_by_id
    pub active: [ActiveLock; LockState::ACTIVE],
    pub actives: usize,
    // defunct_by_id
    pub defunct: [DefunctLock; LockState::DEFUNCT],
    pub defuncts: usize,
}

#[tactic(auto, unfolding(crate::specs::Locks::is_vehicle))]
pub fn is_vehicle(scope: ScopeKey) -> bool
    ensures { result ≡ is_vehicle scope }
{
    matches!(scope, ScopeKey::Vehicle)
}

#[tactic(auto, unfolding(crate::specs::Locks::is_group))]
pub fn is_group(scope: ScopeKey) -> bool
    ensures { result ≡ is_group scope }
{
    matches!(scope, ScopeKey::FunctionalGroup(_))
}

// Whether the scope is one ECU and the coverage has it.
#[tactic(auto, unfolding(crate::specs::Locks::ecu_in))]
pub fn ecu_in(coverage: LockCoverage, scope: ScopeKey) -> bool
    ensures { result ≡ ecu_in coverage scope }
{
    match scope {
        ScopeKey::Ecu(e) => coverage.contains_ecu(e),
        _ => false,
    }
}

// A number for each scope, no two alike: 0 for the vehicle. rules marks the scopes that it saw by it.
#[tactic(auto, unfolding(crate::specs::Locks::scope_code))]
pub fn scope_code(scope: ScopeKey) -> u64
    ensures { result ≡ scope_code scope }
{
    match scope {
        ScopeKey::Vehicle => 0,
        ScopeKey::Ecu(n) => n as u64 * 2 + 1,
        ScopeKey::FunctionalGroup(n) => n as u64 * 2 + 2,
    }
}

pub fn same_scope(a: ScopeKey, b: ScopeKey) -> bool
    ensures { result ≡ same_scope a b }
{
    a == b
}

// By hand: it shows each zero. By Default, LockId, LockCoverage and ScopeKey would derive it too, for no shorter call.
pub fn blank_lock() -> Lock
    ensures { result ≡ blank_lock }
{
    Lock {
        id: LockId { hi: 0, lo: 0 },
        coverage: LockCoverage {
            w0: 0,
            w1: 0,
            w2: 0,
            w3: 0,
            whole: false,
        },
        principal: 0,
        metadata: 0,
        subject: 0,
        scope: ScopeKey::Vehicle,
        exclusive: false,
    }
}

#[tactic(auto, unfolding(crate::specs::Locks::blank_active))]
pub fn blank_active() -> ActiveLock
    ensures { result ≡ blank_active }
{
    ActiveLock {
        lock: blank_lock(),
        parent: LockId { hi: 0, lo: 0 },
        expires: 0,
        child: false,
    }
}

#[tactic(auto, unfolding(crate::specs::Locks::blank_defunct))]
pub fn blank_defunct() -> DefunctLock
    ensures { result ≡ blank_defunct }
{
    DefunctLock {
        lock: blank_lock(),
        target: LockId { hi: 0, lo: 0 },
        expires: 0,
        broken: 0,
        breaker: 0,
        holder: 0,
    }
}

// The whole vehicle has no set.
fn normal_coverage(coverage: LockCoverage) -> LockCoverage
    ensures { result ≡ normal_coverage coverage }
{
    if coverage.whole {
        return LockCoverage::vehicle();
    }
    coverage
}

// A lock handed to an operation directly: parts that don't apply are taken as zero.
pub fn normal_form(given: ActiveLock) -> ActiveLock
    ensures { result ≡ normal given }
{
    let mut lock = given.lock;
    lock.coverage = normal_coverage(given.lock.coverage);
    let parent = given.parent;
    if given.child {
        return ActiveLock {
            lock,
            parent,
            expires: given.expires,
            child: true,
        };
    }
    ActiveLock {
        lock,
        parent: LockId { hi: 0, lo: 0 },
        expires: given.expires,
        child: false,
    }
}

// The same test of either kind of lock: one generic function would want a trait for the lock in each, and is no plainer.
#[tactic(auto, unfolding(crate::specs::Locks::has_id, ids::specs::Order::same_id))]
pub fn has_id(id: LockId, lock: ActiveLock) -> bool
    ensures { result ≡ has_id id lock }
{
    ids::same(lock.lock.id, id)
}

#[tactic(auto, unfolding(crate::specs::Locks::has_id_d, ids::specs::Order::same_id))]
pub fn has_id_defunct(id: LockId, broken: DefunctLock) -> bool
    ensures { result ≡ has_id_d id broken }
{
    ids::same(broken.lock.id, id)
}

impl LockState {
    pub const ACTIVE: usize = 64;

    pub const DEFUNCT: usize = 128;

    pub fn empty() -> LockState
        ensures { result ≡ state_of empty_model }
    {
        let active = blank_active();
        let defunct = blank_defunct();
        LockState {
            revision: 0,
            active: [active; LockState::ACTIVE],
            actives: 0,
            defunct: [defunct; LockState::DEFUNCT],
            defuncts: 0,
        }
    }

    // The active locks, without the unused places. A count past the limit is taken as the limit.
    pub fn active_locks(&self) -> &[ActiveLock]
        ensures { result.now ≡ (model_of self.now).active }
    {
        &self.active[..self.actives.min(LockState::ACTIVE)]
    }

    pub fn defunct_locks(&self) -> &[DefunctLock]
        ensures { result.now ≡ (model_of self.now).defunct }
    {
        &self.defunct[..self.defuncts.min(LockState::DEFUNCT)]
    }

    // The lock with the id.
    // One of each, as the tests of their ids are (has_id).
    pub fn find_active(&self, id: LockId) -> Option<ActiveLock>
        ensures { result ≡ find (has_id id) (model_of self.now).active }
    {
        self.active_locks().iter().copied().find(|a| has_id(id, *a))
    }

    pub fn find_defunct(&self, id: LockId) -> Option<DefunctLock>
        ensures { result ≡ find (has_id_d id) (model_of self.now).defunct }
    {
        self.defunct_locks()
            .iter()
            .copied()
            .find(|d| has_id_defunct(id, *d))
    }
}
