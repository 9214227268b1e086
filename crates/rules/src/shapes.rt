// Rule 0 of one record: an unused place is blank, and the parts of a lock that don't apply are zero.
// SPDX-License-Identifier: Apache-2.0
ghost use Rattle.std.specs.Prelude.{◌≡◌, eqb};
ghost use Rattle.lists.specs.Tests.{◌and◌, non};
ghost use Rattle.state.specs.Locks.{is_vehicle};
ghost use Rattle.rules.specs.Rules.{zero_lock, is_blank_a, is_blank_d, neat_l, neat_a, neat_d};
ghost use Rattle.rules.specs.Code.{clean, spotless};

use coverage::LockCoverage;
use ids::LockId;
use state::{ActiveLock, DefunctLock, Lock, ScopeKey};

// What unused places hold, ORed: nothing as long as each is blank. So no place costs a branch, and one test at the end
// reads them all; comparing each place with a blank by == takes half as long again (tried). Words go to two sides in turn:
// the compiler then loads two at once and keeps both sides in one register.
#[derive(Clone, Copy)]
pub(crate) struct Dirt {
    even: u64,
    odd: u64,
    rest: u64,
    flag: bool,
}

impl Dirt {
    pub(crate) fn nothing() -> Dirt
        ensures { result ≡ spotless }
    {
        Dirt {
            even: 0,
            odd: 0,
            rest: 0,
            flag: false,
        }
    }

    pub(crate) fn is_clean(self) -> bool
        ensures { result ≡ clean self }
    {
        (self.even == 0) & (self.odd == 0) & (self.rest == 0) & !self.flag
    }

    fn with(self, even: u64, odd: u64, rest: u64, flag: bool) -> Dirt
        ensures { clean result ≡ (clean self and (eqb even 0 and eqb odd 0 and eqb rest 0 and non flag)) }
    {
        Dirt {
            even: self.even | even,
            odd: self.odd | odd,
            rest: self.rest | rest,
            flag: self.flag | flag,
        }
    }

    fn with_lock(self, x: Lock) -> Dirt
        ensures { clean result ≡ (clean self and zero_lock x) }
    {
        let c = x.coverage;
        let k = x.scope;
        self.with(
            x.id.hi | c.w0 | c.w2,
            x.id.lo | c.w1 | c.w3,
            x.principal as u64 | x.metadata as u64 | x.subject as u64 | kind(k),
            c.whole | x.exclusive,
        )
    }

    pub(crate) fn with_active(self, x: ActiveLock) -> Dirt
        ensures { clean result ≡ (clean self and is_blank_a x) }
    {
        let d = self.with_lock(x.lock);
        d.with(x.parent.hi, x.parent.lo, x.expires, x.child)
    }

    pub(crate) fn with_defunct(self, x: DefunctLock) -> Dirt
        ensures { clean result ≡ (clean self and is_blank_d x) }
    {
        let d = self.with_lock(x.lock);
        d.with(
            x.target.hi | x.expires,
            x.target.lo | x.broken,
            x.breaker as u64 | x.holder as u64,
            false,
        )
    }
}

// 0 for the vehicle, as a number that is ORed: the compiler then reads the scope's own tag, without a test.
fn kind(k: ScopeKey) -> u64
    ensures { eqb result 0 ≡ is_vehicle k }
{
    match k {
        ScopeKey::Vehicle => 0,
        ScopeKey::Ecu(_) => 1,
        ScopeKey::FunctionalGroup(_) => 2,
    }
}

// The whole vehicle has no set.
fn neat_lock(x: Lock) -> bool
    ensures { result ≡ neat_l x }
{
    !x.coverage.whole | (x.coverage == LockCoverage::vehicle())
}

pub(crate) fn neat_active(x: ActiveLock) -> bool
    ensures { result ≡ neat_a x }
{
    neat_lock(x.lock) & (x.child | (x.parent == LockId { hi: 0, lo: 0 }))
}

pub(crate) fn neat_defunct(x: DefunctLock) -> bool
    ensures { result ≡ neat_d x }
{
    neat_lock(x.lock)
}
