// Rule 8: two active non-vehicle locks whose coverages overlap have one subject. A lock is compared with those before
// it only if the set of all of them meets it, and they don't all have its subject.
// SPDX-License-Identifier: Apache-2.0
ghost use Rattle.std.specs.Prelude.{◌≡◌, length, not};
ghost use Rattle.std.specs.List.{list_all};
ghost use Rattle.lists.specs.Tests.{non};
ghost use Rattle.lists.specs.Lists.{all};
ghost use Rattle.lists.specs.Below.{all_below};
ghost use Rattle.rules.specs.Rules.{clash};
ghost use Rattle.rules.specs.Code.{clear_at, union, Kept};

use coverage::LockCoverage;
use state::{ActiveLock, Lock};

fn clash(a: Lock, b: Lock) -> bool
    ensures { result ≡ clash a b }
{
    !state::is_vehicle(a.scope)
        & !state::is_vehicle(b.scope)
        & a.coverage.meets(b.coverage)
        & !(a.subject == b.subject)
}

fn union(a: LockCoverage, b: LockCoverage) -> LockCoverage
    ensures { result ≡ union a b }
{
    LockCoverage {
        w0: a.w0 | b.w0,
        w1: a.w1 | b.w1,
        w2: a.w2 | b.w2,
        w3: a.w3 | b.w3,
        whole: a.whole | b.whole,
    }
}

// The lock clashes with none of those: by comparing it with each.
fn clear(x: Lock, before: &[ActiveLock]) -> bool
    ensures { result ≡ list_all (λ y. not (clash x y.lock)) before.now }
{
    before.iter().all(|y| !clash(x, y.lock))
}

// The same, by what is kept of those where that decides.
fn settled(x: Lock, before: &[ActiveLock], same: bool, set: LockCoverage) -> bool
    requires { Kept before.now x.subject same set }
    ensures { result ≡ all (λ y. non (clash x y.lock)) before.now }
{
    if same {
        return true;
    }
    if !set.meets(x.coverage) {
        return true;
    }
    clear(x, before)
}

pub(crate) fn friends(active: &[ActiveLock]) -> bool
    ensures { result ≡ all_below (length active.now) (clear_at active.now) }
{
    // Of the non-vehicle locks so far: whether all have the first lock's subject, and a set that has their ECUs.
    let mut same = true;
    let mut set = LockCoverage::empty();
    for (i, a) in active.iter().enumerate() {
        let x = a.lock;
        if state::is_vehicle(x.scope) {
            continue;
        }
        same = same & (x.subject == active[0].lock.subject);
        if !settled(x, &active[..i], same, set) {
            return false;
        }
        set = union(set, x.coverage);
    }
    true
}
