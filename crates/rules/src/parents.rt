// Rules 3 to 7. A parent is a vehicle lock, and by rule 2 there is at most one: each child is held against that one.
// SPDX-License-Identifier: Apache-2.0
ghost use Rattle.std.specs.Prelude.{◌≡◌};
ghost use Rattle.std.specs.List.{list_all, list_any};
ghost use Rattle.ids.specs.Order.{same_id};
ghost use Rattle.rules.specs.declared.Unsound.TheVariants.{Rule};
ghost use Rattle.rules.specs.Code.{child_under, child_active, child_owned, child_inside, child_fits, lowest_parent};

use crate::Unsound;
use ids::LockId;
use state::ActiveLock;

fn is_under(a: ActiveLock, vehicle: Option<ActiveLock>) -> bool
    ensures { result ≡ child_under vehicle a }
{
    match vehicle {
        Some(v) => !a.child | ids::same(a.parent, v.lock.id),
        None => !a.child,
    }
}

// Rules 3 and 4 at once: every child's parent is the vehicle lock.
fn under(active: &[ActiveLock], vehicle: Option<ActiveLock>) -> bool
    ensures { result ≡ list_all (child_under vehicle) active.now }
{
    active.iter().all(|a| is_under(*a, vehicle))
}

fn has(active: &[ActiveLock], id: LockId) -> bool
    ensures { result ≡ list_any (λ p. same_id p.lock.id id) active.now }
{
    active.iter().any(|p| ids::same(p.lock.id, id))
}

// Rule 3 alone, to tell it from rule 4 where the two fail.
fn active(active: &[ActiveLock]) -> bool
    ensures { result ≡ list_all (child_active active.now) active.now }
{
    active.iter().all(|a| !a.child | has(active, a.parent))
}

// Rule 5.
// Rules 5 and 6 differ in the one test: a function that takes it would be no shorter.
fn owned(active: &[ActiveLock], vehicle: ActiveLock) -> bool
    ensures { result ≡ list_all (child_owned vehicle) active.now }
{
    active
        .iter()
        .all(|a| !a.child | (vehicle.lock.subject == a.lock.subject))
}

// Rule 6.
fn inside(active: &[ActiveLock], vehicle: ActiveLock) -> bool
    ensures { result ≡ list_all (child_inside vehicle) active.now }
{
    active.iter().all(|a| !a.child | vehicle.lock.coverage.contains(a.lock.coverage))
}

// Rules 3 to 7 of one lock.
fn fits(a: ActiveLock, vehicle: Option<ActiveLock>) -> bool
    ensures { result ≡ child_fits vehicle a }
{
    match vehicle {
        Some(v) => {
            !a.child
                | (ids::same(a.parent, v.lock.id)
                    & (v.lock.subject == a.lock.subject)
                    & v.lock.coverage.contains(a.lock.coverage)
                    & !state::is_vehicle(a.lock.scope))
        }
        None => !a.child,
    }
}

// Rules 3 to 7 at once.
pub(crate) fn fit(active: &[ActiveLock], vehicle: Option<ActiveLock>) -> bool
    ensures { result ≡ list_all (child_fits vehicle) active.now }
{
    active.iter().all(|a| fits(*a, vehicle))
}

// The lowest of rules 3 to 7 that is broken, where one is: rule 7 if no other.
pub(crate) fn lowest(active: &[ActiveLock], vehicle: Option<ActiveLock>) -> Unsound
    ensures { result ≡ Rule (lowest_parent active.now vehicle) }
{
    if !under(active, vehicle) {
        return Unsound::Rule(if self::active(active) { 4 } else { 3 });
    }
    let Some(v) = vehicle else {
        return Unsound::Rule(7);
    };
    if !owned(active, v) {
        return Unsound::Rule(5);
    }
    if !inside(active, v) {
        return Unsound::Rule(6);
    }
    Unsound::Rule(7)
}
