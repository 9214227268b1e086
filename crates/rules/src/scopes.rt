// Rule 2: one active lock a scope. Scopes are their numbers (state::scope_code), 0 for the vehicle.
// SPDX-License-Identifier: Apache-2.0
ghost use Rattle.std.specs.Prelude.{◌≡◌, ◌<◌, length};
ghost use Rattle.lists.specs.Lists.{find};
ghost use Rattle.lists.specs.Below.{all_below};
ghost use Rattle.state.specs.Locks.{scope_code, is_vehicle};
ghost use Rattle.rules.specs.Code.{alone_at};

use state::{ActiveLock, ScopeKey};

// A scope's number, which is below 513: the match tells that the number in a scope is a byte.
pub(crate) fn number(k: ScopeKey) -> usize
    ensures { (result ≡ scope_code k) × (result < 513) }
{
    let n = state::scope_code(k) as usize;
    match k {
        ScopeKey::Vehicle => n,
        ScopeKey::Ecu(b) => n,
        ScopeKey::FunctionalGroup(b) => n,
    }
}

pub(crate) fn one_each(active: &[ActiveLock]) -> bool
    ensures { result ≡ all_below (length active.now) (alone_at active.now) }
{
    let mut seen = [false; 513];
    for a in active {
        let k = number(a.lock.scope);
        if seen[k] {
            return false;
        }
        seen[k] = true;
    }
    true
}

// The vehicle lock.
pub(crate) fn vehicle(active: &[ActiveLock]) -> Option<ActiveLock>
    ensures { result ≡ find (λ a. is_vehicle a.lock.scope) active.now }
{
    active
        .iter()
        .copied()
        .find(|a| state::is_vehicle(a.lock.scope))
}
