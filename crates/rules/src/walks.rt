// Rule 9: following the targets from any defunct entry through defunct entries meets no id twice. Walks go from place to
// place and pass each place once: one that comes to where an earlier walk was leads out as that one did.
// SPDX-License-Identifier: Apache-2.0
ghost use Rattle.std.specs.Prelude.{◌≡◌, ℕ, ◌≤◌, ◌<◌, length, get_or};
ghost use Rattle.state.specs.Locks.{blank_defunct};
ghost use Rattle.ids.specs.Order.{key};
ghost use Rattle.rules.specs.Code.{entry_key, Sought, LeadsOut};

use crate::places::Places;
use state::LockState;

// For each entry the place that its target has; their number where the target is no entry, so that one test ends a walk.
// The lookups don't wait for each other, as they would on a walk.
pub(crate) fn steps(places: &Places) -> [u8; LockState::DEFUNCT]
    ensures { (length result ≡ 128) × ((i : ℕ) → i < length places.now.entries.now → Sought (entry_key places.now.entries.now) (length places.now.entries.now) (key (get_or places.now.entries.now i blank_defunct).target) (get_or result i 0)) }
{
    let n = places.entries.len();
    let mut out = [0u8; LockState::DEFUNCT];
    for (i, d) in places.entries.iter().enumerate() {
        out[i] = places.find(d.target).unwrap_or(n) as u8;
    }
    out
}

// Whether every walk along the table leads out of its places.
pub(crate) fn leads_out(next: &[u8]) -> bool
    requires { (length next.now ≤ 128) × ((i : ℕ) → i < length next.now → get_or next.now i 0 ≤ length next.now) }
    ensures { LeadsOut next.now (length next.now) result }
{
    let n = next.len();
    // which walk passed each place, counted from 1; the place n, which is out, is never passed
    let mut passed = [0u8; LockState::DEFUNCT + 1];
    for i in 0..n {
        let walk = (i + 1) as u8;
        let mut j = i;
        // along targets: no index is counted
        while (j < n) & (passed[j] == 0) {
            passed[j] = walk;
            j = usize::from(next[j]);
        }
        if passed[j] == walk {
            return false;
        }
    }
    true
}
