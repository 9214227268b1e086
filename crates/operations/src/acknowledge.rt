// Defunct entries that go: one that is acknowledged (12, Absent, 8), and those whose time has come (12, none, 8).
// SPDX-License-Identifier: Apache-2.0
#![tactic(auto, unfolding(crate::specs::Answers::refuse_if, crate::specs::Answers::and_then, crate::specs::Answers::is_done, lookups::specs::Reads::on_sound, crate::specs::Checks::at_last_lem, crate::specs::Acknowledge::lapsed))]

ghost use Rattle.std.specs.Prelude.{◌≡◌, [], Ok, length};
ghost use Rattle.lists.specs.Places.{in_places};
ghost use Rattle.ids.specs.Order.{no_id};
ghost use Rattle.rules.specs.Rules.{broken_rule};
ghost use Rattle.operations.specs.Acknowledge.{acknowledged, acknowledge_on, lapsed, expire_defunct_on};
ghost use Rattle.operations.specs.Code.{expired_by};

use crate::answers::{Acknowledged, DefunctsExpired, Shed, StateRefusal};
use crate::defuncts;
use ids::LockId;
use state::{DefunctLock, LockState};

// ---- acknowledge_defunct
// Whether there was such an entry, which then goes. 8 comes after the change, which it does not undo.
fn acknowledged(s: &mut LockState, id: LockId) -> Result<bool, StateRefusal>
    requires { (length s.old.active ≡ 64) × (length s.old.defunct ≡ 128) × (broken_rule s.old ≡ Ok tt) }
    ensures { acknowledged result s.new ≡ acknowledge_on s.old id }
{
    if !s
        .defunct_locks()
        .iter()
        .any(|d| state::has_id_defunct(id, *d))
    {
        return Ok(false);
    }
    defuncts::shed_in(s, |d| state::has_id_defunct(id, *d));
    if s.revision == u64::MAX {
        return Err(StateRefusal::RevisionOverflow);
    }
    s.revision += 1;
    Ok(true)
}

// The test comes before the state is lent: of what is lent it would take a copy, on the deepest way that there is.
pub fn acknowledge_defunct(mut s: LockState, id: LockId) -> Acknowledged
    ensures { result ≡ acknowledge_on s id }
{
    let told = match rules::broken(s) {
        Ok(()) => acknowledged(&mut s, id),
        Err(unsound) => Err(StateRefusal::from(unsound)),
    };
    Acknowledged { told, state: s }
}

// ---- expire_defunct
fn has_lapsed(now: u64, d: DefunctLock) -> bool
    ensures { result ≡ lapsed now d }
{
    d.expires <= now
}

// How many entries went, and their ids, ascending.
fn expired(
    s: &mut LockState,
    now: u64,
    ids: &mut [LockId; LockState::DEFUNCT],
) -> Result<usize, StateRefusal>
    requires { (length s.old.active ≡ 64) × (length s.old.defunct ≡ 128) × (ids.old ≡ in_places 128 no_id []) }
    ensures { expired_by ids.new s.new result ≡ expire_defunct_on s.old now }
{
    rules::broken(*s)?;
    let mut gone: usize = 0;
    for d in s.defunct_locks() {
        if has_lapsed(now, *d) {
            ids[gone] = d.lock.id;
            gone += 1;
        }
    }
    if gone == 0 {
        return Ok(gone);
    }
    defuncts::shed_in(s, |d| has_lapsed(now, *d));
    if s.revision == u64::MAX {
        return Err(StateRefusal::RevisionOverflow);
    }
    s.revision += 1;
    Ok(gone)
}

// The entries whose original_expires_at has come go; their ids are listed, ascending. As for an acknowledgement, a refusal
// by 8 leaves the entries gone, and lists none.
pub fn expire_defunct(mut s: LockState, now: u64) -> DefunctsExpired
    ensures { result ≡ expire_defunct_on s now }
{
    let none = [LockId { hi: 0, lo: 0 }; LockState::DEFUNCT];
    let mut ids = none;
    let told = match expired(&mut s, now, &mut ids) {
        Ok(gone) => Shed {
            answer: Ok(()),
            gone,
            ids,
        },
        Err(refusal) => Shed {
            answer: Err(refusal),
            gone: 0,
            ids: none,
        },
    };
    DefunctsExpired { told, state: s }
}
