// Places of ids among the defunct entries.
// SPDX-License-Identifier: Apache-2.0
ghost use Rattle.std.specs.Prelude.{◌≡◌, ◌≤◌, true, length, position, is_none};
ghost use Rattle.std.specs.List.{list_all};
ghost use Rattle.lists.specs.Lists.{ascending};
ghost use Rattle.ids.specs.Order.{key};
ghost use Rattle.state.specs.Locks.{akey, dkey};
ghost use Rattle.rules.specs.Code.{keyed, entry_key, slot_of, Slotted};

use crate::rows;
use ids::LockId;
use state::{ActiveLock, DefunctLock, LockState};

// Entries that ascend, and a table with 1024 slots for their ids: in each slot one more than the last place whose id goes
// there, 0 where none does.
#[derive(Drop)]
pub(crate) struct Places<'a> {
    pub entries: &'a [DefunctLock],
    slots: [u8; 1024],
    ghost few: { length entries.now ≤ 128 },
    ghost ascends: { ascending dkey entries.now ≡ true },
    ghost slotted: { Slotted (entry_key entries.now) (length entries.now) slots },
}

// Which of 1024 slots an id goes to. Nothing is proved of it but that an id has one: a poor spread costs time alone.
fn slot(id: LockId) -> usize
    ensures { result ≡ slot_of (key id) }
{
    ((id.hi / 4294967296 % 1024 + id.lo % 1024) % 1024) as usize
}

impl<'a> Places<'a> {
    pub(crate) fn of(entries: &'a [DefunctLock]) -> Places<'a>
        requires { (length entries.now ≤ 128) × (ascending dkey entries.now ≡ true) }
        ensures { result.entries.now ≡ entries.now }
    {
        let mut slots = [0u8; 1024];
        for (i, d) in entries.iter().enumerate() {
            slots[slot(d.lock.id)] = (i + 1) as u8;
        }
        Places { entries, slots }
    }

    // The place of an id: by its slot, and by search only where another id took the slot.
    pub(crate) fn find(&self, id: LockId) -> Option<usize>
        ensures { result ≡ position (keyed dkey (key id)) self.now.entries.now }
    {
        let p = usize::from(self.slots[slot(id)]);
        if p == 0 {
            return None;
        }
        if ids::same(self.entries[p - 1].lock.id, id) {
            return Some(p - 1);
        }
        rows::searched(self.entries, id)
    }
}

// Rule 1: none of the active locks' ids is among the entries'.
pub(crate) fn apart(places: &Places, active: &[ActiveLock]) -> bool
    ensures { result ≡ list_all (λ a. is_none (position (keyed dkey (akey a)) places.now.entries.now)) active.now }
{
    active.iter().all(|a| places.find(a.lock.id).is_none())
}
