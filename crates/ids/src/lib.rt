// Lock ids: 16 bytes, compared from the first byte; and lists of them as words.
// SPDX-License-Identifier: Apache-2.0
#![tactic(auto)]

ghost use Rattle.std.specs.Prelude.{◌≡◌};
ghost use Rattle.ids.specs.Order.{same_id, before_id};
ghost use Rattle.ids.specs.Words.{odd_words, listed_in};

// The first eight bytes are hi, the last eight lo, each big-endian.
#[derive(Clone, Copy, PartialEq, Eq, PartialOrd, Ord)]
pub struct LockId {
    pub hi: u64,
    pub lo: u64,
}

// By number (same_id, before_id are of the sixteen bytes as one number), which the derived `==` and `<` are: a contract by
// them would ask each caller for the words' bounds, so the two stay.
pub fn same(a: LockId, b: LockId) -> bool
    ensures { result ≡ same_id a b }
{
    a == b
}

pub fn less(a: LockId, b: LockId) -> bool
    ensures { result ≡ before_id a b }
{
    a < b
}

// An id list has two words an id: an odd number is refused (14).
pub fn is_odd(list: &[u64]) -> bool
    ensures { result ≡ odd_words list.now }
{
    list.len() % 2 != 0
}

// Whether the id occurs in the list.
pub fn listed(list: &[u64], id: LockId) -> bool
    ensures { result ≡ listed_in list.now id }
{
    let mut rest = list;
    while let [hi, lo, next @ ..] = rest {
        if same(id, LockId { hi: *hi, lo: *lo }) {
            return true;
        }
        rest = next;
    }
    false
}
