// A table that was judged, so that its names can be read.
// SPDX-License-Identifier: Apache-2.0
ghost use Rattle.std.specs.Prelude.{◌≡◌, true, false, ◌≤◌, ◌<◌, length, MatchResult};
ghost use Rattle.lists.specs.Below.{all_below};
ghost use Rattle.names.specs.Bytes.{kept, place_of};
ghost use Rattle.names.specs.Table.{longest, most, entry_size, table_size, count_of, entry_at, length_of, name_of, names_from, right_entry, right_table};
ghost use Rattle.names.specs.Code.{short_names};

use crate::twice::none_twice;
use crate::{ENTRY, FIRST, LONGEST, MOST, SIZE, TableRefusal, is_folded, is_zero, same_name};

// A table's first names: the table has its size, they are no more than fit, and none is too long.
#[derive(Clone, Copy)]
pub(crate) struct Names<'a> {
    table: &'a [u8],
    pub(crate) count: usize,
    ghost sized: { length table.now ≡ table_size },
    ghost few: { count ≤ most },
    ghost short: { short_names count table.now ≡ true },
}

// At most 65535: the count is judged before it is used.
fn count_of(table: &[u8]) -> usize
    requires { length table.now ≡ table_size }
    ensures { result ≡ count_of table.now }
{
    u16::from_le_bytes([table[0], table[1]]) as usize
}

// The entry of a number, at or past the count too.
fn entry_of(table: &[u8], i: usize) -> &[u8]
    requires { (length table.now ≡ table_size) × (i < most) }
    ensures { result.now ≡ entry_at table.now i }
{
    let start = FIRST + i * ENTRY;
    let end = start + ENTRY;
    &table[start..end]
}

// The name in an entry whose length byte was judged.
fn name_of(bytes: &[u8]) -> &[u8]
    requires { (length bytes.now ≡ entry_size) × (length_of bytes.now ≤ longest) }
    ensures { result.now ≡ name_of bytes.now }
{
    let end = 1 + (bytes[0] as usize);
    &bytes[1..end]
}

// An entry below the count: its length first, since the rest is read by it.
fn is_right(bytes: &[u8], folding: bool) -> bool
    requires { length bytes.now ≡ entry_size }
    ensures { result ≡ right_entry folding bytes.now }
{
    let len = bytes[0] as usize;
    if LONGEST < len {
        return false;
    }
    let end = 1 + len;
    if !is_zero(&bytes[end..]) {
        return false;
    }
    if !folding {
        return true;
    }
    is_folded(name_of(bytes))
}

// Every entry below the count, so that the names can be read.
fn all_right(table: &[u8], n: usize, folding: bool) -> bool
    requires { (length table.now ≡ table_size) × (n ≤ most) }
    ensures { result ≡ all_below n (λ i. right_entry folding (entry_at table.now i)) }
{
    for i in 0..n {
        if !is_right(entry_of(table, i), folding) {
            return false;
        }
    }
    true
}

impl<'a> Names<'a> {
    // The names of a right table: the size, the count, each entry, the bytes past the last one, no name twice.
    pub(crate) fn read(table: &'a [u8], folding: bool) -> Result<Names<'a>, TableRefusal>
        ensures { MatchResult result (λ names. (right_table folding table.now ≡ true) × (names.table.now ≡ table.now) × (names.count ≡ count_of table.now)) (λ _. right_table folding table.now ≡ false) }
    {
        if table.len() != SIZE {
            return Err(TableRefusal::BadTable);
        }
        let count = count_of(table);
        if MOST < count {
            return Err(TableRefusal::BadTable);
        }
        if !all_right(table, count, folding) {
            return Err(TableRefusal::BadTable);
        }
        let past = FIRST + count * ENTRY;
        if !is_zero(&table[past..]) {
            return Err(TableRefusal::BadTable);
        }
        let names = Names { table, count };
        if !none_twice(&names) {
            return Err(TableRefusal::BadTable);
        }
        Ok(names)
    }

    // The name of a number that one of these has.
    pub(crate) fn name(&self, i: usize) -> &'a [u8]
        requires { i < self.now.count }
        ensures { result.now ≡ name_of (entry_at self.now.table.now i) }
    {
        name_of(entry_of(self.table, i))
    }

    // Those before a place.
    pub(crate) fn before(&self, i: usize) -> Names<'a>
        requires { i ≤ self.now.count }
        ensures { (result.table.now ≡ self.now.table.now) × (result.count ≡ i) }
    {
        Names {
            table: self.table,
            count: i,
        }
    }

    // The number of the first that is this name, or their count.
    pub(crate) fn place_of(&self, name: &[u8], folding: bool) -> usize
        ensures { result ≡ place_of (kept folding name.now) (names_from self.now.table.now 0 self.now.count) }
    {
        for i in 0..self.count {
            if same_name(self.name(i), name, folding) {
                return i;
            }
        }
        self.count
    }
}
