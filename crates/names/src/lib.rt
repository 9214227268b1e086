// Name tables in lent buffers: a name's number, and a number's name.
// SPDX-License-Identifier: Apache-2.0
#![tactic(auto)]

mod judged;
mod twice;

ghost use Rattle.std.specs.Prelude.{◌≡◌, ◌==◌, not, ◌∷◌, ◌+◌, ◌≤◌, ◌<◌, length};
ghost use Rattle.std.specs.List.{list_all, zip};
ghost use Rattle.std.specs.Char.{is_ascii_uppercase};
ghost use Rattle.lists.specs.Places.{splice};
ghost use Rattle.names.specs.Bytes.{fold1, keep1, kept, same_bytes};
ghost use Rattle.names.specs.Table.{longest, most, table_size, count_bytes, entry_start, right_table};
ghost use Rattle.names.specs.Answers.{count_in, done, number_of, paper_of, place_at, name_at};

use crate::judged::Names;

// A table: a count of two bytes, least first, and 256 entries of a length byte and 64 bytes.
pub const LONGEST: usize = 64;

pub const MOST: usize = 256;

const ENTRY: usize = 1 + LONGEST;

const FIRST: usize = 2;

pub const SIZE: usize = FIRST + MOST * ENTRY;

// Why a table tells nothing.
#[derive(Clone, Copy, PartialEq, Eq)]
pub enum TableRefusal {
    // 27
    BadTable,
}

// Why a name has no number.
#[derive(Clone, Copy, PartialEq, Eq)]
pub enum NameRefusal {
    // 27
    BadTable,
    // 22
    NameTooLong,
    // 23
    NamesFull,
}

impl From<TableRefusal> for NameRefusal {
    ghost use Rattle.names.specs.declared.NameRefusal.TheVariants.{BadTable};

    ghost from_gives = { λ _ e. e ≡ BadTable };

    fn from(refusal: TableRefusal) -> NameRefusal {
        match refusal {
            TableRefusal::BadTable => NameRefusal::BadTable,
        }
    }
}

// A name's number.
#[derive(Clone, Copy, PartialEq, Eq)]
pub enum Named {
    // The name was there, with this number.
    Known(u8),
    // The name is there from now on, with this number.
    Learned(u8),
}

// Where a name stands in the buffer.
#[derive(Clone, Copy, PartialEq, Eq)]
pub struct Place {
    pub start: usize,
    pub len: usize,
}

// One byte as normalize_name has it: ASCII capital letters become small ones.
pub fn fold_byte(b: u8) -> u8
    ensures { result ≡ fold1 b }
{
    b.to_ascii_lowercase()
}

// A byte as a table keeps it: subjects keep their case.
fn keep_byte(b: u8, folding: bool) -> u8
    ensures { result ≡ keep1 folding b }
{
    if folding { fold_byte(b) } else { b }
}

// Whether bytes are a name's, as the table keeps it, as far as both go.
fn same_so_far(stored: &[u8], name: &[u8], folding: bool) -> bool
    ensures { result ≡ list_all (λ p. p.0 == keep1 folding p.1) (zip stored.now name.now) }
{
    stored
        .iter()
        .zip(name)
        .all(|(s, b)| *s == keep_byte(*b, folding))
}

// Whether a stored name is this name, as the table keeps it. Lengths first: most pairs differ there.
pub(crate) fn same_name(stored: &[u8], name: &[u8], folding: bool) -> bool
    ensures { result ≡ same_bytes stored.now (kept folding name.now) }
{
    stored.len() == name.len() && same_so_far(stored, name, folding)
}

// No capital letter: what a table that folds may hold.
pub(crate) fn is_folded(name: &[u8]) -> bool
    ensures { result ≡ list_all (λ b. not (is_ascii_uppercase b)) name.now }
{
    name.iter().all(|b| !b.is_ascii_uppercase())
}

// Bytes that nothing uses are zero, so that equal tables are equal bytes.
pub(crate) fn is_zero(bytes: &[u8]) -> bool
    ensures { result ≡ list_all (λ b. b == 0) bytes.now }
{
    bytes.iter().all(|b| *b == 0)
}

// 27: the size, the count, each entry, the bytes past the last one, no name twice.
pub fn check_table(table: &[u8], folding: bool) -> bool
    ensures { result ≡ right_table folding table.now }
{
    Names::read(table, folding).is_ok()
}

// How many names the table has, 0 to 256.
pub fn count(table: &[u8], folding: bool) -> Result<u16, TableRefusal>
    ensures { result ≡ count_in folding table.now }
{
    Ok(Names::read(table, folding)?.count as u16)
}

// Writes the name into entry n and counts it. What the entry held past its new length stays: it is zero.
fn learn(table: &mut [u8], name: &[u8], folding: bool, n: usize)
    requires { (length table.old ≡ table_size) × (length name.now ≤ longest) × (n < most) }
    ensures { table.new ≡ splice (splice table.old (entry_start n) (length name.now ∷ kept folding name.now)) 0 (count_bytes (n + 1)) }
{
    let start = FIRST + n * ENTRY;
    table[start] = name.len() as u8;
    let at = start + 1;
    for (i, b) in name.iter().enumerate() {
        table[at + i] = keep_byte(*b, folding);
    }
    let [low, high] = ((n + 1) as u16).to_le_bytes();
    table[0] = low;
    table[1] = high;
}

// The name's number. A new name takes the next one; a refusal leaves every byte.
pub fn number_of(table: &mut [u8], name: &[u8], folding: bool) -> Result<Named, NameRefusal>
    ensures { done result table.new ≡ number_of folding table.old name.now }
{
    let names = Names::read(table, folding)?;
    if LONGEST < name.len() {
        return Err(NameRefusal::NameTooLong);
    }
    let n = names.count;
    let at = names.place_of(name, folding);
    if at < n {
        return Ok(Named::Known(at as u8));
    }
    if MOST <= n {
        return Err(NameRefusal::NamesFull);
    }
    learn(table, name, folding, n);
    Ok(Named::Learned(n as u8))
}

// Document 01's number of an answer; 0 where it is no refusal.
pub fn paper(told: Result<Named, NameRefusal>) -> u8
    ensures { result ≡ paper_of told }
{
    match told {
        Err(NameRefusal::BadTable) => 27,
        Err(NameRefusal::NameTooLong) => 22,
        Err(NameRefusal::NamesFull) => 23,
        Ok(_) => 0,
    }
}

// Where the number's name stands in the buffer; nothing where a right table has no such number.
pub fn place_at(table: &[u8], number: u16, folding: bool) -> Result<Option<Place>, TableRefusal>
    ensures { result ≡ place_at folding table.now number }
{
    let names = Names::read(table, folding)?;
    let i = number as usize;
    if names.count <= i {
        return Ok(None);
    }
    let start = FIRST + i * ENTRY;
    Ok(Some(Place {
        start: start + 1,
        len: table[start] as usize,
    }))
}

// The number's name as a part of the buffer; the empty part where there is none. The empty name is a name too: `place_at`
// tells the two apart.
pub fn name_at(table: &[u8], number: u16, folding: bool) -> &[u8]
    ensures { result.now ≡ name_at folding table.now number }
{
    let Ok(names) = Names::read(table, folding) else {
        return &table[..0];
    };
    let i = number as usize;
    if names.count <= i {
        return &table[..0];
    }
    names.name(i)
}
