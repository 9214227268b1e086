// No name twice, by fingerprints: names are compared byte by byte only where two fingerprints are equal.
// SPDX-License-Identifier: Apache-2.0
ghost use Rattle.std.specs.Prelude.{◌≡◌, ◌<◌, eqb, get_or};
ghost use Rattle.lists.specs.Tests.{non};
ghost use Rattle.lists.specs.Below.{any_below};
ghost use Rattle.names.specs.Bytes.{known, none_twice};
ghost use Rattle.names.specs.Table.{most, entry_at, name_of, names_from};
ghost use Rattle.names.specs.Code.{print_of, prints_of};

use crate::MOST;
use crate::judged::Names;

// FNV's two numbers, and how many fingerprints there are.
const BASIS: u64 = 2166136261;

const PRIME: u64 = 16777619;

const WRAP: u64 = 4294967296;

// Equal names have equal fingerprints, and other names hardly ever. A sum stands where FNV has an exclusive or: plain
// arithmetic serves as well, and is shorter to prove.
fn fingerprint(name: &[u8]) -> u32
    ensures { result ≡ print_of name.now }
{
    let mut h = BASIS;
    for b in name {
        h = (h * PRIME + (*b as u64)) % WRAP;
    }
    h as u32
}

// Each name's, worked out once a test and not once a pair.
fn fingerprints(names: &Names) -> [u32; MOST]
    ensures { result ≡ prints_of names.now.count names.now.table.now }
{
    let mut prints = [0u32; MOST];
    for i in 0..names.count {
        prints[i] = fingerprint(names.name(i));
    }
    prints
}

// Whether the i-th fingerprint stands at an earlier place too. There is no early return, so that several are compared at once.
fn print_before(prints: &[u32; MOST], i: usize) -> bool
    requires { i < most }
    ensures { result ≡ any_below i (λ j. eqb (get_or prints.now j 0) (get_or prints.now i 0)) }
{
    let print = prints[i];
    let mut before = false;
    for earlier in &prints[..i] {
        before = before | (*earlier == print);
    }
    before
}

// Whether the i-th name is none of those before it: a new fingerprint settles it, else the names are compared.
fn is_new(names: &Names, prints: &[u32; MOST], i: usize) -> bool
    requires { (i < names.now.count) × (prints.now ≡ prints_of names.now.count names.now.table.now) }
    ensures { result ≡ non (known (name_of (entry_at names.now.table.now i)) (names_from names.now.table.now 0 i)) }
{
    if !print_before(prints, i) {
        return true;
    }
    i <= names.before(i).place_of(names.name(i), false)
}

// Each name against those before it. Stored names are compared as they are.
pub(crate) fn none_twice(names: &Names) -> bool
    ensures { result ≡ none_twice (names_from names.now.table.now 0 names.now.count) }
{
    let prints = fingerprints(names);
    for i in 0..names.count {
        if !is_new(names, &prints, i) {
            return false;
        }
    }
    true
}
