// Fills a name table with 256 names, asks for each again in another case of its letters, and asks a full table for more.
// SPDX-License-Identifier: Apache-2.0
#![tactic(auto)]

use names::{NameRefusal, Named};
use std::io;

fn label(rt: &impl Print, what: &str, n: u64) -> io::Result<()> {
    println!(rt; "{what} {n}")
}

// A digit of the name's number, 0 to 9.
fn digit(x: usize) -> u8 {
    (x % 10) as u8 + b'0'
}

// The name of unit i: "EcU-007" and so on, or each letter in its other case.
fn unit(i: usize, other: bool) -> [u8; 7] {
    let mut n = [
        b'E',
        b'c',
        b'U',
        b'-',
        digit(i / 100),
        digit(i / 10),
        digit(i),
    ];
    if other {
        n[0] = b'e';
        n[1] = b'C';
        n[2] = b'u';
    }
    n
}

// How many of the first `count` units a call answers with their own number, as new or as known.
fn ask(table: &mut [u8], count: usize, other: bool, new: bool) -> u64 {
    let mut good = 0;
    for i in 0..count {
        let n = unit(i, other);
        let told = names::number_of(table, &n, true);
        if right(told, i, new) {
            good += 1;
        }
    }
    good
}

fn right(told: Result<Named, NameRefusal>, i: usize, new: bool) -> bool {
    match told {
        Ok(Named::Known(k)) => !new & (k as usize == i),
        Ok(Named::Learned(k)) => new & (k as usize == i),
        Err(_) => false,
    }
}

// An answer as document 01 has it: its number, and the name's number where there is one.
fn say(
    rt: &impl Print,
    table: &mut [u8],
    what: &str,
    name: &[u8],
    folding: bool,
) -> io::Result<()> {
    let told = names::number_of(table, name, folding);
    label(rt, what, names::paper(told) as u64)?;
    match told {
        Ok(Named::Known(k)) => label(rt, "  known", k as u64),
        Ok(Named::Learned(k)) => label(rt, "  new", k as u64),
        Err(_) => Ok(()),
    }
}

// A table that folds: 256 names, each again, and what a full table and a spoiled one answer.
fn units(rt: &impl Print) -> io::Result<()> {
    let mut table = [0u8; names::SIZE];
    label(rt, "learned", ask(&mut table, names::MOST, false, true))?;
    label(rt, "asked again", ask(&mut table, names::MOST, true, false))?;
    say(rt, &mut table, "one more:", b"Gateway", true)?;
    say(rt, &mut table, "an old one:", b"ecu-200", true)?;
    rt.write_all(names::name_at(&table, 42, true))?;
    println!(rt; "")?;
    say(
        rt,
        &mut table,
        "65 bytes:",
        &[b'x'; names::LONGEST + 1],
        true,
    )?;
    table[names::SIZE - 1] = 1;
    say(rt, &mut table, "a spoiled table:", b"ecu-200", true)
}

// A table that keeps the case.
fn subjects(rt: &impl Print) -> io::Result<()> {
    let mut table = [0u8; names::SIZE];
    say(rt, &mut table, "a subject:", b"Tester", false)?;
    say(rt, &mut table, "in another case:", b"TESTER", false)?;
    say(rt, &mut table, "no bytes:", b"", false)?;
    say(rt, &mut table, "again:", b"Tester", false)
}

fn main(rt: HostRuntime) -> io::Result<()> {
    units(&rt)?;
    subjects(&rt)
}
