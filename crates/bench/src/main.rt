// What bench/run times and bench/copies counts. Standard input: a byte that says what is timed, a byte k for 2^k turns, then an
// image. Each turn's revision comes from the turn before, so that no turn can be left out; what is printed is the sum over all.
// With 16 more in the first byte it is the answer of one call.
// SPDX-License-Identifier: Apache-2.0
#![tactic(auto)]

use ids::LockId;
use image::Spare;
use operations::answers::{
    Acknowledged, DefunctsExpired, Deleted, Expired, Inserted, Renewed, Replaced,
};
use operations::{acknowledge, delete, insert, insert_vehicle, numbers, renew, replace};
use records::layout;
use rules::Unsound;
use state::{ActiveLock, Lock, LockState, ScopeKey};
use std::io;
use std::io::Read;

fn words_of_lock(l: &Lock) -> u64 {
    l.id.hi
        .wrapping_add(l.id.lo)
        .wrapping_add(u64::from(l.subject))
        .wrapping_add(u64::from(l.metadata))
}

// Some words of what a turn left: of one lock and one entry, at places that only the sum so far tells. So all of it must be
// there, and no copy of it can be left out.
fn sum(s: &LockState, total: u64) -> u64 {
    let a = &s.active[(total % 64) as usize];
    let d = &s.defunct[(total % 128) as usize];
    s.revision
        .wrapping_add(s.actives as u64)
        .wrapping_add(s.defuncts as u64)
        .wrapping_add(a.expires)
        .wrapping_add(d.expires)
        .wrapping_add(words_of_lock(&a.lock))
        .wrapping_add(words_of_lock(&d.lock))
}

fn tested(s: LockState, total: u64) -> u64 {
    match rules::broken(s) {
        Ok(()) => sum(&s, total),
        Err(Unsound::Rule(n)) => u64::from(n),
    }
}

// A lock that no state of the benchmark has: an ECU's of its own.
fn new_lock(scope: ScopeKey) -> ActiveLock {
    let l = Lock {
        id: LockId {
            hi: 18446744073709551615,
            lo: 1,
        },
        subject: 65535,
        scope,
        ..state::blank_lock()
    };
    ActiveLock {
        lock: l,
        parent: LockId { hi: 0, lo: 0 },
        expires: 18446744073709551615,
        child: false,
    }
}

fn first_id(s: &LockState) -> LockId {
    s.active[0].lock.id
}

fn first_entry(s: &LockState) -> LockId {
    s.defunct[0].lock.id
}

// ---- one call of each. Both functions after them call them, so that the compiler leaves each a function of its own, whose
// frame bench/stack reads. One function for both, with a closure for what is read (tried), clears and copies each answer once
// more in every turn.
fn insert_active(s: LockState) -> Inserted {
    insert::insert_active(s, new_lock(ScopeKey::Ecu(255)))
}

fn insert_vehicle(s: LockState) -> Inserted {
    let none = [0u64; 0];
    insert_vehicle::insert_vehicle(s, new_lock(ScopeKey::Vehicle), &none)
}

fn renew(s: LockState) -> Renewed {
    renew::renew(s, first_id(&s), 18446744073709551615, 0, false, 0)
}

fn delete(s: LockState) -> Deleted {
    delete::delete(s, first_id(&s))
}

fn begin_expiration(s: LockState) -> Expired {
    delete::begin_expiration(s, first_id(&s), 18446744073709551615)
}

fn commit_replacement(s: LockState) -> Replaced {
    let id = first_id(&s);
    let one = [id.hi, id.lo];
    replace::commit_replacement(s, &one, new_lock(ScopeKey::Ecu(255)), 1, 1)
}

fn acknowledge_defunct(s: LockState) -> Acknowledged {
    acknowledge::acknowledge_defunct(s, first_entry(&s))
}

fn expire_defunct(s: LockState) -> DefunctsExpired {
    acknowledge::expire_defunct(s, 18446744073709551615)
}

fn changed(s: LockState, what: u8, total: u64) -> u64 {
    match what {
        2 => sum(&insert_active(s).state, total),
        3 => sum(&insert_vehicle(s).state, total),
        4 => sum(&renew(s).state, total),
        5 => sum(&delete(s).state, total),
        6 => sum(&begin_expiration(s).state, total),
        7 => sum(&commit_replacement(s).state, total),
        8 => sum(&acknowledge_defunct(s).state, total),
        _ => sum(&expire_defunct(s).state, total),
    }
}

fn answered(s: LockState, what: u8) -> u64 {
    match what {
        2 => numbers::of_answer(insert_active(s).told),
        3 => numbers::of_answer(insert_vehicle(s).told),
        4 => numbers::of_renewal(renew(s).told),
        5 => numbers::of_deletion(delete(s).told.answer),
        6 => numbers::of_expiration(begin_expiration(s).told.answer),
        7 => numbers::of_answer(commit_replacement(s).told.answer),
        8 => numbers::of_acknowledgement(acknowledge_defunct(s).told),
        _ => numbers::of_expiry(expire_defunct(s).told.answer),
    }
}

// 0 is the loop alone, 1 the test, the others are the operations.
fn one(s: LockState, what: u8, total: u64) -> u64 {
    match what {
        0 => sum(&s, total),
        1 => tested(s, total),
        _ => changed(s, what, total),
    }
}

// n turns, each of which is given the sum over those before it.
fn total<F: FnMut(u64) -> u64>(n: u64, mut turn: F) -> u64
    requires { F.IsAlwaysCallable turn }
{
    let mut total = 0u64;
    for _ in 0..n {
        total = total.wrapping_add(turn(total));
    }
    total
}

fn turns(s: LockState, what: u8, n: u64) -> u64 {
    let mut a = s;
    total(n, |total| {
        a.revision = total % 1048576;
        one(a, what, total)
    })
}

// ---- an image read and written, and what they are compared with: real copies. Each turn reads what the turn before left, at a
// place that only the sum so far tells, so that no copy can be left out.
fn low(x: u64) -> u8 {
    (x % 0x100) as u8
}

fn byte_at(bytes: &[u8], i: usize) -> u64 {
    bytes.get(i).map_or(0, |b| u64::from(*b))
}

// The image with another lowest byte of its revision.
fn read_once(bytes: &mut [u8], total: u64) -> u64 {
    if bytes.len() < layout::HEAD_RECORD {
        return 0;
    }
    bytes[layout::FRAME] = low(total);
    sum(&image::read::read_image(bytes).spare.state, total)
}

fn reads(bytes: &mut [u8], n: u64) -> u64 {
    total(n, |total| read_once(bytes, total))
}

fn write_once(spare: Spare, out: &mut [u8]) -> u64 {
    match image::write::write_image(spare, out) {
        Ok(n) => byte_at(out, n / 2),
        Err(_) => 0,
    }
}

fn writes(s: LockState, out: &mut [u8], n: u64) -> u64 {
    let mut a = Spare {
        state: s,
        expected: 0,
    };
    total(n, |total| {
        a.expected = (total % 1048576) as u32;
        write_once(a, out).wrapping_add(1)
    })
}

fn copy_once(bytes: &mut [u8], out: &mut [u8], total: u64) -> u64 {
    let n = bytes.len();
    if n < layout::HEAD_RECORD || out.len() < n {
        return 0;
    }
    bytes[layout::FRAME] = low(total);
    out[..n].copy_from_slice(bytes);
    byte_at(out, total as usize % n)
}

fn copies(bytes: &mut [u8], out: &mut [u8], n: u64) -> u64 {
    total(n, |total| copy_once(bytes, out, total).wrapping_add(1))
}

// Between two states.
fn state_copies(s: LockState, n: u64) -> u64 {
    let mut pool = [s; 2];
    total(n, |total| {
        let k = (total % 2) as usize;
        pool[1 - k] = pool[k];
        pool[1 - k].revision
    })
}

fn by_bytes(bytes: &mut [u8], what: u8, n: u64) -> u64 {
    let mut out = [0u8; 65536];
    let state = image::read::read_image(bytes).spare.state;
    if what > 15 {
        return answered(state, what % 16);
    }
    match what {
        10 => reads(bytes, n),
        11 => writes(state, &mut out, n),
        12 => copies(bytes, &mut out, n),
        13 => state_copies(state, n),
        _ => turns(state, what, n),
    }
}

fn main(rt: HostRuntime) -> io::Result<()> {
    let mut input = Vec::new(rt.alloc());
    rt.reader().take(65536).read_to_end(&mut input)?;
    let n = input.len();
    if n < 2 {
        return Ok(());
    }
    let what = input[0];
    let k = input[1] % 32;
    let total = by_bytes(&mut input[2..n], what, 1u64 << (k as u64));
    println!(rt; "{total}")
}
