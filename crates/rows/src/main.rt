// Every row of document 01's bench sheet, run on the code. A line a row: its name, then for its last operation the answer's
// number, the revision, how many active and defunct locks are left, and what the row speaks of (an id, an ECU, a time, the
// removed).
// SPDX-License-Identifier: Apache-2.0
#![tactic(auto)]

use coverage::LockCoverage;
use ids::LockId;
use operations::answers::{Expiration, Expired, Inserted, Refusal, Renewed, Replaced};
use operations::{delete, insert, insert_vehicle, numbers, renew, replace};
use state::{ActiveLock, Lock, LockState, ScopeKey};
use std::io;

// ---- what is printed
fn left(rt: &impl Print, name: &str, answer: u64, s: &LockState) -> io::Result<()> {
    print!(rt;
        "{name} {answer} {} {} {}",
        s.revision, s.actives, s.defuncts
    )
}

fn ids_of(rt: &impl Print, removed: &[ActiveLock], gone: usize) -> io::Result<()> {
    rt.print(" removed")?;
    for a in removed.iter().take(gone) {
        print!(rt; " {}", a.lock.id.lo)?;
    }
    rt.println("")
}

// ---- what is inserted: what the sheet leaves open is zero
fn id(n: u64) -> LockId {
    LockId { hi: 0, lo: n }
}

fn lock(n: u64, scope: ScopeKey, c: LockCoverage, subject: u16) -> ActiveLock {
    let l = Lock {
        id: id(n),
        coverage: c,
        subject,
        scope,
        ..state::blank_lock()
    };
    ActiveLock {
        lock: l,
        parent: id(0),
        expires: 100,
        child: false,
    }
}

fn ecu5(n: u64, subject: u16) -> ActiveLock {
    lock(n, ScopeKey::Ecu(5), LockCoverage::new(b"\x05"), subject)
}

fn group3(n: u64, ecus: &[u8], subject: u16) -> ActiveLock {
    lock(
        n,
        ScopeKey::FunctionalGroup(3),
        LockCoverage::new(ecus),
        subject,
    )
}

fn whole(n: u64, subject: u16) -> ActiveLock {
    lock(n, ScopeKey::Vehicle, LockCoverage::vehicle(), subject)
}

fn put(s: LockState, a: ActiveLock) -> LockState {
    let r = insert::insert_active(s, a);
    r.state
}

// A is: from empty, insert id 1, ECU 5, set {5}, subject 1, expiry 100.
fn a() -> LockState {
    put(LockState::empty(), ecu5(1, 1))
}

// ---- a line for each kind of operation
fn inserted(rt: &impl Print, name: &str, r: Inserted) -> io::Result<()> {
    left(rt, name, numbers::of_answer(r.told), &r.state)?;
    match r.told {
        Err(Refusal::DuplicateId(i)) => print!(rt; " {}", i.lo)?,
        Err(Refusal::CoverageConflict(i, Some(e))) => print!(rt; " {} at ECU {e}", i.lo)?,
        Err(Refusal::CoverageConflict(i, None)) => print!(rt; " {}", i.lo)?,
        _ => {}
    }
    rt.println("")
}

fn renewed(rt: &impl Print, name: &str, r: Renewed) -> io::Result<()> {
    left(rt, name, numbers::of_renewal(r.told), &r.state)?;
    rt.println("")
}

fn expired(rt: &impl Print, name: &str, r: Expired) -> io::Result<()> {
    left(rt, name, numbers::of_expiration(r.told.answer), &r.state)?;
    if let Ok(Expiration::NotDue(t)) = r.told.answer {
        print!(rt; " not due {t}")?;
    }
    ids_of(rt, &r.told.removed, r.told.gone)
}

fn replaced(rt: &impl Print, name: &str, r: Replaced) -> io::Result<()> {
    left(rt, name, numbers::of_answer(r.told.answer), &r.state)?;
    ids_of(rt, &r.told.removed, r.told.gone)
}

// ---- the rows
fn insertions(rt: &impl Print) -> io::Result<()> {
    inserted(
        rt,
        "A:",
        insert::insert_active(LockState::empty(), ecu5(1, 1)),
    )?;
    inserted(
        rt,
        "group {5,6}:",
        insert::insert_active(a(), group3(2, b"\x05\x06", 2)),
    )?;
    inserted(
        rt,
        "group {6}:",
        insert::insert_active(a(), group3(2, b"\x06", 2)),
    )?;
    inserted(
        rt,
        "vehicle of another:",
        insert::insert_active(a(), whole(2, 2)),
    )?;
    let s = put(
        LockState::empty(),
        lock(1, ScopeKey::Ecu(5), LockCoverage::empty(), 1),
    );
    inserted(
        rt,
        "group over an empty set:",
        insert::insert_active(s, group3(2, b"\x05", 2)),
    )
}

fn times(rt: &impl Print) -> io::Result<()> {
    renewed(
        rt,
        "renew at 100:",
        renew::renew(a(), id(1), 200, 100, false, 0),
    )?;
    expired(
        rt,
        "expire at 99:",
        delete::begin_expiration(a(), id(1), 99),
    )?;
    expired(
        rt,
        "expire at 100:",
        delete::begin_expiration(a(), id(1), 100),
    )?;
    renewed(
        rt,
        "renew at 99 to 100:",
        renew::renew(a(), id(1), 100, 99, false, 0),
    )
}

// ECU 5 id 3 {5}; group 3 {5,6}; a vehicle lock with only the group as child; one subject.
fn family(vehicle_id: u64, group_id: u64) -> LockState {
    let s = put(LockState::empty(), ecu5(3, 1));
    let t = put(s, group3(group_id, b"\x05\x06", 1));
    let list = [0u64, group_id];
    let r = insert_vehicle::insert_vehicle(t, whole(vehicle_id, 1), &list);
    r.state
}

fn replacements(rt: &impl Print) -> io::Result<()> {
    let one = [0u64, 1];
    replaced(
        rt,
        "replace by one's own:",
        replace::commit_replacement(a(), &one, ecu5(2, 1), 0, 0),
    )?;
    replaced(
        rt,
        "replace by another's:",
        replace::commit_replacement(a(), &one, ecu5(2, 2), 0, 0),
    )?;
    let both = [0u64, 1, 0, 2];
    replaced(
        rt,
        "vehicle 1, group 2:",
        replace::commit_replacement(family(1, 2), &both, ecu5(4, 1), 0, 0),
    )?;
    replaced(
        rt,
        "vehicle 2, group 1:",
        replace::commit_replacement(family(2, 1), &both, ecu5(4, 1), 0, 0),
    )
}

const ACTIVES: u8 = LockState::ACTIVE as u8;

// As many locks as there may be, each on a group, with empty sets: no two meet.
fn full() -> LockState {
    let mut s = LockState::empty();
    for i in 0..ACTIVES {
        let g = lock(
            u64::from(i) + 1,
            ScopeKey::FunctionalGroup(i),
            LockCoverage::empty(),
            1,
        );
        s = put(s, g);
    }
    s
}

fn limits(rt: &impl Print) -> io::Result<()> {
    inserted(rt, "a 65th:", insert::insert_active(full(), ecu5(65, 1)))?;
    inserted(rt, "a used id:", insert::insert_active(full(), ecu5(64, 1)))?;
    let one = [0u64, 1];
    replaced(
        rt,
        "a replacement of one:",
        replace::commit_replacement(full(), &one, ecu5(65, 1), 0, 0),
    )
}

fn main(rt: HostRuntime) -> io::Result<()> {
    insertions(&rt)?;
    times(&rt)?;
    replacements(&rt)?;
    limits(&rt)
}
