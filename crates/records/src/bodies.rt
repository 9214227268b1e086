// The bodies that a lock, an id, a time and HEAD make: each is read from a part of a slice that is that body, and stored there.
// SPDX-License-Identifier: Apache-2.0
ghost use Rattle.std.specs.Prelude.{◌≡◌, ◌+◌, ◌≤◌, Some, None, length, take, refl, true};
ghost use Rattle.std.proofs.Common.{lit≤};
ghost use Rattle.records.specs.Numbers.{field, big};
ghost use Rattle.records.specs.Layouts.{total};
ghost use Rattle.records.specs.Codecs.{in_body, decode_by, put_fields, number};
ghost use Rattle.records.specs.Wire.{flag, scope_kind, scope_number, id, scope_of, scope_right, set_right, parent_right, lock_start, active, defunct, head};
ghost use Rattle.records.specs.Feeds.{target};

use crate::body::{Body, decode};
use crate::{fields, layout};
use coverage::LockCoverage;
use ids::LockId;
use state::{ActiveLock, DefunctLock, Lock, LockState, ScopeKey};

// The state's limits, in HEAD's width.
const MOST_ACTIVES: u16 = LockState::ACTIVE as u16;

const MOST_DEFUNCTS: u16 = LockState::DEFUNCT as u16;

// expected: the sequence number that is due next in the feed.
#[derive(Clone, Copy)]
pub struct Head {
    pub revision: u64,
    pub expected: u32,
    pub actives: u16,
    pub defuncts: u16,
}

// ---- what is right of the numbers
pub fn scope_right(kind: u8, number: u8) -> bool
    ensures { result ≡ scope_right kind number }
{
    (kind <= 2) & ((kind != 0) | (number == 0))
}

fn set_right(kind: u8, w0: u64, w1: u64, w2: u64, w3: u64) -> bool
    ensures { result ≡ set_right kind w0 w1 w2 w3 }
{
    (kind <= 1) & ((kind != 0) | ((w0 == 0) & (w1 == 0) & (w2 == 0) & (w3 == 0)))
}

fn parent_right(kind: u8, hi: u64, lo: u64) -> bool
    ensures { result ≡ parent_right kind hi lo }
{
    (kind <= 1) & ((kind != 0) | ((hi == 0) & (lo == 0)))
}

fn lock_right(s: &[u8]) -> bool
    requires { total lock_start.layout ≤ length s.now }
    ensures { result ≡ lock_start.right (in_body lock_start s.now) }
{
    let scope = scope_right(
        fields::u8_at(s, layout::SCOPE_KIND),
        fields::u8_at(s, layout::SCOPE_NUMBER),
    );
    let exclusive = fields::u8_at(s, layout::EXCLUSIVE) <= 1;
    let set = set_right(
        fields::u8_at(s, layout::COVERAGE_KIND),
        fields::u64_at(s, layout::SET),
        fields::u64_at(s, layout::SET_1),
        fields::u64_at(s, layout::SET_2),
        fields::u64_at(s, layout::SET_3),
    );
    scope & exclusive & set
}

// ---- what the numbers make
pub(crate) fn id_at(s: &[u8], at: usize) -> LockId
    requires { at + 16 ≤ length s.now }
    ensures { result ≡ id (field (big 8) s.now at) (field (big 8) s.now (at + 8)) }
{
    LockId {
        hi: fields::big64_at(s, at),
        lo: fields::big64_at(s, at + layout::HALF),
    }
}

// Total, as `made` of a codec is (specs/Wire.antt): `scope_right` guards it.
pub fn scope_of(kind: u8, number: u8) -> ScopeKey
    ensures { result ≡ scope_of kind number }
{
    if kind == 0 {
        return ScopeKey::Vehicle;
    }
    if kind == 1 {
        return ScopeKey::Ecu(number);
    }
    ScopeKey::FunctionalGroup(number)
}

fn lock_made(s: &[u8]) -> Lock
    requires { total lock_start.layout ≤ length s.now }
    ensures { result ≡ lock_start.made (in_body lock_start s.now) }
{
    let coverage = LockCoverage {
        w0: fields::u64_at(s, layout::SET),
        w1: fields::u64_at(s, layout::SET_1),
        w2: fields::u64_at(s, layout::SET_2),
        w3: fields::u64_at(s, layout::SET_3),
        whole: fields::u8_at(s, layout::COVERAGE_KIND) == 0,
    };
    Lock {
        id: id_at(s, 0),
        coverage,
        principal: fields::u32_at(s, layout::PRINCIPAL),
        metadata: fields::u32_at(s, layout::METADATA),
        subject: fields::u16_at(s, layout::SUBJECT),
        scope: scope_of(
            fields::u8_at(s, layout::SCOPE_KIND),
            fields::u8_at(s, layout::SCOPE_NUMBER),
        ),
        exclusive: fields::u8_at(s, layout::EXCLUSIVE) == 1,
    }
}

// ---- what is stored for them
pub(crate) fn flag_of(b: bool) -> u8
    ensures { result ≡ flag b }
{
    b as u8
}

// A scope's kind and number.
fn numbers_of(k: ScopeKey) -> (u8, u8)
    ensures { result ≡ (scope_kind k, scope_number k) }
{
    match k {
        ScopeKey::Vehicle => (0, 0),
        ScopeKey::Ecu(n) => (1, n),
        ScopeKey::FunctionalGroup(n) => (2, n),
    }
}

// ---- a lock start, in three pieces: id, scope and flags; the set; the rest
fn put_start(out: &mut [u8], l: Lock)
    requires { total lock_start.layout ≤ length out.old }
    ensures { out.new ≡ put_fields lock_start 0 6 l out.old 0 }
{
    let (kind, number) = numbers_of(l.scope);
    fields::put_big64(out, 0, l.id.hi);
    fields::put_big64(out, layout::HALF, l.id.lo);
    fields::put_u8(out, layout::SCOPE_KIND, kind);
    fields::put_u8(out, layout::SCOPE_NUMBER, number);
    fields::put_u8(out, layout::EXCLUSIVE, flag_of(l.exclusive));
    fields::put_u8(out, layout::COVERAGE_KIND, flag_of(!l.coverage.whole));
}

fn put_set(out: &mut [u8], l: Lock)
    requires { total lock_start.layout ≤ length out.old }
    ensures { out.new ≡ put_fields lock_start 6 4 l out.old (total (take 6 lock_start.layout)) }
{
    fields::put_u64(out, layout::SET, l.coverage.w0);
    fields::put_u64(out, layout::SET_1, l.coverage.w1);
    fields::put_u64(out, layout::SET_2, l.coverage.w2);
    fields::put_u64(out, layout::SET_3, l.coverage.w3);
}

fn put_lock(out: &mut [u8], l: Lock)
    requires { total lock_start.layout ≤ length out.old }
    ensures { out.new ≡ put_fields lock_start 0 13 l out.old 0 }
{
    put_start(out, l);
    put_set(out, l);
    fields::put_u16(out, layout::SUBJECT, l.subject);
    fields::put_u32(out, layout::PRINCIPAL, l.principal);
    fields::put_u32(out, layout::METADATA, l.metadata);
}

// ---- HEAD
impl Body for Head {
    ghost codec = { head };

    ghost SIZE = { 16 };

    ghost sized = { refl };

    ghost small = { lit≤ tt };

    ghost counts = { λ h. refl };

    const SIZE: usize = layout::HEAD;

    fn right(s: &[u8]) -> bool {
        let h = Head::made(s);
        (h.actives <= MOST_ACTIVES) & (h.defuncts <= MOST_DEFUNCTS)
    }

    fn made(s: &[u8]) -> Head {
        Head {
            revision: fields::u64_at(s, 0),
            expected: fields::u32_at(s, layout::EXPECTED),
            actives: fields::u16_at(s, layout::ACTIVES),
            defuncts: fields::u16_at(s, layout::DEFUNCTS),
        }
    }

    fn put(self, out: &mut [u8]) {
        fields::put_u64(out, 0, self.revision);
        fields::put_u32(out, layout::EXPECTED, self.expected);
        fields::put_u16(out, layout::ACTIVES, self.actives);
        fields::put_u16(out, layout::DEFUNCTS, self.defuncts);
    }
}

// ---- ACTIVE
impl Body for ActiveLock {
    ghost codec = { active };

    ghost SIZE = { 87 };

    ghost sized = { refl };

    ghost small = { lit≤ tt };

    ghost counts = { λ a. refl };

    const SIZE: usize = layout::ACTIVE;

    fn right(s: &[u8]) -> bool {
        let lock = lock_right(s);
        let parent = parent_right(
            fields::u8_at(s, layout::HAS_PARENT),
            fields::big64_at(s, layout::PARENT),
            fields::big64_at(s, layout::PARENT_LO),
        );
        lock & parent
    }

    fn made(s: &[u8]) -> ActiveLock {
        ActiveLock {
            lock: lock_made(s),
            parent: id_at(s, layout::PARENT),
            expires: fields::u64_at(s, layout::EXPIRY),
            child: fields::u8_at(s, layout::HAS_PARENT) == 1,
        }
    }

    fn put(self, out: &mut [u8]) {
        put_lock(out, self.lock);
        fields::put_u64(out, layout::EXPIRY, self.expires);
        fields::put_u8(out, layout::HAS_PARENT, flag_of(self.child));
        fields::put_big64(out, layout::PARENT, self.parent.hi);
        fields::put_big64(out, layout::PARENT_LO, self.parent.lo);
    }
}

// ---- DEFUNCT
impl Body for DefunctLock {
    ghost codec = { defunct };

    ghost SIZE = { 100 };

    ghost sized = { refl };

    ghost small = { lit≤ tt };

    ghost counts = { λ d. refl };

    const SIZE: usize = layout::DEFUNCT;

    fn right(s: &[u8]) -> bool {
        lock_right(s)
    }

    fn made(s: &[u8]) -> DefunctLock {
        DefunctLock {
            lock: lock_made(s),
            target: id_at(s, layout::TARGET),
            expires: fields::u64_at(s, layout::EXPIRY),
            broken: fields::u64_at(s, layout::BROKEN_AT),
            breaker: fields::u32_at(s, layout::BROKEN_BY),
            holder: fields::u16_at(s, layout::HOLDER),
        }
    }

    fn put(self, out: &mut [u8]) {
        put_lock(out, self.lock);
        fields::put_u64(out, layout::EXPIRY, self.expires);
        fields::put_u64(out, layout::BROKEN_AT, self.broken);
        fields::put_u32(out, layout::BROKEN_BY, self.breaker);
        fields::put_big64(out, layout::TARGET, self.target.hi);
        fields::put_big64(out, layout::TARGET_LO, self.target.lo);
        fields::put_u16(out, layout::HOLDER, self.holder);
    }
}

// ---- an id alone, a time alone: the feed has such bodies
impl Body for LockId {
    ghost codec = { target };

    ghost SIZE = { 16 };

    ghost sized = { refl };

    ghost small = { lit≤ tt };

    ghost counts = { λ i. refl };

    const SIZE: usize = layout::ID;

    fn right(s: &[u8]) -> bool {
        true
    }

    fn made(s: &[u8]) -> LockId {
        id_at(s, 0)
    }

    fn put(self, out: &mut [u8]) {
        fields::put_big64(out, 0, self.hi);
        fields::put_big64(out, layout::HALF, self.lo);
    }
}

impl Body for u64 {
    ghost codec = { number 8 };

    ghost SIZE = { 8 };

    ghost sized = { refl };

    ghost small = { lit≤ tt };

    ghost counts = { λ x. refl };

    const SIZE: usize = layout::TIME;

    fn right(s: &[u8]) -> bool {
        true
    }

    fn made(s: &[u8]) -> u64 {
        fields::u64_at(s, 0)
    }

    fn put(self, out: &mut [u8]) {
        fields::put_u64(out, 0, self);
    }
}

// ---- the three bodies of an image, each under the name that docs/PROMISES.md has: the generic reader stands on a trait whose
// functions ask for room, so it is the crate's own. None: a length, count or field is wrong (19).
pub fn decode_head(s: &[u8]) -> Option<Head>
    ensures { result ≡ decode_by head Some None s.now }
{
    decode(s)
}

pub fn decode_active(s: &[u8]) -> Option<ActiveLock>
    ensures { result ≡ decode_by active Some None s.now }
{
    decode(s)
}

pub fn decode_defunct(s: &[u8]) -> Option<DefunctLock>
    ensures { result ≡ decode_by defunct Some None s.now }
{
    decode(s)
}
