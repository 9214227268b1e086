// The bodies of feed records: what the primary asks for. Ids that follow a count stay in the slice:
// `list_in` finds them there, `words_of` takes them out.
// SPDX-License-Identifier: Apache-2.0
ghost use Rattle.std.specs.Prelude.{◌≡◌, ◌/◌, min, length, drop, refl};
ghost use Rattle.std.proofs.Common.{lit≤};
ghost use Rattle.lists.specs.Places.{in_places};
ghost use Rattle.records.specs.Feeds.{metadata_right, renewal, expiration, replacement, request_of, list_in, words_in};

use crate::body::{Body, decode_listed, decode_numbered};
use crate::{bodies, fields, kinds, layout};
use ids::LockId;
use state::ActiveLock;

// Where the fields of a request stand in the part after the sequence number, which is what its codec is of.
const EXPIRY: usize = layout::RENEWED_EXPIRY - layout::ASKED;

const NOW: usize = layout::RENEWED_NOW - layout::ASKED;

const HAS_METADATA: usize = layout::HAS_METADATA - layout::ASKED;

const METADATA: usize = layout::RENEWED_METADATA - layout::ASKED;

const RENEWED: usize = layout::RENEWED - layout::ASKED;

const EXPIRATION: usize = layout::EXPIRATION - layout::ASKED;

const BREAKER: usize = layout::BREAKER - layout::ASKED;

const BROKEN: usize = layout::BROKEN - layout::ASKED;

// given: whether there is new metadata. Not an Option: "metadata that doesn't apply" is a part of its own, which the writer makes
// zero (specs/Sending.antt, `normal_renewal`; wrong/metadata_kept.edit).
#[derive(Clone, Copy)]
pub struct RenewRequest {
    pub id: LockId,
    pub expires: u64,
    pub now: u64,
    pub metadata: u32,
    pub given: bool,
}

#[derive(Clone, Copy)]
pub struct ExpirationRequest {
    pub id: LockId,
    pub now: u64,
}

#[derive(Clone, Copy)]
pub struct ReplaceRequest {
    pub lock: ActiveLock,
    pub broken: u64,
    pub breaker: u32,
}

#[derive(Clone, Copy)]
pub enum Request {
    Insert(ActiveLock),
    InsertVehicle(ActiveLock),
    Renew(RenewRequest),
    Delete(LockId),
    BeginExpiration(ExpirationRequest),
    Replace(ReplaceRequest),
    Acknowledge(LockId),
    ExpireDefunct(u64),
}

// ---- renew
fn metadata_right(given: u8, metadata: u32) -> bool
    ensures { result ≡ metadata_right given metadata }
{
    (given <= 1) & ((given != 0) | (metadata == 0))
}

impl Body for RenewRequest {
    ghost codec = { renewal };

    ghost SIZE = { 37 };

    ghost sized = { refl };

    ghost small = { lit≤ tt };

    ghost counts = { λ r. refl };

    const SIZE: usize = RENEWED;

    fn right(s: &[u8]) -> bool {
        metadata_right(fields::u8_at(s, HAS_METADATA), fields::u32_at(s, METADATA))
    }

    fn made(s: &[u8]) -> RenewRequest {
        RenewRequest {
            id: bodies::id_at(s, 0),
            expires: fields::u64_at(s, EXPIRY),
            now: fields::u64_at(s, NOW),
            metadata: fields::u32_at(s, METADATA),
            given: fields::u8_at(s, HAS_METADATA) == 1,
        }
    }

    fn put(self, out: &mut [u8]) {
        fields::put_big64(out, 0, self.id.hi);
        fields::put_big64(out, layout::HALF, self.id.lo);
        fields::put_u64(out, EXPIRY, self.expires);
        fields::put_u64(out, NOW, self.now);
        fields::put_u8(out, HAS_METADATA, bodies::flag_of(self.given));
        fields::put_u32(out, METADATA, self.metadata);
    }
}

// ---- begin expiration
impl Body for ExpirationRequest {
    ghost codec = { expiration };

    ghost SIZE = { 24 };

    ghost sized = { refl };

    ghost small = { lit≤ tt };

    ghost counts = { λ e. refl };

    const SIZE: usize = EXPIRATION;

    fn right(s: &[u8]) -> bool {
        true
    }

    fn made(s: &[u8]) -> ExpirationRequest {
        ExpirationRequest {
            id: bodies::id_at(s, 0),
            now: fields::u64_at(s, layout::EXPIRED_NOW),
        }
    }

    fn put(self, out: &mut [u8]) {
        fields::put_big64(out, 0, self.id.hi);
        fields::put_big64(out, layout::HALF, self.id.lo);
        fields::put_u64(out, layout::EXPIRED_NOW, self.now);
    }
}

// ---- replace
impl Body for ReplaceRequest {
    ghost codec = { replacement };

    ghost SIZE = { 99 };

    ghost sized = { refl };

    ghost small = { lit≤ tt };

    ghost counts = { λ r. refl };

    const SIZE: usize = layout::REPLACEMENT;

    fn right(s: &[u8]) -> bool {
        ActiveLock::right(s)
    }

    fn made(s: &[u8]) -> ReplaceRequest {
        ReplaceRequest {
            lock: ActiveLock::made(s),
            broken: fields::u64_at(s, BROKEN),
            breaker: fields::u32_at(s, BREAKER),
        }
    }

    fn put(self, out: &mut [u8]) {
        self.lock.put(out);
        fields::put_u32(out, BREAKER, self.breaker);
        fields::put_u64(out, BROKEN, self.broken);
    }
}

// What the body of a feed record of this kind asks for, with its sequence number. None: a length, count or field is wrong (19).
pub fn decode_request(kind: u16, s: &[u8]) -> Option<(u32, Request)>
    ensures { result ≡ request_of kind s.now }
{
    match kind {
        kinds::INSERT => decode_numbered(s).map(|(n, lock)| (n, Request::Insert(lock))),
        kinds::INSERT_VEHICLE => decode_listed(s).map(|(n, lock)| (
            n,
            Request::InsertVehicle(lock),
        )),
        kinds::RENEW => decode_numbered(s).map(|(n, asked)| (n, Request::Renew(asked))),
        kinds::DELETE => decode_numbered(s).map(|(n, id)| (n, Request::Delete(id))),
        kinds::BEGIN_EXPIRATION => decode_numbered(s).map(|(n, asked)| (
            n,
            Request::BeginExpiration(asked),
        )),
        kinds::REPLACE => decode_listed(s).map(|(n, asked)| (n, Request::Replace(asked))),
        kinds::ACKNOWLEDGE => decode_numbered(s).map(|(n, id)| (n, Request::Acknowledge(id))),
        kinds::EXPIRE_DEFUNCT => decode_numbered(s).map(|(n, now)| (
            n,
            Request::ExpireDefunct(now),
        )),
        _ => None,
    }
}

// What follows the first `start` bytes.
fn past(s: &[u8], start: usize) -> &[u8]
    ensures { result.now ≡ drop start s.now }
{
    &s[s.len().min(start)..]
}

// The part of a request's body that holds its ids; no bytes where the request has no list.
pub fn list_in(request: Request, body: &[u8]) -> &[u8]
    ensures { result.now ≡ list_in request body.now }
{
    match request {
        Request::InsertVehicle(_) => past(body, layout::CHILDREN),
        Request::Replace(_) => past(body, layout::ROOTS),
        _ => &body[..0],
    }
}

// The words of the longest list of ids.
pub const WORDS: usize = 2 * kinds::UNITS as usize;

// How many words `words_of` takes out of a part of len bytes.
pub fn word_count(len: usize) -> usize
    ensures { result ≡ min (len / 8) 128 }
{
    (len / layout::HALF).min(WORDS)
}

// The words of a part that holds ids, then zeros.
pub fn words_of(s: &[u8]) -> [u64; WORDS]
    ensures { result ≡ in_places 128 0 (words_in s.now) }
{
    let mut words = [0u64; WORDS];
    for i in 0..word_count(s.len()) {
        words[i] = fields::big64_at(s, i * layout::HALF);
    }
    words
}
