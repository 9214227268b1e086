// Where the fields of a record stand, as document 01 lays them out: each place is the one before it and that field's size.
// Places count from the start of a body, and a body's size is the place past its last field.
// SPDX-License-Identifier: Apache-2.0

// A record's length and kind, before its body.
pub const LENGTH: usize = 2;

pub const KIND: usize = 2;

pub const FRAME: usize = LENGTH + KIND;

// An id: two halves.
pub const HALF: usize = 8;

pub const ID: usize = 2 * HALF;

// Lock start: the id is first; the set is four words.
pub const SCOPE_KIND: usize = ID;

pub const SCOPE_NUMBER: usize = SCOPE_KIND + 1;

pub const EXCLUSIVE: usize = SCOPE_NUMBER + 1;

pub const COVERAGE_KIND: usize = EXCLUSIVE + 1;

pub const SET: usize = COVERAGE_KIND + 1;

pub const SET_1: usize = SET + 8;

pub const SET_2: usize = SET_1 + 8;

pub const SET_3: usize = SET_2 + 8;

pub const SUBJECT: usize = SET_3 + 8;

pub const PRINCIPAL: usize = SUBJECT + 2;

pub const METADATA: usize = PRINCIPAL + 4;

pub const LOCK: usize = METADATA + 4;

// ACTIVE, after its lock start.
pub const EXPIRY: usize = LOCK;

pub const HAS_PARENT: usize = EXPIRY + 8;

pub const PARENT: usize = HAS_PARENT + 1;

pub const PARENT_LO: usize = PARENT + HALF;

pub const ACTIVE: usize = PARENT + ID;

// DEFUNCT, after its lock start and its original expiry.
pub const BROKEN_AT: usize = EXPIRY + 8;

pub const BROKEN_BY: usize = BROKEN_AT + 8;

pub const TARGET: usize = BROKEN_BY + 4;

pub const TARGET_LO: usize = TARGET + HALF;

pub const HOLDER: usize = TARGET + ID;

pub const DEFUNCT: usize = HOLDER + 2;

// HEAD: the revision is first.
pub const EXPECTED: usize = 8;

pub const ACTIVES: usize = EXPECTED + 4;

pub const DEFUNCTS: usize = ACTIVES + 2;

pub const HEAD: usize = DEFUNCTS + 2;

// Whole records.
pub const HEAD_RECORD: usize = FRAME + HEAD;

pub const ACTIVE_RECORD: usize = FRAME + ACTIVE;

pub const DEFUNCT_RECORD: usize = FRAME + DEFUNCT;

// Feed bodies: after the sequence, each from its first field on.
pub const ASKED: usize = 4;

pub const ASKED_LOCK: usize = ASKED + ACTIVE;

// A count of ids.
pub const COUNT: usize = 2;

// insert vehicle
pub const CHILDREN: usize = ASKED_LOCK + COUNT;

// renew
pub const RENEWED_EXPIRY: usize = ASKED + ID;

pub const RENEWED_NOW: usize = RENEWED_EXPIRY + 8;

pub const HAS_METADATA: usize = RENEWED_NOW + 8;

pub const RENEWED_METADATA: usize = HAS_METADATA + 1;

pub const RENEWED: usize = RENEWED_METADATA + 4;

// delete and acknowledge
pub const ASKED_ID: usize = ASKED + ID;

// begin expiration
pub const EXPIRATION: usize = ASKED_ID + 8;

// replace
pub const BREAKER: usize = ASKED_LOCK;

pub const BROKEN: usize = BREAKER + 4;

pub const ROOT_COUNT: usize = BROKEN + 8;

pub const ROOTS: usize = ROOT_COUNT + COUNT;

// expire defunct
pub const EXPIRE_DEFUNCT: usize = ASKED + 8;

// The parts after the sequence that have a codec of their own, with places from the part's start: a time alone, begin
// expiration's time, replace up to its count of ids.
pub const TIME: usize = EXPIRE_DEFUNCT - ASKED;

pub const EXPIRED_NOW: usize = ASKED_ID - ASKED;

pub const REPLACEMENT: usize = ROOT_COUNT - ASKED;
