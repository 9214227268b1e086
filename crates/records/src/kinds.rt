// The kinds of records and their lengths: one table for the reader of images, the reader of feeds and the writer.
// SPDX-License-Identifier: Apache-2.0
ghost use Rattle.std.specs.Prelude.{◌≡◌};
ghost use Rattle.records.specs.Table.{row_of, units_in, possible, length_of, length_with};

use crate::layout;

// The kinds: of an image, then of a feed. They stay the wire's numbers: `frame_at` and `request_of` are stated on any number, of
// no kind too (18), and C hands them in (`cablegorse_write_record`).
pub const HEAD: u16 = 1;

pub const ACTIVE: u16 = 2;

pub const DEFUNCT: u16 = 3;

pub const INSERT: u16 = 16;

pub const INSERT_VEHICLE: u16 = 17;

pub const RENEW: u16 = 18;

pub const DELETE: u16 = 19;

pub const BEGIN_EXPIRATION: u16 = 20;

pub const REPLACE: u16 = 21;

pub const ACKNOWLEDGE: u16 = 22;

pub const EXPIRE_DEFUNCT: u16 = 23;

// The places where a kind can be due: one for each kind of an image, one for all kinds of a feed.
pub const AT_HEAD: u8 = 1;

pub const AT_ACTIVE: u8 = 2;

pub const AT_DEFUNCT: u8 = 3;

pub const IN_FEED: u8 = 4;

// A record of this kind has the length base, and unit more for each of up to UNITS units.
#[derive(Clone, Copy)]
pub struct Kind {
    pub kind: u16,
    pub base: u16,
    pub unit: u16,
    pub place: u8,
}

pub const UNITS: u16 = 64;

const COUNT: usize = 11;

const KINDS: [Kind; COUNT] = [
    Kind {
        kind: HEAD,
        base: 18,
        unit: 0,
        place: AT_HEAD,
    },
    Kind {
        kind: ACTIVE,
        base: 89,
        unit: 0,
        place: AT_ACTIVE,
    },
    Kind {
        kind: DEFUNCT,
        base: 102,
        unit: 0,
        place: AT_DEFUNCT,
    },
    Kind {
        kind: INSERT,
        base: 93,
        unit: 0,
        place: IN_FEED,
    },
    Kind {
        kind: INSERT_VEHICLE,
        base: 95,
        unit: layout::ID as u16,
        place: IN_FEED,
    },
    Kind {
        kind: RENEW,
        base: 43,
        unit: 0,
        place: IN_FEED,
    },
    Kind {
        kind: DELETE,
        base: 22,
        unit: 0,
        place: IN_FEED,
    },
    Kind {
        kind: BEGIN_EXPIRATION,
        base: 30,
        unit: 0,
        place: IN_FEED,
    },
    Kind {
        kind: REPLACE,
        base: 107,
        unit: layout::ID as u16,
        place: IN_FEED,
    },
    Kind {
        kind: ACKNOWLEDGE,
        base: 22,
        unit: 0,
        place: IN_FEED,
    },
    Kind {
        kind: EXPIRE_DEFUNCT,
        base: 14,
        unit: 0,
        place: IN_FEED,
    },
];

#[tactic(auto, unfolding(crate::specs::Table::row_of, crate::specs::Table::rows))]
pub fn row_of(kind: u16) -> Option<Kind>
    ensures { result ≡ row_of kind }
{
    KINDS.iter().copied().find(|row| row.kind == kind)
}

// How many units the length n leaves past the base.
pub fn units_in(row: Kind, n: u16) -> u16
    ensures { result ≡ units_in row n }
{
    if row.unit == 0 {
        return 0;
    }
    if n < row.base {
        return 0;
    }
    (n - row.base) / row.unit
}

// The length n is one that a record of this kind can have.
pub fn possible(row: Kind, n: u16) -> bool
    ensures { result ≡ possible row n }
{
    let units = units_in(row, n);
    if UNITS < units {
        return false;
    }
    (row.base as u32) + (row.unit as u32) * (units as u32) == n as u32
}

// The length of a record of this kind without units, 0 where there is no such kind.
pub fn length_of(kind: u16) -> u16
    ensures { result ≡ length_of kind }
{
    match row_of(kind) {
        Some(row) => row.base,
        None => 0,
    }
}

// The length of a record of this kind with so many units, 0 where there is no such kind.
pub fn length_with(kind: u16, units: u16) -> u32
    ensures { result ≡ length_with kind units }
{
    match row_of(kind) {
        Some(row) => (row.base as u32) + (row.unit as u32) * (units as u32),
        None => 0,
    }
}
