// Images: a whole state as records, read and written.
// SPDX-License-Identifier: Apache-2.0
#![tactic(auto)]

ghost use Rattle.std.specs.Prelude.{◌≡◌};
ghost use Rattle.image.specs.Refusals.{unread, unsound, not_written};

use records::frame::Unread;
use records::layout;
use rules::Unsound;
use state::LockState;

mod entries;
pub mod read;
pub mod reader;
pub mod write;

// Bytes of the longest image.
pub const LONGEST: usize = layout::HEAD_RECORD
    + LockState::ACTIVE * layout::ACTIVE_RECORD
    + LockState::DEFUNCT * layout::DEFUNCT_RECORD;

// A spare adapter: its state, and the sequence number that is due next in the feed.
#[derive(Clone, Copy)]
pub struct Spare {
    pub state: LockState,
    pub expected: u32,
}

// Why an image is refused. 17 to 20 hold an offset: where the record starts, or the first byte past the last one.
// UnsoundState (12) holds the rule.
#[derive(Clone, Copy, PartialEq, Eq)]
pub enum ImageRefusal {
    Torn(usize),
    BadKind(usize),
    BadField(usize),
    BadOrder(usize),
    UnsoundState(u8),
}

impl From<Unread> for ImageRefusal {
    ghost from_gives = { λ u r. r ≡ unread u };

    fn from(u: Unread) -> ImageRefusal {
        match u {
            Unread::Torn(at) => ImageRefusal::Torn(at),
            Unread::BadKind(at) => ImageRefusal::BadKind(at),
            Unread::BadField(at) => ImageRefusal::BadField(at),
        }
    }
}

impl From<Unsound> for ImageRefusal {
    ghost from_gives = { λ u r. r ≡ unsound u };

    fn from(u: Unsound) -> ImageRefusal {
        match u {
            Unsound::Rule(n) => ImageRefusal::UnsoundState(n),
        }
    }
}

// After a refusal the spare is empty. No Result: that empty spare is what `proofs/Trips.antt`, no_spare_lem, and
// docs/PROMISES.md, read_records and read_image, speak of.
#[derive(Clone, Copy)]
pub struct Imaged {
    pub told: Result<(), ImageRefusal>,
    pub spare: Spare,
}

// Why no image is written. UnsoundState (12) holds the rule, ShortOutput (21) the bytes needed.
#[derive(Clone, Copy, PartialEq, Eq)]
pub enum WriteRefusal {
    UnsoundState(u8),
    ShortOutput(usize),
}

impl From<Unsound> for WriteRefusal {
    ghost from_gives = { λ u r. r ≡ not_written u };

    fn from(u: Unsound) -> WriteRefusal {
        match u {
            Unsound::Rule(n) => WriteRefusal::UnsoundState(n),
        }
    }
}
