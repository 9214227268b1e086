// What a step over the feed tells: the event, where the next record starts, and what the operation removed.
// SPDX-License-Identifier: Apache-2.0
ghost use Rattle.std.specs.Prelude.{◌≡◌};
ghost use Rattle.feed.specs.Feed.{plain, still, onward, is_applied, is_unsound};
ghost use Rattle.feed.specs.Refusals.{unread, unsound};
ghost use Rattle.feed.specs.Runs.{stops};

use crate::turns;
use calls::{Outcome, Performed};
use ids::LockId;
use image::Spare;
use records::frame::Unread;
use rules::Unsound;
use state::{ActiveLock, LockState};

// Why a record isn't applied; the spare stays as it is. UnsoundState (12) holds the rule, 17 to 19 the record's offset,
// Repeat and Ahead (15, 16) the expected number.
#[derive(Clone, Copy, PartialEq, Eq)]
pub enum FeedRefusal {
    UnsoundState(u8),
    Torn(usize),
    BadKind(usize),
    BadField(usize),
    Repeat(u32),
    Ahead(u32),
}

impl From<Unread> for FeedRefusal {
    ghost from_gives = { λ u r. r ≡ unread u };

    fn from(u: Unread) -> FeedRefusal {
        match u {
            Unread::Torn(at) => FeedRefusal::Torn(at),
            Unread::BadKind(at) => FeedRefusal::BadKind(at),
            Unread::BadField(at) => FeedRefusal::BadField(at),
        }
    }
}

impl From<Unsound> for FeedRefusal {
    ghost from_gives = { λ u r. r ≡ unsound u };

    fn from(u: Unsound) -> FeedRefusal {
        match u {
            Unsound::Rule(n) => FeedRefusal::UnsoundState(n),
        }
    }
}

// event: what the operation answered, refused by its own numbers or not, where the record reached it.
// sequence: the record's, 0 where none was read. next: the place after the record; after 12 and 17 to 19 the place itself.
// The removed locks stand in the first gone places, the ids of the defunct entries that expired in the first lapsed: arrays with
// counts, since there is no heap and what is handed out by value has nothing to lend a slice of.
#[derive(Clone, Copy)]
pub struct Told {
    pub event: Result<Outcome, FeedRefusal>,
    pub sequence: u32,
    pub next: usize,
    pub gone: usize,
    pub removed: [ActiveLock; LockState::ACTIVE],
    pub lapsed: usize,
    pub ids: [LockId; LockState::DEFUNCT],
}

#[derive(Clone, Copy)]
pub struct Step {
    pub told: Told,
    pub spare: Spare,
}

// Nothing was removed.
fn plain(event: Result<Outcome, FeedRefusal>, sequence: u32, next: usize) -> Told
    ensures { result ≡ plain event sequence next }
{
    let b = state::blank_active();
    Told {
        event,
        sequence,
        next,
        gone: 0,
        removed: [b; LockState::ACTIVE],
        lapsed: 0,
        ids: [LockId { hi: 0, lo: 0 }; LockState::DEFUNCT],
    }
}

// The spare stays as it is.
pub(crate) fn still(
    spare: Spare,
    event: Result<Outcome, FeedRefusal>,
    sequence: u32,
    next: usize,
) -> Step
    ensures { result ≡ still spare event sequence next }
{
    Step {
        told: plain(event, sequence, next),
        spare,
    }
}

// The spare after an operation: the state that it left, and the next number is due, refused or not.
pub(crate) fn onward(spare: Spare, sequence: u32, next: usize, done: Performed) -> Step
    ensures { result ≡ onward spare sequence next done }
{
    let outcome = done.outcome;
    let removed = done.removed;
    let ids = done.ids;
    let state = done.state;
    Step {
        told: Told {
            event: Ok(outcome),
            sequence,
            next,
            gone: done.gone,
            removed,
            lapsed: done.lapsed,
            ids,
        },
        spare: Spare {
            state,
            expected: turns::after(spare.expected),
        },
    }
}

// Whether the record reached its operation.
#[tactic(auto, unfolding(crate::specs::Feed::is_applied))]
pub fn is_applied(event: Result<Outcome, FeedRefusal>) -> bool
    ensures { result ≡ is_applied event }
{
    event.is_ok()
}

// Whether the spare's state is unsound: 12.
#[tactic(auto, unfolding(crate::specs::Feed::is_unsound))]
pub fn is_unsound(event: Result<Outcome, FeedRefusal>) -> bool
    ensures { result ≡ is_unsound event }
{
    match event {
        Err(FeedRefusal::UnsoundState(_)) => true,
        _ => false,
    }
}

// Whether no record could be read: 12, 17 to 19.
pub fn stops(event: Result<Outcome, FeedRefusal>) -> bool
    ensures { result ≡ stops event }
{
    match event {
        Err(FeedRefusal::Repeat(_)) => false,
        Err(FeedRefusal::Ahead(_)) => false,
        Err(_) => true,
        Ok(_) => false,
    }
}
