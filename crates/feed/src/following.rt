// A whole chunk of a feed, record after record.
// SPDX-License-Identifier: Apache-2.0
ghost use Rattle.std.specs.Prelude.{◌≡◌, length, if◌then◌else◌};
ghost use Rattle.feed.specs.Feed.{is_applied};
ghost use Rattle.feed.specs.Runs.{why, fresh, follow_on};

use crate::events;
use crate::events::FeedRefusal;
use calls::Outcome;
use image::Spare;

// The spare after the last record that was read, the place after it, how many were read and how many of them applied. stop:
// the end of the chunk, or why no record could be read at the place (12, 17 to 19).
#[derive(Clone, Copy)]
pub struct Run {
    pub spare: Spare,
    pub place: usize,
    pub read: usize,
    pub applied: usize,
    pub stop: Result<(), FeedRefusal>,
}

// Why a run ends at an event by which no record was read.
fn why(event: Result<Outcome, FeedRefusal>) -> Result<(), FeedRefusal>
    ensures { result ≡ why event }
{
    event.map(|_| ())
}

fn one_if_applied(event: Result<Outcome, FeedRefusal>) -> usize
    ensures { result ≡ (if is_applied event then 1 else 0) }
{
    events::is_applied(event) as usize
}

// Records out of turn are read and passed over; one that can't be read ends the run.
pub fn follow(start: Spare, chunk: &[u8]) -> Run
    ensures { result ≡ follow_on (length chunk.now) (fresh start) chunk.now }
{
    let mut spare = start;
    let mut place: usize = 0;
    let mut read: usize = 0;
    let mut applied: usize = 0;
    // a record at a time, each as long as it says
    while place < chunk.len() {
        let s = crate::step(spare, chunk, place);
        let told = s.told;
        let event = told.event;
        if events::stops(event) {
            return Run {
                spare,
                place,
                read,
                applied,
                stop: why(event),
            };
        }
        spare = s.spare;
        place = told.next;
        read += 1;
        applied += one_if_applied(event);
    }
    Run {
        spare,
        place,
        read,
        applied,
        stop: Ok(()),
    }
}
