// The feed: the record at a place is read and, where its number is the one that is due, applied to the spare.
// SPDX-License-Identifier: Apache-2.0
#![tactic(auto)]

pub mod events;
pub mod following;
pub mod numbers;
pub mod taking;
pub mod turns;

ghost use Rattle.std.specs.Prelude.{◌≡◌, Err, if◌then◌else◌, nat_le};
ghost use Rattle.calls.specs.Calls.{perform_on};
ghost use Rattle.feed.specs.declared.events.FeedRefusal.TheVariants.{Repeat, Ahead};
ghost use Rattle.feed.specs.Feed.{numbered, still, onward, step_on};
ghost use Rattle.feed.specs.Code.{tested_first};

use calls::{Outcome, Performed};
use events::{FeedRefusal, Step};
use image::Spare;
use records::requests;
use state::LockState;
use taking::Placed;

// 12, by which every operation refuses an unsound state. A number and no match: the eight kinds of answer meet in it alone, and
// a match would name the UnsoundState of each.
const UNSOUND: u64 = 12;

// No operation is reached: the spare stays as it is, and the state is tested here.
fn wait(
    spare: Spare,
    event: Result<Outcome, FeedRefusal>,
    sequence: u32,
    next: usize,
    at: usize,
) -> Step
    ensures { result ≡ tested_first spare at (still spare event sequence next) }
{
    if let Err(why) = rules::broken(spare.state) {
        return events::still(spare, Err(FeedRefusal::from(why)), 0, at);
    }
    events::still(spare, event, sequence, next)
}

// The request handed to its operation, and the ids in the record's body with it.
fn performed(state: LockState, placed: Placed, body: &[u8]) -> Performed
    ensures { result ≡ perform_on state placed.request (numbered placed body.now).list }
{
    let request = placed.request;
    let list = requests::list_in(request, body);
    let words = requests::words_of(list);
    let n = requests::word_count(list.len());
    calls::perform(state, request, &words[0..n])
}

// An operation that refused by 12: the rule is looked for again, apart, so that no record pays for it. Not one function with
// `wait`: they differ in the step that follows the test, and a closure for it would ask this contract to speak of its post.
fn refused(spare: Spare, sequence: u32, next: usize, done: Performed, at: usize) -> Step
    ensures { result ≡ tested_first spare at (onward spare sequence next done) }
{
    if let Err(why) = rules::broken(spare.state) {
        return events::still(spare, Err(FeedRefusal::from(why)), 0, at);
    }
    events::onward(spare, sequence, next, done)
}

// Half of the numbers lie ahead of the expected one, the others behind it.
fn out_of_turn(far: u32, expected: u32) -> Result<Outcome, FeedRefusal>
    ensures { result ≡ (if nat_le far 2147483647 then Err (Ahead expected) else Err (Repeat expected)) }
{
    if far <= 2147483647 {
        return Err(FeedRefusal::Ahead(expected));
    }
    Err(FeedRefusal::Repeat(expected))
}

// The record is read first. The state is tested once: by the operation that is reached, or where none is. One function, since
// a spare that is handed on is copied.
pub fn step(spare: Spare, feed: &[u8], at: usize) -> Step
    ensures { result ≡ step_on spare feed.now at }
{
    match taking::taken_at(feed, at) {
        Err(why) => wait(spare, Err(FeedRefusal::from(why)), 0, at, at),
        Ok(placed) => {
            let frame = placed.frame;
            let sequence = placed.sequence;
            let far = turns::distance(sequence, spare.expected);
            if far != 0 {
                let event = out_of_turn(far, spare.expected);
                return wait(spare, event, sequence, frame.next, at);
            }
            let start = frame.start;
            let end = start + frame.size;
            let state = spare.state;
            let done = performed(state, placed, &feed[start..end]);
            let outcome = done.outcome;
            if calls::number(outcome) == UNSOUND {
                return refused(spare, sequence, frame.next, done, at);
            }
            events::onward(spare, sequence, frame.next, done)
        }
    }
}
