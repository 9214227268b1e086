// The record at a place of a feed, read and not yet applied: also for whoever keeps records or compares them.
// SPDX-License-Identifier: Apache-2.0
ghost use Rattle.std.specs.Prelude.{◌≡◌};
ghost use Rattle.records.specs.Feeds.{request_of};
ghost use Rattle.feed.specs.Feed.{taken_asked, taken_at};

use records::frame::{Frame, Unread};
use records::requests::Request;
use records::{frame, kinds, requests};

// A record at its place. The ids of a request that has some stay in the body, which the frame finds.
#[derive(Clone, Copy)]
pub struct Placed {
    pub sequence: u32,
    pub request: Request,
    pub frame: Frame,
}

// The body of a record that starts at `at`.
fn of_body(frame: Frame, body: &[u8], at: usize) -> Result<Placed, Unread>
    ensures { result ≡ taken_asked at frame (request_of frame.kind body.now) }
{
    match requests::decode_request(frame.kind, body) {
        Some((sequence, request)) => Ok(Placed {
            sequence,
            request,
            frame,
        }),
        None => Err(Unread::BadField(at)),
    }
}

// A refusal holds the place where the record starts.
pub fn taken_at(feed: &[u8], at: usize) -> Result<Placed, Unread>
    ensures { result ≡ taken_at feed.now at }
{
    let f = frame::frame_at(feed, at, kinds::IN_FEED)?;
    of_body(f, &feed[f.start..f.start + f.size], at)
}
