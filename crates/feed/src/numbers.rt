// Document 01's number of every event: 0 where nothing was refused.
// SPDX-License-Identifier: Apache-2.0
ghost use Rattle.std.specs.Prelude.{◌≡◌};
ghost use Rattle.feed.specs.Feed.{event_paper};

use crate::events::FeedRefusal;
use calls::Outcome;

#[tactic(auto, unfolding(crate::specs::Feed::event_paper))]
pub fn number(e: Result<Outcome, FeedRefusal>) -> u64
    ensures { result ≡ (event_paper e).number }
{
    match e {
        Err(FeedRefusal::UnsoundState(_)) => 12,
        Err(FeedRefusal::Torn(_)) => 17,
        Err(FeedRefusal::BadKind(_)) => 18,
        Err(FeedRefusal::BadField(_)) => 19,
        Err(FeedRefusal::Repeat(_)) => 15,
        Err(FeedRefusal::Ahead(_)) => 16,
        Ok(outcome) => calls::number(outcome),
    }
}
