// Sequence numbers, which go round: after 4294967295 comes 0.
// SPDX-License-Identifier: Apache-2.0
ghost use Rattle.std.specs.Prelude.{◌≡◌};
ghost use Rattle.feed.specs.Feed.{distance, after};

// How far a sequence number lies ahead of the expected one.
#[tactic(auto, unfolding(crate::specs::Feed::distance))]
pub fn distance(sequence: u32, expected: u32) -> u32
    ensures { result ≡ distance sequence expected }
{
    sequence.wrapping_sub(expected)
}

// The number that is due after this one.
#[tactic(auto, unfolding(crate::specs::Feed::after))]
pub fn after(expected: u32) -> u32
    ensures { result ≡ after expected }
{
    expected.wrapping_add(1)
}
