// What the bodies of records share: how one is read from the part of a slice that is that body, and stored there.
// SPDX-License-Identifier: Apache-2.0
ghost use Rattle.std.specs.Prelude.{◌≡◌, ℕ, ◌+◌, ◌*◌, ◌≤◌, Some, None, length};
ghost use Rattle.records.specs.Numbers.{splice};
ghost use Rattle.records.specs.Layouts.{total};
ghost use Rattle.records.specs.Codecs.{Codec, Counts, in_body, decode_by, encode_by, decode_counted};
ghost use Rattle.records.specs.Feeds.{numbered};

use crate::{fields, layout};

// The codec is what document 01 says of the body.
pub(crate) trait Body: Copy {
    ghost codec: { Codec Self };

    ghost SIZE: { ℕ };

    const SIZE: usize;

    // The numbers that stand there are right.
    fn right(s: &[u8]) -> bool
        requires { total codec.layout ≤ length s.now }
        ensures { result ≡ codec.right (in_body codec s.now) };

    // What they make.
    fn made(s: &[u8]) -> Self
        requires { total codec.layout ≤ length s.now }
        ensures { result ≡ codec.made (in_body codec s.now) };

    fn put(self, out: &mut [u8])
        requires { total codec.layout ≤ length out.old }
        ensures { out.new ≡ splice out.old 0 (encode_by codec self) };

    ghost sized: { total codec.layout ≡ SIZE };

    ghost small: { SIZE ≤ 256 };

    ghost counts: { Counts codec };
}

// None: its length or a field is wrong (19). Never inlined: inside the readers of one body each, LLVM copies the lock once more
// (a third more time for an ACTIVE body, 2026-11-27).
#[inline(never)]
pub(crate) fn decode<B: Body>(s: &[u8]) -> Option<B>
    ensures { result ≡ decode_by B.codec Some None s.now }
{
    if s.len() != B::SIZE {
        return None;
    }
    if B::right(s) {
        return Some(B::made(s));
    }
    None
}

// A body of a feed record: after its sequence number.
pub(crate) fn decode_numbered<B: Body>(s: &[u8]) -> Option<(u32, B)>
    ensures { result ≡ decode_by (numbered B.codec) Some None s.now }
{
    if s.len() < layout::ASKED {
        return None;
    }
    let body = decode(&s[layout::ASKED..])?;
    Some((fields::u32_at(s, 0), body))
}

// And before the count of the ids that follow it.
pub(crate) fn decode_listed<B: Body>(s: &[u8]) -> Option<(u32, B)>
    ensures { result ≡ decode_counted (numbered B.codec) Some None s.now }
{
    let end = layout::ASKED + B::SIZE;
    if s.len() < end + layout::COUNT {
        return None;
    }
    let ids = fields::u16_at(s, end) as usize;
    if s.len() - (end + layout::COUNT) != ids * layout::ID {
        return None;
    }
    decode_numbered(&s[..end])
}
