// Whole records stored in a lent slice. Where a record has no room, nothing is stored.
// SPDX-License-Identifier: Apache-2.0
ghost use Rattle.std.specs.Prelude.{◌≡◌, ◌++◌, ◌+◌, ◌≤◌, leb, length};
ghost use Rattle.records.specs.Numbers.{little, bytes_of, splice, stored};
ghost use Rattle.records.specs.Layouts.{total};
ghost use Rattle.records.specs.Table.{length_of};
ghost use Rattle.records.specs.Framing.{record_of};
ghost use Rattle.records.specs.Codecs.{encode_by};
ghost use Rattle.records.specs.Wire.{id_bytes, active, defunct, head};

use crate::bodies::Head;
use crate::body::Body;
use crate::{fields, kinds, layout};
use ids::LockId;
use state::{ActiveLock, DefunctLock};

fn has_room(len: usize, at: usize, size: usize) -> bool
    ensures { result ≡ leb (at + size) len }
{
    at.checked_add(size).is_some_and(|end| end <= len)
}

// Length and kind.
pub(crate) fn put_length(out: &mut [u8], at: usize, bytes: u16, kind: u16)
    requires { at + 4 ≤ length out.old }
    ensures { out.new ≡ splice out.old at (bytes_of (little 2) bytes ++ bytes_of (little 2) kind) }
{
    fields::put_u16(out, at, bytes);
    fields::put_u16(out, at + layout::LENGTH, kind);
}

// Of a kind without units.
fn put_frame(out: &mut [u8], at: usize, kind: u16)
    requires { at + 4 ≤ length out.old }
    ensures { out.new ≡ splice out.old at (bytes_of (little 2) (length_of kind) ++ bytes_of (little 2) kind) }
{
    put_length(out, at, kinds::length_of(kind), kind);
}

// A record of this kind, which has no units.
fn put_whole<B: Body>(out: &mut [u8], at: usize, kind: u16, body: B)
    requires { length_of kind ≡ total B.codec.layout + 2 }
    ensures { out.new ≡ stored out.old at (record_of kind (encode_by B.codec body)) }
{
    let size = layout::FRAME + B::SIZE;
    if !has_room(out.len(), at, size) {
        return;
    }
    put_frame(out, at, kind);
    body.put(&mut out[at + layout::FRAME..at + size]);
}

// The three records of an image, under the names that docs/SENTENCES.md has: `put_whole` asks for the kind's length, and no
// public function may.
pub fn put_head(out: &mut [u8], at: usize, h: Head)
    ensures { out.new ≡ stored out.old at (record_of 1 (encode_by head h)) }
{
    put_whole(out, at, kinds::HEAD, h);
}

pub fn put_active(out: &mut [u8], at: usize, a: ActiveLock)
    ensures { out.new ≡ stored out.old at (record_of 2 (encode_by active a)) }
{
    put_whole(out, at, kinds::ACTIVE, a);
}

pub fn put_defunct(out: &mut [u8], at: usize, d: DefunctLock)
    ensures { out.new ≡ stored out.old at (record_of 3 (encode_by defunct d)) }
{
    put_whole(out, at, kinds::DEFUNCT, d);
}

// An id alone: its sixteen bytes.
pub fn put_id(out: &mut [u8], at: usize, id: LockId)
    ensures { out.new ≡ stored out.old at (id_bytes id) }
{
    if !has_room(out.len(), at, layout::ID) {
        return;
    }
    fields::put_big64(out, at, id.hi);
    fields::put_big64(out, at + layout::HALF, id.lo);
}
