// One record of an image at a time: where the next one's body stands, a reader that keeps the image and its place, and what
// the record says, of each kind.
// SPDX-License-Identifier: Apache-2.0
ghost use Rattle.std.specs.Prelude.{◌≡◌, Some, None};
ghost use Rattle.records.specs.Codecs.{Codec, decode_by};
ghost use Rattle.records.specs.Wire as wire;
ghost use Rattle.image.specs.declared.reader.Due.{Due};
ghost use Rattle.image.specs.Image.{record_at};
ghost use Rattle.image.specs.Steps.{place_of, step_of};
ghost use Rattle.image.specs.Held.{start_of, moved_of};

use crate::ImageRefusal;
use records::bodies::Head;
use records::{bodies, frame, kinds};
use state::{ActiveLock, DefunctLock};

// Which record is due. An enum of its own beside the four numbers of records::kinds, which `frame_at` takes: an image has no
// record of a feed, and docs/SENTENCES.md's step_of and moved_of speak of these three.
#[derive(Clone, Copy, PartialEq, Eq)]
pub enum Due {
    Head,
    Active,
    Defunct,
}

// step: the body, from its first byte to the place past its last. at: past the record, or after a refusal where it started.
#[derive(Clone, Copy)]
pub struct Stepped {
    pub step: Result<(usize, usize), ImageRefusal>,
    pub at: usize,
}

fn place_of(due: Due) -> u8
    ensures { result ≡ place_of due }
{
    match due {
        Due::Head => kinds::AT_HEAD,
        Due::Active => kinds::AT_ACTIVE,
        Due::Defunct => kinds::AT_DEFUNCT,
    }
}

fn record_due(image: &[u8], at: usize, due: Due) -> Stepped
    ensures { result ≡ step_of image.now at due }
{
    match frame::frame_at(image, at, place_of(due)) {
        Err(why) => Stepped {
            step: Err(ImageRefusal::from(why)),
            at,
        },
        Ok(f) => Stepped {
            step: Ok((f.start, f.start + f.size)),
            at: f.next,
        },
    }
}

// The image, and the place of the next record.
#[derive(Clone, Copy)]
pub struct Reader<'a> {
    pub image: &'a [u8],
    pub at: usize,
}

// A step, and the reader past it.
#[derive(Clone, Copy)]
pub struct Moved<'a> {
    pub reader: Reader<'a>,
    pub step: Result<(usize, usize), ImageRefusal>,
}

pub fn new<'a>(image: &'a [u8]) -> Reader<'a>
    ensures { result ≡ start_of image.entry }
{
    Reader { image, at: 0 }
}

pub fn next<'a>(r: Reader<'a>, due: Due) -> Moved<'a>
    ensures { result ≡ moved_of r.entry due }
{
    let g = record_due(r.image, r.at, due);
    Moved {
        reader: Reader {
            image: r.image,
            at: g.at,
        },
        step: g.step,
    }
}

// Plain parameters: for loops, and for whoever keeps the place as a number.
pub fn step_from(image: &[u8], at: usize, due: Due) -> Stepped
    ensures { result ≡ step_of image.now at due }
{
    let m = next(Reader { image, at }, due);
    Stepped {
        step: m.step,
        at: m.reader.at,
    }
}

// A kind of record of an image: where it is due, and how its body is read. No body: a count or field is wrong (19).
pub trait Kept: Copy {
    ghost due_of: { Due };

    ghost codec: { Codec Self };

    fn due() -> Due
        ensures { result ≡ due_of };

    fn decode(body: &[u8]) -> Option<Self>
        ensures { result ≡ decode_by codec Some None body.now };
}

impl Kept for Head {
    ghost due_of = { Due.Head };

    ghost codec = { wire.head };

    fn due() -> Due {
        Due::Head
    }

    fn decode(body: &[u8]) -> Option<Head> {
        bodies::decode_head(body)
    }
}

impl Kept for ActiveLock {
    ghost due_of = { Due.Active };

    ghost codec = { wire.active };

    fn due() -> Due {
        Due::Active
    }

    fn decode(body: &[u8]) -> Option<ActiveLock> {
        bodies::decode_active(body)
    }
}

impl Kept for DefunctLock {
    ghost due_of = { Due.Defunct };

    ghost codec = { wire.defunct };

    fn due() -> Due {
        Due::Defunct
    }

    fn decode(body: &[u8]) -> Option<DefunctLock> {
        bodies::decode_defunct(body)
    }
}

// The record of this kind at `at`, and the place after it.
pub fn record_from<R: Kept>(image: &[u8], at: usize) -> Result<(R, usize), ImageRefusal>
    ensures { result ≡ record_at R.codec (place_of R.due_of) image.now at }
{
    let got = step_from(image, at, R::due());
    let (start, end) = got.step?;
    match R::decode(&image[start..end]) {
        Some(r) => Ok((r, got.at)),
        None => Err(ImageRefusal::BadField(at)),
    }
}
