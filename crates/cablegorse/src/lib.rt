// The static library's boundary: what Rust or C calls. Numbers, bools and lent bytes cross it, and nothing else.
// SPDX-License-Identifier: Apache-2.0
#![tactic(auto)]

ghost use Rattle.std.specs.Prelude.{◌≡◌};
ghost use Rattle.cablegorse.specs.Boundary.{class_of, test_of, prepare_of};

use image::read;

mod arguments;
pub mod boards;
pub mod changes;
pub mod chunks;
mod copying;
mod events;
mod papers;
mod putting;
mod questions;
pub mod reading;
pub mod sending;
pub mod tables;

// number: document 01's, 0 where nothing was refused. The first count of the values stand beside it; the others are 0.
#[repr(C)]
#[derive(Clone, Copy)]
pub struct Told {
    pub number: u32,
    pub count: u32,
    pub v0: u64,
    pub v1: u64,
    pub v2: u64,
    pub v3: u64,
    pub v4: u64,
}

// As Told, and: part 0 the image was refused, 1 the record or an argument was, 2 applied, 3 an output is too short; the
// record's sequence; where the next record starts; the bytes of the next image; how many locks were removed and how many
// entries expired. Told's fields stand here once more, as in Followed, and no Told: C has this layout (include/cablegorse.h).
#[repr(C)]
#[derive(Clone, Copy)]
pub struct Applied {
    pub number: u32,
    pub count: u32,
    pub v0: u64,
    pub v1: u64,
    pub v2: u64,
    pub v3: u64,
    pub v4: u64,
    pub part: u32,
    pub sequence: u32,
    pub place: u64,
    pub written: u64,
    pub gone: u64,
    pub lapsed: u64,
}

// As Told, what ended the run over a chunk, and: part 0 the image was refused, 1 a record can't be read, 2 the chunk ended, 3 the
// output is too short; the number that is due next; the place after the last record that was read; how many were read, and how
// many of them applied; the bytes of the next image.
#[repr(C)]
#[derive(Clone, Copy)]
pub struct Followed {
    pub number: u32,
    pub count: u32,
    pub v0: u64,
    pub v1: u64,
    pub v2: u64,
    pub v3: u64,
    pub v4: u64,
    pub part: u32,
    pub expected: u32,
    pub place: u64,
    pub read: u64,
    pub applied: u64,
    pub written: u64,
}

// An operation, its list aside; what its kind doesn't take is not read. kind: the feed's, 16 to 23. hi, lo: the id's halves, of
// the new lock in 16, 17 and 21. now: in 21 when the locks were broken, breaker by whom. Of a lock: scope its kind (0 vehicle, 1 ECU,
// 2 group) and number, coverage its kind (0 the whole vehicle, 1 the set in w0 to w3), child whether it has a parent. given: in
// 18 whether there is metadata. exclusive, coverage, child and given are 0 or 1.
#[repr(C)]
#[derive(Clone, Copy)]
pub struct Operation {
    pub hi: u64,
    pub lo: u64,
    pub parenthi: u64,
    pub parentlo: u64,
    pub w0: u64,
    pub w1: u64,
    pub w2: u64,
    pub w3: u64,
    pub expires: u64,
    pub now: u64,
    pub principal: u32,
    pub metadata: u32,
    pub breaker: u32,
    pub kind: u16,
    pub subject: u16,
    pub scope: u8,
    pub number: u8,
    pub exclusive: u8,
    pub coverage: u8,
    pub child: u8,
    pub given: u8,
}

// The response class of a refusal number: 0 none, 1 BadRequest, 2 Conflict, 3 InternalServerError, 4 Forbidden.
#[tactic(auto, unfolding(crate::specs::Boundary::class_of))]
pub fn cablegorse_response_class(number: u64) -> u32
    ensures { result ≡ class_of number }
{
    papers::of_response(locks::response_class(number))
}

// Whether the image can be read and its state is sound; then its revision, the expected number and both counts.
pub fn cablegorse_test(image: &[u8]) -> Told
    ensures { result ≡ test_of image.now }
{
    let i = read::read_image(image);
    if let Err(why) = i.told {
        return Told::from(why);
    }
    let spare = i.spare;
    let state = spare.state;
    Told::new(
        0,
        &[
            state.revision,
            spare.expected as u64,
            state.actives as u64,
            state.defuncts as u64,
        ],
    )
}

// The generation after a runtime update, which the image doesn't hold; or the refusal.
pub fn cablegorse_prepare_runtime_update(image: &[u8], generation: u64) -> Told
    ensures { result ≡ prepare_of image.now generation }
{
    let i = read::read_image(image);
    if let Err(why) = i.told {
        return Told::from(why);
    }
    let spare = i.spare;
    let state = spare.state;
    Told::from(locks::prepare_runtime_update(state, generation))
}
