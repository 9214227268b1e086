// A read of an image: the reply's bytes in a lent buffer.
// SPDX-License-Identifier: Apache-2.0
ghost use Rattle.std.specs.Prelude.{◌≡◌, length, take};
ghost use Rattle.records.specs.Numbers.{stored};
ghost use Rattle.cablegorse.specs.Telling.{kept};
ghost use Rattle.cablegorse.specs.Replies.{bytes_of_body, put_of, read_of};

use crate::questions::{Body, Reply};
use crate::{Told, putting, questions};
use ids::LockId;
use image::read;
use records::{layout, writing};
use state::LockState;

// The first n of the ids: no more than there are.
fn first(ids: &[LockId; LockState::ACTIVE], n: usize) -> &[LockId]
    ensures { result.now ≡ take n ids.now }
{
    &ids[..n.min(LockState::ACTIVE)]
}

#[tactic(auto, unfolding(crate::specs::Replies::bytes_of_body))]
fn size_of(body: &Body) -> usize
    ensures { result ≡ length (bytes_of_body body.now) }
{
    match body {
        Body::Nothing => 0,
        Body::Active(_) => layout::ACTIVE_RECORD,
        Body::Defunct(_) => layout::DEFUNCT_RECORD,
        Body::Ids(narrow) => first(&narrow.ids, narrow.count).len() * layout::ID,
    }
}

#[tactic(auto, unfolding(crate::specs::Replies::bytes_of_body))]
fn put_body(out: &mut [u8], body: &Body)
    ensures { out.new ≡ stored out.old 0 (bytes_of_body body.now) }
{
    match body {
        Body::Nothing => {}
        Body::Active(a) => {
            writing::put_active(out, 0, *a);
        }
        Body::Defunct(d) => {
            writing::put_defunct(out, 0, *d);
        }
        Body::Ids(narrow) => {
            putting::store_ids(out, first(&narrow.ids, narrow.count));
        }
    }
}

fn put_reply(r: Reply, out: &mut [u8]) -> Told
    ensures { kept result out.new ≡ put_of r out.old }
{
    let needed = size_of(&r.body);
    if out.len() < needed {
        return Told::new(21, &[needed as u64]);
    }
    put_body(out, &r.body);
    r.told
}

pub fn cablegorse_read(
    image: &[u8],
    question: u32,
    x: u64,
    y: u64,
    given: &[u8],
    out: &mut [u8],
) -> Told
    ensures { kept result out.new ≡ read_of image.now question x y given.now out.old }
{
    let i = read::read_image(image);
    if let Err(why) = i.told {
        return Told::from(why);
    }
    let spare = i.spare;
    let state = spare.state;
    match questions::answer(state, question, x, y, given) {
        Ok(reply) => put_reply(reply, out),
        Err(t) => t,
    }
}
