// An image read: first its records, then the sound-state test.
// SPDX-License-Identifier: Apache-2.0
ghost use Rattle.std.specs.Prelude.{◌≡◌, length};
ghost use Rattle.image.specs.Image.{run_at, spare_of, no_spare, imaged, refusal, held_by, records_of, read_on};
ghost use Rattle.image.specs.Code.{on_ok, out_of_order, next_of};

use crate::entries::Entry;
use crate::reader::record_from;
use crate::{ImageRefusal, Imaged, Spare};
use ids::LockId;
use records::bodies::Head;
use state::LockState;

fn no_spare() -> Spare
    ensures { result ≡ no_spare }
{
    Spare {
        state: LockState::empty(),
        expected: 0,
    }
}

// A refusal leaves no state. Never inlined: its empty spare would take a place of its own in each reader's frame.
#[inline(never)]
fn refuse(r: &mut Imaged, why: ImageRefusal)
    ensures { r.new ≡ refusal why }
{
    r.told = Err(why);
    r.spare = no_spare();
}

// Whether id may not follow last: where ids needn't strictly ascend, it still must not fall.
fn out_of_order(strict: bool, last: LockId, id: LockId) -> bool
    ensures { result ≡ out_of_order strict last id }
{
    if strict {
        return !ids::less(last, id);
    }
    ids::less(id, last)
}

// The next record of a run, after i others whose last id is `last`.
fn record_after<R: Entry>(
    image: &[u8],
    at: usize,
    strict: bool,
    i: usize,
    last: LockId,
) -> Result<(R, usize), ImageRefusal>
    ensures { result ≡ next_of R.list strict image.now at i last }
{
    let (r, next) = record_from::<R>(image, at)?;
    if (0 < i) & out_of_order(strict, last, r.id()) {
        return Err(ImageRefusal::BadOrder(at));
    }
    Ok((r, next))
}

// A run of records from `at` on, each into its place, and the place after the last of them.
fn run_from<R: Entry>(
    image: &[u8],
    at: usize,
    strict: bool,
    places: &mut [R],
) -> Result<usize, ImageRefusal>
    ensures { on_ok (λ n. (places.new, n)) result ≡ run_at R.list strict image.now (length places.old) 0 at }
{
    let mut last = LockId { hi: 0, lo: 0 };
    let mut next = at;
    for (i, place) in places.iter_mut().enumerate() {
        let (r, past) = record_after::<R>(image, next, strict, i, last)?;
        *place = r;
        last = r.id();
        next = past;
    }
    Ok(next)
}

// HEAD and both lists, each record read into its place in the empty spare, and nothing after them.
fn lists_from(image: &[u8], strict: bool, spare: &mut Spare) -> Result<(), ImageRefusal>
    requires { spare.old ≡ no_spare }
    ensures { on_ok (λ u. spare.new) result ≡ on_ok (λ g. spare_of g.0) (held_by strict image.now) }
{
    let (head, first) = record_from::<Head>(image, 0)?;
    let actives = head.actives as usize;
    let defuncts = head.defuncts as usize;
    let second = run_from(image, first, strict, &mut spare.state.active[..actives])?;
    let end = run_from(image, second, strict, &mut spare.state.defunct[..defuncts])?;
    if end < image.len() {
        return Err(ImageRefusal::BadOrder(end));
    }
    spare.state.revision = head.revision;
    spare.state.actives = actives;
    spare.state.defuncts = defuncts;
    spare.expected = head.expected;
    Ok(())
}

// The records alone, their ids in strict order or only not falling.
fn records_by(image: &[u8], strict: bool) -> Imaged
    ensures { result ≡ imaged (held_by strict image.now) }
{
    let mut r = Imaged {
        told: Ok(()),
        spare: no_spare(),
    };
    if let Err(why) = lists_from(image, strict, &mut r.spare) {
        refuse(&mut r, why);
    }
    r
}

// The first half: the records alone, without the sound-state test.
pub fn read_records(image: &[u8]) -> Imaged
    ensures { result ≡ records_of image.now }
{
    records_by(image, true)
}

pub fn read_image(image: &[u8]) -> Imaged
    ensures { result ≡ read_on image.now }
{
    let mut r = read_records(image);
    if r.told.is_ok() {
        if let Err(why) = rules::broken(r.spare.state) {
            refuse(&mut r, ImageRefusal::from(why));
        }
    }
    r
}
