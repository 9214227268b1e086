// Changes at the boundary: the next image in a lent buffer, and what a record removed in two others.
// SPDX-License-Identifier: Apache-2.0
ghost use Rattle.std.specs.Prelude.{◌≡◌};
ghost use Rattle.cablegorse.specs.Changes.{applied, still, changed, apply_of, left, drop_put, delete_of};
ghost use Rattle.cablegorse.specs.Code.{step_shown};

use crate::{Applied, Told, arguments, papers, putting};
use feed::events::Step;
use ids::LockId;
use image::{Spare, read, write};
use locks::Dropped;
use records::layout;
use state::LockState;

fn applied(
    t: Told,
    part: u32,
    sequence: u32,
    place: u64,
    written: u64,
    gone: u64,
    lapsed: u64,
) -> Applied
    ensures { result ≡ applied t part sequence place written gone lapsed }
{
    Applied {
        number: t.number,
        count: t.count,
        v0: t.v0,
        v1: t.v1,
        v2: t.v2,
        v3: t.v3,
        v4: t.v4,
        part,
        sequence,
        place,
        written,
        gone,
        lapsed,
    }
}

// Nothing was written.
pub(crate) fn still(t: Told, part: u32, sequence: u32, place: u64) -> Applied
    ensures { result ≡ still t part sequence place }
{
    applied(t, part, sequence, place, 0, 0, 0)
}

// All three outputs or none. 12 is the image's refusal: the step is where its state is tested. The outputs stand apart, here
// and in sending: C lends each by itself, and contracts speak of each one's bytes before and after.
pub(crate) fn put_step(
    s: Step,
    at: usize,
    next: &mut [u8],
    removed: &mut [u8],
    expired: &mut [u8],
) -> Applied
    ensures { changed result next.new removed.new expired.new ≡ step_shown at s next.old removed.old expired.old }
{
    let told = s.told;
    let event = told.event;
    let t = Told::from(event);
    if feed::events::is_unsound(event) {
        return still(t, 0, 0, at as u64);
    }
    if !feed::events::is_applied(event) {
        return still(t, 1, told.sequence, told.next as u64);
    }
    let spare = s.spare;
    let size = write::image_size(spare);
    let gone = told.gone.min(LockState::ACTIVE);
    let lapsed = told.lapsed.min(LockState::DEFUNCT);
    if (next.len() < size)
        | (removed.len() < gone * layout::ACTIVE_RECORD)
        | (expired.len() < lapsed * layout::ID)
    {
        let short = Told::new(
            21,
            &[
                size as u64,
                (gone * layout::ACTIVE_RECORD) as u64,
                (lapsed * layout::ID) as u64,
            ],
        );
        return still(short, 3, told.sequence, at as u64);
    }
    write::store_image(spare, next);
    write::store_actives(removed, &told.removed[..gone]);
    putting::store_ids(expired, &told.ids[..lapsed]);
    applied(
        t,
        2,
        told.sequence,
        told.next as u64,
        size as u64,
        gone as u64,
        lapsed as u64,
    )
}

// The record at a place of a feed, applied to the image's spare.
pub fn cablegorse_apply(
    image: &[u8],
    stream: &[u8],
    at: usize,
    next: &mut [u8],
    removed: &mut [u8],
    expired: &mut [u8],
) -> Applied
    ensures { changed result next.new removed.new expired.new ≡ apply_of image.now stream.now at next.old removed.old expired.old }
{
    let i = read::read_records(image);
    if let Err(why) = i.told {
        return still(Told::from(why), 0, 0, at as u64);
    }
    let spare = i.spare;
    let s = feed::step(spare, stream, at);
    put_step(s, at, next, removed, expired)
}

// The next image where the entry is gone; the expected number stays.
fn put_dropped(d: Dropped, expected: u32, next: &mut [u8]) -> Applied
    ensures { left result next.new ≡ drop_put expected d next.old }
{
    let told = d.told;
    let t = Told::from(told);
    if !papers::is_gone(told) {
        return still(t, 2, 0, 0);
    }
    let state = d.state;
    let spare = Spare { state, expected };
    let size = write::image_size(spare);
    if next.len() < size {
        let short = Told::new(21, &[size as u64, 0, 0]);
        return still(short, 3, 0, 0);
    }
    write::store_image(spare, next);
    applied(t, 2, 0, 0, size as u64, 0, 0)
}

// A defunct entry deleted, which no record of a feed asks for.
pub fn cablegorse_delete_defunct(
    image: &[u8],
    hi: u64,
    lo: u64,
    kind: u8,
    number: u8,
    subject: u16,
    next: &mut [u8],
) -> Applied
    ensures { left result next.new ≡ delete_of image.now hi lo kind number subject next.old }
{
    let i = read::read_image(image);
    if let Err(why) = i.told {
        return still(Told::from(why), 0, 0, 0);
    }
    let spare = i.spare;
    match arguments::scope_in(kind as u64, number as u64) {
        Err(t) => still(t, 1, 0, 0),
        Ok(scope) => {
            let state = spare.state;
            let d = locks::delete_defunct(state, LockId { hi, lo }, scope, subject);
            put_dropped(d, spare.expected, next)
        }
    }
}
