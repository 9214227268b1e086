// An image written into a lent buffer.
// SPDX-License-Identifier: Apache-2.0
ghost use Rattle.std.specs.Prelude.{◌≡◌, ◌+◌, ◌*◌, ◌≤◌, length};
ghost use Rattle.state.specs.Model.{model_of};
ghost use Rattle.records.specs.Numbers.{splice, stored};
ghost use Rattle.image.specs.Image.{active_list, bytes_of_one, bytes_of_run, image_of, done, write_on};

use crate::entries::Entry;
use crate::{Spare, WriteRefusal};
use records::bodies::Head;
use records::{layout, writing};
use state::ActiveLock;

// The records of a list, one after the other from `from` on.
fn put_run<R: Entry>(out: &mut [u8], from: usize, locks: &[R])
    requires size { (r : R) → length (bytes_of_one R.list r) ≡ R.SIZE }
    requires room { from + length locks.now * R.SIZE ≤ length out.old }
    ensures { out.new ≡ splice out.old from (bytes_of_run R.list locks.now) }
{
    let size = R::SIZE;
    let mut at = from;
    for lock in locks {
        lock.put(out, at);
        at += size;
    }
}

// How many bytes the spare's image has.
pub fn image_size(spare: Spare) -> usize
    ensures { result ≡ length (image_of (model_of spare.state) spare.expected) }
{
    layout::HEAD_RECORD
        + spare.state.active_locks().len() * layout::ACTIVE_RECORD
        + spare.state.defunct_locks().len() * layout::DEFUNCT_RECORD
}

// ACTIVE records of the locks, from the buffer's start on. Where they have no room, nothing is stored.
pub fn store_actives(out: &mut [u8], locks: &[ActiveLock])
    ensures { out.new ≡ stored out.old 0 (bytes_of_run active_list locks.now) }
{
    if locks.len() <= out.len() / layout::ACTIVE_RECORD {
        put_run(out, 0, locks);
    }
}

// The spare's image from the buffer's start on, whether the state is sound or not. Where it has no room, nothing is stored.
pub fn store_image(spare: Spare, out: &mut [u8])
    ensures { out.new ≡ stored out.old 0 (image_of (model_of spare.state) spare.expected) }
{
    let actives = spare.state.active_locks();
    let defuncts = spare.state.defunct_locks();
    let second = layout::HEAD_RECORD + actives.len() * layout::ACTIVE_RECORD;
    if out.len() < second + defuncts.len() * layout::DEFUNCT_RECORD {
        return;
    }
    let head = Head {
        revision: spare.state.revision,
        expected: spare.expected,
        actives: actives.len() as u16,
        defuncts: defuncts.len() as u16,
    };
    writing::put_head(out, 0, head);
    put_run(out, layout::HEAD_RECORD, actives);
    put_run(out, second, defuncts);
}

// 12, then 21; else the bytes from the buffer's start on. A refusal stores nothing.
pub fn write_image(spare: Spare, out: &mut [u8]) -> Result<usize, WriteRefusal>
    ensures { done result out.new ≡ write_on spare out.old }
{
    rules::broken(spare.state)?;
    let needed = layout::HEAD_RECORD
        + spare.state.actives * layout::ACTIVE_RECORD
        + spare.state.defuncts * layout::DEFUNCT_RECORD;
    if out.len() < needed {
        return Err(WriteRefusal::ShortOutput(needed));
    }
    store_image(spare, out);
    Ok(needed)
}
