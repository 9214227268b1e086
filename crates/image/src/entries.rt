// The records of which an image has a list, in the order of their ids: ACTIVE and DEFUNCT.
// SPDX-License-Identifier: Apache-2.0
ghost use Rattle.std.specs.Prelude.{◌≡◌, ℕ, refl};
ghost use Rattle.ids.specs.declared.LockId.{LockId};
ghost use Rattle.ids.specs.Order.{key};
ghost use Rattle.records.specs.Numbers.{stored};
ghost use Rattle.image.specs.Image.{Listed, active_list, defunct_list, bytes_of_one};
ghost use Rattle.image.specs.Steps.{place_of};

use crate::reader::Kept;
use ids::LockId;
use records::{layout, writing};
use state::{ActiveLock, DefunctLock};

pub(crate) trait Entry: Kept {
    ghost list: { Listed Self };

    ghost id_of: { Self → LockId };

    ghost SIZE: { ℕ };

    // Bytes of a whole record.
    const SIZE: usize;

    fn id(&self) -> LockId
        ensures { result ≡ id_of self.now };

    fn put(self, out: &mut [u8], at: usize)
        ensures { out.new ≡ stored out.old at (bytes_of_one list self) };

    ghost codec_is: { list.codec ≡ Self.codec };

    ghost place_is: { list.place ≡ place_of Self.due_of };

    ghost ids: { (r : Self) → list.id r ≡ key (id_of r) };
}

impl Entry for ActiveLock {
    ghost list = { active_list };

    ghost id_of = { λ a. a.lock.id };

    ghost SIZE = { 91 };

    ghost codec_is = { refl };

    ghost place_is = { refl };

    ghost ids = { λ a. refl };

    const SIZE: usize = layout::ACTIVE_RECORD;

    fn id(&self) -> LockId {
        self.lock.id
    }

    fn put(self, out: &mut [u8], at: usize) {
        writing::put_active(out, at, self)
    }
}

impl Entry for DefunctLock {
    ghost list = { defunct_list };

    ghost id_of = { λ d. d.lock.id };

    ghost SIZE = { 104 };

    ghost codec_is = { refl };

    ghost place_is = { refl };

    ghost ids = { λ d. refl };

    const SIZE: usize = layout::DEFUNCT_RECORD;

    fn id(&self) -> LockId {
        self.lock.id
    }

    fn put(self, out: &mut [u8], at: usize) {
        writing::put_defunct(out, at, self)
    }
}
