// Raw ids in a lent buffer, one after the other.
// SPDX-License-Identifier: Apache-2.0
ghost use Rattle.std.specs.Prelude.{◌≡◌, ◌*◌, ◌≤◌, length};
ghost use Rattle.records.specs.Numbers.{splice, stored, bytes_of_all};
ghost use Rattle.records.specs.Wire.{id_bytes};

use ids::LockId;
use records::{layout, writing};

fn put_ids(out: &mut [u8], ids: &[LockId])
    requires { length ids.now * 16 ≤ length out.old }
    ensures { out.new ≡ splice out.old 0 (bytes_of_all id_bytes ids.now) }
{
    for (i, id) in ids.iter().enumerate() {
        writing::put_id(out, i * layout::ID, *id);
    }
}

// The ids from the buffer's start on. Where they have no room, nothing is stored.
pub(crate) fn store_ids(out: &mut [u8], ids: &[LockId])
    ensures { out.new ≡ stored out.old 0 (bytes_of_all id_bytes ids.now) }
{
    if ids.len() <= out.len() / layout::ID {
        put_ids(out, ids);
    }
}
