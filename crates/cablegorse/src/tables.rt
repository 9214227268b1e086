// Name tables at the boundary: a name's number, and a number's name.
// SPDX-License-Identifier: Apache-2.0
ghost use Rattle.std.specs.Prelude.{◌≡◌};
ghost use Rattle.cablegorse.specs.Telling.{kept};
ghost use Rattle.cablegorse.specs.Boundary.{name_number_of, name_at_of};

use crate::{Told, copying};
use names::TableRefusal;

// The name's number. A new name is learned; a refusal leaves every byte of the table.
pub fn cablegorse_name_number(table: &mut [u8], name: &[u8], folding: bool) -> Told
    ensures { kept result table.new ≡ name_number_of folding table.old name.now }
{
    Told::from(names::number_of(table, name, folding))
}

// The name of a number, copied into the buffer.
pub fn cablegorse_name_at(table: &[u8], number: u16, folding: bool, out: &mut [u8]) -> Told
    ensures { kept result out.new ≡ name_at_of folding table.now number out.old }
{
    match names::place_at(table, number, folding) {
        Err(TableRefusal::BadTable) => Told::new(27, &[]),
        Ok(None) => Told::new(0, &[0]),
        Ok(Some(place)) => {
            if out.len() < place.len {
                return Told::new(21, &[place.len as u64]);
            }
            let end = place.start + place.len;
            let n = copying::copy(&table[place.start..end], out);
            Told::new(0, &[1, n as u64])
        }
    }
}
