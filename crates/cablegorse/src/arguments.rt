// Arguments of a read: numbers that must be in their range, and records.
// SPDX-License-Identifier: Apache-2.0
ghost use Rattle.std.specs.Prelude.{◌≡◌};
ghost use Rattle.image.specs.Image.{record_at};
ghost use Rattle.image.specs.Steps.{place_of};
ghost use Rattle.cablegorse.specs.Questions.{bad_told, scoped_of, scope_told, record_told, tester_told};

use crate::Told;
use image::reader;
use image::reader::Kept;
use lookups::TesterPresent;
use records::bodies;
use state::ScopeKey;
use std::num::TryFromIntError;

// A scope in one number: its kind times this, and its number.
pub(crate) const BYTE: u64 = u8::MAX as u64 + 1;

// A number that its type can't hold.
impl From<TryFromIntError> for Told {
    ghost from_gives = { λ _ t. t ≡ bad_told };

    fn from(_why: TryFromIntError) -> Told {
        Told::new(19, &[0])
    }
}

pub(crate) fn scope_in(kind: u64, number: u64) -> Result<ScopeKey, Told>
    ensures { result ≡ scope_told (scoped_of kind number) }
{
    let k = u8::try_from(kind)?;
    let n = u8::try_from(number)?;
    if !bodies::scope_right(k, n) {
        return Err(Told::new(19, &[0]));
    }
    Ok(bodies::scope_of(k, n))
}

// The record of this kind at the start; what follows it is not read.
pub(crate) fn record_in<R: Kept>(given: &[u8]) -> Result<R, Told>
    ensures { result ≡ record_told (record_at R.codec (place_of R.due_of) given.now 0) }
{
    let (record, _) = reader::record_from::<R>(given, 0)?;
    Ok(record)
}

// 1 an ECU, 2 a group.
pub(crate) fn tester_in(kind: u64, number: u64) -> Result<TesterPresent, Told>
    ensures { result ≡ tester_told kind number }
{
    let n = u8::try_from(number)?;
    match kind {
        1 => Ok(TesterPresent::Ecu(n)),
        2 => Ok(TesterPresent::Functional(n)),
        _ => Err(Told::new(19, &[0])),
    }
}
