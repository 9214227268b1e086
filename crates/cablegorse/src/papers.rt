// Every answer as document 01's number and values, at most five.
// SPDX-License-Identifier: Apache-2.0
ghost use Rattle.std.specs.Prelude.{◌≡◌, ◌≤◌, Err, length, get_or};
ghost use Rattle.lists.specs.Papers.{paper};
ghost use Rattle.lookups.specs.Papers.{verdict_paper};
ghost use Rattle.locks.specs.Locks.{update_paper, dropping_paper};
ghost use Rattle.cablegorse.specs.Telling.{told_of, reading_told, named_told, class_number};
ghost use Rattle.cablegorse.specs.Changes.{is_gone};

use crate::Told;
use image::ImageRefusal;
use locks::{DroppingRefusal, Response, UpdateRefusal};
use names::{NameRefusal, Named};
use rules::Unsound;

// The i-th of the values, zero past their end.
fn value(values: &[u64], i: usize) -> u64
    ensures { result ≡ get_or values.now i 0 }
{
    values.get(i).copied().unwrap_or(0)
}

impl Told {
    // A number and its values, at most five; the others are zero.
    pub(crate) fn new(number: u32, values: &[u64]) -> Told
        requires { length values.now ≤ 5 }
        ensures { result ≡ told_of (paper number values.now) }
    {
        Told {
            number,
            count: values.len() as u32,
            v0: value(values, 0),
            v1: value(values, 1),
            v2: value(values, 2),
            v3: value(values, 3),
            v4: value(values, 4),
        }
    }
}

impl From<ImageRefusal> for Told {
    ghost from_gives = { λ why t. t ≡ reading_told (Err why) };

    #[tactic(auto, unfolding(crate::specs::Telling::reading_told, image::specs::Image::reading_paper))]
    fn from(why: ImageRefusal) -> Told {
        match why {
            ImageRefusal::Torn(x) => Told::new(17, &[x as u64]),
            ImageRefusal::BadKind(x) => Told::new(18, &[x as u64]),
            ImageRefusal::BadField(x) => Told::new(19, &[x as u64]),
            ImageRefusal::BadOrder(x) => Told::new(20, &[x as u64]),
            ImageRefusal::UnsoundState(n) => Told::new(12, &[n as u64]),
        }
    }
}

impl From<Unsound> for Told {
    ghost from_gives = { λ u t. t ≡ told_of (verdict_paper (Err u)) };

    #[tactic(auto, unfolding(lookups::specs::Papers::verdict_paper))]
    fn from(u: Unsound) -> Told {
        match u {
            Unsound::Rule(n) => Told::new(12, &[n as u64]),
        }
    }
}

impl From<Result<u64, UpdateRefusal>> for Told {
    ghost from_gives = { λ u t. t ≡ told_of (update_paper u) };

    #[tactic(auto, unfolding(locks::specs::Locks::update_paper))]
    fn from(u: Result<u64, UpdateRefusal>) -> Told {
        match u {
            Err(UpdateRefusal::UnsoundState(n)) => Told::new(12, &[n as u64]),
            Err(UpdateRefusal::FunctionalGroupLocksHeld) => Told::new(25, &[]),
            Err(UpdateRefusal::EcuLocksHeld) => Told::new(24, &[]),
            Ok(g) => Told::new(0, &[g]),
        }
    }
}

impl From<Result<Named, NameRefusal>> for Told {
    ghost from_gives = { λ n t. t ≡ named_told n };

    #[tactic(auto, unfolding(crate::specs::Telling::named_told))]
    fn from(n: Result<Named, NameRefusal>) -> Told {
        match n {
            Err(NameRefusal::BadTable) => Told::new(27, &[]),
            Err(NameRefusal::NameTooLong) => Told::new(22, &[]),
            Err(NameRefusal::NamesFull) => Told::new(23, &[]),
            Ok(Named::Known(k)) => Told::new(0, &[k as u64]),
            Ok(Named::Learned(k)) => Told::new(0, &[k as u64]),
        }
    }
}

impl From<Result<bool, DroppingRefusal>> for Told {
    ghost from_gives = { λ d t. t ≡ told_of (dropping_paper d) };

    #[tactic(auto, unfolding(locks::specs::Locks::dropping_paper))]
    fn from(d: Result<bool, DroppingRefusal>) -> Told {
        match d {
            Ok(true) => Told::new(0, &[1]),
            Ok(false) => Told::new(0, &[0]),
            Err(DroppingRefusal::RevisionOverflow) => Told::new(8, &[]),
            Err(DroppingRefusal::UnsoundState(n)) => Told::new(12, &[n as u64]),
            Err(DroppingRefusal::Forbidden) => Told::new(26, &[]),
        }
    }
}

#[tactic(auto, unfolding(crate::specs::Telling::class_number))]
pub(crate) fn of_response(c: Option<Response>) -> u32
    ensures { result ≡ class_number c }
{
    match c {
        None => 0,
        Some(Response::BadRequest) => 1,
        Some(Response::Conflict) => 2,
        Some(Response::InternalServerError) => 3,
        Some(Response::Forbidden) => 4,
    }
}

// Whether the entry is gone: at the last revision too.
#[tactic(auto, unfolding(crate::specs::Changes::is_gone))]
pub(crate) fn is_gone(d: Result<bool, DroppingRefusal>) -> bool
    ensures { result ≡ is_gone d }
{
    match d {
        Ok(true) => true,
        Ok(false) => false,
        Err(DroppingRefusal::RevisionOverflow) => true,
        Err(DroppingRefusal::UnsoundState(_)) => false,
        Err(DroppingRefusal::Forbidden) => false,
    }
}
