// What active locks and defunct entries have in common, for the rules that are of both lists.
// SPDX-License-Identifier: Apache-2.0
ghost use Rattle.std.specs.Prelude.{◌≡◌, ℕ, Bool, true, position};
ghost use Rattle.std.specs.List.{list_all};
ghost use Rattle.lists.specs.Tests.{◌and◌};
ghost use Rattle.lists.specs.Lists.{all, ascending};
ghost use Rattle.ids.specs.Order.{key};
ghost use Rattle.state.specs.Locks.{akey, dkey};
ghost use Rattle.rules.specs.Rules.{is_blank_a, is_blank_d, neat_a, neat_d};
ghost use Rattle.rules.specs.Code.{clean};
ghost use Rattle.rules.specs.Rows.{keyed};

use crate::shapes;
use crate::shapes::Dirt;
use ids::LockId;
use state::{ActiveLock, DefunctLock};

// A lock or entry, which its list is ordered by the id of.
pub trait Keyed: Copy {
    ghost row_key: { Self → ℕ };

    fn id(&self) -> LockId
        ensures { key result ≡ row_key self.now };
}

pub(crate) trait Row: Keyed {
    ghost is_blank: { Self → Bool };

    ghost is_neat: { Self → Bool };

    // What an unused place holds joins what others held.
    fn stain(&self, dirt: Dirt) -> Dirt
        ensures { clean result ≡ (clean dirt and is_blank self.now) };

    fn neat(&self) -> bool
        ensures { result ≡ is_neat self.now };
}

impl Keyed for ActiveLock {
    ghost row_key = { akey };

    fn id(&self) -> LockId {
        self.lock.id
    }
}

impl Row for ActiveLock {
    ghost is_blank = { is_blank_a };

    ghost is_neat = { neat_a };

    fn stain(&self, dirt: Dirt) -> Dirt {
        dirt.with_active(*self)
    }

    fn neat(&self) -> bool {
        shapes::neat_active(*self)
    }
}

impl Keyed for DefunctLock {
    ghost row_key = { dkey };

    fn id(&self) -> LockId {
        self.lock.id
    }
}

impl Row for DefunctLock {
    ghost is_blank = { is_blank_d };

    ghost is_neat = { neat_d };

    fn stain(&self, dirt: Dirt) -> Dirt {
        dirt.with_defunct(*self)
    }

    fn neat(&self) -> bool {
        shapes::neat_defunct(*self)
    }
}

// Whether all of them are blank.
pub(crate) fn blank<T: Row>(rows: &[T]) -> bool
    ensures { result ≡ all T.is_blank rows.now }
{
    let mut dirt = Dirt::nothing();
    for x in rows {
        dirt = x.stain(dirt);
    }
    dirt.is_clean()
}

pub(crate) fn neat<T: Row>(rows: &[T]) -> bool
    ensures { result ≡ list_all T.is_neat rows.now }
{
    rows.iter().all(|x| x.neat())
}

// Whether each id is below the next.
pub(crate) fn rising<T: Keyed>(rows: &[T]) -> bool
    ensures { result ≡ ascending T.row_key rows.now }
{
    rows.is_sorted_by(|a, b| ids::less(a.id(), b.id()))
}

// The place of an id in a list that ascends, by halving. Of another list it promises nothing, so it is the crate's own: operations
// has one too (docs/DECISIONS.md).
pub(crate) fn searched<T: Keyed>(rows: &[T], id: LockId) -> Option<usize>
    ensures { ascending T.row_key rows.now ≡ true → result ≡ position (keyed T.row_key (key id)) rows.now }
{
    let k = rows.partition_point(|x| ids::less(x.id(), id));
    if k < rows.len() {
        if ids::same(rows[k].id(), id) {
            return Some(k);
        }
    }
    None
}

// The place of the first that has the id, in any list: whoever asks need not know that it ascends. To see that takes a walk;
// what is known to ascend is searched without it, by `searched`, which is the crate's own.
pub fn place<T: Keyed>(rows: &[T], id: LockId) -> Option<usize>
    ensures { result ≡ position (keyed T.row_key (key id)) rows.now }
{
    if rising(rows) {
        return searched(rows, id);
    }
    rows.iter().position(|x| ids::same(x.id(), id))
}

#[cfg(test)]
mod tests {
    use super::*;
    use state::blank_defunct;

    fn entry(lo: u64) -> DefunctLock {
        let mut entry = blank_defunct();
        entry.lock.id.lo = lo;
        entry
    }

    #[test]
    fn the_first_with_the_id(rt: HostRuntime) {
        let ascending = [entry(1), entry(3), entry(5)];
        let other = [entry(5), entry(3), entry(1), entry(3)];
        for (lo, in_ascending, in_other) in [
            (0, None, None),
            (1, Some(0), Some(2)),
            (3, Some(1), Some(1)),
            (4, None, None),
            (5, Some(2), Some(0)),
            (6, None, None),
        ] {
            let id = LockId { hi: 0, lo };
            assert_eq!(rt; place(&ascending, id), in_ascending, "of {lo}");
            assert_eq!(rt; place(&other, id), in_other, "of {lo}");
        }
    }
}
