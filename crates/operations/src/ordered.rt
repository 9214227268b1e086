// Locks in the order of their ids.
// SPDX-License-Identifier: Apache-2.0
ghost use Rattle.std.specs.Prelude.{◌≡◌, ℕ, ◌-◌, ◌≤◌, ◌<◌, true, length, take, ltb, position};
ghost use Rattle.std.specs.List.{position_or_len};
ghost use Rattle.lists.specs.Lists.{ascending, insert_by};
ghost use Rattle.ids.specs.Order.{key};
ghost use Rattle.rules.specs.Code.{keyed};

use ids::LockId;
use rules::rows::Keyed;

// The place of an id in a list that ascends, by halving. rules has the same, `searched`: of another list it promises nothing, so
// neither is public.
pub(crate) fn place<T: Keyed>(rows: &[T], id: LockId) -> Option<usize>
    ensures { ascending T.row_key rows.now ≡ true → result ≡ position (keyed T.row_key (key id)) rows.now }
{
    let k = rows.partition_point(|x| ids::less(x.id(), id));
    if k < rows.len() {
        if ids::same(rows[k].id(), id) {
            return Some(k);
        }
    }
    None
}

// Where what has the id comes: before the first of the items that it comes before.
fn place_of<T: Keyed>(items: &[T], id: LockId) -> usize
    ensures first { result ≡ position_or_len (λ y. ltb (key id) (T.row_key y)) items.now }
    ensures within { result ≤ length items.now }
{
    items
        .iter()
        .position(|y| ids::less(id, y.id()))
        .unwrap_or(items.len())
}

// All but the last of the items are in use: x comes to its place among them, and those from there on go one place up.
pub(crate) fn put_in<T: Keyed>(items: &mut [T], x: T)
    requires { 0 < length items.old }
    ensures { items.new ≡ insert_by T.row_key x (take (length items.old - 1) items.old) }
{
    let n = items.len() - 1;
    let k = place_of(&items[..n], x.id());
    items[k..].rotate_right(1);
    items[k] = x;
}
