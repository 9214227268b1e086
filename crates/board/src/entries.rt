// The entries of a board worked out: emptied, then each lock put in, the last first, so that the lowest id stays.
// SPDX-License-Identifier: Apache-2.0
ghost use Rattle.std.specs.Prelude.{◌≡◌, ◌*◌, ◌<◌, ◌≤◌, length};
ghost use Rattle.coverage.specs.Coverage.{covers};
ghost use Rattle.records.specs.Numbers.{splice};
ghost use Rattle.board.specs.Board.{entry_at, refreshed};
ghost use Rattle.board.specs.Code.{count_after, turned, touched, EmptyIn};

use crate::ecus;
use coverage::LockCoverage;
use ids::LockId;
use records::writing;
use state::ActiveLock;

// No count passes 64; a sum that goes round needs no test.
fn count_after(count: u8, lock: Option<LockId>) -> u8
    ensures { result ≡ count_after lock count }
{
    match lock {
        Some(_) => count.wrapping_add(1),
        None => 0,
    }
}

// An entry with one more lock, whose id is the lowest so far, or emptied.
fn turn(board: &mut [u8], e: usize, lock: Option<LockId>)
    requires { (e < 256) × (length board.old ≡ 4352) }
    ensures { board.new ≡ splice board.old (e * 17) (turned lock (entry_at board.old e)) }
{
    let at = e * crate::ENTRY;
    board[at] = count_after(board[at], lock);
    let id = lock.unwrap_or(LockId { hi: 0, lo: 0 });
    writing::put_id(board, at + 1, id);
}

// Every entry of an ECU that is covered, from one to the next.
fn touch(board: &mut [u8], c: LockCoverage, lock: Option<LockId>)
    requires { length board.old ≡ 4352 }
    ensures { board.new ≡ touched (covers c) lock board.old }
{
    let mut e = ecus::next_from(c, 0);
    while e < crate::ECUS {
        turn(board, e, lock);
        e = ecus::next_from(c, e + 1);
    }
}

// The locks put into entries that are empty, of the ECUs in c.
pub(crate) fn fill(board: &mut [u8], locks: &[ActiveLock], c: LockCoverage)
    requires { (length locks.now ≤ 64) × (length board.old ≡ 4352) × EmptyIn c board.old }
    ensures { board.new ≡ refreshed (covers c) locks.now board.old }
{
    for i in (0..locks.len()).rev() {
        let lock = &locks[i].lock;
        touch(board, ecus::common(c, lock.coverage), Some(lock.id));
    }
}

// The entries of the ECUs in c worked out afresh; the others are not written.
pub(crate) fn refresh(board: &mut [u8], locks: &[ActiveLock], c: LockCoverage)
    requires { (length locks.now ≤ 64) × (length board.old ≡ 4352) }
    ensures { board.new ≡ refreshed (covers c) locks.now board.old }
{
    touch(board, c, None);
    fill(board, locks, c);
}
