// The board of control units at the boundary: made from an image, and kept beside it by each change.
// SPDX-License-Identifier: Apache-2.0
ghost use Rattle.std.specs.Prelude.{◌≡◌, [], ◌∷◌};
ghost use Rattle.lists.specs.Papers.{paper};
ghost use Rattle.lookups.specs.Reads.{on_sound};
ghost use Rattle.image.specs.Image.{writing_paper};
ghost use Rattle.cablegorse.specs.Telling.{told_of, kept};
ghost use Rattle.cablegorse.specs.Changes.{changed, left};
ghost use Rattle.cablegorse.specs.Code.{step_shown};
ghost use Rattle.cablegorse.specs.Boards.{board_of_image, board_told, board_changed, followed_by, apply_board_of, delete_board_of};

use crate::{Applied, Told, changes};
use feed::events::Step;
use image::{WriteRefusal, read};
use state::LockState;

// BoardMismatch.
const MISMATCH: u32 = 28;

// The outputs were written.
const WRITTEN: u32 = 2;

impl From<Result<usize, WriteRefusal>> for Told {
    ghost from_gives = { λ w t. t ≡ told_of (writing_paper w) };

    #[tactic(auto, unfolding(image::specs::Image::writing_paper))]
    fn from(w: Result<usize, WriteRefusal>) -> Told {
        match w {
            Ok(n) => Told::new(0, &[n as u64]),
            Err(WriteRefusal::UnsoundState(rule)) => Told::new(12, &[rule as u64]),
            Err(WriteRefusal::ShortOutput(n)) => Told::new(21, &[n as u64]),
        }
    }
}

// The image's board from the buffer's start on.
pub fn cablegorse_board(image: &[u8], out: &mut [u8]) -> Told
    ensures { kept result out.new ≡ board_of_image image.now out.old }
{
    let i = read::read_image(image);
    if let Err(why) = i.told {
        return Told::from(why);
    }
    let spare = i.spare;
    let state = spare.state;
    Told::from(board::fresh(state, out))
}

// The board isn't the state's: 12 comes first.
fn unmatched(state: LockState) -> Told
    ensures { result ≡ on_sound state (λ n. told_of (paper 12 (n ∷ []))) (told_of (paper 28 [])) }
{
    match rules::broken(state) {
        Err(u) => Told::from(u),
        Ok(()) => Told::new(MISMATCH, &[]),
    }
}

// All four or none.
fn put_followed(
    s: Step,
    board: &mut [u8],
    stream: &[u8],
    at: usize,
    next: &mut [u8],
    removed: &mut [u8],
    expired: &mut [u8],
) -> Applied
    ensures { board_changed (changed result next.new removed.new expired.new) board.new ≡ followed_by stream.now at s board.old (step_shown at s next.old removed.old expired.old) }
{
    let done = changes::put_step(s, at, next, removed, expired);
    if done.part != WRITTEN {
        return done;
    }
    board::follow_step(board, stream, at, s);
    done
}

// The record at a place of a feed, applied to the image's spare, and the board with it.
pub fn cablegorse_apply_board(
    image: &[u8],
    board: &mut [u8],
    stream: &[u8],
    at: usize,
    next: &mut [u8],
    removed: &mut [u8],
    expired: &mut [u8],
) -> Applied
    ensures { board_changed (changed result next.new removed.new expired.new) board.new ≡ apply_board_of image.now board.old stream.now at next.old removed.old expired.old }
{
    let i = read::read_records(image);
    if let Err(why) = i.told {
        return changes::still(Told::from(why), 0, 0, at as u64);
    }
    let spare = i.spare;
    let state = spare.state;
    if !board::matches(state, board) {
        return changes::still(unmatched(state), 0, 0, at as u64);
    }
    let s = feed::step(spare, stream, at);
    put_followed(s, board, stream, at, next, removed, expired)
}

// An image and a board: the image's refusals, then 28; 0 where the board is the image's own. No Result: what docs/REQUESTS.md
// names, `board_told`, is a Told.
fn board_told(image: &[u8], board: &[u8]) -> Told
    ensures { result ≡ board_told image.now board.now }
{
    let i = read::read_image(image);
    if let Err(why) = i.told {
        return Told::from(why);
    }
    let spare = i.spare;
    let state = spare.state;
    if board::matches(state, board) {
        return Told::new(0, &[]);
    }
    Told::new(MISMATCH, &[])
}

// A defunct entry deleted, with the image's board beside it. The image is read once more for the board: people delete
// entries, feeds don't.
pub fn cablegorse_delete_defunct_board(
    image: &[u8],
    board: &[u8],
    hi: u64,
    lo: u64,
    kind: u8,
    number: u8,
    subject: u16,
    next: &mut [u8],
) -> Applied
    ensures { left result next.new ≡ delete_board_of image.now board.now hi lo kind number subject next.old }
{
    let t = board_told(image, board);
    if t.number != 0 {
        return changes::still(t, 0, 0, 0);
    }
    changes::cablegorse_delete_defunct(image, hi, lo, kind, number, subject, next)
}
