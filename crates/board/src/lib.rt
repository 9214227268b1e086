// A board of control units: beside the state, for each ECU how many active locks cover it and the lowest id among them. A call
// with a board is the plain call, or 28.
// SPDX-License-Identifier: Apache-2.0
#![tactic(auto)]

mod changes;
mod ecus;
mod entries;

ghost use Rattle.std.specs.Prelude.{◌≡◌};
ghost use Rattle.rules.specs.declared.Unsound.{Unsound};
ghost use Rattle.rules.specs.Rules.{broken_rule};
ghost use Rattle.board.specs.Board.{matches, unsound, check_on};
ghost use Rattle.board.specs.Forms.{boarded, told, mismatched, perform_board, told_dropped, mismatched_dropped, delete_defunct_board, told_step, mismatched_step, step_board, step_followed, fresh_on};

use calls::{Outcome, Performed};
use coverage::LockCoverage;
use feed::events::{FeedRefusal, Step, Told};
use ids::LockId;
use image::{Spare, WriteRefusal};
use locks::{Dropped, DroppingRefusal};
use operations::answers::Left;
use records::layout;
use records::requests::Request;
use rules::Unsound;
use state::{ActiveLock, LockState, ScopeKey};

pub const ECUS: usize = 256;

// A count, and an id.
pub const ENTRY: usize = 1 + layout::ID;

// The bytes of a board.
pub const SIZE: usize = ECUS * ENTRY;

// 28: the board isn't the state's own.
#[derive(Clone, Copy, PartialEq, Eq)]
pub enum Mismatch {
    BoardMismatch,
}

// 12 with the rule, then 28.
#[derive(Clone, Copy, PartialEq, Eq)]
pub enum BoardRefusal {
    UnsoundState(u8),
    BoardMismatch,
}

impl From<Unsound> for BoardRefusal {
    ghost from_gives = { λ u r. r ≡ unsound u };

    fn from(u: Unsound) -> BoardRefusal {
        let Unsound::Rule(n) = u;
        BoardRefusal::UnsoundState(n)
    }
}

// As Performed of calls, the state apart: it is what an adapter lends. 28, or what the plain call answered. No generic type with
// Performed, nor BoardTold with Told: nothing is written over both, and each theorem on a plain call would name its argument.
#[derive(Clone, Copy)]
pub struct BoardDeed {
    pub outcome: Result<Outcome, Mismatch>,
    pub gone: usize,
    pub removed: [ActiveLock; LockState::ACTIVE],
    pub lapsed: usize,
    pub ids: [LockId; LockState::DEFUNCT],
}

pub type BoardPerformed = Left<BoardDeed>;

pub type BoardDropped = Left<Result<Result<bool, DroppingRefusal>, Mismatch>>;

// As Told of feed. 28 leaves the place where it is, and the spare.
#[derive(Clone, Copy)]
pub struct BoardTold {
    pub event: Result<Result<Outcome, FeedRefusal>, Mismatch>,
    pub sequence: u32,
    pub next: usize,
    pub gone: usize,
    pub removed: [ActiveLock; LockState::ACTIVE],
    pub lapsed: usize,
    pub ids: [LockId; LockState::DEFUNCT],
}

#[derive(Clone, Copy)]
pub struct BoardStep {
    pub told: BoardTold,
    pub spare: Spare,
}

// Whether the board is the state's own; of a board of another size it isn't.
pub fn matches(state: LockState, board: &[u8]) -> bool
    ensures { result ≡ matches state board.now }
{
    if board.len() != SIZE {
        return false;
    }
    let mut own = [0u8; SIZE];
    entries::fill(&mut own, state.active_locks(), LockCoverage::vehicle());
    board == own.as_slice()
}

// 12, then 28: for whoever is handed a state and a board and makes no call.
pub fn check(state: LockState, board: &[u8]) -> Result<(), BoardRefusal>
    ensures { result ≡ check_on state board.now }
{
    rules::broken(state)?;
    if matches(state, board) {
        return Ok(());
    }
    Err(BoardRefusal::BoardMismatch)
}

// 12, then 21; else the state's board from the buffer's start on. A refusal stores nothing.
pub fn fresh(state: LockState, out: &mut [u8]) -> Result<usize, WriteRefusal>
    ensures { boarded result out.new ≡ fresh_on state out.old }
{
    rules::broken(state)?;
    if out.len() < SIZE {
        return Err(WriteRefusal::ShortOutput(SIZE));
    }
    entries::refresh(
        &mut out[..SIZE],
        state.active_locks(),
        LockCoverage::vehicle(),
    );
    Ok(SIZE)
}

// ---- the calls
fn told(done: Performed) -> BoardPerformed
    ensures { result ≡ told done }
{
    let Performed {
        outcome,
        gone,
        removed,
        lapsed,
        ids,
        state,
    } = done;
    Left {
        told: BoardDeed {
            outcome: Ok(outcome),
            gone,
            removed,
            lapsed,
            ids,
        },
        state,
    }
}

fn mismatched(state: LockState) -> BoardPerformed
    ensures { result ≡ mismatched state }
{
    Left {
        told: BoardDeed {
            outcome: Err(Mismatch::BoardMismatch),
            gone: 0,
            removed: [state::blank_active(); LockState::ACTIVE],
            lapsed: 0,
            ids: [LockId { hi: 0, lo: 0 }; LockState::DEFUNCT],
        },
        state,
    }
}

// Another board: 12 comes first, and is the plain call's own answer. Of the two only what is told is built.
fn unmatched<T: Drop, F: FnOnce() -> T, G: FnOnce() -> T>(
    state: LockState,
    plain: F,
    mismatched: G,
) -> T
    requires plain { F.IsAlwaysCallable plain }
    requires mismatched { G.IsAlwaysCallable mismatched }
    ensures unsound { (u : Unsound) → broken_rule state ≡ Err u → F.post plain result }
    ensures sound { broken_rule state ≡ Ok tt → G.post mismatched result }
{
    match rules::broken(state) {
        Err(_) => plain(),
        Ok(()) => mismatched(),
    }
}

// Any of the eight operations. The board is tested before it and follows it.
pub fn perform(state: LockState, request: Request, list: &[u64], board: &mut [u8]) -> BoardPerformed
    ensures { boarded result board.new ≡ perform_board state request list.now board.old }
{
    if !matches(state, board) {
        return unmatched(
            state,
            || told(calls::perform(state, request, list)),
            || mismatched(state),
        );
    }
    let done = calls::perform(state, request, list);
    changes::follow_call(board, request, done);
    told(done)
}

fn told_dropped(done: Dropped) -> BoardDropped
    ensures { result ≡ told_dropped done }
{
    Left {
        told: Ok(done.told),
        state: done.state,
    }
}

fn mismatched_dropped(state: LockState) -> BoardDropped
    ensures { result ≡ mismatched_dropped state }
{
    Left {
        told: Err(Mismatch::BoardMismatch),
        state,
    }
}

// No active lock comes or goes, so the board is only read.
pub fn delete_defunct(
    state: LockState,
    id: LockId,
    scope: ScopeKey,
    subject: u16,
    board: &[u8],
) -> BoardDropped
    ensures { result ≡ delete_defunct_board state id scope subject board.now }
{
    if !matches(state, board) {
        return unmatched(
            state,
            || told_dropped(locks::delete_defunct(state, id, scope, subject)),
            || mismatched_dropped(state),
        );
    }
    told_dropped(locks::delete_defunct(state, id, scope, subject))
}

fn told_step(step: Step) -> BoardStep
    ensures { result ≡ told_step step }
{
    let Step { told, spare } = step;
    let Told {
        event,
        sequence,
        next,
        gone,
        removed,
        lapsed,
        ids,
    } = told;
    BoardStep {
        told: BoardTold {
            event: Ok(event),
            sequence,
            next,
            gone,
            removed,
            lapsed,
            ids,
        },
        spare,
    }
}

fn mismatched_step(spare: Spare, at: usize) -> BoardStep
    ensures { result ≡ mismatched_step spare at }
{
    BoardStep {
        told: BoardTold {
            event: Err(Mismatch::BoardMismatch),
            sequence: 0,
            next: at,
            gone: 0,
            removed: [state::blank_active(); LockState::ACTIVE],
            lapsed: 0,
            ids: [LockId { hi: 0, lo: 0 }; LockState::DEFUNCT],
        },
        spare,
    }
}

// The board after a step that was made without it; a buffer of another size stays. For whoever must first see whether the step's
// outputs have room.
pub fn follow_step(board: &mut [u8], feed: &[u8], at: usize, step: Step)
    ensures { board.new ≡ step_followed feed.now at step board.old }
{
    if board.len() != SIZE {
        return;
    }
    changes::follow_record(board, feed, at, step);
}

// One record of a feed.
pub fn step(spare: Spare, feed: &[u8], at: usize, board: &mut [u8]) -> BoardStep
    ensures { boarded result board.new ≡ step_board spare feed.now at board.old }
{
    if !matches(spare.state, board) {
        return unmatched(
            spare.state,
            || told_step(feed::step(spare, feed, at)),
            || mismatched_step(spare, at),
        );
    }
    let done = feed::step(spare, feed, at);
    changes::follow_record(board, feed, at, done);
    told_step(done)
}
