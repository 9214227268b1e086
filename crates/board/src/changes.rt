// The ECUs of the locks that came or went, and the board that follows them.
// SPDX-License-Identifier: Apache-2.0
ghost use Rattle.std.specs.Prelude.{◌≡◌, ◌≤◌, ◌++◌, length};
ghost use Rattle.lists.specs.Tests.{◌or◌};
ghost use Rattle.lists.specs.Lists.{any};
ghost use Rattle.coverage.specs.Coverage.{covers};
ghost use Rattle.state.specs.Model.{model_of};
ghost use Rattle.board.specs.Board.{on, brings, arrived, updated};
ghost use Rattle.board.specs.Code.{Covers};
ghost use Rattle.board.specs.Forms.{call_board, request_moved, step_updated};

use crate::{ecus, entries};
use calls::Performed;
use coverage::LockCoverage;
use feed::events::Step;
use feed::{numbers, taking};
use records::requests::Request;
use state::{ActiveLock, LockState};

// What the request brings, if it is done.
fn brought(request: Request) -> LockCoverage
    ensures { Covers result (λ e. any (on e) (brings request)) }
{
    match request {
        Request::Insert(lock) | Request::InsertVehicle(lock) => lock.lock.coverage,
        Request::Replace(asked) => asked.lock.lock.coverage,
        Request::Renew(_)
        | Request::Delete(_)
        | Request::BeginExpiration(_)
        | Request::Acknowledge(_)
        | Request::ExpireDefunct(_) => LockCoverage::empty(),
    }
}

fn came(request: Request, number: u64) -> LockCoverage
    ensures { Covers result (λ e. any (on e) (arrived request number)) }
{
    if number == 0 {
        return brought(request);
    }
    LockCoverage::empty()
}

// The ECUs of c, and of the locks that went.
fn went(c: LockCoverage, removed: &[ActiveLock]) -> LockCoverage
    ensures { Covers result (λ e. covers c e or any (on e) removed.now) }
{
    let mut all = c;
    for lock in removed {
        all = ecus::joined(all, lock.lock.coverage);
    }
    all
}

// The board after locks came and went, which leaves the active ones.
fn follow(
    board: &mut [u8],
    request: Request,
    number: u64,
    removed: &[ActiveLock],
    active: &[ActiveLock],
)
    requires { (length active.now ≤ 64) × (length board.old ≡ 4352) }
    ensures { board.new ≡ updated (arrived request number ++ removed.now) active.now board.old }
{
    let all = went(came(request, number), removed);
    entries::refresh(board, active, all);
}

// The board follows a call.
pub(crate) fn follow_call(board: &mut [u8], request: Request, done: Performed)
    requires { length board.old ≡ 4352 }
    ensures { board.new ≡ call_board request done board.old }
{
    let removed = &done.removed[..done.gone.min(LockState::ACTIVE)];
    let number = calls::number(done.outcome);
    follow(board, request, number, removed, done.state.active_locks());
}

// .. and a step over the feed, whose request is handed in.
fn follow_request(board: &mut [u8], request: Request, step: Step)
    requires { length board.old ≡ 4352 }
    ensures { board.new ≡ updated (request_moved request step) (model_of step.spare.state).active board.old }
{
    let removed = &step.told.removed[..step.told.gone.min(LockState::ACTIVE)];
    let number = numbers::number(step.told.event);
    follow(
        board,
        request,
        number,
        removed,
        step.spare.state.active_locks(),
    );
}

// The record is read again for the lock that it brings.
pub(crate) fn follow_record(board: &mut [u8], feed: &[u8], at: usize, step: Step)
    requires { length board.old ≡ 4352 }
    ensures { board.new ≡ step_updated feed.now at step board.old }
{
    match taking::taken_at(feed, at) {
        Ok(placed) => follow_request(board, placed.request, step),
        Err(_) => {}
    }
}
