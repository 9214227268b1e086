// The adapter's one running state, lent for change: each function makes its operation on the state behind the reference,
// leaves there the state that the operation gives, refused or not, and tells what the operation told. They differ in the
// operation alone and stay each its own function: document 01 has the form ("thin functions take &mut to the state, call the
// by-value operation and store its result").
// SPDX-License-Identifier: Apache-2.0
#![tactic(auto)]

pub mod by_value;

ghost use Rattle.std.specs.Prelude.{◌≡◌};
ghost use Rattle.operations.specs.Insert.{insert_active_on};
ghost use Rattle.operations.specs.Vehicle.{insert_vehicle_on};
ghost use Rattle.operations.specs.Renew.{renew_on};
ghost use Rattle.operations.specs.Delete.{delete_on, begin_expiration_on};
ghost use Rattle.operations.specs.Replace.{commit_replacement_on};
ghost use Rattle.operations.specs.Acknowledge.{acknowledge_on, expire_defunct_on};
ghost use Rattle.locks.specs.Locks.{delete_defunct_on};
ghost use Rattle.feed.specs.Feed.{step_on};
ghost use Rattle.board.specs.Forms.{boarded, perform_board, delete_defunct_board, step_board};
ghost use Rattle.adapter.specs.Lent.{left, updated, held_after, update_on, stepped, board_stepped};

use board::{BoardDeed, BoardTold, Mismatch};
use feed::events::Told;
use ids::LockId;
use image::Spare;
use locks::{DroppingRefusal, UpdateRefusal};
use operations::answers::{
    Lapse, Refusal, Removal, RenewalRefusal, Replacement, Shed, StateRefusal,
};
use records::requests::Request;
use state::{ActiveLock, LockState, ScopeKey};

// What is told, and the generation that holds afterwards.
#[derive(Clone, Copy)]
struct Updated {
    told: Result<u64, UpdateRefusal>,
    generation: u64,
}

pub fn insert_active(state: &mut LockState, lock: ActiveLock) -> Result<(), Refusal>
    ensures { left result state.new ≡ insert_active_on state.old lock }
{
    let r = operations::insert::insert_active(*state, lock);
    *state = r.state;
    r.told
}

pub fn insert_vehicle(state: &mut LockState, lock: ActiveLock, list: &[u64]) -> Result<(), Refusal>
    ensures { left result state.new ≡ insert_vehicle_on state.old lock list.now }
{
    let r = operations::insert_vehicle::insert_vehicle(*state, lock, list);
    *state = r.state;
    r.told
}

pub fn renew(
    state: &mut LockState,
    id: LockId,
    expires: u64,
    clock: u64,
    given: bool,
    metadata: u32,
) -> Result<(), RenewalRefusal>
    ensures { left result state.new ≡ renew_on state.old id expires clock given metadata }
{
    let r = operations::renew::renew(*state, id, expires, clock, given, metadata);
    *state = r.state;
    r.told
}

pub fn delete(state: &mut LockState, id: LockId) -> Removal
    ensures { left result state.new ≡ delete_on state.old id }
{
    let r = operations::delete::delete(*state, id);
    *state = r.state;
    r.told
}

pub fn begin_expiration(state: &mut LockState, id: LockId, clock: u64) -> Lapse
    ensures { left result state.new ≡ begin_expiration_on state.old id clock }
{
    let r = operations::delete::begin_expiration(*state, id, clock);
    *state = r.state;
    r.told
}

pub fn commit_replacement(
    state: &mut LockState,
    list: &[u64],
    lock: ActiveLock,
    by: u32,
    at: u64,
) -> Replacement
    ensures { left result state.new ≡ commit_replacement_on state.old list.now lock by at }
{
    let r = operations::replace::commit_replacement(*state, list, lock, by, at);
    *state = r.state;
    r.told
}

pub fn acknowledge_defunct(state: &mut LockState, id: LockId) -> Result<bool, StateRefusal>
    ensures { left result state.new ≡ acknowledge_on state.old id }
{
    let r = operations::acknowledge::acknowledge_defunct(*state, id);
    *state = r.state;
    r.told
}

pub fn expire_defunct(state: &mut LockState, clock: u64) -> Shed
    ensures { left result state.new ≡ expire_defunct_on state.old clock }
{
    let r = operations::acknowledge::expire_defunct(*state, clock);
    *state = r.state;
    r.told
}

pub fn delete_defunct(
    state: &mut LockState,
    id: LockId,
    scope: ScopeKey,
    subject: u16,
) -> Result<bool, DroppingRefusal>
    ensures { left result state.new ≡ delete_defunct_on state.old id scope subject }
{
    let r = locks::delete_defunct(*state, id, scope, subject);
    *state = r.state;
    r.told
}

fn held_after(told: Result<u64, UpdateRefusal>, generation: u64) -> u64
    ensures { result ≡ held_after told generation }
{
    match told {
        Ok(n) => n,
        Err(_) => generation,
    }
}

fn update(s: LockState, generation: u64) -> Updated
    ensures { result ≡ update_on s generation }
{
    let told = locks::prepare_runtime_update(s, generation);
    Updated {
        told,
        generation: held_after(told, generation),
    }
}

// The generation is kept outside the state and is lent for change beside it; the state is only read.
pub fn prepare_runtime_update(state: &LockState, generation: &mut u64) -> Result<u64, UpdateRefusal>
    ensures { updated result generation.new ≡ update_on state.now generation.old }
{
    let r = update(*state, *generation);
    *generation = r.generation;
    r.told
}

// One record of a feed on a spare that is lent for change.
pub fn step(spare: &mut Spare, feed: &[u8], at: usize) -> Told
    ensures { stepped result spare.new ≡ step_on spare.old feed.now at }
{
    let r = feed::step(*spare, feed, at);
    *spare = r.spare;
    r.told
}

// The same with a board beside the state: it is lent on as it is, and the operation tests and keeps it.
pub fn perform_board(
    state: &mut LockState,
    request: Request,
    list: &[u64],
    board: &mut [u8],
) -> BoardDeed
    ensures { boarded (left result state.new) board.new ≡ perform_board state.old request list.now board.old }
{
    let r = board::perform(*state, request, list, board);
    *state = r.state;
    r.told
}

pub fn delete_defunct_board(
    state: &mut LockState,
    id: LockId,
    scope: ScopeKey,
    subject: u16,
    board: &[u8],
) -> Result<Result<bool, DroppingRefusal>, Mismatch>
    ensures { left result state.new ≡ delete_defunct_board state.old id scope subject board.now }
{
    let r = board::delete_defunct(*state, id, scope, subject, board);
    *state = r.state;
    r.told
}

pub fn step_board(spare: &mut Spare, feed: &[u8], at: usize, board: &mut [u8]) -> BoardTold
    ensures { boarded (board_stepped result spare.new) board.new ≡ step_board spare.old feed.now at board.old }
{
    let r = board::step(*spare, feed, at, board);
    *spare = r.spare;
    r.told
}
