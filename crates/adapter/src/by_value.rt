// For callers that keep a state by value: each lends it to the thin function and gives back what it tells beside what is left.
// One function over a closure would be no plainer: each call of it is as long as a body here, and is proved by itself besides.
// SPDX-License-Identifier: Apache-2.0
ghost use Rattle.std.specs.Prelude.{◌≡◌};
ghost use Rattle.operations.specs.Insert.{insert_active_on};
ghost use Rattle.operations.specs.Vehicle.{insert_vehicle_on};
ghost use Rattle.operations.specs.Renew.{renew_on};
ghost use Rattle.operations.specs.Delete.{delete_on, begin_expiration_on};
ghost use Rattle.operations.specs.Replace.{commit_replacement_on};
ghost use Rattle.operations.specs.Acknowledge.{acknowledge_on, expire_defunct_on};
ghost use Rattle.locks.specs.Locks.{delete_defunct_on};
ghost use Rattle.feed.specs.Feed.{step_on};

use feed::events::Step;
use ids::LockId;
use image::Spare;
use locks::Dropped;
use operations::answers::{
    Acknowledged, DefunctsExpired, Deleted, Expired, Inserted, Left, Renewed, Replaced,
};
use state::{ActiveLock, LockState, ScopeKey};

pub fn insert_active(s: LockState, lock: ActiveLock) -> Inserted
    ensures { result ≡ insert_active_on s lock }
{
    let mut held = s;
    let told = crate::insert_active(&mut held, lock);
    Left { told, state: held }
}

pub fn insert_vehicle(s: LockState, lock: ActiveLock, list: &[u64]) -> Inserted
    ensures { result ≡ insert_vehicle_on s lock list.now }
{
    let mut held = s;
    let told = crate::insert_vehicle(&mut held, lock, list);
    Left { told, state: held }
}

pub fn renew(
    s: LockState,
    id: LockId,
    expires: u64,
    clock: u64,
    given: bool,
    metadata: u32,
) -> Renewed
    ensures { result ≡ renew_on s id expires clock given metadata }
{
    let mut held = s;
    let told = crate::renew(&mut held, id, expires, clock, given, metadata);
    Left { told, state: held }
}

pub fn delete(s: LockState, id: LockId) -> Deleted
    ensures { result ≡ delete_on s id }
{
    let mut held = s;
    let told = crate::delete(&mut held, id);
    Left { told, state: held }
}

pub fn begin_expiration(s: LockState, id: LockId, clock: u64) -> Expired
    ensures { result ≡ begin_expiration_on s id clock }
{
    let mut held = s;
    let told = crate::begin_expiration(&mut held, id, clock);
    Left { told, state: held }
}

pub fn commit_replacement(
    s: LockState,
    list: &[u64],
    lock: ActiveLock,
    by: u32,
    at: u64,
) -> Replaced
    ensures { result ≡ commit_replacement_on s list.now lock by at }
{
    let mut held = s;
    let told = crate::commit_replacement(&mut held, list, lock, by, at);
    Left { told, state: held }
}

pub fn acknowledge_defunct(s: LockState, id: LockId) -> Acknowledged
    ensures { result ≡ acknowledge_on s id }
{
    let mut held = s;
    let told = crate::acknowledge_defunct(&mut held, id);
    Left { told, state: held }
}

pub fn expire_defunct(s: LockState, clock: u64) -> DefunctsExpired
    ensures { result ≡ expire_defunct_on s clock }
{
    let mut held = s;
    let told = crate::expire_defunct(&mut held, clock);
    Left { told, state: held }
}

pub fn delete_defunct(s: LockState, id: LockId, scope: ScopeKey, subject: u16) -> Dropped
    ensures { result ≡ delete_defunct_on s id scope subject }
{
    let mut held = s;
    let told = crate::delete_defunct(&mut held, id, scope, subject);
    Left { told, state: held }
}

pub fn step(spare: Spare, feed: &[u8], at: usize) -> Step
    ensures { result ≡ step_on spare feed.now at }
{
    let mut held = spare;
    let told = crate::step(&mut held, feed, at);
    Step { told, spare: held }
}
