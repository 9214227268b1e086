// Renewal of an active lock: 12, 3, 9, 10, 8.
// SPDX-License-Identifier: Apache-2.0
#![tactic(auto, unfolding(crate::specs::Answers::refuse_if, crate::specs::Answers::and_then, crate::specs::Answers::is_done, lookups::specs::Reads::on_sound, crate::specs::Checks::at_last_lem, crate::specs::Code::judged_in))]

ghost use Rattle.std.specs.Prelude.{map, ◌≡◌};
ghost use Rattle.operations.specs.Renew.{extended, extend_at, judge_lock, renew_on};
ghost use Rattle.operations.specs.Code.{judged_in};

use crate::answers::{RenewalRefusal, Renewed};
use crate::checks;
use ids::LockId;
use state::{ActiveLock, LockState};

fn extend(a: ActiveLock, expires: u64, given: bool, metadata: u32) -> ActiveLock
    ensures { result ≡ extended expires given metadata a }
{
    let mut x = a;
    x.expires = expires;
    if given {
        x.lock.metadata = metadata;
    }
    x
}

// 9, 10, 8, of the lock that was found.
fn judge(a: ActiveLock, revision: u64, expires: u64, now: u64) -> Result<(), RenewalRefusal>
    ensures { result ≡ judge_lock revision expires now a }
{
    if a.expires <= now {
        return Err(RenewalRefusal::LockExpired);
    }
    if expires <= a.expires {
        return Err(RenewalRefusal::RenewalNotExtension);
    }
    if revision == u64::MAX {
        return Err(RenewalRefusal::RevisionOverflow);
    }
    Ok(())
}

// What refuses on a sound state: 3, 9, 10, 8.
fn allowed(
    locks: &[ActiveLock],
    revision: u64,
    id: LockId,
    expires: u64,
    now: u64,
) -> Result<(), RenewalRefusal>
    ensures { result ≡ judged_in locks.now revision id expires now }
{
    let found = checks::lock_with(locks, id);
    let lock = found.ok_or(RenewalRefusal::ActiveLockNotFound(id))?;
    judge(lock, revision, expires, now)
}

fn extend_in(locks: &mut [ActiveLock], id: LockId, expires: u64, given: bool, metadata: u32)
    ensures { locks.new ≡ map (extend_at id expires given metadata) locks.old }
{
    for a in locks.iter_mut() {
        if state::has_id(id, *a) {
            *a = extend(*a, expires, given, metadata);
        }
    }
}

// The lock's expires_at moves on, its metadata too where some is given. The state that comes of it is sound and is not tested
// again (C-21; promises, closing_idle). The state is not lent here: what is lent is copied once more for the test by value.
pub fn renew(
    mut s: LockState,
    id: LockId,
    expires: u64,
    now: u64,
    given: bool,
    metadata: u32,
) -> Renewed
    ensures { result ≡ renew_on s id expires now given metadata }
{
    let told = match rules::broken(s) {
        Ok(()) => {
            let mut locks = s.active;
            let told = allowed(&locks[..s.actives], s.revision, id, expires, now);
            if told.is_ok() {
                extend_in(&mut locks[..s.actives], id, expires, given, metadata);
                s.active = locks;
                s.revision += 1;
            }
            told
        }
        Err(unsound) => Err(RenewalRefusal::from(unsound)),
    };
    Renewed { told, state: s }
}
