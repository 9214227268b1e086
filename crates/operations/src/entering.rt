// Locks that went, entered as defunct entries.
// SPDX-License-Identifier: Apache-2.0
ghost use Rattle.std.specs.Prelude.{map, ◌≡◌, ◌≤◌, take};
ghost use Rattle.lists.specs.Tests.{Yes};
ghost use Rattle.lists.specs.Lists.{ascending};
ghost use Rattle.state.specs.Locks.{dkey};
ghost use Rattle.operations.specs.Defuncts.{to_defunct, enter_all};
ghost use Rattle.operations.specs.Replace.{entered_of};
ghost use Rattle.operations.specs.Code.{Listed};

use crate::defuncts;
use crate::defuncts::PLACES;
use state::{ActiveLock, DefunctLock, LockState};

// How many entries there are then, and the entries where they fit.
#[derive(Clone, Copy)]
pub(crate) struct Ledger {
    pub count: usize,
    pub list: [DefunctLock; LockState::DEFUNCT],
}

// The lock a, broken by x.
fn to_defunct(new: ActiveLock, by: u32, at: u64, a: ActiveLock) -> DefunctLock
    ensures { result ≡ to_defunct new by at a }
{
    let lock = a.lock;
    let target = new.lock.id;
    DefunctLock {
        lock: lock,
        target: target,
        expires: a.expires,
        broken: at,
        breaker: by,
        holder: new.lock.subject,
    }
}

// The locks that went are entered as broken, each at its place, after each entry that it does not come before. Then what the
// new lock covers goes: each, ascending, hands its target and holder on to those that point at it, and the others are read
// out. All in one array with room for every entry and every lock, and in one function, since an array that is handed on is
// copied.
pub(crate) fn entered(
    mut entries: [DefunctLock; LockState::DEFUNCT],
    m: usize,
    removed: [ActiveLock; LockState::ACTIVE],
    gone: usize,
    new: ActiveLock,
    by: u32,
    at: u64,
) -> Ledger
    requires { (m ≤ 128) × (gone ≤ 64) × Yes (ascending dkey (enter_all (map (to_defunct new by at) (take gone removed)) (take m entries))) }
    ensures { Listed result (entered_of new by at (take gone removed) (take m entries)) }
{
    let b = state::blank_defunct();
    let mut out = [b; PLACES];
    let mut i: usize = 0;
    while i < m {
        out[i] = entries[i];
        i += 1;
    }
    let mut n = m;
    let mut g: usize = 0;
    while g < gone {
        let a = removed[g];
        g += 1;
        let mut k: usize = 0;
        while k < n {
            let e = out[k];
            if ids::less(a.lock.id, e.lock.id) {
                break;
            }
            k += 1;
        }
        let mut j = n;
        while k < j {
            let y = out[j - 1];
            out[j] = y;
            j -= 1;
        }
        let d = to_defunct(new, by, at, a);
        out[k] = d;
        n += 1;
    }
    let mut goes = [false; PLACES];
    let mut p: usize = 0;
    while p < n {
        let d = out[p];
        goes[p] = defuncts::is_superseded(new, d);
        p += 1;
    }
    let mut f: usize = 0;
    while f < n {
        let k = f;
        f += 1;
        if goes[k] {
            let e = out[k];
            let mut j: usize = 0;
            while j < n {
                let d = out[j];
                let o = j;
                j += 1;
                if ids::same(d.target, e.lock.id) {
                    out[o] = defuncts::took_over(e, d);
                }
            }
        }
    }
    let mut w: usize = 0;
    let mut q: usize = 0;
    while q < n {
        let k = q;
        q += 1;
        if !goes[k] {
            let v = w;
            w += 1;
            if v < LockState::DEFUNCT {
                let d = out[k];
                entries[v] = d;
            }
        }
    }
    let mut z = w;
    while z < LockState::DEFUNCT {
        entries[z] = b;
        z += 1;
    }
    Ledger {
        count: w,
        list: entries,
    }
}
