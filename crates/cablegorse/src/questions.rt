// The reads by their numbers: each question's reply, by value.
// SPDX-License-Identifier: Apache-2.0
ghost use Rattle.std.specs.Prelude.{◌≡◌, ◌≤◌, length};
ghost use Rattle.cablegorse.specs.Questions.{settled, says, revision_found, truth_found, active_found, defunct_found, narrow_found, needed_found, holder_found, owner_found, scope_asked, narrow_asked, group_asked, present_asked, needed_asked, uncovered_asked, holder_asked, reply_on};

use crate::{Told, arguments};
use ids::LockId;
use lookups::{Holder, Narrow, TesterPresent, reads};
use state::{ActiveLock, DefunctLock, LockState};

// What stands in the buffer beside the answer.
#[derive(Clone, Copy)]
pub enum Body {
    Nothing,
    Active(ActiveLock),
    Defunct(DefunctLock),
    Ids(Narrow),
}

#[derive(Clone, Copy)]
pub struct Reply {
    pub told: Told,
    pub body: Body,
}

// No refusal: its values alone.
fn says(values: &[u64]) -> Reply
    requires { length values.now ≤ 5 }
    ensures { result ≡ says values.now }
{
    Reply {
        told: Told::new(0, values),
        body: Body::Nothing,
    }
}

// ---- what is said of a sound state
impl From<u64> for Reply {
    ghost from_gives = { λ v r. r ≡ revision_found v };

    fn from(v: u64) -> Reply {
        says(&[v])
    }
}

impl From<bool> for Reply {
    ghost from_gives = { λ b r. r ≡ truth_found b };

    fn from(b: bool) -> Reply {
        says(&[u64::from(b)])
    }
}

impl From<Option<ActiveLock>> for Reply {
    ghost from_gives = { λ f r. r ≡ active_found f };

    fn from(f: Option<ActiveLock>) -> Reply {
        match f {
            None => says(&[0]),
            Some(a) => Reply {
                told: Told::new(0, &[1]),
                body: Body::Active(a),
            },
        }
    }
}

impl From<Option<DefunctLock>> for Reply {
    ghost from_gives = { λ f r. r ≡ defunct_found f };

    fn from(f: Option<DefunctLock>) -> Reply {
        match f {
            None => says(&[0]),
            Some(d) => Reply {
                told: Told::new(0, &[1]),
                body: Body::Defunct(d),
            },
        }
    }
}

impl From<Narrow> for Reply {
    ghost from_gives = { λ w r. r ≡ narrow_found w };

    fn from(w: Narrow) -> Reply {
        Reply {
            told: Told::new(0, &[w.count as u64]),
            body: Body::Ids(w),
        }
    }
}

impl From<Option<TesterPresent>> for Reply {
    ghost from_gives = { λ n r. r ≡ needed_found n };

    fn from(n: Option<TesterPresent>) -> Reply {
        match n {
            None => says(&[0]),
            Some(TesterPresent::Ecu(e)) => says(&[1, e as u64]),
            Some(TesterPresent::Functional(g)) => says(&[2, g as u64]),
        }
    }
}

impl From<Holder> for Reply {
    ghost from_gives = { λ h r. r ≡ holder_found h };

    fn from(h: Holder) -> Reply {
        says(&[h.subject as u64, h.links])
    }
}

impl From<Option<u16>> for Reply {
    ghost from_gives = { λ o r. r ≡ owner_found o };

    fn from(o: Option<u16>) -> Reply {
        match o {
            None => says(&[0]),
            Some(subject) => says(&[1, subject as u64]),
        }
    }
}

// ---- questions whose arguments are judged
#[tactic(auto, unfolding(crate::specs::Questions::scope_asked, crate::specs::Questions::active_reply))]
fn ask_scope(s: LockState, kind: u64, number: u64) -> Result<Reply, Told>
    ensures { settled result ≡ scope_asked s kind number }
{
    let scope = arguments::scope_in(kind, number)?;
    Ok(reads::active_for_scope(s, scope)?.into())
}

#[tactic(auto, unfolding(crate::specs::Questions::narrow_asked, crate::specs::Questions::lock_given, crate::specs::Questions::narrow_reply, image::specs::Steps::active_at))]
fn ask_narrow(s: LockState, given: &[u8]) -> Result<Reply, Told>
    ensures { settled result ≡ narrow_asked s given.now }
{
    let a = arguments::record_in::<ActiveLock>(given)?;
    Ok(reads::covered_narrow_locks(s, a)?.into())
}

fn ask_group(s: LockState, subject: u64, ecu: u64) -> Result<Reply, Told>
    ensures { settled result ≡ group_asked s subject ecu }
{
    let subject = u16::try_from(subject)?;
    let ecu = u8::try_from(ecu)?;
    Ok(reads::covering_functional_group(s, subject, ecu)?.into())
}

fn ask_present(s: LockState, subject: u64, scope: u64) -> Result<Reply, Told>
    ensures { settled result ≡ present_asked s subject scope }
{
    let subject = u16::try_from(subject)?;
    let scope = arguments::scope_in(scope / arguments::BYTE, scope % arguments::BYTE)?;
    Ok(reads::tester_present_for(s, subject, scope)?.into())
}

#[tactic(auto, unfolding(crate::specs::Questions::needed_asked, crate::specs::Questions::truth_reply))]
fn ask_needed(s: LockState, kind: u64, number: u64) -> Result<Reply, Told>
    ensures { settled result ≡ needed_asked s kind number }
{
    let t = arguments::tester_in(kind, number)?;
    Ok(reads::tester_present_needed(s, t)?.into())
}

#[tactic(auto, unfolding(crate::specs::Questions::uncovered_asked, crate::specs::Questions::lock_given, crate::specs::Questions::defunct_reply, image::specs::Steps::active_at))]
fn ask_uncovered(s: LockState, given: &[u8], time: u64) -> Result<Reply, Told>
    ensures { settled result ≡ uncovered_asked s given.now time }
{
    let l = arguments::record_in::<ActiveLock>(given)?.lock;
    Ok(reads::uncovered_defunct(s, l.subject, l.scope, l.coverage, time)?.into())
}

#[tactic(auto, unfolding(crate::specs::Questions::holder_asked, crate::specs::Questions::entry_given, crate::specs::Questions::holder_reply, image::specs::Steps::defunct_at))]
fn ask_holder(s: LockState, given: &[u8]) -> Result<Reply, Told>
    ensures { settled result ≡ holder_asked s given.now }
{
    let d = arguments::record_in::<DefunctLock>(given)?;
    Ok(reads::current_holder(s, d)?.into())
}

#[tactic(auto, unfolding(crate::specs::Questions::reply_on, crate::specs::Questions::revision_reply, crate::specs::Questions::active_reply, crate::specs::Questions::defunct_reply, crate::specs::Questions::owner_reply, crate::specs::Questions::truth_reply))]
pub(crate) fn answer(
    s: LockState,
    question: u32,
    x: u64,
    y: u64,
    given: &[u8],
) -> Result<Reply, Told>
    ensures { settled result ≡ reply_on s question x y given.now }
{
    match question {
        1 => Ok(reads::revision(s)?.into()),
        2 => ask_scope(s, x, y),
        3 => Ok(reads::active_by_id(s, LockId { hi: x, lo: y })?.into()),
        4 => Ok(reads::defunct_by_id(s, LockId { hi: x, lo: y })?.into()),
        5 => Ok(reads::active_at(s, x as usize)?.into()),
        6 => Ok(reads::defunct_at(s, x as usize)?.into()),
        7 => ask_narrow(s, given),
        8 => ask_group(s, x, y),
        9 => ask_present(s, x, y),
        10 => ask_needed(s, x, y),
        11 => ask_uncovered(s, given, x),
        12 => ask_holder(s, given),
        13 => Ok(locks::vehicle_lock_owner_sub(s)?.into()),
        14 => Ok(locks::has_non_vehicle_locks(s)?.into()),
        _ => Err(Told::new(18, &[0])),
    }
}
