// The primary at the boundary: an operation as numbers, the record that carries it to a spare, and both in one call.
// SPDX-License-Identifier: Apache-2.0
ghost use Rattle.std.specs.Prelude.{◌≡◌, Ok, Err};
ghost use Rattle.records.specs.Sending.{needed_on, sent_paper};
ghost use Rattle.cablegorse.specs.Telling.{told_of, kept};
ghost use Rattle.cablegorse.specs.Sending.{bad_asked, lock_right, lock_in, asked_lock, asked_renewal, asked_of, write_of, performed, perform_of};
ghost use Rattle.cablegorse.specs.Code.{sizes_in, refused_told, own_shown, own_of, request_shown};

use crate::{Applied, Operation, Told, changes, copying};
use coverage::LockCoverage;
use feed::events::Step;
use ids::LockId;
use image::{Spare, read, write};
use records::requests::{ExpirationRequest, RenewRequest, ReplaceRequest, Request};
use records::sending::Unsent;
use records::{bodies, kinds, layout, sending};
use state::{ActiveLock, Lock, LockState};

// A replacement with as many ids as a record holds.
const LONGEST: usize = layout::FRAME + layout::ROOTS + (kinds::UNITS as usize) * layout::ID;

// The bytes that a step's outputs need.
#[derive(Clone, Copy)]
pub struct Sizes {
    pub image: usize,
    pub locks: usize,
    pub ids: usize,
}

impl From<Unsent> for Told {
    ghost from_gives = { λ why t. t ≡ told_of (sent_paper (Err why)) };

    #[tactic(auto, unfolding(records::specs::Sending::sent_paper))]
    fn from(why: Unsent) -> Told {
        match why {
            Unsent::BadList => Told::new(14, &[]),
            Unsent::ListTooLong => Told::new(29, &[]),
            Unsent::ShortOutput(n) => Told::new(21, &[n as u64]),
        }
    }
}

// ---- the operation
fn lock_right(asked: Operation) -> bool
    ensures { result ≡ lock_right asked }
{
    (asked.scope <= 2) & (asked.exclusive <= 1) & (asked.coverage <= 1) & (asked.child <= 1)
}

fn lock_in(asked: Operation) -> ActiveLock
    ensures { result ≡ lock_in asked }
{
    let coverage = LockCoverage {
        w0: asked.w0,
        w1: asked.w1,
        w2: asked.w2,
        w3: asked.w3,
        whole: asked.coverage == 0,
    };
    let lock = Lock {
        id: LockId {
            hi: asked.hi,
            lo: asked.lo,
        },
        coverage,
        principal: asked.principal,
        metadata: asked.metadata,
        subject: asked.subject,
        scope: bodies::scope_of(asked.scope, asked.number),
        exclusive: asked.exclusive == 1,
    };
    ActiveLock {
        lock,
        parent: LockId {
            hi: asked.parenthi,
            lo: asked.parentlo,
        },
        expires: asked.expires,
        child: asked.child == 1,
    }
}

// A number that the operation's field can't have.
fn bad() -> Result<Request, Told>
    ensures { result ≡ bad_asked }
{
    Err(Told::new(19, &[0]))
}

// The three that bring a lock.
fn ask_lock(asked: Operation) -> Result<Request, Told>
    ensures { result ≡ asked_lock asked }
{
    if !lock_right(asked) {
        return bad();
    }
    let lock = lock_in(asked);
    if asked.kind == kinds::INSERT {
        return Ok(Request::Insert(lock));
    }
    if asked.kind == kinds::INSERT_VEHICLE {
        return Ok(Request::InsertVehicle(lock));
    }
    let r = ReplaceRequest {
        lock,
        broken: asked.now,
        breaker: asked.breaker,
    };
    Ok(Request::Replace(r))
}

fn ask_renewal(asked: Operation) -> Result<Request, Told>
    ensures { result ≡ asked_renewal asked }
{
    if 1 < asked.given {
        return bad();
    }
    let r = RenewRequest {
        id: LockId {
            hi: asked.hi,
            lo: asked.lo,
        },
        expires: asked.expires,
        now: asked.now,
        metadata: asked.metadata,
        given: asked.given == 1,
    };
    Ok(Request::Renew(r))
}

fn request_in(asked: Operation) -> Result<Request, Told>
    ensures { result ≡ asked_of asked }
{
    let id = LockId {
        hi: asked.hi,
        lo: asked.lo,
    };
    let kind = asked.kind;
    match kind {
        kinds::INSERT => ask_lock(asked),
        kinds::INSERT_VEHICLE => ask_lock(asked),
        kinds::RENEW => ask_renewal(asked),
        kinds::DELETE => Ok(Request::Delete(id)),
        kinds::BEGIN_EXPIRATION => {
            let e = ExpirationRequest { id, now: asked.now };
            Ok(Request::BeginExpiration(e))
        }
        kinds::REPLACE => ask_lock(asked),
        kinds::ACKNOWLEDGE => Ok(Request::Acknowledge(id)),
        kinds::EXPIRE_DEFUNCT => Ok(Request::ExpireDefunct(asked.now)),
        _ => Err(Told::new(18, &[0])),
    }
}

// ---- the record alone
pub fn cablegorse_write_record(
    sequence: u32,
    asked: Operation,
    list: &[u64],
    out: &mut [u8],
) -> Told
    ensures { kept result out.new ≡ write_of sequence asked list.now out.old }
{
    let request = match request_in(asked) {
        Ok(request) => request,
        Err(t) => return t,
    };
    match sending::put_request(sequence, request, list, out) {
        Ok(n) => Told::new(0, &[n as u64]),
        Err(why) => Told::from(why),
    }
}

// ---- the operation and its record
// 12 comes before a refusal of what is asked.
fn refused(state: LockState, t: Told) -> Applied
    ensures { result ≡ refused_told state t }
{
    match rules::broken(state) {
        Err(u) => changes::still(Told::from(u), 0, 0, 0),
        Ok(()) => changes::still(t, 1, 0, 0),
    }
}

fn sizes_in(s: Step) -> Sizes
    ensures { result ≡ sizes_in s }
{
    let spare = s.spare;
    let told = s.told;
    Sizes {
        image: write::image_size(spare),
        locks: told.gone.min(LockState::ACTIVE) * layout::ACTIVE_RECORD,
        ids: told.lapsed.min(LockState::DEFUNCT) * layout::ID,
    }
}

// All four outputs or none; put_step tests its three again.
fn put_own(
    s: Step,
    due: &[u8],
    next: &mut [u8],
    removed: &mut [u8],
    expired: &mut [u8],
    sent: &mut [u8],
) -> Applied
    ensures { performed result next.new removed.new expired.new sent.new ≡ own_shown s due.now next.old removed.old expired.old sent.old }
{
    let told = s.told;
    let event = told.event;
    if !feed::events::is_applied(event) {
        return changes::put_step(s, 0, next, removed, expired);
    }
    let z = sizes_in(s);
    let size = due.len();
    if (next.len() < z.image)
        | (removed.len() < z.locks)
        | (expired.len() < z.ids)
        | (sent.len() < size)
    {
        let short = Told::new(
            21,
            &[z.image as u64, z.locks as u64, z.ids as u64, size as u64],
        );
        return changes::still(short, 3, told.sequence, 0);
    }
    copying::copy(due, sent);
    changes::put_step(s, 0, next, removed, expired)
}

// The record stands apart until it is known that all four have room. It is applied by the spare's own step: a second caller of
// the operations would keep the compiler from putting them into that one.
fn own(
    spare: Spare,
    request: Request,
    list: &[u64],
    size: usize,
    next: &mut [u8],
    removed: &mut [u8],
    expired: &mut [u8],
    sent: &mut [u8],
) -> Applied
    requires { needed_on request list.now ≡ Ok size }
    ensures { performed result next.new removed.new expired.new sent.new ≡ own_of spare request list.now next.old removed.old expired.old sent.old }
{
    let mut due = [0u8; LONGEST];
    let _ = sending::put_request(spare.expected, request, list, &mut due);
    let s = feed::step(spare, &due[0..size], 0);
    put_own(s, &due[0..size], next, removed, expired, sent)
}

fn ask(
    spare: Spare,
    request: Request,
    list: &[u64],
    next: &mut [u8],
    removed: &mut [u8],
    expired: &mut [u8],
    sent: &mut [u8],
) -> Applied
    ensures { performed result next.new removed.new expired.new sent.new ≡ request_shown spare request list.now next.old removed.old expired.old sent.old }
{
    let state = spare.state;
    match sending::needed(request, list) {
        Ok(size) => own(spare, request, list, size, next, removed, expired, sent),
        Err(why) => refused(state, Told::from(why)),
    }
}

// The operation on the image's own state, and the record that carries it to a spare: one isn't written without the other.
pub fn cablegorse_perform(
    image: &[u8],
    asked: Operation,
    list: &[u64],
    next: &mut [u8],
    removed: &mut [u8],
    expired: &mut [u8],
    sent: &mut [u8],
) -> Applied
    ensures { performed result next.new removed.new expired.new sent.new ≡ perform_of image.now asked list.now next.old removed.old expired.old sent.old }
{
    let i = read::read_records(image);
    if let Err(why) = i.told {
        return changes::still(Told::from(why), 0, 0, 0);
    }
    let spare = i.spare;
    match request_in(asked) {
        Err(r) => {
            let state = spare.state;
            refused(state, r)
        }
        Ok(request) => ask(spare, request, list, next, removed, expired, sent),
    }
}
