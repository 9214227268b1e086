// What the operations answer: Ok, or an enum's reason for refusing; and beside it the state that is left.
// SPDX-License-Identifier: Apache-2.0
ghost use Rattle.std.specs.Prelude.{◌≡◌, []};
ghost use Rattle.operations.specs.Answers.{rule_of, removing};
ghost use Rattle.operations.specs.declared.answers.Refusal.TheVariants as refusal;
ghost use Rattle.operations.specs.declared.answers.RenewalRefusal.TheVariants as renewal;
ghost use Rattle.operations.specs.declared.answers.DeletionRefusal.TheVariants as deletion;
ghost use Rattle.operations.specs.declared.answers.StateRefusal.TheVariants as unsound;

use ids::LockId;
use rules::Unsound;
use state::{ActiveLock, LockState};

// insert_active, insert_vehicle, commit_replacement. The Invariant's four reasons have names of their own
// (11.1 NotRootVehicle, 11.2 BadChild, 11.3 OtherOwner, 11.4 NotCovered); Invariant is the closing check's.
#[derive(Clone, Copy, PartialEq, Eq)]
pub enum Refusal {
    DuplicateId(LockId),
    DuplicateScope,
    ActiveLockNotFound(LockId),
    ParentNotFound(LockId),
    ParentNotVehicle(LockId),
    ReplacementScopeConflict,
    CoverageConflict(LockId, Option<u8>),
    RevisionOverflow,
    NotRootVehicle,
    BadChild(LockId),
    OtherOwner(LockId, LockId),
    NotCovered(LockId, LockId),
    Invariant,
    UnsoundState(u8),
    NoRoom,
    BadList,
}

#[derive(Clone, Copy, PartialEq, Eq)]
pub enum RenewalRefusal {
    ActiveLockNotFound(LockId),
    RevisionOverflow,
    LockExpired,
    RenewalNotExtension,
    UnsoundState(u8),
}

#[derive(Clone, Copy, PartialEq, Eq)]
pub enum DeletionRefusal {
    ActiveLockNotFound(LockId),
    RevisionOverflow,
    UnsoundState(u8),
}

// An expiration that did not refuse: the lock went, is not there, or is not due before a time.
#[derive(Clone, Copy, PartialEq, Eq)]
pub enum Expiration {
    Done,
    Stale,
    NotDue(u64),
}

// What refuses where no lock or entry has to be there: expirations, and an acknowledgement, whose Ok is whether the entry was.
#[derive(Clone, Copy, PartialEq, Eq)]
pub enum StateRefusal {
    RevisionOverflow,
    UnsoundState(u8),
}

// ---- a state that the test refuses (12), with the lowest rule that is broken: one impl for each enum, since rt ci refuses an
// impl that a macro of ours writes
impl From<Unsound> for Refusal {
    ghost from_gives = { λ u e. e ≡ refusal.UnsoundState (rule_of u) };

    fn from(u: Unsound) -> Refusal {
        let Unsound::Rule(n) = u;
        Refusal::UnsoundState(n)
    }
}

impl From<Unsound> for RenewalRefusal {
    ghost from_gives = { λ u e. e ≡ renewal.UnsoundState (rule_of u) };

    fn from(u: Unsound) -> RenewalRefusal {
        let Unsound::Rule(n) = u;
        RenewalRefusal::UnsoundState(n)
    }
}

impl From<Unsound> for DeletionRefusal {
    ghost from_gives = { λ u e. e ≡ deletion.UnsoundState (rule_of u) };

    fn from(u: Unsound) -> DeletionRefusal {
        let Unsound::Rule(n) = u;
        DeletionRefusal::UnsoundState(n)
    }
}

impl From<Unsound> for StateRefusal {
    ghost from_gives = { λ u e. e ≡ unsound.UnsoundState (rule_of u) };

    fn from(u: Unsound) -> StateRefusal {
        let Unsound::Rule(n) = u;
        StateRefusal::UnsoundState(n)
    }
}

// What an operation answers, and the state that it leaves, refused or not.
#[derive(Clone, Copy)]
pub struct Left<T> {
    pub told: T,
    pub state: LockState,
}

// The removed locks as they were at entry, in the order of their going; blanks after the first gone (no heap, so an array and
// its count).
#[derive(Clone, Copy)]
pub struct Removing<A> {
    pub answer: A,
    pub gone: usize,
    pub removed: [ActiveLock; LockState::ACTIVE],
}

impl<A> Removing<A> {
    // Nothing went.
    pub(crate) fn nothing(answer: A) -> Removing<A>
        ensures { result ≡ removing answer [] }
    {
        let blank = state::blank_active();
        Removing {
            answer,
            gone: 0,
            removed: [blank; LockState::ACTIVE],
        }
    }
}

// The ids of the entries that went, ascending; blanks after the first gone (an array and its count, as above).
#[derive(Clone, Copy)]
pub struct Shed {
    pub answer: Result<(), StateRefusal>,
    pub gone: usize,
    pub ids: [LockId; LockState::DEFUNCT],
}

pub type Inserted = Left<Result<(), Refusal>>;

pub type Replacement = Removing<Result<(), Refusal>>;

pub type Replaced = Left<Replacement>;

pub type Renewed = Left<Result<(), RenewalRefusal>>;

pub type Removal = Removing<Result<(), DeletionRefusal>>;

pub type Deleted = Left<Removal>;

pub type Lapse = Removing<Result<Expiration, StateRefusal>>;

pub type Expired = Left<Lapse>;

pub type Acknowledged = Left<Result<bool, StateRefusal>>;

pub type DefunctsExpired = Left<Shed>;
