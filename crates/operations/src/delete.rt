// Removal of an active lock's tree: deletion (12, 3, 8) and expiration (12, Stale, NotDue, 8).
// SPDX-License-Identifier: Apache-2.0
#![tactic(auto, unfolding(crate::specs::Answers::refuse_if, crate::specs::Answers::and_then, crate::specs::Answers::is_done, lookups::specs::Reads::on_sound, crate::specs::Checks::at_last_lem, crate::specs::Code::deletable, crate::specs::Code::due))]

ghost use Rattle.std.specs.Prelude.{◌≡◌};
ghost use Rattle.state.specs.Model.{model_of, state_of, Tidy};
ghost use Rattle.operations.specs.Answers.{removing};
ghost use Rattle.operations.specs.Checks.{last_revision, at_last_lem};
ghost use Rattle.operations.specs.Delete.{tree_out, without_tree, delete_on, begin_expiration_on};
ghost use Rattle.operations.specs.Code.{deletable, due};

use crate::answers::{Deleted, DeletionRefusal, Expiration, Expired, Removing, StateRefusal};
use crate::{checks, trees};
use ids::LockId;
use state::{ActiveLock, LockState};

// The tree of the root goes, within the state that is lent, and is listed beside the answer.
fn without_tree<A>(s: &mut LockState, root: ActiveLock, answer: A) -> Removing<A>
    requires { Tidy s.old × (s.old.revision ≡ last_revision → ⊥) }
    ensures state { s.new ≡ state_of (without_tree (model_of s.old) root) }
    ensures told { result ≡ removing answer (tree_out (model_of s.old) root).gone }
{
    let cut = trees::tree_out(s.active_locks(), &root);
    let removed = trees::moved_down(&cut, &mut s.active);
    s.actives = cut.left;
    s.revision += 1;
    Removing {
        answer,
        gone: cut.gone,
        removed,
    }
}

// 8: the revision can't rise.
fn is_last(s: &LockState) -> bool
    ensures { result ≡ at_last_lem s.now.revision }
{
    s.revision == u64::MAX
}

// The lock that goes with its tree, where nothing refuses: 12, 3, 8.
fn found(s: &LockState, id: LockId) -> Result<ActiveLock, DeletionRefusal>
    ensures { result ≡ deletable s.now id }
{
    rules::broken(*s)?;
    let root = checks::lock_with(s.active_locks(), id).ok_or(DeletionRefusal::ActiveLockNotFound(
        id,
    ))?;
    if is_last(s) {
        return Err(DeletionRefusal::RevisionOverflow);
    }
    Ok(root)
}

// The lock goes, with its children and what a group covers; they are listed.
pub fn delete(mut s: LockState, id: LockId) -> Deleted
    ensures { result ≡ delete_on s id }
{
    let told = match found(&s, id) {
        Ok(root) => without_tree(&mut s, root, Ok(())),
        Err(refusal) => Removing::nothing(Err(refusal)),
    };
    Deleted { told, state: s }
}

// The lock that is due, or else what is answered: 12, Stale, NotDue, 8.
fn due(s: &LockState, id: LockId, now: u64) -> Result<ActiveLock, Result<Expiration, StateRefusal>>
    ensures { result ≡ due s.now id now }
{
    if let Err(unsound) = rules::broken(*s) {
        return Err(Err(StateRefusal::from(unsound)));
    }
    let root = checks::lock_with(s.active_locks(), id).ok_or(Ok(Expiration::Stale))?;
    if now < root.expires {
        return Err(Ok(Expiration::NotDue(root.expires)));
    }
    if is_last(s) {
        return Err(Err(StateRefusal::RevisionOverflow));
    }
    Ok(root)
}

// A lock whose expires_at has come goes as by a deletion.
pub fn begin_expiration(mut s: LockState, id: LockId, now: u64) -> Expired
    ensures { result ≡ begin_expiration_on s id now }
{
    let told = match due(&s, id, now) {
        Ok(root) => without_tree(&mut s, root, Ok(Expiration::Done)),
        Err(answer) => Removing::nothing(answer),
    };
    Expired { told, state: s }
}
