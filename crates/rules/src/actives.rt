// Rules 2 to 8, which look at the active locks alone.
// SPDX-License-Identifier: Apache-2.0
ghost use Rattle.std.specs.Prelude.{◌≡◌, true, []};
ghost use Rattle.lists.specs.Lists.{ascending};
ghost use Rattle.state.specs.Locks.{akey};
ghost use Rattle.rules.specs.Rules.{verdict};
ghost use Rattle.rules.specs.Code.{lists, active_rules};

use crate::{Unsound, covers, parents, scopes};
use state::ActiveLock;

// The lowest of these rules that is broken.
pub(crate) fn lowest(active: &[ActiveLock]) -> Result<(), Unsound>
    requires { ascending akey active.now ≡ true }
    ensures { result ≡ verdict 2 (active_rules (lists active.now [])) }
{
    if !scopes::one_each(active) {
        return Err(Unsound::Rule(2));
    }
    let vehicle = scopes::vehicle(active);
    if !parents::fit(active, vehicle) {
        return Err(parents::lowest(active, vehicle));
    }
    if !covers::friends(active) {
        return Err(Unsound::Rule(8));
    }
    Ok(())
}
