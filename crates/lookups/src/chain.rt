// The walk along replacements, from a defunct record to the present holder.
// SPDX-License-Identifier: Apache-2.0
ghost use Rattle.std.specs.Prelude.{◌≡◌, Ok};
ghost use Rattle.state.specs.Model.{model_of};
ghost use Rattle.rules.specs.Rules.{broken_rule};
ghost use Rattle.lookups.specs.Reads.{holder_of};

use crate::Holder;
use state::{DefunctLock, LockState};

// The original keeps a record of the ids that it visited; on a sound state no id comes twice (rule 9), so there is none here.
pub(crate) fn walk(s: &LockState, d: DefunctLock) -> Holder
    requires { broken_rule s.now ≡ Ok tt }
    ensures { result ≡ holder_of (model_of s.now) d }
{
    let mut id = d.target;
    let mut holder = d.holder;
    let mut links: u64 = 0;
    loop {
        if let Some(a) = s.find_active(id) {
            return Holder {
                subject: a.lock.subject,
                links,
            };
        }
        let Some(e) = s.find_defunct(id) else {
            break;
        };
        id = e.target;
        holder = e.holder;
        links += 1;
    }
    Holder {
        subject: holder,
        links,
    }
}
