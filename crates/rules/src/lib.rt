// The sound-state test: rules 0 to 9, and the lowest that is broken (12).
// SPDX-License-Identifier: Apache-2.0
#![tactic(auto)]

mod actives;
mod covers;
mod parents;
mod places;
pub mod rows;
mod scopes;
mod shapes;
mod walks;

ghost use Rattle.std.specs.Prelude.{◌≡◌};
ghost use Rattle.rules.specs.Rules.{broken_rule};

use places::Places;
use state::LockState;

// The state isn't sound: the lowest rule that is broken.
#[derive(Clone, Copy, PartialEq, Eq)]
pub enum Unsound {
    Rule(u8),
}

// The lowest broken rule, if any is. This is the original's validate_invariants, with the rules that are added.
// Each function that takes the state and reads its places copies it, so this one alone does, and lends its lists.
pub fn broken(s: LockState) -> Result<(), Unsound>
    ensures { result ≡ broken_rule s }
{
    let n = s.actives;
    let m = s.defuncts;
    if LockState::ACTIVE < n {
        return Err(Unsound::Rule(0));
    }
    if LockState::DEFUNCT < m {
        return Err(Unsound::Rule(0));
    }
    if !rows::blank(&s.active[n..]) {
        return Err(Unsound::Rule(0));
    }
    if !rows::blank(&s.defunct[m..]) {
        return Err(Unsound::Rule(0));
    }
    let active = &s.active[..n];
    if !rows::neat(active) {
        return Err(Unsound::Rule(0));
    }
    if !rows::rising(active) {
        return Err(Unsound::Rule(0));
    }
    // Rules 2 to 8 before rule 1, which is told first: a state without defunct locks ends here.
    let told = actives::lowest(active);
    if m == 0 {
        return told;
    }
    let defunct = &s.defunct[..m];
    if !rows::neat(defunct) {
        return Err(Unsound::Rule(0));
    }
    if !rows::rising(defunct) {
        return Err(Unsound::Rule(0));
    }
    let places = Places::of(defunct);
    if !places::apart(&places, active) {
        return Err(Unsound::Rule(1));
    }
    told?;
    let next = walks::steps(&places);
    if !walks::leads_out(&next[..m]) {
        return Err(Unsound::Rule(9));
    }
    Ok(())
}
