// A lock as text.
// SPDX-License-Identifier: Apache-2.0
ghost use Rattle.std.specs.Prelude.{◌≡◌, ◌≤◌};
ghost use Rattle.look.specs.Text.{edge_of};

use coverage::LockCoverage;
use printing::text::IdText;
use state::{Lock, ScopeKey};
use std::fmt;

// ECUs have the numbers below this.
const ECUS: usize = 256;

// The first ECU from `from` on that the coverage has, or has not: ECUS where there is none.
fn edge(c: LockCoverage, from: usize, inside: bool) -> usize
    ensures first { result ≡ edge_of c inside from }
    ensures up { from ≤ result }
{
    for e in from..ECUS {
        if c.contains_ecu(e as u8) == inside {
            return e;
        }
    }
    from.max(ECUS)
}

#[derive(Clone, Copy)]
struct Ranges(LockCoverage);

impl fmt::Display for Ranges {
    fn fmt<W: fmt::Write>(&self, f: &mut fmt::Formatter<W>) -> fmt::Result {
        let mut at = edge(self.0, 0, true);
        let mut comma = "";
        // from edge to edge: no index is counted
        while at < ECUS {
            let end = edge(self.0, at + 1, false);
            write!(f, "{comma}{at}")?;
            if at < end - 1 {
                write!(f, "-{}", end - 1)?;
            }
            comma = ",";
            at = edge(self.0, end, true);
        }
        Ok(())
    }
}

#[derive(Clone, Copy)]
struct Covers(LockCoverage);

impl fmt::Display for Covers {
    fn fmt<W: fmt::Write>(&self, f: &mut fmt::Formatter<W>) -> fmt::Result {
        if self.0.whole {
            return f.write_str("whole");
        }
        if ECUS <= edge(self.0, 0, true) {
            return f.write_str("none");
        }
        Ranges(self.0).fmt(f)
    }
}

#[derive(Clone, Copy)]
struct Scope(ScopeKey);

impl fmt::Display for Scope {
    fn fmt<W: fmt::Write>(&self, f: &mut fmt::Formatter<W>) -> fmt::Result {
        match self.0 {
            ScopeKey::Vehicle => f.write_str("vehicle"),
            ScopeKey::Ecu(n) => write!(f, "ecu {n}"),
            ScopeKey::FunctionalGroup(n) => write!(f, "group {n}"),
        }
    }
}

// What both kinds of lock share.
#[derive(Clone, Copy)]
pub struct LockText(pub Lock);

impl fmt::Display for LockText {
    fn fmt<W: fmt::Write>(&self, f: &mut fmt::Formatter<W>) -> fmt::Result {
        let l = self.0;
        let exclusive = if l.exclusive { " exclusive" } else { "" };
        write!(
            f,
            "{} {} covers {}{exclusive} subject {}",
            IdText(l.id),
            Scope(l.scope),
            Covers(l.coverage),
            l.subject
        )
    }
}
