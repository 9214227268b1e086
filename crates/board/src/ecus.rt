// Sets of ECUs as a board walks them: what two coverages share, what either has, and the next ECU.
// SPDX-License-Identifier: Apache-2.0
ghost use Rattle.std.specs.Prelude.{◌≤◌};
ghost use Rattle.lists.specs.Tests.{◌and◌, ◌or◌};
ghost use Rattle.coverage.specs.Coverage.{covers};
ghost use Rattle.board.specs.Code.{Next, Covers};

use coverage::LockCoverage;

// The ECUs that both cover. coverage has the last arm for its own use (`in_both`): shared, it would be a public function that is
// right of sets alone.
pub(crate) fn common(a: LockCoverage, b: LockCoverage) -> LockCoverage
    ensures { Covers result (λ e. covers a e and covers b e) }
{
    if a.whole {
        return b;
    }
    if b.whole {
        return a;
    }
    LockCoverage {
        w0: a.w0 & b.w0,
        w1: a.w1 & b.w1,
        w2: a.w2 & b.w2,
        w3: a.w3 & b.w3,
        whole: false,
    }
}

// The ECUs that one of the two covers.
pub(crate) fn joined(a: LockCoverage, b: LockCoverage) -> LockCoverage
    ensures { Covers result (λ e. covers a e or covers b e) }
{
    LockCoverage {
        w0: a.w0 | b.w0,
        w1: a.w1 | b.w1,
        w2: a.w2 | b.w2,
        w3: a.w3 | b.w3,
        whole: a.whole | b.whole,
    }
}

// The lowest covered ECU from `from` on, a word at a time: most locks cover few. Its place isn't counted up: it goes on to the
// next word.
pub(crate) fn next_from(c: LockCoverage, from: usize) -> usize
    requires { from ≤ 256 }
    ensures { Next (covers c) from result }
{
    if c.whole {
        return from;
    }
    let words = [c.w0, c.w1, c.w2, c.w3];
    let mut at = from;
    while at < crate::ECUS {
        let rest = words[at / 64] >> ((at % 64) as u64);
        if rest != 0 {
            return at + u64::trailing_zeros(rest) as usize;
        }
        at = at - at % 64 + 64;
    }
    at
}
