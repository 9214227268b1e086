// LockCoverage: the whole vehicle, or a set of ECUs 0..=255 as the bits of four words.
// SPDX-License-Identifier: Apache-2.0
#![tactic(auto)]

ghost use Rattle.std.specs.Prelude.{◌≡◌, ◌≤◌};
ghost use Rattle.coverage.specs.Coverage.{no_coverage, whole_vehicle, word_of, covers, overlap, lowest_in, spot_of, shared, within, bit_in, with_ecu, with_ecus};
ghost use Rattle.coverage.specs.Code.{ecu_of, in_both};

// Four words of their own: as [u64; 4] each of the tests below would be an index or a chain for its one term, and the
// definitions that read the words by name (rules' zero_set, lookups' coverage_values, the records' codec) would index too.
#[derive(Clone, Copy, PartialEq, Eq)]
pub struct LockCoverage {
    pub w0: u64,
    pub w1: u64,
    pub w2: u64,
    pub w3: u64,
    // Beside the words and not instead of them: readers and rule 0 judge the pair.
    pub whole: bool,
}

// The word with ECU e's bit set, if this is the word that has it.
fn bit_in(w: u64, i: u8, e: u8) -> u64
    ensures { result ≡ bit_in w i e }
{
    if e / 64 == i {
        return w | (1u64 << ((e % 64) as u64));
    }
    w
}

// ECU e joins the set.
fn with_ecu(c: LockCoverage, e: u8) -> LockCoverage
    ensures { result ≡ with_ecu c e }
{
    LockCoverage {
        w0: bit_in(c.w0, 0, e),
        w1: bit_in(c.w1, 1, e),
        w2: bit_in(c.w2, 2, e),
        w3: bit_in(c.w3, 3, e),
        whole: c.whole,
    }
}

// The word that has ECU e's bit: word e / 64.
fn word(c: LockCoverage, i: u8) -> u64
    ensures { result ≡ word_of c i }
{
    match i {
        0 => c.w0,
        1 => c.w1,
        2 => c.w2,
        _ => c.w3,
    }
}

// The lowest ECU of a word that has one; its first bit stands for ECU `from`.
fn ecu_of(w: u64, from: u8) -> Option<u8>
    requires { (w ≡ 0 → ⊥) × (from ≤ 192) }
    ensures { result ≡ ecu_of w from }
{
    Some(from + u64::trailing_zeros(w) as u8)
}

// The lowest ECU of the set.
fn lowest_in(c: LockCoverage) -> Option<u8>
    ensures { result ≡ lowest_in c }
{
    if c.w0 != 0 {
        return ecu_of(c.w0, 0);
    }
    if c.w1 != 0 {
        return ecu_of(c.w1, 64);
    }
    if c.w2 != 0 {
        return ecu_of(c.w2, 128);
    }
    if c.w3 != 0 {
        return ecu_of(c.w3, 192);
    }
    None
}

// The ECUs that are in both sets.
fn in_both(a: LockCoverage, b: LockCoverage) -> LockCoverage
    ensures { result ≡ in_both a b }
{
    LockCoverage {
        w0: a.w0 & b.w0,
        w1: a.w1 & b.w1,
        w2: a.w2 & b.w2,
        w3: a.w3 & b.w3,
        whole: false,
    }
}

// Where two coverages that overlap meet: at the lowest ECU that both cover, or with no ECU (two whole vehicles; the whole
// vehicle and the empty set). The bits of the whole vehicle's words are not looked at: it covers every ECU.
fn spot_of(a: LockCoverage, b: LockCoverage) -> Option<u8>
    ensures { result ≡ spot_of a b }
{
    if a.whole & b.whole {
        return None;
    }
    if a.whole {
        return lowest_in(b);
    }
    if b.whole {
        return lowest_in(a);
    }
    lowest_in(in_both(a, b))
}

impl LockCoverage {
    pub fn empty() -> LockCoverage
        ensures { result ≡ no_coverage }
    {
        LockCoverage {
            w0: 0,
            w1: 0,
            w2: 0,
            w3: 0,
            whole: false,
        }
    }

    pub fn vehicle() -> LockCoverage
        ensures { result ≡ whole_vehicle }
    {
        LockCoverage {
            w0: 0,
            w1: 0,
            w2: 0,
            w3: 0,
            whole: true,
        }
    }

    // The set of the ECUs listed; a number may come twice.
    pub fn new(ecus: &[u8]) -> LockCoverage
        ensures { result ≡ with_ecus no_coverage ecus.now }
    {
        ecus.iter()
            .fold(LockCoverage::empty(), |c, e| with_ecu(c, *e))
    }

    pub fn contains_ecu(self, e: u8) -> bool
        ensures { result ≡ covers self e }
    {
        let w = word(self, e / 64);
        let k = (e % 64) as u64;
        self.whole | ((w >> k) % 2 == 1)
    }

    // The yes or no of `overlaps`, for those who ask no more: rule 8, the search for a conflict, the defunct lookup.
    pub fn meets(self, other: LockCoverage) -> bool
        ensures { result ≡ overlap self other }
    {
        self.whole
            | other.whole
            | ((self.w0 & other.w0 != 0)
                | (self.w1 & other.w1 != 0)
                | (self.w2 & other.w2 != 0)
                | (self.w3 & other.w3 != 0))
    }

    // None: apart; else where they meet.
    pub fn overlaps(self, other: LockCoverage) -> Option<Option<u8>>
        ensures { result ≡ shared self other }
    {
        if !self.meets(other) {
            return None;
        }
        Some(spot_of(self, other))
    }

    pub fn contains(self, other: LockCoverage) -> bool
        ensures { result ≡ within other self }
    {
        self.whole
            | (!other.whole
                & ((self.w0 & other.w0 == other.w0)
                    & (self.w1 & other.w1 == other.w1)
                    & (self.w2 & other.w2 == other.w2)
                    & (self.w3 & other.w3 == other.w3)))
    }
}
