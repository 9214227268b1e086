// vectors: replays the list of cases on standard input (oracle/vectors/README.md): an image, a feed record, and what
// applying the record at place 0 gives. Prints a line for each way in which a case differs, and how often each answer came.
// SPDX-License-Identifier: Apache-2.0
#![tactic(auto)]

ghost use Rattle.std.specs.Prelude.{◌+◌, ◌<◌, ◌≤◌, length, IfSome};

use feed::events::Step;
use feed::{events, numbers};
use image::{ImageRefusal, Spare, read, write};
use records::{layout, writing};
use state::{ActiveLock, LockState};
use std::io;
use std::io::Read;

// ---- the list
// Each reads a part and gives it with what stands after it, or none where the list has no such part. This one reads four bytes,
// the least first.
fn word(list: &[u8]) -> Option<(u32, &[u8])>
    ensures { IfSome result (λ p. length p.1.now < length list.now) }
{
    let (bytes, rest) = list.split_first_chunk::<4>()?;
    Some((u32::from_le_bytes(*bytes), rest))
}

// A number, and so many bytes after it.
fn bytes(list: &[u8]) -> Option<(&[u8], &[u8])>
    ensures { IfSome result (λ p. length p.1.now < length list.now) }
{
    let (n, rest) = word(list)?;
    rest.split_at_checked(n as usize)
}

// A number, and so many ACTIVE records after it. No state has more than 64.
fn locks(list: &[u8]) -> Option<(&[u8], &[u8])>
    ensures { IfSome result (λ p. length p.1.now < length list.now) }
{
    let (n, rest) = word(list)?;
    if LOCKS < n {
        return None;
    }
    rest.split_at_checked(n as usize * layout::ACTIVE_RECORD)
}

const LOCKS: u32 = LockState::ACTIVE as u32;

#[derive(Clone, Copy)]
struct Case<'a> {
    image: &'a [u8],
    record: &'a [u8],
    want: u32,
    next: &'a [u8],
    removed: &'a [u8],
}

fn first_case(list: &[u8]) -> Option<(Case<'_>, &[u8])>
    ensures { IfSome result (λ p. length p.1.now < length list.now) }
{
    let (image, rest) = bytes(list)?;
    let (record, rest) = bytes(rest)?;
    let (want, rest) = word(rest)?;
    let (next, rest) = bytes(rest)?;
    let (removed, rest) = locks(rest)?;
    let case = Case {
        image,
        record,
        want,
        next,
        removed,
    };
    Some((case, rest))
}

// ---- a case
// What it gave: the answer's number, whether the next image is the list's, whether the removed locks are.
#[derive(Clone, Copy)]
struct Got {
    number: u64,
    kept: bool,
    gone: bool,
}

// Whether the spare, written, has the list's bytes.
fn left(spare: Spare, bytes: &[u8]) -> bool {
    let mut out = [0u8; image::LONGEST];
    match write::write_image(spare, &mut out) {
        Ok(n) => out.get(..n) == Some(bytes),
        Err(_) => false,
    }
}

// The list has a next image of the records that were applied, and of no others: of those the spare is still the image.
fn kept(s: &Step, case: Case<'_>) -> bool {
    if events::is_applied(s.told.event) {
        return left(s.spare, case.next);
    }
    left(s.spare, case.image) & case.next.is_empty()
}

const REMOVED: usize = LockState::ACTIVE * layout::ACTIVE_RECORD;

// Whether the removed locks, written, are the list's bytes.
fn gone(removed: &[ActiveLock], bytes: &[u8]) -> bool {
    let mut out = [0u8; REMOVED];
    for (place, lock) in out.chunks_exact_mut(layout::ACTIVE_RECORD).zip(removed) {
        writing::put_active(place, 0, *lock);
    }
    out.get(..removed.len() * layout::ACTIVE_RECORD) == Some(bytes)
}

fn stepped(s: &Step, case: Case<'_>) -> Got {
    Got {
        number: numbers::number(s.told.event),
        kept: kept(s, case),
        gone: match s.told.removed.get(..s.told.gone) {
            Some(removed) => gone(removed, case.removed),
            None => false,
        },
    }
}

// The image was refused: nothing is written.
fn refused(number: u64, case: Case<'_>) -> Got {
    Got {
        number,
        kept: case.next.is_empty(),
        gone: case.removed.is_empty(),
    }
}

fn replayed(case: Case<'_>) -> Got {
    let read = read::read_image(case.image);
    match read.told {
        Ok(()) => stepped(&feed::step(read.spare, case.record, 0), case),
        Err(ImageRefusal::Torn(_)) => refused(17, case),
        Err(ImageRefusal::BadKind(_)) => refused(18, case),
        Err(ImageRefusal::BadField(_)) => refused(19, case),
        Err(ImageRefusal::BadOrder(_)) => refused(20, case),
        Err(ImageRefusal::UnsoundState(_)) => refused(12, case),
    }
}

// ---- the count
// The cases so far, those of them that differ, and how often each answer came.
#[derive(Drop)]
struct Tally {
    cases: u64,
    differ: u64,
    counts: [u64; 22],
}

// A line for each way in which case k differs: how many.
fn differs(rt: &impl Print, k: u64, want: u64, got: Got) -> io::Result<bool> {
    if want != got.number {
        println!(rt; "case {k}: number want {want} got {}", got.number)?;
    }
    if !got.kept {
        println!(rt; "case {k}: next image differs")?;
    }
    if !got.gone {
        println!(rt; "case {k}: removed differs")?;
    }
    Ok((want != got.number) | !got.kept | !got.gone)
}

impl Tally {
    fn count(&mut self, rt: &impl Print, case: Case<'_>) -> io::Result<()> {
        self.cases = self.cases.wrapping_add(1);
        let got = replayed(case);
        if let Some(n) = self.counts.get_mut(got.number as usize) {
            *n = n.wrapping_add(1);
        }
        if differs(rt, self.cases, u64::from(case.want), got)? {
            self.differ = self.differ.wrapping_add(1);
        }
        Ok(())
    }

    fn print(&self, rt: &impl Print) -> io::Result<()> {
        for (k, n) in self.counts.iter().enumerate() {
            if *n != 0 {
                println!(rt; "{k}: {n} cases")?;
            }
        }
        println!(rt; "vectors: {} cases, {} differ", self.cases, self.differ)
    }
}

fn bad_list(rt: &impl Print, at: usize) -> io::Result<()> {
    println!(rt; "vectors: bad list at {at}")
}

fn replay(rt: &impl Print, list: &[u8]) -> io::Result<()> {
    let mut tally = Tally {
        cases: 0,
        differ: 0,
        counts: [0; 22],
    };
    let mut rest = list;
    // a case at a time, each as long as it says
    while !rest.is_empty() {
        let Some((case, after)) = first_case(rest) else {
            return bad_list(rt, list.len() - rest.len());
        };
        tally.count(rt, case)?;
        rest = after;
    }
    tally.print(rt)
}

// One byte more is read than a list may have, so that a longer one is seen.
fn main(rt: HostRuntime) -> io::Result<()> {
    let mut list = Vec::new(rt.alloc());
    rt.reader().take(65537).read_to_end(&mut list)?;
    if 65536 < list.len() {
        return bad_list(&rt, 65536);
    }
    replay(&rt, list.as_slice())
}
