// Every single-byte change and every cut of the image on standard input, read by read_image. A line for each byte: its place
// and the sum of the answers to its 255 changes. Then the sum of the answers to the cuts, and how often each answer came.
// oracle/src/bin/sweep.rs prints the same lines from the comparison's reader.
// SPDX-License-Identifier: Apache-2.0
#![tactic(auto)]

ghost use Rattle.std.specs.Prelude.{◌<◌, length};

use image::{ImageRefusal, Spare, read, write};
use std::io;
use std::io::Read;

// FNV-1a on 64 bits: where a sum begins, and the prime.
const START: u64 = 14695981039346656037;

const PRIME: u64 = 1099511628211;

fn mixed(sum: u64, x: u64) -> u64 {
    (sum ^ x).wrapping_mul(PRIME)
}

// The answers since the sum was last begun, and how often each came in all: first done, then the refusals 17 to 20, then
// the rules 0 to 9 of the refusal 12.
#[derive(Drop)]
struct Tally {
    sum: u64,
    counts: [u64; 15],
}

impl Tally {
    // The answer at place k of the counts, with its value.
    fn count(&mut self, k: usize, value: u64) {
        if let Some(n) = self.counts.get_mut(k) {
            *n = n.wrapping_add(1);
        }
        self.sum = mixed(mixed(self.sum, k as u64), value);
    }

    // The image read; what was accepted is written again into the buffer.
    fn read(&mut self, image: &[u8], out: &mut [u8]) {
        let read = read::read_image(image);
        match read.told {
            Ok(()) => self.count(0, again(read.spare, out)),
            Err(ImageRefusal::Torn(at)) => self.count(1, at as u64),
            Err(ImageRefusal::BadKind(at)) => self.count(2, at as u64),
            Err(ImageRefusal::BadField(at)) => self.count(3, at as u64),
            Err(ImageRefusal::BadOrder(at)) => self.count(4, at as u64),
            Err(ImageRefusal::UnsoundState(rule)) => self.count(rule as usize + 5, 0),
        }
    }
}

// The sum of the bytes that are written.
fn again(spare: Spare, out: &mut [u8]) -> u64 {
    match write::write_image(spare, out) {
        Ok(n) => out
            .iter()
            .take(n)
            .fold(START, |sum, b| mixed(sum, u64::from(*b))),
        Err(_) => 0,
    }
}

// Every other value of byte i, from the farthest on.
fn change(tally: &mut Tally, image: &mut [u8], i: usize, out: &mut [u8])
    requires { i < length image.old }
{
    for k in (1..=255u8).rev() {
        image[i] ^= k;
        tally.read(image, out);
        image[i] ^= k;
    }
}

fn sweep(rt: &impl Print, image: &mut [u8]) -> io::Result<()> {
    let mut out = [0u8; image::LONGEST];
    let mut tally = Tally {
        sum: START,
        counts: [0; 15],
    };
    for i in 0..image.len() {
        tally.sum = START;
        change(&mut tally, image, i, &mut out);
        println!(rt; "byte {i} {}", tally.sum)?;
    }
    tally.sum = START;
    for n in 0..image.len() {
        tally.read(&image[..n], &mut out);
    }
    println!(rt; "cuts {} {}", image.len(), tally.sum)?;
    for (k, n) in tally.counts.iter().enumerate() {
        match k {
            0 => println!(rt; "answer 0 {n}")?,
            1..=4 => println!(rt; "answer {} {n}", k + 16)?,
            _ => println!(rt; "answer 12 rule {} {n}", k - 5)?,
        }
    }
    Ok(())
}

// No image is as long as what is read: one that is longer has extra bytes.
fn main(rt: HostRuntime) -> io::Result<()> {
    let mut input = Vec::new(rt.alloc());
    rt.reader().take(65536).read_to_end(&mut input)?;
    sweep(&rt, input.as_mut_slice())
}
