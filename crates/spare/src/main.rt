// spare BASE FEED NEW: reads a base image (- for an empty spare), plays the feed to it, prints a line for each record, and
// writes the image after the last whole record to NEW. A refused base or a feed over 65,536 bytes writes nothing.
// SPDX-License-Identifier: Apache-2.0
#![tactic(auto)]

use image::{ImageRefusal, Spare, read, write};
use state::LockState;
use std::env::FillError;
use std::fs::File;
use std::io::Write;
use std::rt::{Env, Runtime};
use std::{io, str};

// Opens the file that argument i names. std opens a file by a name that is text, and no other.
fn open<R: Runtime, F: FnOnce(&str) -> io::Result<R::File>>(
    rt: &R,
    i: usize,
    opening: F,
) -> Option<R::File>
    requires { F.IsAlwaysCallable opening }
{
    let mut path = [0u8; 4096];
    let n = match rt.arg(i, &mut path) {
        Ok(n) => n,
        Err(FillError::TooLong) => {
            let _ = eprintln!(rt; "spare BASE FEED NEW: File name too long");
            return None;
        }
        Err(FillError::NotPresent) => {
            let _ = eprintln!(rt; "spare BASE FEED NEW: Invalid argument");
            return None;
        }
    };
    let Ok(name) = str::from_utf8(&path[..n]) else {
        let _ = eprintln!(rt; "{}: not UTF-8", path[..n].escape_ascii());
        return None;
    };
    match opening(name) {
        Ok(file) => Some(file),
        Err(error) => {
            printing::fail(rt, name, error);
            None
        }
    }
}

// Whether argument i is a single dash.
fn is_dash(rt: &impl Env, i: usize) -> bool {
    let mut word = [0u8; 2];
    let n = rt.arg(i, &mut word).unwrap_or(0);
    &word[..n] == b"-".as_slice()
}

// What the buffer takes of the file that argument i names.
fn bytes_of<'a>(rt: &impl Runtime, i: usize, buffer: &'a mut [u8]) -> Option<&'a [u8]> {
    let file = open(rt, i, |path| File::open(rt, path))?;
    let n = printing::read_full(file, buffer);
    Some(&buffer[..n])
}

// A base that can't be opened reads as no bytes: 17 at 0. No image is as long as the buffer.
fn base(rt: &impl Runtime, buffer: &mut [u8]) -> Option<Spare> {
    if is_dash(rt, 1) {
        return Some(Spare {
            state: LockState::empty(),
            expected: 0,
        });
    }
    // called at two places, so that what it needs of the stack is given back before the feed is played
    match bytes_of(rt, 1, buffer) {
        Some(image) => accepted(rt, image),
        None => accepted(rt, b""),
    }
}

fn accepted(rt: &impl Print, image: &[u8]) -> Option<Spare> {
    let read = read::read_image(image);
    match read.told {
        Ok(()) => Some(read.spare),
        Err(why) => {
            refused(rt, why);
            None
        }
    }
}

// Number, and place or rule. What can't be written is passed over: the new image doesn't depend on who reads the lines.
// printing has one of its own, which says other words.
fn refused(rt: &impl Print, why: ImageRefusal) {
    let _ = match why {
        ImageRefusal::Torn(at) => println!(rt; "base 17 {at}"),
        ImageRefusal::BadKind(at) => println!(rt; "base 18 {at}"),
        ImageRefusal::BadField(at) => println!(rt; "base 19 {at}"),
        ImageRefusal::BadOrder(at) => println!(rt; "base 20 {at}"),
        ImageRefusal::UnsoundState(rule) => println!(rt; "base 12 {rule}"),
    };
}

fn save(rt: &impl Runtime, image: &[u8]) {
    let Some(mut file) = open(rt, 3, |path| File::create(rt, path)) else {
        return;
    };
    if let Err(error) = file.write_all(image) {
        printing::fail(rt, "write", error);
    }
}

fn run(rt: &impl Runtime, start: Spare, feed: &[u8]) {
    let end = player::play(rt, start, feed);
    let mut out = [0u8; 65536];
    if let Ok(n) = write::write_image(end, &mut out) {
        if let Some(image) = out.get(..n) {
            save(rt, image);
        }
    }
}

// The buffer has one byte more than a feed may have, so that a longer one is seen; the base is read into it before.
fn main(rt: HostRuntime) {
    let mut buffer = [0u8; 65537];
    let Some(start) = base(&rt, &mut buffer[..65536]) else {
        return;
    };
    let Some(feed) = bytes_of(&rt, 2, &mut buffer) else {
        return;
    };
    if 65536 < feed.len() {
        let _ = rt.println("long");
        return;
    }
    run(&rt, start, feed);
}
