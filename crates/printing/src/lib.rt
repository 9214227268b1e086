// What programs read of a file, and what they tell a person: ids, why a file can't be used, and the image in a named file, or
// why it is refused.
// SPDX-License-Identifier: Apache-2.0
#![tactic(auto)]

ghost use Rattle.std.specs.Prelude.{◌≡◌, ◌≤◌, length};
ghost use Rattle.printing.specs.Files.{given_by, FromBytes};

use image::{ImageRefusal, Spare, read};
use std::fs::File;
use std::io::{ErrorKind, Read};
use std::rt::Files;
use std::{io, str};

pub mod text;

// The refusal's number, its name, and its offset or rule. What can't be written is passed over, here and below: what an image
// reads as doesn't depend on who reads the words.
// spare has one of its own, which says other words.
fn refused(rt: &impl Print, why: ImageRefusal) {
    let _ = match why {
        ImageRefusal::Torn(at) => println!(rt; "refused 17 Torn at {at}"),
        ImageRefusal::BadKind(at) => println!(rt; "refused 18 BadKind at {at}"),
        ImageRefusal::BadField(at) => println!(rt; "refused 19 BadField at {at}"),
        ImageRefusal::BadOrder(at) => println!(rt; "refused 20 BadOrder at {at}"),
        ImageRefusal::UnsoundState(rule) => println!(rt; "refused 12 UnsoundState rule {rule}"),
    };
}

fn read_bytes(rt: &impl Print, image: &[u8]) -> Option<Spare>
    ensures { result ≡ given_by image.now }
{
    let read = read::read_image(image);
    match read.told {
        Ok(()) => Some(read.spare),
        Err(why) => {
            refused(rt, why);
            None
        }
    }
}

// Reads until the buffer is full, the input ends or a read fails: how many bytes stand in it. Each read asks for all that is
// left, since what a packet holds beyond that is lost. A read that is interrupted is made again.
pub fn read_full(mut from: impl Read + Drop, into: &mut [u8]) -> usize
    ensures { result ≤ length into.new }
{
    let mut done = 0;
    for _ in 0..u64::MAX {
        if done == into.len() {
            break;
        }
        match from.read(&mut into[done..]) {
            Ok(0) => break,
            Ok(n) => done += n,
            Err(e) if e.kind() == ErrorKind::Interrupted => {}
            Err(_) => break,
        }
    }
    done
}

// No image is as long as the buffer: one that fills it has extra bytes. Not on the heap: an image is shown where memory is short.
fn read_from(rt: &impl Print, from: impl Read + Drop) -> Option<Spare>
    ensures { FromBytes result }
{
    let mut bytes = [0u8; 65536];
    let n = read_full(from, &mut bytes);
    read_bytes(rt, &bytes[..n])
}

// The system's words alone: std's text of an error has its number after them. Nothing is told where memory for that text runs
// out. Pub for spare, which tells the same of its files.
pub fn fail(rt: &(impl Eprint + Alloc), what: &str, error: io::Error) {
    if let Ok(text) = format!(in rt.alloc(); "{error}") {
        let words = text.as_str().split(" (os error ").next().unwrap_or("");
        let _ = eprintln!(rt; "{what}: {words}");
    }
}

// std opens a file by a name that is text, and no other.
fn image_of(rt: &(impl Print + Eprint + Files + Alloc), name: &[u8]) -> Option<Spare>
    ensures { FromBytes result }
{
    let Ok(path) = str::from_utf8(name) else {
        let _ = eprintln!(rt; "{}: not UTF-8", name.escape_ascii());
        return None;
    };
    match File::open(rt, path) {
        Ok(file) => read_from(rt, file),
        Err(error) => {
            fail(rt, path, error);
            None // as of no bytes
        }
    }
}

// The image in the file, or on standard input for the name -. What is refused or can't be opened is told.
pub fn image_in(rt: &(impl Print + Eprint + Input + Files + Alloc), name: &[u8]) -> Option<Spare>
    ensures { FromBytes result }
{
    if name == b"-".as_slice() {
        return read_from(rt, rt.reader());
    }
    image_of(rt, name)
}
