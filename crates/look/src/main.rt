// look [IMAGE..]: prints each image for a person, or why it is refused. Without names it reads standard input, and so it
// does for the name -.
// SPDX-License-Identifier: Apache-2.0
#![tactic(auto)]

use image::Spare;
use lookups::reads;
use printing::text::IdText;
use state::{ActiveLock, DefunctLock, LockState};
use std::env::FillError;
use std::rt::Runtime;
use text::LockText;

mod text;

// What can't be written is passed over, here and below: what comes after it is tried all the same.
fn active(rt: &impl Print, a: &ActiveLock) {
    let _ = print!(rt; "active {} expires {}", LockText(a.lock), a.expires);
    if a.child {
        let _ = print!(rt; " parent {}", IdText(a.parent));
    }
    let _ = rt.println("");
}

fn defunct(rt: &impl Print, s: &LockState, d: &DefunctLock) {
    let _ = print!(rt;
        "defunct {} expires {} broken at {} by {}",
        LockText(d.lock),
        d.expires,
        d.broken,
        d.breaker
    );
    let _ = print!(rt; " replaced by {} of {}", IdText(d.target), d.holder);
    // Who holds what replaced it, after so many links of defunct entries.
    if let Ok(h) = reads::current_holder(*s, *d) {
        let _ = print!(rt; " now held by {} links {}", h.subject, h.links);
    }
    let _ = rt.println("");
}

fn whole(rt: &impl Print, spare: &Spare) {
    let s = &spare.state;
    let _ = println!(rt;
        "revision {} expected {} active {} defunct {}",
        s.revision, spare.expected, s.actives, s.defuncts
    );
    for a in s.active.iter().take(s.actives) {
        active(rt, a);
    }
    for d in s.defunct.iter().take(s.defuncts) {
        defunct(rt, s, d);
    }
}

fn look(rt: &impl Print, given: Option<Spare>) {
    if let Some(spare) = given {
        whole(rt, &spare);
    }
}

// A name is bytes that need not be text.
fn look_into(rt: &impl Runtime, name: &[u8]) {
    let _ = rt.write_all(name);
    let _ = rt.println(":");
    look(rt, printing::image_in(rt, name));
}

// Looks into what argument i names, and says whether there is one. No path is as long as the buffer: a name that is too long
// reads as none. Not by env::args, which has text alone.
fn argument(rt: &impl Runtime, i: usize) -> bool {
    let mut name = [0u8; 4096];
    match rt.arg(i, &mut name) {
        Ok(n) => look_into(rt, &name[..n]),
        Err(FillError::TooLong) => look_into(rt, b""),
        Err(FillError::NotPresent) => return false,
    }
    true
}

fn main(rt: HostRuntime) {
    if !argument(&rt, 1) {
        look(&rt, printing::image_in(&rt, b"-"));
        return;
    }
    for i in 2..usize::MAX {
        if !argument(&rt, i) {
            return;
        }
    }
}
