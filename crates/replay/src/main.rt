// replay: reads a feed from standard input, plays it to an empty spare, and prints a line for each record.
// SPDX-License-Identifier: Apache-2.0
#![tactic(auto)]

use image::Spare;
use state::LockState;
use std::io;
use std::io::Read;

// One byte more is read than a feed may have, so that a longer one is seen.
fn main(rt: HostRuntime) -> io::Result<()> {
    let mut feed = Vec::new(rt.alloc());
    rt.reader().take(65537).read_to_end(&mut feed)?;
    if 65536 < feed.len() {
        return println!(rt; "long");
    }
    let spare = Spare {
        state: LockState::empty(),
        expected: 0,
    };
    player::play(&rt, spare, feed.as_slice());
    Ok(())
}
