// A feed played to a spare, with a line printed for each record.
// SPDX-License-Identifier: Apache-2.0
#![tactic(auto)]

ghost use Rattle.std.specs.Prelude.{◌≡◌, length};
ghost use Rattle.feed.specs.Runs.{run_on};

use feed::{events, numbers};
use image::Spare;

// Sequence, answer, revision, active, defunct. A line that can't be written is passed over: the spare after the feed doesn't
// depend on who reads the lines. The numbers come by value: of a step that is lent to be printed no copy can be left out.
fn print_line(rt: &impl Print, sequence: u32, number: u64, revision: u64, counts: (usize, usize)) {
    let _ = println!(rt; "{sequence} {number} {revision} {} {}", counts.0, counts.1);
}

fn print_bad(rt: &impl Print, number: u64, at: usize) {
    let _ = println!(rt; "bad {number} {at}");
}

// The spare after the feed's last whole record, from record to record. A step that reads nothing ends the play.
pub fn play(rt: &impl Print, start: Spare, feed: &[u8]) -> Spare
    ensures { result ≡ run_on (length feed.now) start feed.now 0 }
{
    let mut spare = start;
    let mut at = 0;
    // a record at a time, each as long as it says
    while at < feed.len() {
        let s = feed::step(spare, feed, at);
        let number = numbers::number(s.told.event);
        if events::stops(s.told.event) {
            print_bad(rt, number, at);
            return spare;
        }
        spare = s.spare;
        let counts = (spare.state.actives, spare.state.defuncts);
        print_line(rt, s.told.sequence, number, spare.state.revision, counts);
        at = s.told.next;
    }
    spare
}
