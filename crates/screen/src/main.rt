// screen [IMAGE]: prints for each covered ECU how many locks cover it and the lowest id among them, or why the image is
// refused. Without a name it reads standard input, and so it does for the name -.
// SPDX-License-Identifier: Apache-2.0
#![tactic(auto)]

ghost use Rattle.std.specs.Prelude.{◌≡◌, length};
ghost use Rattle.rules.specs.Rules.{broken_rule};
ghost use Rattle.state.specs.Model.{model_of};
ghost use Rattle.records.specs.Wire.{id_bytes};
ghost use Rattle.board.specs.Board.{board_of};
ghost use Rattle.printing.specs.Files.{FromBytes};

use ids::LockId;
use image::Spare;
use printing::text::IdText;
use records::requests;
use state::LockState;
use std::env::FillError;
use std::rt::Env;

// The board of a sound state: into a buffer of its size it is never refused.
fn board_of(state: LockState) -> [u8; board::SIZE]
    requires { broken_rule state ≡ Ok tt }
    ensures { result ≡ board_of (model_of state).active }
{
    let mut out = [0u8; board::SIZE];
    let _ = board::fresh(state, &mut out);
    out
}

// The id whose bytes these are.
fn id_in(bytes: &[u8]) -> LockId
    requires { length bytes.now ≡ 16 }
    ensures { id_bytes result ≡ bytes.now }
{
    let words = requests::words_of(bytes);
    LockId {
        hi: words[0],
        lo: words[1],
    }
}

// What can't be written is passed over: the next line is tried all the same.
fn line(rt: &impl Print, e: usize, entry: &[u8])
    requires { length entry.now ≡ 17 }
{
    let count = entry[0];
    if count == 0 {
        return;
    }
    let _ = println!(rt;
        "ecu {e} locks {count} lowest {}",
        IdText(id_in(&entry[1..]))
    );
}

fn lines(rt: &impl Print, board: &[u8]) {
    for (e, entry) in board.chunks_exact(board::ENTRY).enumerate() {
        line(rt, e, entry);
    }
}

fn screen(rt: &impl Print, given: Option<Spare>)
    requires { FromBytes given }
{
    if let Some(spare) = given {
        lines(rt, &board_of(spare.state));
    }
}

// No path is as long as the buffer: a name that is too long reads as none. Not by env::args, which has text alone.
fn main(rt: HostRuntime) {
    let mut name = [0u8; 4096];
    let given = match rt.arg(1, &mut name) {
        Ok(n) => printing::image_in(&rt, &name[..n]),
        Err(FillError::TooLong) => printing::image_in(&rt, b""),
        Err(FillError::NotPresent) => printing::image_in(&rt, b"-"),
    };
    screen(&rt, given);
}
