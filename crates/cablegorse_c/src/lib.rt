// The C boundary: each function of the library under its C name. What it promises is the library's own.
// SPDX-License-Identifier: Apache-2.0
#![tactic(auto)]

ghost use Rattle.std.specs.Prelude.{◌≡◌};
ghost use Rattle.cablegorse.specs.Boards.{apply_board_of, board_changed, board_of_image, delete_board_of};
ghost use Rattle.cablegorse.specs.Boundary.{class_of, name_at_of, name_number_of, prepare_of, test_of};
ghost use Rattle.cablegorse.specs.Changes.{apply_of, changed, delete_of, left};
ghost use Rattle.cablegorse.specs.Chunks.{chunked, follow_of};
ghost use Rattle.cablegorse.specs.Replies.{read_of};
ghost use Rattle.cablegorse.specs.Sending.{perform_of, performed, write_of};
ghost use Rattle.cablegorse.specs.Telling.{kept};

use cablegorse::{
    Applied, Followed, Operation, Told, boards, changes, chunks, reading, sending, tables,
};

#[unsafe(no_mangle)]
pub extern "C" fn cablegorse_response_class(number: u64) -> u32
    ensures { result ≡ class_of number }
{
    cablegorse::cablegorse_response_class(number)
}

#[unsafe(no_mangle)]
pub extern "C" fn cablegorse_test(image: &[u8]) -> Told
    ensures { result ≡ test_of image.now }
{
    cablegorse::cablegorse_test(image)
}

#[unsafe(no_mangle)]
pub extern "C" fn cablegorse_prepare_runtime_update(image: &[u8], generation: u64) -> Told
    ensures { result ≡ prepare_of image.now generation }
{
    cablegorse::cablegorse_prepare_runtime_update(image, generation)
}

#[unsafe(no_mangle)]
pub extern "C" fn cablegorse_apply(
    image: &[u8],
    stream: &[u8],
    at: usize,
    next: &mut [u8],
    removed: &mut [u8],
    expired: &mut [u8],
) -> Applied
    ensures { changed result next.new removed.new expired.new ≡ apply_of image.now stream.now at next.old removed.old expired.old }
{
    changes::cablegorse_apply(image, stream, at, next, removed, expired)
}

#[unsafe(no_mangle)]
pub extern "C" fn cablegorse_delete_defunct(
    image: &[u8],
    hi: u64,
    lo: u64,
    kind: u8,
    number: u8,
    subject: u16,
    next: &mut [u8],
) -> Applied
    ensures { left result next.new ≡ delete_of image.now hi lo kind number subject next.old }
{
    changes::cablegorse_delete_defunct(image, hi, lo, kind, number, subject, next)
}

#[unsafe(no_mangle)]
pub extern "C" fn cablegorse_follow(image: &[u8], chunk: &[u8], next: &mut [u8]) -> Followed
    ensures { chunked result next.new ≡ follow_of image.now chunk.now next.old }
{
    chunks::cablegorse_follow(image, chunk, next)
}

#[unsafe(no_mangle)]
pub extern "C" fn cablegorse_board(image: &[u8], out: &mut [u8]) -> Told
    ensures { kept result out.new ≡ board_of_image image.now out.old }
{
    boards::cablegorse_board(image, out)
}

#[unsafe(no_mangle)]
pub extern "C" fn cablegorse_apply_board(
    image: &[u8],
    board: &mut [u8],
    stream: &[u8],
    at: usize,
    next: &mut [u8],
    removed: &mut [u8],
    expired: &mut [u8],
) -> Applied
    ensures { board_changed (changed result next.new removed.new expired.new) board.new ≡ apply_board_of image.now board.old stream.now at next.old removed.old expired.old }
{
    boards::cablegorse_apply_board(image, board, stream, at, next, removed, expired)
}

#[unsafe(no_mangle)]
pub extern "C" fn cablegorse_delete_defunct_board(
    image: &[u8],
    board: &[u8],
    hi: u64,
    lo: u64,
    kind: u8,
    number: u8,
    subject: u16,
    next: &mut [u8],
) -> Applied
    ensures { left result next.new ≡ delete_board_of image.now board.now hi lo kind number subject next.old }
{
    boards::cablegorse_delete_defunct_board(image, board, hi, lo, kind, number, subject, next)
}

#[unsafe(no_mangle)]
pub extern "C" fn cablegorse_read(
    image: &[u8],
    question: u32,
    x: u64,
    y: u64,
    given: &[u8],
    out: &mut [u8],
) -> Told
    ensures { kept result out.new ≡ read_of image.now question x y given.now out.old }
{
    reading::cablegorse_read(image, question, x, y, given, out)
}

#[unsafe(no_mangle)]
pub extern "C" fn cablegorse_write_record(
    sequence: u32,
    asked: Operation,
    list: &[u64],
    out: &mut [u8],
) -> Told
    ensures { kept result out.new ≡ write_of sequence asked list.now out.old }
{
    sending::cablegorse_write_record(sequence, asked, list, out)
}

#[unsafe(no_mangle)]
pub extern "C" fn cablegorse_perform(
    image: &[u8],
    asked: Operation,
    list: &[u64],
    next: &mut [u8],
    removed: &mut [u8],
    expired: &mut [u8],
    sent: &mut [u8],
) -> Applied
    ensures { performed result next.new removed.new expired.new sent.new ≡ perform_of image.now asked list.now next.old removed.old expired.old sent.old }
{
    sending::cablegorse_perform(image, asked, list, next, removed, expired, sent)
}

#[unsafe(no_mangle)]
pub extern "C" fn cablegorse_name_number(table: &mut [u8], name: &[u8], folding: bool) -> Told
    ensures { kept result table.new ≡ name_number_of folding table.old name.now }
{
    tables::cablegorse_name_number(table, name, folding)
}

#[unsafe(no_mangle)]
pub extern "C" fn cablegorse_name_at(
    table: &[u8],
    number: u16,
    folding: bool,
    out: &mut [u8],
) -> Told
    ensures { kept result out.new ≡ name_at_of folding table.now number out.old }
{
    tables::cablegorse_name_at(table, number, folding, out)
}
