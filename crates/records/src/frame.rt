// The frame of a record: its length, its kind, and where its body stands.
// SPDX-License-Identifier: Apache-2.0
ghost use Rattle.std.specs.Prelude.{◌≡◌, ◌+◌, ◌≤◌, ◌<◌, ◌^◌};
ghost use Rattle.records.specs.Framing.{frame_at, frame_of};

use crate::kinds::Kind;
use crate::{fields, kinds, layout};

// A whole record: its body has size bytes from start on, with units repeated parts, and next is the place past it.
#[derive(Clone, Copy)]
pub struct Frame {
    pub kind: u16,
    pub start: usize,
    pub size: usize,
    pub units: u16,
    pub next: usize,
}

// Why there is no record: each holds the place where it would start.
#[derive(Clone, Copy, PartialEq, Eq)]
pub enum Unread {
    Torn(usize),
    BadKind(usize),
    BadField(usize),
}

// The record at `at` whose kind has this row, with the length n and `left` bytes from its start on.
fn frame_of(row: Kind, n: u16, at: usize, left: usize, due: u8) -> Result<Frame, Unread>
    requires { (2 ≤ row.base) × (at + left < 2 ^ 64) }
    ensures { result ≡ frame_of row n at left due }
{
    if row.place != due {
        return Err(Unread::BadKind(at));
    }
    if !kinds::possible(row, n) {
        return Err(Unread::BadField(at));
    }
    let size = n as usize;
    if left < size + layout::LENGTH {
        return Err(Unread::Torn(at));
    }
    let units = kinds::units_in(row, n);
    Ok(Frame {
        kind: row.kind,
        start: at + layout::FRAME,
        size: size - layout::KIND,
        units,
        next: at + layout::LENGTH + size,
    })
}

// What stands at `at`, where a kind of the place `due` is due.
pub fn frame_at(s: &[u8], at: usize, due: u8) -> Result<Frame, Unread>
    ensures { result ≡ frame_at s.now at due }
{
    if s.len() < at {
        return Err(Unread::Torn(at));
    }
    let left = s.len() - at;
    if left < layout::FRAME {
        return Err(Unread::Torn(at));
    }
    let n = fields::u16_at(s, at);
    match kinds::row_of(fields::u16_at(s, at + layout::LENGTH)) {
        Some(row) => frame_of(row, n, at, left, due),
        None => Err(Unread::BadKind(at)),
    }
}
