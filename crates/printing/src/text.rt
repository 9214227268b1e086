// Ids as text.
// SPDX-License-Identifier: Apache-2.0
ghost use Rattle.std.specs.Prelude.{◌≡◌, ◌%◌};
ghost use Rattle.printing.specs.Text.{hex_digit_ascii, four_of, id_text};

use ids::LockId;
use std::fmt;

// Added to ten it is the letter a.
const LETTERS: u8 = b'a' - 10;

// The last hexadecimal digit.
fn digit(x: u64) -> u8
    ensures { result ≡ hex_digit_ascii (x % 16) }
{
    let d = (x % 16) as u8;
    if d < 10 {
        return b'0' + d;
    }
    LETTERS + d
}

// The last four hexadecimal digits.
fn four(x: u64) -> [u8; 4]
    ensures { result ≡ four_of x }
{
    [digit(x >> 12), digit(x >> 8), digit(x >> 4), digit(x)]
}

// Lowercase UUID text, 8-4-4-4-12. Written place by place: with copy_from_slice into a text of dashes (tried) the parts' bounds
// and the equation with `id_text` stay open.
pub fn id_text(id: LockId) -> [u8; 36]
    ensures { result ≡ id_text id }
{
    let hi = id.hi;
    let lo = id.lo;
    let a = four(hi >> 48);
    let b = four(hi >> 32);
    let c = four(hi >> 16);
    let d = four(hi);
    let e = four(lo >> 48);
    let f = four(lo >> 32);
    let g = four(lo >> 16);
    let h = four(lo);
    [
        a[0], a[1], a[2], a[3], b[0], b[1], b[2], b[3], b'-', c[0], c[1], c[2], c[3], b'-', d[0],
        d[1], d[2], d[3], b'-', e[0], e[1], e[2], e[3], b'-', f[0], f[1], f[2], f[3], g[0], g[1],
        g[2], g[3], h[0], h[1], h[2], h[3],
    ]
}

// The same for print!.
#[derive(Clone, Copy)]
pub struct IdText(pub LockId);

impl fmt::Display for IdText {
    fn fmt<W: fmt::Write>(&self, f: &mut fmt::Formatter<W>) -> fmt::Result {
        for letter in id_text(self.0) {
            f.write_char(char::from(letter))?;
        }
        Ok(())
    }
}
