// Numbers in bytes: readers and writers at an offset of a slice.
// SPDX-License-Identifier: Apache-2.0
ghost use Rattle.std.specs.Prelude.{◌≡◌, ◌+◌, ◌≤◌, length};
ghost use Rattle.records.specs.Numbers.{field, little, big, bytes_of, part, splice};

fn bytes_at<const N: usize>(s: &[u8], at: usize) -> [u8; N]
    requires { at + N ≤ length s.now }
    ensures { result ≡ part s.now at N }
{
    let mut bytes = [0; N];
    bytes.copy_from_slice(&s[at..at + N]);
    bytes
}

// The widths stay four readers and four writers of a line each: std's `from_le_bytes` and `to_le_bytes` belong to no trait, so
// one generic pair would need a trait of ours whose four impls hold these same lines.
pub(crate) fn u8_at(s: &[u8], at: usize) -> u8
    requires { at + 1 ≤ length s.now }
    ensures { result ≡ field (little 1) s.now at }
{
    s[at]
}

pub(crate) fn u16_at(s: &[u8], at: usize) -> u16
    requires { at + 2 ≤ length s.now }
    ensures { result ≡ field (little 2) s.now at }
{
    u16::from_le_bytes(bytes_at(s, at))
}

pub(crate) fn u32_at(s: &[u8], at: usize) -> u32
    requires { at + 4 ≤ length s.now }
    ensures { result ≡ field (little 4) s.now at }
{
    u32::from_le_bytes(bytes_at(s, at))
}

pub(crate) fn u64_at(s: &[u8], at: usize) -> u64
    requires { at + 8 ≤ length s.now }
    ensures { result ≡ field (little 8) s.now at }
{
    u64::from_le_bytes(bytes_at(s, at))
}

// Ids are read most significant byte first, in two halves.
pub(crate) fn big64_at(s: &[u8], at: usize) -> u64
    requires { at + 8 ≤ length s.now }
    ensures { result ≡ field (big 8) s.now at }
{
    u64::from_be_bytes(bytes_at(s, at))
}

fn put(out: &mut [u8], at: usize, bytes: &[u8])
    requires { at + length bytes.now ≤ length out.old }
    ensures { out.new ≡ splice out.old at bytes.now }
{
    out[at..at + bytes.len()].copy_from_slice(bytes);
}

pub(crate) fn put_u8(out: &mut [u8], at: usize, v: u8)
    requires { at + 1 ≤ length out.old }
    ensures { out.new ≡ splice out.old at (bytes_of (little 1) v) }
{
    out[at] = v;
}

pub(crate) fn put_u16(out: &mut [u8], at: usize, v: u16)
    requires { at + 2 ≤ length out.old }
    ensures { out.new ≡ splice out.old at (bytes_of (little 2) v) }
{
    put(out, at, &u16::to_le_bytes(v));
}

pub(crate) fn put_u32(out: &mut [u8], at: usize, v: u32)
    requires { at + 4 ≤ length out.old }
    ensures { out.new ≡ splice out.old at (bytes_of (little 4) v) }
{
    put(out, at, &u32::to_le_bytes(v));
}

pub(crate) fn put_u64(out: &mut [u8], at: usize, v: u64)
    requires { at + 8 ≤ length out.old }
    ensures { out.new ≡ splice out.old at (bytes_of (little 8) v) }
{
    put(out, at, &u64::to_le_bytes(v));
}

pub(crate) fn put_big64(out: &mut [u8], at: usize, v: u64)
    requires { at + 8 ≤ length out.old }
    ensures { out.new ≡ splice out.old at (bytes_of (big 8) v) }
{
    put(out, at, &u64::to_be_bytes(v));
}
