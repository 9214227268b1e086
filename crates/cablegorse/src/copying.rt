// Bytes copied into a lent buffer.
// SPDX-License-Identifier: Apache-2.0
ghost use Rattle.std.specs.Prelude.{◌≡◌, ◌≤◌, ◌++◌, length, take, drop};

// All of one slice to the start of the other; how many bytes that were.
pub(crate) fn copy(from: &[u8], out: &mut [u8]) -> usize
    requires { length from.now ≤ length out.old }
    ensures count { result ≡ length from.now }
    ensures written { out.new ≡ take (length from.now) from.now ++ drop (length from.now) out.old }
{
    let n = from.len();
    out[..n].copy_from_slice(from);
    n
}
