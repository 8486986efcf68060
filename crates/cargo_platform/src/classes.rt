//! Which bytes names consist of.

ghost use Rattle.std.specs.Prelude.{◌≡◌, ◌≤◌, ◌+◌, length};
ghost use Rattle.cargo_platform.specs.Chars.{is_identifier_start, is_identifier_rest};
ghost use Rattle.cargo_platform.specs.Inside.Looking.{IsRun};

use std::simd::prelude::*;

/// The number of bytes that are compared at once.
pub(crate) const LANES: usize = 16;

const Y: bool = true;

const N: bool = false;

/// Whether each byte is `_`, an ASCII letter or an ASCII digit, in rows of sixteen bytes.
const IDENTIFIER_REST: [bool; 256] = [
    // 0x00
    N, N, N, N, N, N, N, N, N, N, N, N, N, N, N, N,
    // 0x10
    N, N, N, N, N, N, N, N, N, N, N, N, N, N, N, N,
    // 0x20
    N, N, N, N, N, N, N, N, N, N, N, N, N, N, N, N,
    // 0x30
    Y, Y, Y, Y, Y, Y, Y, Y, Y, Y, N, N, N, N, N, N,
    // 0x40
    N, Y, Y, Y, Y, Y, Y, Y, Y, Y, Y, Y, Y, Y, Y, Y,
    // 0x50
    Y, Y, Y, Y, Y, Y, Y, Y, Y, Y, Y, N, N, N, N, Y,
    // 0x60
    N, Y, Y, Y, Y, Y, Y, Y, Y, Y, Y, Y, Y, Y, Y, Y,
    // 0x70
    Y, Y, Y, Y, Y, Y, Y, Y, Y, Y, Y, N, N, N, N, N,
    // 0x80
    N, N, N, N, N, N, N, N, N, N, N, N, N, N, N, N,
    // 0x90
    N, N, N, N, N, N, N, N, N, N, N, N, N, N, N, N,
    // 0xA0
    N, N, N, N, N, N, N, N, N, N, N, N, N, N, N, N,
    // 0xB0
    N, N, N, N, N, N, N, N, N, N, N, N, N, N, N, N,
    // 0xC0
    N, N, N, N, N, N, N, N, N, N, N, N, N, N, N, N,
    // 0xD0
    N, N, N, N, N, N, N, N, N, N, N, N, N, N, N, N,
    // 0xE0
    N, N, N, N, N, N, N, N, N, N, N, N, N, N, N, N,
    // 0xF0
    N, N, N, N, N, N, N, N, N, N, N, N, N, N, N, N,
];

/// Returns whether an identifier may begin with the character.
#[inline(always)]
pub(crate) fn begins_identifier(c: char) -> bool
    ensures { result ≡ is_identifier_start c }
{
    c == '_' || c.is_ascii_alphabetic()
}

/// Returns whether an identifier may contain the byte after its first character.
#[inline(always)]
pub(crate) fn continues_identifier(byte: u8) -> bool
    ensures { result ≡ is_identifier_rest byte }
{
    IDENTIFIER_REST[byte as usize]
}

/// Returns how many of the next `LANES` bytes continue an identifier, up to the first that does not.
#[inline(always)]
pub(crate) fn identifier_run(bytes: &[u8], at: usize) -> usize
    requires { at + LANES ≤ length bytes.now }
    ensures { IsRun is_identifier_rest bytes.now at LANES result }
{
    let lanes = u8x16::from_slice(&bytes[at..]);
    let letters = (lanes | u8x16::splat(0x20)) - u8x16::splat(b'a');
    let digits = lanes - u8x16::splat(b'0');
    let others = letters.simd_ge(u8x16::splat(26))
        & digits.simd_ge(u8x16::splat(10))
        & lanes.simd_ne(u8x16::splat(b'_'));
    let ends = others.to_bitmask();
    if ends == 0 {
        return LANES;
    }
    ends.trailing_zeros() as usize
}
