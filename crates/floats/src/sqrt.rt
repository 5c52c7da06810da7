// Square roots. A pattern's significand is normalised by its leading zeros, so that subnormals take the same way; its
// exponent is made even; the whole root of the digits has digits beyond the format's, and what it leaves over counts as
// one digit more. One rounding makes the result.
ghost use Rattle.std.specs.Prelude.{◌≡◌, ◌+◌, ◌*◌, ◌^◌, ◌≤◌, ◌<◌};
ghost use Rattle.std.specs.Float.{binary32, binary64};
ghost use Rattle.std.specs.Float.Ieee.{of_bits, to_bits};
ghost use Rattle.std.specs.Float.Ieee.Nearest.{closest};
ghost use Rattle.ieee.specs.Sqrt.{sqrt as rooted, root_of};
ghost use Rattle.ieee.specs.Laws.SqrtWords.{sticky};

use super::root::Digits;
use super::shift::shifted_to_even;
use words::floats::Float;

// A format of floats whose roots are taken here.
pub trait Root: Float {
    // The word of the root.
    fn root_word(self) -> Self::Word
        ensures word { Self.number result ≡ to_bits Self.format (rooted Self.format (Self.value self)) }
        ensures read { of_bits Self.format (Self.number result) ≡ rooted Self.format (Self.value self) };
}

#[tactic(auto, using(crate::proofs::WordLaws::backs))]
impl Root for f32 {
    fn root_word(self) -> u32
        ensures word { result ≡ to_bits binary32 (rooted binary32 self) }
        ensures read { of_bits binary32 result ≡ rooted binary32 self }
    {
        root_word(self.word())
    }
}

#[tactic(auto, using(crate::proofs::WordLaws::backs))]
impl Root for f64 {
    fn root_word(self) -> u64
        ensures word { result ≡ to_bits binary64 (rooted binary64 self) }
        ensures read { of_bits binary64 result ≡ rooted binary64 self }
    {
        sqrt64_word(self.word())
    }
}

// The root of x: the nearest float, ties to even; of -0, -0; below zero or NaN, NaN; of infinity, infinity.
pub fn sqrt<F: Root>(x: F) -> F
    ensures { F.value result ≡ rooted F.format (F.value x) }
{
    F::of_word(x.root_word())
}

// The pattern of the root of a pattern's value. Lengths and cosines are often 1, which is its own root.
#[tactic(auto, using(crate::proofs::WordLaws::roots))]
fn root_word(w: u32) -> u32
    ensures { result ≡ to_bits binary32 (rooted binary32 (of_bits binary32 w)) }
{
    if w == 0x3f80_0000 { w } else { sqrt_word(w) }
}

// The same for every pattern.
#[tactic(auto, using(crate::proofs::WordLaws::roots))]
fn sqrt_word(w: u32) -> u32
    ensures { result ≡ to_bits binary32 (rooted binary32 (of_bits binary32 w)) }
{
    // both zeros, and infinity
    if w % 0x8000_0000 == 0 || w == 0x7f80_0000 {
        return w;
    }
    // below zero, or NaN
    if w > 0x7f80_0000 {
        return 0x7fc0_0000;
    }
    // subnormal: the digits as they are, with the exponent of a field of 1
    if w < 0x80_0000 {
        return digits_root(u64::from(w), 151, |x| x.kept_root());
    }
    // normal, as most are: by a float near the root
    digits_root(
        u64::from(0x80_0000 + w % 0x80_0000),
        u64::from(w / 0x80_0000 + 150),
        |x| x.nearest_root(),
    )
}

// The same at 64 bits. It is a function of its own because the two take roots by other ways: at 32 bits an f64 near the
// root mostly settles it, and no float is near enough for the 53 digits of an f64.
#[tactic(auto, using(crate::proofs::WordLaws::roots))]
fn sqrt64_word(w: u64) -> u64
    ensures { result ≡ to_bits binary64 (rooted binary64 (of_bits binary64 w)) }
{
    if w % 0x8000_0000_0000_0000 == 0 || w == 0x7ff0_0000_0000_0000 {
        return w;
    }
    if w > 0x7ff0_0000_0000_0000 {
        return 0x7ff8_0000_0000_0000;
    }
    if w < 0x10_0000_0000_0000 {
        return digits_root64(w, 1076);
    }
    digits_root64(
        0x10_0000_0000_0000 + w % 0x10_0000_0000_0000,
        w / 0x10_0000_0000_0000 + 1075,
    )
}

// n * 4^half, of digits n.
#[derive(Drop)]
struct Scaled {
    digits: Digits,
    half: u64,
}

// d * 2^e as scaled digits: d is shifted until its leading digit is at place 52, and once more where the exponent is
// then odd.
fn normalised(d: u64, e: u64) -> Scaled
    requires d_nonzero { 0 < d }
    requires d_bound { d < 2 ^ 53 }
    requires le_e { 53 ≤ e }
    ensures half_value { result.digits.n * 4 ^ result.half ≡ d * 2 ^ e }
    ensures half_bound { 2 * result.half ≤ e }
    ensures e_bound { e ≤ 2 * result.half + 53 }
{
    let shift = u64::from(d.leading_zeros() - 11);
    let normal = d << shift;
    let exponent = e - shift;
    let odd = exponent % 2;
    Scaled {
        digits: Digits {
            n: normal << odd,
            normal,
            odd,
        },
        half: exponent / 2,
    }
}

// The pattern of the root of scaled digits in units of 2^-300, by what is kept of the digits' root.
#[tactic(auto, using(crate::proofs::RootLaws::digits))]
fn pattern(s: Scaled, kept: u64) -> u32
    requires half_bound { s.half ≤ 202 }
    requires kept_value { kept ≡ closest (sticky s.digits.n) (2 ^ 4) }
    ensures { result ≡ to_bits binary32 (root_of binary32 150 (s.digits.n * 4 ^ s.half)) }
{
    ((2 + s.half) * 0x80_0000 + kept) as u32
}

// The pattern of the root of d * 2^e units of 2^-300, where `kept` gives what is kept of the root of digits. The
// bounds of d and e are each width's own; 0 < d stands beside them, since a type of it would be taken apart at once.
fn digits_root<F: Fn(Digits) -> u64>(d: u64, e: u64, kept: F) -> u32
    requires d_nonzero { (0 < d) × (d < 2 ^ 24) }
    requires le_e { (151 ≤ e) × (e ≤ 404) }
    requires callable { F.IsAlwaysCallable kept }
    requires kept_value { (x : _) (k : _) → F.post kept x k → k ≡ closest (sticky x.n) (2 ^ 4) }
    ensures { result ≡ to_bits binary32 (root_of binary32 150 (d * 2 ^ e)) }
{
    let s = normalised(d, e);
    let kept = kept(s.digits);
    pattern(s, kept)
}

// The pattern of the root of d * 2^e units of 2^-2150.
fn digits_root64(d: u64, e: u64) -> u64
    requires d_nonzero { (0 < d) × (d < 2 ^ 53) }
    requires le_e { (1076 ≤ e) × (e ≤ 3121) }
    ensures { result ≡ to_bits binary64 (root_of binary64 1075 (d * 2 ^ e)) }
{
    let s = normalised(d, e);
    let half = s.half;
    let kept = shifted_to_even(s.digits.wide_sticky_root(), 2);
    (half - 27) * 0x10_0000_0000_0000 + kept
}
