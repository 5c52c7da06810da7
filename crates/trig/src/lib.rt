// cos, sin, acos and asin of an f32, as R2.9 to R2.13 write them: series in f64 steps, narrowed. The definitions are
// specs/Series.antt and specs/Trig.antt.
#![tactic(auto)]

ghost use Rattle.std.specs.Prelude.{◌≡◌, ◌≤◌};
ghost use Rattle.trig.specs.Series.{series as series_of, series_step, arc as arc_of, arc_step};
ghost use Rattle.trig.specs.Trig.{cos as cos_of, sin as sin_of, acos as acos_of, asin as asin_of, twice_arc};

use floats::choose::abs;
use floats::narrow::{narrow, widen};
use floats::sqrt::sqrt;
use std::f64::consts::{FRAC_PI_2, PI};
use words::floats::Float;

// One turn of the cosine's series at S = 1, of the sine's at S = 0.
#[tactic(auto, unfolding(crate::specs::Series::series_step))]
fn series_step<const S: u32>(z: f64, m: u32, q: f64) -> f64
    requires s_bound { S ≤ 1 }
    requires le_m { 1 ≤ m }
    requires m_bound { m ≤ 20 }
    ensures { result ≡ series_step S z m q }
{
    let divisor = f64::from((2 * m - S) * (2 * m + 1 - S));
    1.0 - z / divisor * q
}

// The cosine's series at S = 1, the sine's at S = 0, of the squared argument.
#[tactic(auto, using(crate::proofs::Turns::turning), unfolding(crate::specs::Series::series))]
fn series<const S: u32>(z: f64) -> f64
    requires { S ≤ 1 }
    ensures { result ≡ series_of S z }
{
    let mut q = 1.0;
    for m in (1..=20).rev() {
        q = series_step::<S>(z, m, q);
    }
    q
}

// One turn of K's series.
#[tactic(auto, unfolding(crate::specs::Series::arc_step))]
fn arc_step(z: f64, m: u32, p: f64) -> f64
    requires le_m { 1 ≤ m }
    requires m_bound { m ≤ 16 }
    ensures { result ≡ arc_step z m p }
{
    let odd = f64::from((2 * m - 1) * (2 * m - 1));
    let divisor = f64::from(2 * m * (2 * m + 1));
    1.0 + p * (z * odd / divisor)
}

// K, the arc's series.
#[tactic(auto, using(crate::proofs::Turns::turning), unfolding(crate::specs::Series::arc))]
fn arc(x: f64) -> f64
    ensures { result ≡ arc_of x }
{
    let z = x * x;
    let mut p = 1.0;
    for m in (1..=16).rev() {
        p = arc_step(z, m, p);
    }
    x * p
}

// 2 K(sqrt((1 - y) / 2)).
#[tactic(auto, unfolding(crate::specs::Trig::twice_arc))]
fn twice_arc(y: f64) -> f64
    ensures { result ≡ twice_arc y }
{
    2.0 * arc(sqrt((1.0 - y) / 2.0))
}

// The cosine of x, and NaN beyond 8 on either side.
#[tactic(auto, using(crate::proofs::Cases::turns_cases))]
pub fn cos(x: f32) -> f32
    ensures { result ≡ cos_of x }
{
    if abs(x) <= 8.0 {
        let wide = widen(x);
        narrow(series::<1>(wide * wide))
    } else {
        f32::NAN
    }
}

// The sine of x, likewise. Two functions, as the Rust has: the series differ, and the sine has the factor x.
#[tactic(auto, using(crate::proofs::Cases::turns_cases))]
pub fn sin(x: f32) -> f32
    ensures { result ≡ sin_of x }
{
    if abs(x) <= 8.0 {
        let wide = widen(x);
        narrow(wide * series::<0>(wide * wide))
    } else {
        f32::NAN
    }
}

// The arc whose cosine is x, and NaN beyond 1 on either side. Cones are often a point, a half or a whole sphere, whose
// arcs are known; a quarter turn's cosine is rounded to -4.3711388e-8.
#[tactic(auto, using(crate::proofs::KnownArcs::known))]
pub fn acos(x: f32) -> f32
    ensures { result ≡ acos_of x }
{
    match x.word() {
        0x3f80_0000 => 0.0,
        0xbf80_0000 => std::f32::consts::PI,
        0 | 0xb33b_bd2e => std::f32::consts::FRAC_PI_2,
        _ => acos_steps(x),
    }
}

// The same for every argument.
#[tactic(auto, using(crate::proofs::Cases::arc_cases))]
fn acos_steps(x: f32) -> f32
    ensures { result ≡ acos_of x }
{
    let size = abs(x);
    if size <= 1.0 {
        let wide = widen(x);
        if size <= 0.5 {
            return narrow(FRAC_PI_2 - arc(wide));
        }
        if x > 0.5 {
            return narrow(twice_arc(wide));
        }
        narrow(PI - twice_arc(-wide))
    } else {
        f32::NAN
    }
}

// The arc whose sine is x, and NaN beyond 1 on either side. Directions are often the same, and then the arc between
// them is of 0.
#[tactic(auto, using(crate::proofs::KnownArcs::known))]
pub fn asin(x: f32) -> f32
    ensures { result ≡ asin_of x }
{
    if x.word() == 0 {
        return 0.0;
    }
    asin_steps(x)
}

// The same for every argument.
#[tactic(auto, using(crate::proofs::Cases::arc_cases))]
fn asin_steps(x: f32) -> f32
    ensures { result ≡ asin_of x }
{
    let size = abs(x);
    if size <= 1.0 {
        if size <= 0.5 {
            return narrow(arc(widen(x)));
        }
        let magnitude = FRAC_PI_2 - twice_arc(widen(size));
        if x < 0.0 {
            return narrow(-magnitude);
        }
        narrow(magnitude)
    } else {
        f32::NAN
    }
}
