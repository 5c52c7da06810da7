// Vectors of three f32, by value (specs/Vecmath.antt). Sums run left to right, each step rounded once. They are free
// functions under the Rust's names, and no `Add` or `Sub`, which it has not.
ghost use Rattle.words.specs.Answers.{answered};
ghost use Rattle.std.specs.Prelude.{◌≡◌};
ghost use Rattle.std.specs.Float.Ieee.Scale.{finite};
ghost use Rattle.light_bounds.specs.Vecmath.{dividing, divided, divisor, normalize_by_division, dot as dot_of};
ghost use Rattle.light_bounds.specs.Vecmath.{cross as cross_of, plus, minus, scaled};
ghost use Rattle.light_bounds.specs.Vecmath.{normalize as normalize_of, finite_vec};
ghost use Rattle.light_bounds.specs.Vecmath.{rotate as rotate_of, angle_between, vec_length};

use floats::sqrt::sqrt as root;
use std::f32::consts::PI;
use trig::{asin, cos, sin};
use words::refusals::Refusal;

#[derive(Clone, Copy)]
pub struct Vec3 {
    pub x: f32,
    pub y: f32,
    pub z: f32,
}

// The direction of a record that has none of its own.
pub const Z_AXIS: Vec3 = Vec3 {
    x: 0.0,
    y: 0.0,
    z: 1.0,
};

// By a name, since its promise is the definition's `finite`.
pub fn is_finite(x: f32) -> bool
    ensures { result ≡ finite x }
{
    x.is_finite()
}

pub fn is_finite_vec(v: Vec3) -> bool
    ensures { result ≡ finite_vec v }
{
    is_finite(v.x) && (is_finite(v.y) && is_finite(v.z))
}

#[tactic(auto, unfolding(crate::specs::Vecmath::dot))]
pub fn dot(a: Vec3, b: Vec3) -> f32
    ensures { result ≡ dot_of a b }
{
    a.x * b.x + a.y * b.y + a.z * b.z
}

pub fn add(a: Vec3, b: Vec3) -> Vec3
    ensures { result ≡ plus a b }
{
    by_axis(a, b, |x, y| x + y)
}

pub fn sub(a: Vec3, b: Vec3) -> Vec3
    ensures { result ≡ minus a b }
{
    by_axis(a, b, |x, y| x - y)
}

// What f makes of each axis.
pub(crate) fn by_axis<F: Fn(f32, f32) -> f32>(a: Vec3, b: Vec3, f: F) -> Vec3
    requires { F.IsAlwaysCallable f }
    ensures x { F.post f a.x b.x result.x }
    ensures y { F.post f a.y b.y result.y }
    ensures z { F.post f a.z b.z result.z }
{
    Vec3 {
        x: f(a.x, b.x),
        y: f(a.y, b.y),
        z: f(a.z, b.z),
    }
}

#[tactic(auto, unfolding(crate::specs::Vecmath::cross))]
pub fn cross(a: Vec3, b: Vec3) -> Vec3
    ensures { result ≡ cross_of a b }
{
    Vec3 {
        x: a.y * b.z - a.z * b.y,
        y: a.z * b.x - a.x * b.z,
        z: a.x * b.y - a.y * b.x,
    }
}

// This and `divide_vector` are written out: for `by_axis` a vector of one number three times would be made first.
pub fn scale_vector(v: Vec3, scale: f32) -> Vec3
    ensures { result ≡ scaled v scale }
{
    Vec3 {
        x: v.x * scale,
        y: v.y * scale,
        z: v.z * scale,
    }
}

#[tactic(auto, unfolding(crate::specs::Vecmath::divided))]
pub fn divide_vector(v: Vec3, divisor: f32) -> Vec3
    ensures { result ≡ divided v divisor }
{
    Vec3 {
        x: v.x / divisor,
        y: v.y / divisor,
        z: v.z / divisor,
    }
}

#[tactic(auto, unfolding(crate::specs::Vecmath::vec_length))]
pub fn length(v: Vec3) -> f32
    ensures { result ≡ vec_length v }
{
    root(dot(v, v))
}

// By the reciprocal of the length; `normalize_by_division` is the packed file's.
pub fn normalize(v: Vec3) -> Result<Vec3, Refusal>
    ensures { answered result ≡ normalize_of v }
{
    Ok(scale_vector(v, 1.0 / divisor(v)?))
}

// By the length itself, as the packed file has it.
pub fn normalize_by_division(v: Vec3) -> Result<Vec3, Refusal>
    ensures { answered result ≡ normalize_by_division v }
{
    Ok(divide_vector(v, divisor(v)?))
}

// The length, where it can be divided by.
fn divisor(v: Vec3) -> Result<f32, Refusal>
    ensures { answered result ≡ divisor v }
{
    let l = length(v);
    if divides(l) {
        return Ok(l);
    }
    Err(Refusal::NoDirection)
}

// Whether a length can be divided by: it is finite and not 0.
pub fn divides(length: f32) -> bool
    ensures { result ≡ dividing length }
{
    is_finite(length) && length != 0.0
}

pub fn rotate(v: Vec3, axis: Vec3, angle: f32) -> Vec3
    ensures { result ≡ rotate_of v axis angle }
{
    let s = sin(angle);
    let c = cos(angle);
    add(
        add(scale_vector(v, c), scale_vector(cross(axis, v), s)),
        scale_vector(axis, dot(axis, v) * (1.0 - c)),
    )
}

pub fn angle_between(a: Vec3, b: Vec3) -> f32
    ensures { result ≡ angle_between a b }
{
    if dot(a, b) < 0.0 {
        PI - 2.0 * asin(length(add(a, b)) / 2.0)
    } else {
        2.0 * asin(length(sub(b, a)) / 2.0)
    }
}
