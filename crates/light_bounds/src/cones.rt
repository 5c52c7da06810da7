// Cones of directions (specs/Cones.antt).
ghost use Rattle.words.specs.Answers.{answered};
ghost use Rattle.std.specs.Prelude.{◌≡◌};
ghost use Rattle.light_bounds.specs.Bounds.{diagonal as diagonal_of};
ghost use Rattle.light_bounds.specs.Vecmath.{vec_length};
ghost use Rattle.light_bounds.specs.Cones.{safe_sqrt, bound_subtended_directions, union_direction_cones};
ghost use Rattle.light_bounds.specs.Cones.{axis_or, joined};

use super::bounds::{Bounds3, centroid};
use super::vecmath::{Vec3, Z_AXIS, angle_between, cross, dot, normalize, rotate, sub};
use floats::choose::{clamp, max, min};
use floats::sqrt::sqrt as root;
use std::f32::consts::PI;
use trig::{acos, cos};
use words::floats::Float;
use words::refusals::Refusal;

// The directions within an angle of one, by its cosine.
#[derive(Clone, Copy)]
pub struct Cone {
    pub direction: Vec3,
    pub cos_theta: f32,
}

// Every direction.
pub const EVERYWHERE: Cone = Cone {
    direction: Z_AXIS,
    cos_theta: -1.0,
};

#[tactic(auto, unfolding(crate::specs::Cones::safe_sqrt))]
pub fn safe_sqrt(value: f32) -> f32
    ensures { result ≡ safe_sqrt value }
{
    root(max(value, 0.0))
}

// The cosine of the angle under which a box is seen from p, -1 inside its ball; the diagonal's length is at hand.
pub(crate) fn subtended(bounds: Bounds3, p: Vec3, diagonal_length: f32) -> f32
    requires { diagonal_length ≡ vec_length (diagonal_of bounds) }
    ensures { result ≡ bound_subtended_directions bounds p }
{
    let radius = 0.5 * diagonal_length;
    let to_center = sub(centroid(bounds), p);
    let d2 = dot(to_center, to_center);
    if d2 < radius * radius {
        return -1.0;
    }
    if d2 == 0.0 {
        return -1.0;
    }
    safe_sqrt(1.0 - radius * radius / d2)
}

// The cone around both cones. One of all directions holds any other.
pub fn union_direction_cones(a: Cone, b: Cone) -> Cone
    ensures { result ≡ union_direction_cones a.direction a.cos_theta b.direction b.cos_theta }
{
    if a.cos_theta.word() == 0xbf80_0000 {
        return a;
    }
    union_by_angles(a, b)
}

fn union_by_angles(a: Cone, b: Cone) -> Cone
    ensures { result ≡ union_direction_cones a.direction a.cos_theta b.direction b.cos_theta }
{
    let theta_a = acos(clamp(a.cos_theta, -1.0, 1.0));
    let theta_b = acos(clamp(b.cos_theta, -1.0, 1.0));
    let theta_d = angle_between(a.direction, b.direction);
    if min(theta_d + theta_b, PI) <= theta_a {
        return a;
    }
    if min(theta_d + theta_a, PI) <= theta_b {
        return b;
    }
    join(
        a.direction,
        b.direction,
        theta_a,
        (theta_a + theta_d + theta_b) * 0.5,
    )
}

// The cone of half the angle theta_o, from a's far side to b's: every direction where that is half a turn or more, or
// the axes are parallel.
fn join(a: Vec3, b: Vec3, theta_a: f32, theta_o: f32) -> Cone
    ensures { result ≡ joined a b theta_a theta_o }
{
    if theta_o >= PI {
        return EVERYWHERE;
    }
    let axis = cross(a, b);
    if dot(axis, axis) == 0.0 {
        return EVERYWHERE;
    }
    Cone {
        direction: rotate(a, unit_or_z(normalize(axis)), theta_o - theta_a),
        cos_theta: cos(theta_o),
    }
}

fn unit_or_z(unit: Result<Vec3, Refusal>) -> Vec3
    ensures { result ≡ axis_or (answered unit) }
{
    unit.unwrap_or(Z_AXIS)
}
