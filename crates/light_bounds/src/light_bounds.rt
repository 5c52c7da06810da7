// Bounds records (specs/LightBounds.antt): the check and the union of pbrt-r4's LightBounds, refusals in its order.
ghost use Rattle.words.specs.Answers.{answered};
ghost use Rattle.std.specs.Prelude.{◌≡◌};
ghost use Rattle.light_bounds.specs.LightBounds.{light_bounds, lamp_record, cone_of, validate as validate_of};
ghost use Rattle.light_bounds.specs.LightBounds.{cone_check};
ghost use Rattle.light_bounds.specs.LightBounds.{finite_cone, range_check, is_cosine};
ghost use Rattle.light_bounds.specs.LightBounds.{are_cosines};
ghost use Rattle.light_bounds.specs.LightBounds.{union as union_of, join as join_of};

use super::bounds::{Bounds3, check, union as box_union};
use super::cones::{Cone, union_direction_cones};
use super::side::{Side, either};
use super::vecmath::{Vec3, dot, is_finite, is_finite_vec};
use floats::choose::min;
use words::refusals::Refusal;

// The figures stay flat, under the Rust's names; `cone` gives two of them as one.
#[derive(Clone, Copy)]
pub struct LightBounds {
    pub bounds: Bounds3,
    pub direction: Vec3,
    pub phi: f32,
    pub cos_theta_o: f32,
    pub cos_theta_e: f32,
    pub side: Side,
}

impl LightBounds {
    // A record is put together here alone; the cone is of the directions that its lights face.
    pub fn new(bounds: Bounds3, cone: Cone, phi: f32, cos_theta_e: f32, side: Side) -> Self
        ensures { result ≡ light_bounds bounds cone.direction phi cone.cos_theta cos_theta_e side }
    {
        let direction = cone.direction;
        LightBounds {
            bounds,
            direction,
            phi,
            cos_theta_o: cone.cos_theta,
            cos_theta_e,
            side,
        }
    }

    // The record of a lamp in a list.
    pub fn of_lamp(bounds: Bounds3, cone: Cone, phi: f32, cos_theta_e: f32, two_sided: bool) -> Self
        ensures { result ≡ lamp_record bounds cone.direction phi cone.cos_theta cos_theta_e two_sided }
    {
        LightBounds::new(bounds, cone, phi, cos_theta_e, Side::from(two_sided))
    }

    // The cone of the directions that its lights face.
    pub fn cone(self) -> Cone
        ensures { result ≡ cone_of self }
    {
        Cone {
            direction: self.direction,
            cos_theta: self.cos_theta_o,
        }
    }
}

// The check: 5 or 6 of the box, 5 of any other value, 7 of a direction without length, 8 of a phi or a cosine out of
// range.
pub fn validate(record: LightBounds) -> Result<(), Refusal>
    ensures { answered result ≡ validate_of «record» }
{
    check(record.bounds)?;
    validate_cone(record)
}

#[tactic(auto, unfolding(crate::specs::LightBounds::cone_check))]
fn validate_cone(record: LightBounds) -> Result<(), Refusal>
    ensures { answered result ≡ cone_check «record» }
{
    if is_finite_cone(record) {
        return validate_range(record);
    }
    Err(Refusal::NotFinite)
}

// Whether every value that is not the box's is finite.
fn is_finite_cone(record: LightBounds) -> bool
    ensures { result ≡ finite_cone «record» }
{
    is_finite_vec(record.direction)
        && (is_finite(record.phi)
            && (is_finite(record.cos_theta_o) && is_finite(record.cos_theta_e)))
}

fn validate_range(record: LightBounds) -> Result<(), Refusal>
    ensures { answered result ≡ range_check «record» }
{
    if dot(record.direction, record.direction) == 0.0 {
        return Err(Refusal::NoDirection);
    }
    if record.phi < 0.0 {
        return Err(Refusal::OutOfRange);
    }
    if are_cosines(record.cos_theta_o, record.cos_theta_e) {
        return Ok(());
    }
    Err(Refusal::OutOfRange)
}

// Whether a cosine lies from -1 to 1. By two tests: the fact of a float range's `contains` is `float_partial_cmp`.
pub fn is_cosine(x: f32) -> bool
    ensures { result ≡ is_cosine x }
{
    -1.0 <= x && x <= 1.0
}

pub fn are_cosines(x: f32, y: f32) -> bool
    ensures { result ≡ are_cosines x y }
{
    is_cosine(x) && is_cosine(y)
}

// ---- union

// The record around both: an operand that fails its check is refusal 10.
pub fn union(a: LightBounds, b: LightBounds) -> Result<LightBounds, Refusal>
    ensures { answered result ≡ union_of a b }
{
    if validate(a).is_err() || validate(b).is_err() {
        return Err(Refusal::LostUnion);
    }
    Ok(join(a, b))
}

// A record of no power drops out whole.
fn join(a: LightBounds, b: LightBounds) -> LightBounds
    ensures { result ≡ join_of a b }
{
    if a.phi == 0.0 {
        return b;
    }
    if b.phi == 0.0 {
        return a;
    }
    LightBounds::new(
        box_union(a.bounds, b.bounds),
        union_direction_cones(a.cone(), b.cone()),
        a.phi + b.phi,
        min(a.cos_theta_e, b.cos_theta_e),
        either(a.side, b.side),
    )
}
