// Boxes (specs/Bounds.antt).
ghost use Rattle.words.specs.Answers.{answered};
ghost use Rattle.std.specs.Prelude.{◌≡◌};
ghost use Rattle.light_bounds.specs.Bounds.{box_check, finite_box, inverted};
ghost use Rattle.light_bounds.specs.Bounds.{box_union, diagonal as diagonal_of, centroid as centroid_of};
ghost use Rattle.light_bounds.specs.Bounds.{surface_area, least_of, greatest_of};

use super::vecmath::{Vec3, add, by_axis, is_finite_vec, scale_vector, sub};
use floats::choose::{max, min};
use words::refusals::Refusal;

#[derive(Clone, Copy)]
pub struct Bounds3 {
    pub min: Vec3,
    pub max: Vec3,
}

// Every coordinate finite (5), no min above its max (6).
#[tactic(auto, unfolding(crate::specs::Bounds::box_check))]
pub fn check(b: Bounds3) -> Result<(), Refusal>
    ensures { answered result ≡ box_check b }
{
    if !is_finite_box(b) {
        return Err(Refusal::NotFinite);
    }
    if is_inverted(b) {
        return Err(Refusal::Inverted);
    }
    Ok(())
}

fn is_finite_box(b: Bounds3) -> bool
    ensures { result ≡ finite_box b }
{
    is_finite_vec(b.min) && is_finite_vec(b.max)
}

// Whether some min is above its max.
fn is_inverted(b: Bounds3) -> bool
    ensures { result ≡ inverted b }
{
    b.min.x > b.max.x || (b.min.y > b.max.y || b.min.z > b.max.z)
}

// The box around both, axis by axis.
#[tactic(auto, unfolding(crate::specs::Bounds::box_union))]
pub fn union(a: Bounds3, b: Bounds3) -> Bounds3
    ensures { result ≡ box_union a b }
{
    Bounds3 {
        min: lesser(a.min, b.min),
        max: greater(a.max, b.max),
    }
}

// The lesser of each axis, and the greater.
#[tactic(auto, unfolding(crate::specs::Bounds::least_of))]
pub fn lesser(a: Vec3, b: Vec3) -> Vec3
    ensures { result ≡ least_of a b }
{
    by_axis(a, b, min)
}

#[tactic(auto, unfolding(crate::specs::Bounds::greatest_of))]
pub fn greater(a: Vec3, b: Vec3) -> Vec3
    ensures { result ≡ greatest_of a b }
{
    by_axis(a, b, max)
}

pub fn diagonal(b: Bounds3) -> Vec3
    ensures { result ≡ diagonal_of b }
{
    sub(b.max, b.min)
}

#[tactic(auto, unfolding(crate::specs::Bounds::centroid, crate::specs::Vecmath::plus, crate::specs::Vecmath::scaled))]
pub fn centroid(b: Bounds3) -> Vec3
    ensures { result ≡ centroid_of b }
{
    scale_vector(add(b.min, b.max), 0.5)
}

pub fn surface_area(b: Bounds3) -> f32
    ensures { result ≡ surface_area b }
{
    let d = diagonal(b);
    2.0 * (d.x * d.y + d.y * d.z + d.z * d.x)
}
