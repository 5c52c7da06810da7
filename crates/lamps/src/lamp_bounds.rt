// The bounds of one lamp (specs/LampBounds.antt): `light_bounds_for_input` of pbrt-r4's light_bounds.rs.
ghost use Rattle.std.specs.Prelude.{◌≡◌, ◌/◌, ◌≤◌, length};
ghost use Rattle.words.specs.Answers.{given, ◌then◌, answered};
ghost use Rattle.lamps.specs.LampList.{triangle_words};
ghost use Rattle.lamps.specs.LampBounds.{light_bounds_for_input, emission_bad, validate_emission};
ghost use Rattle.lamps.specs.LampBounds.{checked as checked_of, point_box, point_phi};
ghost use Rattle.lamps.specs.LampBounds.{point_bounds, too_narrow, falloff as falloff_of, spot_bounds};
ghost use Rattle.lamps.specs.LampBounds.{triangle_at, triangle_bounds, no_area};
ghost use Rattle.lamps.specs.LampBounds.{triangle_record, group_phi, join_next, union_from};
ghost use Rattle.lamps.specs.LampBounds.{group_bounds, spot_record, faced_record};

use super::lamp_list::{Lamp, TRIANGLE_WORDS};
use light_bounds::bounds::{Bounds3, check, greater, lesser};
use light_bounds::cones::{Cone, EVERYWHERE};
use light_bounds::light_bounds::{LightBounds, are_cosines, union, validate};
use light_bounds::vecmath::{Vec3, is_finite, is_finite_vec, normalize};
use light_rows::record_words::vec_at;
use std::f32::consts::PI;
use trig::{acos, cos};
use words::floats::Float;
use words::refusals::Refusal;

// The cosine of half π as f32 has it, b33bbd2e (proofs/LampBoundsLaws.antt computes it).
const COS_HALF_PI: f32 = -0.00000004371139;

#[derive(Clone, Copy)]
pub struct AreaTriangleInput {
    pub a: Vec3,
    pub b: Vec3,
    pub c: Vec3,
    pub area: f32,
    pub geometric_normal: Vec3,
}

// What a lamp sends out: the greatest of its values, and the scale on them. In `Lamp` these stay flat, under the Rust's
// names (`LightBoundInput`), so each kind gathers its own.
#[derive(Clone, Copy)]
struct Emission {
    max: f32,
    scale: f32,
}

// A group without its triangles.
#[derive(Clone, Copy)]
struct Group {
    emission: Emission,
    two_sided: bool,
}

// The bounds of a lamp; a group's triangles stand beside it, and are not looked at for a point or a spot.
pub fn light_bounds_for_input(lamp: Lamp, triangles: &[u32]) -> Result<LightBounds, Refusal>
    ensures { answered result ≡ light_bounds_for_input lamp triangles.now }
{
    match lamp {
        Lamp::Point {
            world_position,
            intensity_max,
            scale,
            ..
        } => {
            let emission = Emission {
                max: intensity_max,
                scale,
            };
            point_bounds(world_position, emission)
        }
        Lamp::Spot {
            world_position,
            direction,
            intensity_max,
            scale,
            cos_theta_o,
            cos_falloff_end,
            ..
        } => {
            let emission = Emission {
                max: intensity_max,
                scale,
            };
            let cone = Cone {
                direction,
                cos_theta: cos_theta_o,
            };
            spot_bounds(world_position, cone, emission, cos_falloff_end)
        }
        Lamp::AreaGroup {
            emission_max,
            scale,
            two_sided,
            ..
        } => {
            let emission = Emission {
                max: emission_max,
                scale,
            };
            let group = Group {
                emission,
                two_sided,
            };
            group.bounds(triangles)
        }
    }
}

impl Emission {
    fn validate(self) -> Result<(), Refusal>
        ensures { answered result ≡ validate_emission self.max self.scale }
    {
        if self.is_bad() {
            return Err(Refusal::OutOfRange);
        }
        Ok(())
    }

    fn is_bad(self) -> bool
        ensures { result ≡ emission_bad self.max self.scale }
    {
        !is_finite(self.max) || !is_finite(self.scale) || self.max < 0.0 || self.scale < 0.0
    }

    // The power of a point or a spot.
    fn point_phi(self) -> f32
        ensures { result ≡ point_phi self.max self.scale }
    {
        4.0 * PI * self.scale * self.max
    }

    // The power of a triangle.
    fn group_phi(self, area: f32) -> f32
        ensures { result ≡ group_phi self.max self.scale area }
    {
        self.max * self.scale * area * PI
    }
}

// A record that passes its own check.
fn checked(record: LightBounds) -> Result<LightBounds, Refusal>
    ensures { answered result ≡ checked_of «record» }
{
    validate(record)?;
    Ok(record)
}

// ---- points and spots

fn point_box(position: Vec3) -> Bounds3
    ensures { result ≡ point_box position }
{
    Bounds3 {
        min: position,
        max: position,
    }
}

fn point_bounds(position: Vec3, intensity: Emission) -> Result<LightBounds, Refusal>
    ensures { answered result ≡ point_bounds position intensity.max intensity.scale }
{
    intensity.validate()?;
    let bounds = point_box(position);
    check(bounds)?;
    checked(LightBounds::of_lamp(
        bounds,
        EVERYWHERE,
        intensity.point_phi(),
        COS_HALF_PI,
        false,
    ))
}

// The cosine of the falloff's angle; where that rounds to 1 and there is a falloff, 0.999.
fn falloff(cos_theta_o: f32, cos_falloff_end: f32) -> f32
    ensures { result ≡ falloff_of cos_theta_o cos_falloff_end }
{
    let cos_theta_e = cos(acos(cos_falloff_end) - acos(cos_theta_o));
    if too_narrow(cos_theta_e, cos_theta_o, cos_falloff_end) {
        return 0.999;
    }
    cos_theta_e
}

fn too_narrow(cos_theta_e: f32, cos_theta_o: f32, cos_falloff_end: f32) -> bool
    ensures { result ≡ too_narrow cos_theta_e cos_theta_o cos_falloff_end }
{
    cos_theta_e == 1.0 && cos_theta_o != cos_falloff_end
}

// The cone is the inner one; the light falls off from there to the outer cosine.
fn spot_bounds(
    position: Vec3,
    cone: Cone,
    intensity: Emission,
    cos_falloff_end: f32,
) -> Result<LightBounds, Refusal>
    ensures { answered result ≡
        spot_bounds position cone.direction intensity.max intensity.scale cone.cos_theta cos_falloff_end }
{
    intensity.validate()?;
    if are_cosines(cone.cos_theta, cos_falloff_end) {
        return spot_record(position, cone, intensity.point_phi(), cos_falloff_end);
    }
    Err(Refusal::OutOfRange)
}

// Box, direction, record.
fn spot_record(
    position: Vec3,
    cone: Cone,
    phi: f32,
    cos_falloff_end: f32,
) -> Result<LightBounds, Refusal>
    ensures { answered result ≡ spot_record position cone.direction phi cone.cos_theta cos_falloff_end }
{
    let bounds = point_box(position);
    check(bounds)?;
    let direction = normalize(cone.direction)?;
    let cos_theta = cone.cos_theta;
    let unit_cone = Cone {
        direction,
        cos_theta,
    };
    checked(LightBounds::of_lamp(
        bounds,
        unit_cone,
        phi,
        falloff(cos_theta, cos_falloff_end),
        false,
    ))
}

// ---- groups

// The triangle at the front of some words.
fn triangle_at(words: &[u32]) -> AreaTriangleInput
    requires { triangle_words ≤ length words.now }
    ensures { result ≡ triangle_at words.now 0 }
{
    AreaTriangleInput {
        a: vec_at(words, 0),
        b: vec_at(words, 3),
        c: vec_at(words, 6),
        area: f32::of_word(words[9]),
        geometric_normal: vec_at(words, 10),
    }
}

// A NaN coordinate stays only where all three vertices have it.
fn triangle_bounds(t: AreaTriangleInput) -> Bounds3
    ensures { result ≡ triangle_bounds t }
{
    Bounds3 {
        min: lesser(lesser(t.a, t.b), t.c),
        max: greater(greater(t.a, t.b), t.c),
    }
}

fn has_no_area(area: f32) -> bool
    ensures { result ≡ no_area area }
{
    !is_finite(area) || area <= 0.0
}

fn faced_record(
    bounds: Bounds3,
    normal: Vec3,
    phi: f32,
    two_sided: bool,
) -> Result<LightBounds, Refusal>
    ensures { answered result ≡ faced_record bounds normal phi two_sided }
{
    let direction = normalize(normal)?;
    if is_finite_vec(direction) {
        let cone = Cone {
            direction,
            cos_theta: 1.0,
        };
        return checked(LightBounds::of_lamp(bounds, cone, phi, COS_HALF_PI, two_sided));
    }
    Err(Refusal::NoDirection)
}

impl Group {
    // Box, area, normal, the normalised normal, record.
    fn triangle_record(self, t: AreaTriangleInput) -> Result<LightBounds, Refusal>
        ensures { answered result ≡ triangle_record self.emission.max self.emission.scale self.two_sided t }
    {
        let bounds = triangle_bounds(t);
        check(bounds)?;
        if has_no_area(t.area) {
            return Err(Refusal::NoArea);
        }
        faced_record(
            bounds,
            t.geometric_normal,
            self.emission.group_phi(t.area),
            self.two_sided,
        )
    }

    // The record around what there is and the next triangle.
    fn grown(self, existing: LightBounds, t: AreaTriangleInput) -> Result<LightBounds, Refusal>
        ensures { answered result ≡ triangle_record self.emission.max self.emission.scale self.two_sided t
            then join_next (given existing) }
    {
        let current = self.triangle_record(t)?;
        union(existing, current)
    }

    // The triangles behind the first in a union with it.
    fn union_rest(self, first: LightBounds, rest: &[u32]) -> Result<LightBounds, Refusal>
        ensures { answered result ≡ union_from self.emission.max self.emission.scale self.two_sided rest.now 0
            (length rest.now / triangle_words) (given first) }
    {
        let mut result = first;
        for words in rest.chunks_exact(TRIANGLE_WORDS) {
            result = self.grown(result, triangle_at(words))?;
        }
        Ok(result)
    }

    fn bounds(self, triangles: &[u32]) -> Result<LightBounds, Refusal>
        ensures { answered result ≡
            group_bounds self.emission.max self.emission.scale self.two_sided triangles.now }
    {
        self.emission.validate()?;
        if triangles.len() < TRIANGLE_WORDS {
            return Err(Refusal::NoArea);
        }
        let first = self.triangle_record(triangle_at(triangles))?;
        self.union_rest(first, &triangles[TRIANGLE_WORDS..])
    }
}
