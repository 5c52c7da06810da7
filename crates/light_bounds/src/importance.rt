// The importance of a record for a point and a normal (specs/Importance.antt, specs/AsCoded/Weighing.antt), as
// pbrt-r4's LightBounds has it. A walk weighs many records for one query, so what hangs on the query alone is worked
// out once (`prepare`), and a root that decides nothing is not taken. `weigh_prepared` has one caller in an archive, so
// that the compiler lays it into the walk.
ghost use Rattle.words.specs.Answers.{answered};
ghost use Rattle.std.specs.Prelude.{◌≡◌};
ghost use Rattle.light_bounds.specs.Cones.{cos_sub_clamped};
ghost use Rattle.light_bounds.specs.Importance.{importance as importance_of, finite_query};
ghost use Rattle.light_bounds.specs.Importance.{geometry as geometry_of, toward as toward_of};
ghost use Rattle.light_bounds.specs.Importance.{distance2 as distance2_of};
ghost use Rattle.light_bounds.specs.Importance.{finish, normal_factor, cos_p, cos_w, sine as sine_of};
ghost use Rattle.light_bounds.specs.AsCoded.Views.{seen, viewed};
ghost use Rattle.light_bounds.specs.AsCoded.Weighing.{prepared, finite_point, unit_normal, with_held};
ghost use Rattle.light_bounds.specs.AsCoded.Weighing.{held_importance, weigh_held, is_plain};

use super::bounds::{centroid, diagonal};
use super::cones::{safe_sqrt, subtended};
use super::light_bounds::{LightBounds, validate};
use super::vecmath::{Vec3, dot, is_finite_vec, length, normalize, sub};
use floats::choose::{abs, max};
use words::refusals::Refusal;

// The point that a lamp is weighed for, and its normal; a normal whose dot with itself is 0 is none.
#[derive(Clone, Copy)]
pub struct Query {
    pub p: Vec3,
    pub n: Vec3,
}

// The importance of a record for a query: the check's refusals; 5 where the point or the normal is not finite; 7
// where the point is at the centre of a box of some size, or the normal has no length to divide by.
pub fn importance(record: LightBounds, query: Query) -> Result<f32, Refusal>
    ensures { answered result ≡ importance_of «record» query }
{
    weigh_prepared(record, prepare(query))
}

// ---- the query as a walk holds it

// The point, none where the query is not finite (a record's own refusals come before that), and its normal where there
// is one: at length 1, or why it has no length to divide by.
#[derive(Clone, Copy)]
pub struct Prepared {
    pub p: Option<Vec3>,
    pub normal: Option<Result<Vec3, Refusal>>,
}

#[tactic(auto, unfolding(crate::specs::AsCoded::Weighing::prepared))]
pub fn prepare(query: Query) -> Prepared
    ensures { result ≡ prepared query }
{
    Prepared {
        p: finite_point(query),
        normal: unit_normal(query.n),
    }
}

fn finite_point(query: Query) -> Option<Vec3>
    ensures { result ≡ finite_point query }
{
    if is_finite_query(query) {
        Some(query.p)
    } else {
        None
    }
}

fn is_finite_query(query: Query) -> bool
    ensures { result ≡ finite_query query }
{
    is_finite_vec(query.p) && is_finite_vec(query.n)
}

fn unit_normal(n: Vec3) -> Option<Result<Vec3, Refusal>>
    ensures { result ≡ unit_normal n }
{
    if dot(n, n) == 0.0 {
        return None;
    }
    Some(normalize(n))
}

// ---- weighing

// What a walk weighs a record by.
pub fn weigh_prepared(record: LightBounds, query: Prepared) -> Result<f32, Refusal>
    ensures { answered result ≡ weigh_held «record» query }
{
    validate(record)?;
    weigh_valid(record, query)
}

// Of a record that passed its check.
fn weigh_valid(record: LightBounds, query: Prepared) -> Result<f32, Refusal>
    ensures { answered result ≡ held_importance «record» query.p (with_held query.normal) }
{
    let Some(p) = query.p else {
        return Err(Refusal::NotFinite);
    };
    Ok(finished(record.phi, geometry(record, p, query.normal)?))
}

// How a query sees a record: `Dark` weighs nothing; `Lit` has a cosine and a squared distance, `Facing` the
// normal's factor too.
#[derive(Clone, Copy)]
enum View {
    Dark,
    Lit { cos_p: f32, d2: f32 },
    Facing { cos_p: f32, d2: f32, factor: f32 },
}

// The power enters here alone.
#[tactic(auto, unfolding(crate::specs::Importance::finish))]
fn finished(phi: f32, view: View) -> f32
    ensures { result ≡ finish phi (seen view) }
{
    match view {
        View::Dark => 0.0,
        View::Lit { cos_p, d2 } => max(phi * cos_p / d2, 0.0),
        View::Facing { cos_p, d2, factor } => max(phi * cos_p / d2 * factor, 0.0),
    }
}

fn geometry(
    record: LightBounds,
    p: Vec3,
    normal: Option<Result<Vec3, Refusal>>,
) -> Result<View, Refusal>
    ensures { viewed result ≡ geometry_of «record» p (with_held normal) }
{
    let delta = sub(p, centroid(record.bounds));
    let d2 = distance2(record, delta);
    if d2 <= 0.0 {
        return Ok(View::Dark);
    }
    let wi = normalize(delta)?;
    toward(record, p, normal, d2, wi)
}

// The squared distance to the centre, at least half the diagonal's length. From far enough the length is not
// needed: where the diagonal's square is below that of the squared distance.
fn distance2(record: LightBounds, delta: Vec3) -> f32
    ensures { result ≡ distance2_of «record» delta }
{
    let raw = dot(delta, delta);
    let across = diagonal(record.bounds);
    if dot(across, across) < raw * raw {
        return raw;
    }
    max(raw, length(across) * 0.5)
}

// Without a normal the box's cosine is needed outside the cone alone: inside it the smallest angle is none.
fn toward(
    record: LightBounds,
    p: Vec3,
    normal: Option<Result<Vec3, Refusal>>,
    d2: f32,
    wi: Vec3,
) -> Result<View, Refusal>
    ensures { viewed result ≡ toward_of «record» p (with_held normal) d2 wi }
{
    if is_plain(record, normal, wi) {
        return Ok(View::Lit { cos_p: 1.0, d2 });
    }
    let cos_b = subtended(record.bounds, p, length(diagonal(record.bounds)));
    let cos_p = smallest_angle(record, wi, cos_b);
    if cos_p <= record.cos_theta_e {
        return Ok(View::Dark);
    }
    with_unit(normal, wi, cos_b, cos_p, d2)
}

// Whether there is no normal, the direction is inside the cone, and the cone's edge is not at its axis.
fn is_plain(record: LightBounds, normal: Option<Result<Vec3, Refusal>>, wi: Vec3) -> bool
    ensures { result ≡ is_plain «record» normal wi }
{
    match normal {
        None => record.cos_theta_e < 1.0 && cos_w(record, wi) > record.cos_theta_o,
        Some(_) => false,
    }
}

fn with_unit(
    normal: Option<Result<Vec3, Refusal>>,
    wi: Vec3,
    cos_b: f32,
    cos_p: f32,
    d2: f32,
) -> Result<View, Refusal>
    ensures { viewed result ≡ with_held normal wi cos_b cos_p d2 }
{
    match normal {
        None => Ok(View::Lit { cos_p, d2 }),
        Some(unit) => {
            let factor = facing(dot(wi, unit?), cos_b);
            Ok(View::Facing { cos_p, d2, factor })
        }
    }
}

// ---- angles

// The sine of an angle by its cosine.
#[tactic(auto, unfolding(crate::specs::Importance::sine))]
pub fn sine(c: f32) -> f32
    ensures { result ≡ sine_of c }
{
    safe_sqrt(1.0 - c * c)
}

#[tactic(auto, unfolding(crate::specs::Importance::cos_w))]
fn cos_w(record: LightBounds, wi: Vec3) -> f32
    ensures { result ≡ cos_w «record» wi }
{
    let c = dot(record.direction, wi);
    if record.side.two_sided { abs(c) } else { c }
}

// The cosine of the smallest angle between the cone's directions and the box's. A sine is taken only where the
// angle it belongs to is not cut to 0.
fn smallest_angle(record: LightBounds, wi: Vec3, cos_b: f32) -> f32
    ensures { result ≡ cos_p «record» wi cos_b }
{
    let w = cos_w(record, wi);
    let o = record.cos_theta_o;
    if w > o {
        return less_the_box(0.0, 1.0, cos_b);
    }
    let sin_w = sine(w);
    let sin_o = sine(o);
    less_the_box(sin_w * o - w * sin_o, w * o + sin_w * sin_o, cos_b)
}

// The cosine of an angle less the box's.
#[tactic(auto, unfolding(crate::specs::Cones::cos_sub_clamped))]
fn less_the_box(sin_x: f32, cos_x: f32, cos_b: f32) -> f32
    ensures { result ≡ cos_sub_clamped sin_x cos_x (sine_of cos_b) cos_b }
{
    if cos_x > cos_b {
        1.0
    } else {
        cos_x * cos_b + sin_x * sine(cos_b)
    }
}

// The normal's factor, by the cosine between it and the direction: the same steps, but that the first sine too is taken
// only where it is needed. Not `less_the_box` with a closure for it: a closure that is not called promises no value.
fn facing(c: f32, cos_b: f32) -> f32
    ensures { result ≡ normal_factor c cos_b }
{
    let i = abs(c);
    if i > cos_b {
        1.0
    } else {
        i * cos_b + sine(i) * sine(cos_b)
    }
}
