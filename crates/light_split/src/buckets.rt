// The twelve buckets of an axis (specs/Buckets.antt): filled, joined, and what a side of a cut costs.
ghost use Rattle.std.specs.Prelude.{◌≡◌, Some, None};
ghost use Rattle.std.specs.Float.{binary32};
ghost use Rattle.std.specs.Float.Ieee.{of_bits};
ghost use Rattle.words.specs.Answers.{answered, given, ◌then◌};
ghost use Rattle.light_split.specs.Buckets.{join_to, fill_buckets, empty_buckets, union_range};
ghost use Rattle.light_split.specs.Buckets.{m_omega as m_omega_of, kr as kr_of, evaluate_cost, side_cost};

use super::lights::{N_BUCKETS, bucket_of, component};
use floats::choose::{max, min};
use light_bounds::bounds::{Bounds3, diagonal, surface_area};
use light_bounds::importance::sine;
use light_bounds::light_bounds::{LightBounds, union};
use light_bounds::vecmath::Vec3;
use light_rows::block::light;
use std::f32::consts::PI;
use trig::{acos, cos};
use words::floats::Float;
use words::refusals::Refusal;

// A bucket, None where nothing fell into it, with one more record.
#[tactic(auto, using(words::proofs::AnswerLaws::steps), unfolding(crate::specs::Buckets::join_to))]
pub(crate) fn join_to(
    bucket: Option<LightBounds>,
    bounds: LightBounds,
) -> Result<LightBounds, Refusal>
    ensures { answered result then (λ b. given (Some b)) ≡ join_to bucket bounds }
{
    match bucket {
        Some(existing) => union(existing, bounds),
        None => Ok(bounds),
    }
}

// Each handle's record into the bucket of its centroid.
#[tactic(auto, using(crate::proofs::BucketLaws::fills))]
pub(crate) fn fill_buckets(
    block: &[u32],
    handles: &[u32],
    ends: Bounds3,
    dimension: usize,
) -> Result<[Option<LightBounds>; N_BUCKETS], Refusal>
    ensures { answered result ≡ fill_buckets block.now ends dimension empty_buckets handles.now }
{
    let mut buckets = [None; N_BUCKETS];
    for handle in handles {
        let bucket = bucket_of(block, ends, dimension, *handle);
        buckets[bucket] = Some(join_to(buckets[bucket], light(block, *handle))?);
    }
    Ok(buckets)
}

// The buckets joined from left to right, None where all are empty.
#[tactic(auto, using(crate::proofs::BucketLaws::joins))]
pub(crate) fn union_range(buckets: &[Option<LightBounds>]) -> Result<Option<LightBounds>, Refusal>
    ensures { answered result ≡ union_range None buckets.now }
{
    let mut result = None;
    for bucket in buckets {
        if let Some(bounds) = *bucket {
            result = Some(join_to(result, bounds)?);
        }
    }
    Ok(result)
}

// ---- the cost

#[tactic(auto, unfolding(crate::specs::Buckets::m_omega, light_bounds::specs::Importance::sine))]
fn m_omega(cos_theta_o: f32, cos_theta_e: f32) -> f32
    ensures { result ≡ m_omega_of cos_theta_o cos_theta_e }
{
    let theta_o = acos(cos_theta_o);
    let theta_e = acos(cos_theta_e);
    let theta_w = min(theta_o + theta_e, PI);
    let sin_theta_o = sine(cos_theta_o);
    2.0 * PI * (1.0 - cos_theta_o)
        + PI / 2.0
            * (2.0 * theta_w * sin_theta_o
                - cos(theta_o - 2.0 * theta_w)
                - 2.0 * theta_o * sin_theta_o
                + cos_theta_o)
}

// The longest side over the one that is cut.
#[tactic(auto, unfolding(crate::specs::Buckets::kr))]
fn kr(diagonal: Vec3, dimension: usize) -> f32
    ensures { result ≡ kr_of diagonal dimension }
{
    max(max(max(0.0, diagonal.x), diagonal.y), diagonal.z) / component(diagonal, dimension)
}

// An m_omega that was worked out, and the words of the cosines that it is of.
#[derive(Clone, Copy)]
pub struct Omega {
    pub cosines: (u32, u32),
    pub m_omega: f32,
    ghost right: { m_omega ≡ m_omega_of (of_bits binary32 cosines.0) (of_bits binary32 cosines.1) },
}

// The m_omega of two cosines: the last one, where it is theirs.
fn omega_for(last: &mut Option<Omega>, cos_theta_o: f32, cos_theta_e: f32) -> f32
    ensures { result ≡ m_omega_of cos_theta_o cos_theta_e }
{
    let cosines = (cos_theta_o.word(), cos_theta_e.word());
    if let Some(omega) = *last {
        if omega.cosines == cosines {
            return omega.m_omega;
        }
    }
    let m_omega = m_omega(cos_theta_o, cos_theta_e);
    *last = Some(Omega { cosines, m_omega });
    m_omega
}

// An axis, and the box that is cut along it.
#[derive(Clone, Copy)]
pub(crate) struct Axis {
    pub(crate) parent: Bounds3,
    pub(crate) dimension: usize,
}

impl Axis {
    #[tactic(auto, unfolding(crate::specs::Buckets::evaluate_cost))]
    fn evaluate_cost(self, bounds: LightBounds, last: &mut Option<Omega>) -> f32
        ensures { result ≡ evaluate_cost bounds self.parent self.dimension }
    {
        let sides = diagonal(self.parent);
        if component(sides, self.dimension) == 0.0 {
            return 0.0;
        }
        let m_omega = omega_for(last, bounds.cos_theta_o, bounds.cos_theta_e);
        bounds.phi * m_omega * kr(sides, self.dimension) * surface_area(bounds.bounds)
    }

    // A side with nothing in it costs 0.
    #[tactic(auto, unfolding(crate::specs::Buckets::side_cost))]
    pub(crate) fn side_cost(self, side: Option<LightBounds>, last: &mut Option<Omega>) -> f32
        ensures { result ≡ side_cost self.parent self.dimension side }
    {
        match side {
            Some(bounds) => self.evaluate_cost(bounds, last),
            None => 0.0,
        }
    }
}
