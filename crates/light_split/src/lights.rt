// The records that a stretch of handles names (specs/Lights.antt).
ghost use Rattle.std.specs.Prelude.{◌≡◌, ◌<◌};
ghost use Rattle.light_split.specs.Lights.{component as component_of, no_ends, widen as widen_of, centroid_ends};
ghost use Rattle.light_split.specs.Lights.{bucket_index, bucket_of, n_buckets};

use floats::whole::to_usize;
use light_bounds::bounds::{Bounds3, centroid, union};
use light_bounds::vecmath::Vec3;
use light_rows::block::light_box;

// Buckets along an axis.
pub const N_BUCKETS: usize = 12;

// A vector's figure along an axis. An axis is a number, since the definitions (component, bucket_of, cuts, Split) take
// it as one, as the Rust indexes a vector by it: each of them would need an enum's number.
#[tactic(auto, unfolding(crate::specs::Lights::component))]
pub fn component(v: Vec3, dimension: usize) -> f32
    ensures { result ≡ component_of dimension v }
{
    match dimension {
        0 => v.x,
        1 => v.y,
        _ => v.z,
    }
}

// The box around no centroid. A constant was tried: the proof of the fold over it did not close.
fn no_ends() -> Bounds3
    ensures { result ≡ no_ends }
{
    let above = Vec3 {
        x: f32::INFINITY,
        y: f32::INFINITY,
        z: f32::INFINITY,
    };
    let under = Vec3 {
        x: f32::NEG_INFINITY,
        y: f32::NEG_INFINITY,
        z: f32::NEG_INFINITY,
    };
    Bounds3 {
        min: above,
        max: under,
    }
}

// The box with one more centroid.
#[tactic(auto, unfolding(crate::specs::Lights::widen))]
fn widen(block: &[u32], b: Bounds3, handle: u32) -> Bounds3
    ensures { result ≡ widen_of block.now b handle }
{
    let c = centroid(light_box(block, handle));
    union(b, Bounds3 { min: c, max: c })
}

// The least and the greatest of the stretch's centroids, on each axis.
#[tactic(auto, unfolding(crate::specs::Lights::centroid_ends))]
pub fn centroid_ends(block: &[u32], handles: &[u32]) -> Bounds3
    ensures { result ≡ centroid_ends block.now handles.now }
{
    handles
        .iter()
        .fold(no_ends(), |ends, handle| widen(block, ends, *handle))
}

#[tactic(auto, using(crate::proofs::BucketLaws::twelve), unfolding(crate::specs::Lights::bucket_index))]
fn bucket_index(value: f32, min: f32, max: f32) -> usize
    ensures value { result ≡ bucket_index value min max }
    ensures upper_bound { result < n_buckets }
{
    if min == max {
        return 0;
    }
    to_usize((value - min) / (max - min) * N_BUCKETS as f32).min(N_BUCKETS - 1)
}

// The bucket of a handle's centroid between the ends of an axis. Block, ends and axis are no struct, since `goes_left`
// and `part` have the axis in the cut (`Split`) that their promises name: they would hold it twice, or take it apart.
#[tactic(auto, unfolding(crate::specs::Lights::bucket_of))]
pub fn bucket_of(block: &[u32], ends: Bounds3, dimension: usize, handle: u32) -> usize
    ensures value { result ≡ bucket_of block.now ends dimension handle }
    ensures upper_bound { result < n_buckets }
{
    bucket_index(
        component(centroid(light_box(block, handle)), dimension),
        component(ends.min, dimension),
        component(ends.max, dimension),
    )
}
