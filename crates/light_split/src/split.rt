// The choice of a cut (specs/Split.antt).
ghost use Rattle.std.specs.Prelude.{◌≡◌};
ghost use Rattle.words.specs.Answers.{answered};
ghost use Rattle.light_split.specs.Split.{combined_bounds, cuts};
ghost use Rattle.light_split.specs.Split.{better as better_of, choose_split};

use super::buckets::{Axis, fill_buckets, join_to, union_range};
use super::lights::{N_BUCKETS, centroid_ends, component};
use light_bounds::bounds::{Bounds3, union};
use light_bounds::light_bounds::LightBounds;
use light_rows::block::light_box;
use words::refusals::Refusal;

// A cut: behind which bucket of which axis.
#[derive(Clone, Copy)]
pub struct Split {
    pub dimension: usize,
    pub bucket: usize,
}

// The best cut so far and its cost.
#[derive(Clone, Copy)]
pub struct Best {
    pub min_cost: f32,
    pub best: Split,
}

// The box of all that the stretch names.
#[tactic(auto, unfolding(crate::specs::Split::combined_bounds))]
fn combined_bounds(block: &[u32], handles: &[u32]) -> Bounds3
    ensures { result ≡ combined_bounds block.now handles.now }
{
    match handles {
        [] => light_box(block, 0),
        [first, rest @ ..] => rest.iter().fold(
            light_box(block, *first),
            |combined, handle| union(combined, light_box(block, *handle)),
        ),
    }
}

#[tactic(auto, unfolding(crate::specs::Split::better))]
fn better(best: Best, split: Split, cost: f32) -> Best
    ensures { result ≡ better_of best split cost }
{
    if cost > 0.0 && cost < best.min_cost {
        return Best {
            min_cost: cost,
            best: split,
        };
    }
    best
}

// The eleven cuts of an axis. A cut behind an empty bucket has the sides of the cut before it, so it costs the same and
// does not win: it is left out.
fn best_cut(
    buckets: &[Option<LightBounds>; N_BUCKETS],
    axis: Axis,
    mut best: Best,
) -> Result<Best, Refusal>
    ensures { answered result ≡ cuts buckets.now axis.parent axis.dimension best 11 }
{
    let mut left = None;
    let mut last = None;
    for (bucket, here) in buckets[..N_BUCKETS - 1].iter().enumerate() {
        if let Some(bounds) = *here {
            left = Some(join_to(left, bounds)?);
        }
        if bucket == 0 || here.is_some() {
            let right = union_range(&buckets[bucket + 1..])?;
            let cost = axis.side_cost(left, &mut last) + axis.side_cost(right, &mut last);
            let split = Split {
                dimension: axis.dimension,
                bucket,
            };
            best = better(best, split, cost);
        }
    }
    Ok(best)
}

// The cut of a stretch. An axis is left out where its centroids are equal. Not inlined, so that the buckets stay out of
// the frame of the recursion that builds the tree.
#[inline(never)]
#[tactic(auto, using(crate::proofs::SplitLaws::turns))]
pub fn choose_split(block: &[u32], handles: &[u32]) -> Result<Split, Refusal>
    ensures { answered result ≡ choose_split block.now handles.now }
{
    let ends = centroid_ends(block, handles);
    let parent = combined_bounds(block, handles);
    let mut best = Best {
        min_cost: f32::INFINITY,
        best: Split {
            dimension: 0,
            bucket: N_BUCKETS / 2 - 1,
        },
    };
    for dimension in 0..3 {
        if component(ends.min, dimension) == component(ends.max, dimension) {
            continue;
        }
        let buckets = fill_buckets(block, handles, ends, dimension)?;
        best = best_cut(&buckets, Axis { parent, dimension }, best)?;
    }
    Ok(best.best)
}
