// A draw (specs/Sampler.antt): from the root down, into one child at each fork.
ghost use Rattle.words.specs.Answers.{answered};
ghost use Rattle.std.specs.Prelude.{◌≡◌, ◌<◌, ◌^◌};
ghost use Rattle.ieee.specs.Single.{onef};
ghost use Rattle.words.specs.LittleEndian.{words_of};
ghost use Rattle.light_sampler.specs.Sampler.{sample_check, sample, drawn};
ghost use Rattle.light_sampler.specs.Walks.{turn as turn_of, descend as descend_of};
ghost use Rattle.light_sampler.specs.AsCoded.Turns.{by_prepared, turn_answer};

use super::fork::{Branch, MOST, Turn, fork};
use super::weigh::weigh_children;
use floats::choose::min;
use light_bounds::importance::{Prepared, Query, prepare};
use light_rows::nodes::{Node, node_at, node_count};
use words::refusals::Refusal;

// A drawn light and its chance.
#[derive(Clone, Copy)]
pub struct SampledLight {
    pub light: u32,
    pub pmf: f32,
}

// Where the node at a place sends u.
#[tactic(auto, using(words::proofs::AnswerLaws::steps), unfolding(crate::specs::Walks::turn))]
fn turn(
    nodes: &[u8],
    query: Prepared,
    place: usize,
    right: u32,
    u: f32,
) -> Result<Option<Turn>, Refusal>
    requires { place < 2 ^ 60 }
    ensures { turn_answer result ≡ turn_of (words_of nodes.now) (by_prepared query) place right u }
{
    let (x, y) = weigh_children(nodes, query, place, right)?;
    Ok(fork(x, y, u))
}

// The walk: at most `count` nodes are entered.
fn descend(
    nodes: &[u8],
    query: Query,
    count: usize,
    u: f32,
) -> Result<Option<SampledLight>, Refusal>
    ensures { drawn result ≡ (descend_of (words_of nodes.now) query count 0 onef u).outcome }
{
    let held = prepare(query);
    let mut place: usize = 0;
    let mut pmf: f32 = 1.0;
    let mut u = u;
    for _ in 0..count {
        match node_at(nodes, place)? {
            Node::Leaf { light_handle, .. } => {
                return Ok(Some(SampledLight {
                    light: light_handle,
                    pmf,
                }));
            }
            Node::Interior { right_child, .. } => {
                let Some(to) = turn(nodes, held, place, right_child, u)? else {
                    return Ok(None);
                };
                pmf *= to.share;
                u = to.u;
                place = match to.branch {
                    Branch::Left => place + 1,
                    Branch::Right => right_child as usize,
                };
            }
        }
    }
    Err(Refusal::BrokenTree)
}

// Crowded and Ragged of the nodes, BadU; else how many nodes there are.
#[tactic(auto, using(words::proofs::AnswerLaws::steps), unfolding(crate::specs::Sampler::sample_check))]
fn check_sample(nodes: &[u8], u: f32) -> Result<usize, Refusal>
    ensures { answered result ≡ sample_check nodes.now u }
{
    let n = node_count(nodes)?;
    // `(0.0..=1.0).contains(&u)` was tried (docs/WORKLOG.md): its fact speaks of `float_partial_cmp`.
    if 0.0 <= u && u <= 1.0 {
        return Ok(n);
    }
    Err(Refusal::BadU)
}

// Draws a light for a query by u from 0 to 1, with the product of the shares along the way as its chance. Refusals: 2
// over 8,191 nodes, 1 of a part of a node, 11 of u; then those that the walk meets, 12 where the words do not hang
// together. Without nodes, and where neither branch of a fork has weight, none is drawn; a lone leaf is drawn
// unweighed.
#[tactic(auto, using(crate::proofs::WalkLaws::checks), unfolding(crate::specs::Sampler::sample_walk, crate::specs::Sampler::from_root))]
pub fn bvh_light_sampler_sample(
    nodes: &[u8],
    query: Query,
    u: f32,
) -> Result<Option<SampledLight>, Refusal>
    ensures { drawn result ≡ sample nodes.now query u }
{
    let n = check_sample(nodes, u)?;
    if n == 0 {
        return Ok(None);
    }
    descend(nodes, query, n, min(u, MOST))
}
