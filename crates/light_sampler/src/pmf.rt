// A chance by name (specs/Sampler.antt): from the light's leaf up to the root, by parent words.
ghost use Rattle.words.specs.Answers.{answered, given};
ghost use Rattle.std.specs.Prelude.{◌≡◌};
ghost use Rattle.ieee.specs.Single.{onef};
ghost use Rattle.words.specs.LittleEndian.{words_of};
ghost use Rattle.light_sampler.specs.Sampler.{pmf_check, pmf as pmf_of};
ghost use Rattle.light_sampler.specs.Walks.{part_of, rise as rise_of, ascend as ascend_of};
ghost use Rattle.light_rows.specs.Nodes.{node_value, node_at};
ghost use Rattle.light_sampler.specs.AsCoded.Turns.{by_prepared, risen_of, leaf_found};

use super::weigh::weigh_children;
use light_bounds::importance::{Prepared, Query, prepare};
use light_rows::nodes::{INVALID_INDEX, Node, node_at, node_count};
use words::limits::MAX_LAMPS;
use words::little_endian::word_at;
use words::refusals::Refusal;

// The child's part of the two weights; None where no child has weight.
#[tactic(auto, unfolding(crate::specs::Walks::part_of))]
fn part_of(place: usize, left: usize, right: usize, x: f32, y: f32) -> Result<Option<f32>, Refusal>
    ensures { risen_of result ≡ part_of place left right x y }
{
    let total = x + y;
    if total <= 0.0 {
        return Ok(None);
    }
    if place == left {
        return Ok(Some(x / total));
    }
    if place == right {
        return Ok(Some(y / total));
    }
    Err(Refusal::BrokenTree)
}

// From a child to its parent, whose node is read already.
#[tactic(auto, using(words::proofs::AnswerLaws::steps), unfolding(crate::specs::Walks::rise))]
fn rise(
    nodes: &[u8],
    query: Prepared,
    place: usize,
    parent: u32,
    above: Node,
) -> Result<Option<f32>, Refusal>
    requires { given (node_value above) ≡ node_at (words_of nodes.now) parent }
    ensures { risen_of result ≡ rise_of (words_of nodes.now) (by_prepared query) place parent }
{
    match above {
        Node::Interior { right_child, .. } => {
            let (x, y) = weigh_children(nodes, query, parent as usize, right_child)?;
            part_of(place, parent as usize + 1, right_child as usize, x, y)
        }
        Node::Leaf { .. } => Err(Refusal::BrokenTree),
    }
}

// The walk: at most `count` nodes are entered. Each is read once, when it is the parent of the one before.
fn ascend(nodes: &[u8], query: Query, count: usize, leaf: u32) -> Result<f32, Refusal>
    ensures { answered result ≡ (ascend_of (words_of nodes.now) query count leaf onef).outcome }
{
    let held = prepare(query);
    let mut place = leaf as usize;
    let mut here = node_at(nodes, place)?;
    let mut pmf: f32 = 1.0;
    for _ in 0..count {
        let parent = here.parent();
        // A node's parent is its word, which packing writes as it stands: an Option of it would be made and taken apart
        // again.
        if parent == INVALID_INDEX {
            return Ok(pmf);
        }
        let above = node_at(nodes, parent as usize)?;
        let Some(share) = rise(nodes, held, place, parent, above)? else {
            return Ok(0.0);
        };
        pmf *= share;
        place = parent as usize;
        here = above;
    }
    Err(Refusal::BrokenTree)
}

// Crowded of the table or the nodes, then Ragged; else how many nodes there are.
#[tactic(auto, using(words::proofs::AnswerLaws::steps), unfolding(crate::specs::Sampler::pmf_check))]
fn check_pmf(nodes: &[u8], table: &[u8]) -> Result<usize, Refusal>
    ensures { answered result ≡ pmf_check nodes.now table.now }
{
    if MAX_LAMPS < table.len() / 4 {
        return Err(Refusal::Crowded);
    }
    let n = node_count(nodes)?;
    if table.len() % 4 == 0 {
        return Ok(n);
    }
    Err(Refusal::Ragged)
}

// The place of the light's leaf; none past the table and of a light without a leaf.
fn leaf_of(table: &[u8], handle: u32) -> Option<u32>
    ensures { result ≡ leaf_found (words_of table.now) handle }
{
    if table.len() / 4 <= handle as usize {
        return None;
    }
    let leaf = word_at(table, handle as usize);
    if leaf == INVALID_INDEX {
        None
    } else {
        Some(leaf)
    }
}

// The chance of a light for a query, as the product of its weights' parts along the way up. Refusals: 2 over 8,191
// nodes or 4,096 table words, 1 of a part of a node or of a word; then those that the walk meets, 12 where the words do
// not hang together. A light past the table or without a leaf has chance 0.
#[tactic(auto, using(crate::proofs::WalkLaws::leaf_checks), unfolding(crate::specs::Sampler::pmf_walk))]
pub fn bvh_light_sampler_pmf(
    nodes: &[u8],
    table: &[u8],
    query: Query,
    handle: u32,
) -> Result<f32, Refusal>
    ensures { answered result ≡ pmf_of nodes.now table.now query handle }
{
    let n = check_pmf(nodes, table)?;
    let Some(leaf) = leaf_of(table, handle) else {
        return Ok(0.0);
    };
    ascend(nodes, query, n, leaf)
}
