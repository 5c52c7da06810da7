// Weighing (specs/Walks.antt): the one place where a walk weighs, for the query that it holds. A record is read where
// it lies.
ghost use Rattle.words.specs.Answers.{answered};
ghost use Rattle.std.specs.Prelude.{◌≡◌, ◌<◌, ◌^◌};
ghost use Rattle.words.specs.LittleEndian.{words_of};
ghost use Rattle.light_sampler.specs.Walks.{weigh_at, weights as weights_of};
ghost use Rattle.light_sampler.specs.AsCoded.Turns.{by_prepared};

use light_bounds::importance::{Prepared, weigh_prepared};
use light_rows::nodes::bounds_at;
use words::refusals::Refusal;

// The weight of the node at a place: BrokenTree past the end and of an unknown side, the record's refusals, the
// importance's. Nodes and query are no struct: with a `Walk` of both a chance by name of 4,096 lamps took 1.82 of the
// Rust's time, and 1.74 so, where 1.8 is the bar.
#[tactic(auto, using(words::proofs::AnswerLaws::steps), unfolding(crate::specs::Walks::weigh_at))]
pub(crate) fn weigh_at(nodes: &[u8], query: Prepared, place: usize) -> Result<f32, Refusal>
    ensures { answered result ≡ weigh_at (words_of nodes.now) (by_prepared query) place }
{
    weigh_prepared(bounds_at(nodes, place)?, query)
}

// The weights of the node's children: the left one, behind the node, in full before the right one is looked for.
#[tactic(auto, using(words::proofs::AnswerLaws::steps), unfolding(crate::specs::Walks::weights))]
pub(crate) fn weigh_children(
    nodes: &[u8],
    query: Prepared,
    place: usize,
    right: u32,
) -> Result<(f32, f32), Refusal>
    requires { place < 2 ^ 60 }
    ensures { answered result ≡ weights_of (words_of nodes.now) (by_prepared query) place right }
{
    let x = weigh_at(nodes, query, place + 1)?;
    let y = weigh_at(nodes, query, right as usize)?;
    Ok((x, y))
}
