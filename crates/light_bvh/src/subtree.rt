// A stretch of handles to the words of a tree (specs/Subtree.antt), over rows of a block. Recursion over the stretch,
// whose length falls: a stretch of n handles fills exactly 2n - 1 nodes, so the right tree's place is known before the
// left is built, and no call touches another's nodes.
ghost use Rattle.words.specs.Answers.{answered};
ghost use Rattle.std.specs.Prelude.{◌≡◌, List, ◌++◌, ℕ, ◌+◌, ◌*◌, ◌^◌, ◌≤◌, ◌<◌, length};
ghost use Rattle.light_rows.specs.Nodes.{node_words};
ghost use Rattle.light_bvh.specs.Subtree.{label_of, build_subtree};
ghost use Rattle.light_bvh.specs.AsCoded.Stretches.{done, subtree_words};
ghost use Rattle.light_bvh.specs.AsCoded.Stretches.{split_count, split_handles, union_at, joined_words};

use light_bounds::light_bounds::{LightBounds, union};
use light_rows::block::{label, light};
use light_rows::nodes::{NODE_WORDS, Node, bounds_in, write_node};
use light_split::partition::partition_handles;
use light_split::split::choose_split;
use words::refusals::Refusal;

// Parts the stretch at its best cut: how many handles the left half has. Handles and work are lent apart, since a half
// of each is lent on.
fn part_stretch(block: &[u32], handles: &mut [u32], work: &mut [u32]) -> Result<usize, Refusal>
    requires { length handles.old ≤ length work.old }
    ensures result_value { answered result ≡ split_count block.now handles.old }
    ensures handles_after { handles.new ≡ split_handles block.now handles.old }
{
    let split = choose_split(block, handles)?;
    partition_handles(block, handles, work, split)
}

// The same. Its two calls, of which one is for the many stretches of two, keep its words out of the recursion's frame.
// `#[inline(never)]` was tried: still 288 bytes by LLVM, but Rattle's own compiler inlines it: 2,672 bytes, not 448.
fn split_stretch(block: &[u32], handles: &mut [u32], work: &mut [u32]) -> Result<usize, Refusal>
    requires { length handles.old ≤ length work.old }
    ensures result_value { answered result ≡ split_count block.now handles.old }
    ensures handles_after { handles.new ≡ split_handles block.now handles.old }
{
    if handles.len() == 2 {
        return part_stretch(block, handles, &mut work[0..2]);
    }
    part_stretch(block, handles, work)
}

// The record around the trees at nodes 1 and `right`, read back from their nodes. That a place fits a head's thirty
// bits is asked of the sum that each function makes: right, at + right, at + 2n.
fn union_children(nodes: &[u32], right: usize) -> Result<LightBounds, Refusal>
    requires { right < 2 ^ 30 }
    ensures { answered result ≡ union_at nodes.now right }
{
    let left_bounds = bounds_in(nodes, 1);
    let right_bounds = bounds_in(nodes, right as u32);
    union(left_bounds, right_bounds)
}

// The node over two trees whose words stand behind it, the right one at node `right`.
fn join_children(nodes: &mut [u32], right: usize, at: u32, parent: u32) -> Result<(), Refusal>
    requires { at + right < 2 ^ 30 }
    ensures result_value { answered result ≡ done (union_at nodes.old right) }
    ensures nodes_after { nodes.new ≡
        joined_words at parent right nodes.old (union_at nodes.old right) }
{
    let bounds = union_children(nodes, right)?;
    let node = Node::Interior {
        left_child: at + 1,
        right_child: at + right as u32,
        parent,
    };
    write_node(nodes, 0, node, bounds);
    Ok(())
}

// Writes the tree of a stretch, its root at node `at` under `parent`, to nodes that are as many as it needs. Labels
// and places fit a head, so every node is written. `parent` is the node's word, INVALID_INDEX at the root. Handles,
// work and nodes are lent apart, since a part of each is lent on: so each function asks how long the work is.
pub(crate) fn build_subtree(
    block: &[u32],
    handles: &mut [u32],
    work: &mut [u32],
    nodes: &mut [u32],
    at: u32,
    parent: u32,
) -> Result<(), Refusal>
    requires in_bounds { 1 ≤ length handles.old }
    requires handles_in_bounds { length handles.old ≤ length work.old }
    requires node_words_len { length nodes.old + node_words ≡ node_words * (2 * length handles.old) }
    requires handles_bound { at + 2 * length handles.old < 2 ^ 30 }
    requires by_index { (h : ℕ) → label_of block.now h < 2 ^ 30 }
    ensures result_value { answered result ≡ done
        (build_subtree block.now (length handles.old) handles.old) }
    ensures nodes_after { nodes.new ≡ subtree_words at parent
        (build_subtree block.now (length handles.old) handles.old) nodes.new }
{
    let n = handles.len();
    if n == 1 {
        let leaf = Node::Leaf {
            light_handle: label(block, handles[0]),
            parent,
        };
        write_node(nodes, 0, leaf, light(block, handles[0]));
        return Ok(());
    }
    let left = split_stretch(block, handles, work)?;
    build_subtree(
        block,
        &mut handles[0..left],
        &mut work[0..left],
        &mut nodes[NODE_WORDS..2 * NODE_WORDS * left],
        at + 1,
        at,
    )?;
    build_subtree(
        block,
        &mut handles[left..n],
        &mut work[0..n - left],
        &mut nodes[2 * NODE_WORDS * left..],
        at + 2 * left as u32,
        at,
    )?;
    join_children(nodes, 2 * left, at, parent)
}
