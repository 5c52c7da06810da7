// A node as sixteen words (specs/Nodes.antt): head, right child, parent, record. Where the words of a node stand is
// said here alone.
ghost use Rattle.words.specs.Answers.{answered};
ghost use Rattle.std.specs.Prelude.{◌≡◌, ◌+◌, ◌<◌, ◌≤◌, length};
ghost use Rattle.std.proofs.lemmas.List.Edits.{sets};
ghost use Rattle.words.specs.LittleEndian.{words_of};
ghost use Rattle.light_rows.specs.RecordWords.{read_record};
ghost use Rattle.light_rows.specs.Nodes.{node_value, head_number, head_word, right_child, parent, node_list};
ghost use Rattle.light_rows.specs.Nodes.{node, node_count, node_of, node_at, bounds_at};
ghost use Rattle.light_rows.specs.Nodes.{node_words, bounds_place};
ghost use Rattle.light_rows.specs.AsCoded.NodeRow.{node_fits, node_written};

use super::record_words::{RECORD_WORDS, Words, read_record_bytes, record_or_zeros, write_record};
use light_bounds::light_bounds::LightBounds;
use words::heads::{handle_of, kind_of};
use words::limits::MAX_LAMPS;
use words::places::wide;
use words::refusals::Refusal;

// The places of a node's parts behind its head.
const RIGHT_CHILD_PLACE: usize = 1;

const PARENT_PLACE: usize = 2;

const BOUNDS_PLACE: usize = 3;

// The words of a node.
pub const NODE_WORDS: usize = BOUNDS_PLACE + RECORD_WORDS;

// The bytes of a node.
pub const NODE_BYTES: usize = 4 * NODE_WORDS;

// The nodes of the most lamps: no walk takes more.
pub const MAX_NODES: usize = 2 * MAX_LAMPS - 1;

// Handles and left children are below this: a head has thirty bits for them. It is written out in words Heads too, as
// the definition there is.
pub const HEAD_ROOM: u32 = 0x4000_0000;

// A head's two bits above them: which kind of node it is.
const LEAF_KIND: u32 = 1;

const INTERIOR_KIND: u32 = 2;

// The right child of a leaf, the parent of the root: no Option, since it is the node's word, which build writes and
// packing keeps.
pub const INVALID_INDEX: u32 = 0xffff_ffff;

// A node without its record.
#[derive(Clone, Copy)]
pub enum Node {
    Leaf {
        light_handle: u32,
        parent: u32,
    },
    Interior {
        left_child: u32,
        right_child: u32,
        parent: u32,
    },
}

impl Node {
    pub fn parent(self) -> u32
        ensures { result ≡ parent (node_value self) }
    {
        match self {
            Node::Leaf { parent, .. } => parent,
            Node::Interior { parent, .. } => parent,
        }
    }

    fn right_child(self) -> u32
        ensures { result ≡ right_child (node_value self) }
    {
        match self {
            Node::Leaf { .. } => INVALID_INDEX,
            Node::Interior { right_child, .. } => right_child,
        }
    }

    // What stands below the head's two bits: the handle, or the left child.
    fn number(self) -> u32
        ensures { result ≡ head_number (node_value self) }
    {
        match self {
            Node::Leaf { light_handle, .. } => light_handle,
            Node::Interior { left_child, .. } => left_child,
        }
    }

    fn head(self) -> u32
        requires { head_number (node_value self) < 0x4000_0000 }
        ensures { result ≡ head_word (node_value self) }
    {
        let kind = match self {
            Node::Leaf { .. } => LEAF_KIND,
            Node::Interior { .. } => INTERIOR_KIND,
        };
        kind * HEAD_ROOM + self.number()
    }
}

// ---- writing

// At a place: the slice is the caller's, and a part of it would leave `write_node` to say what the rest keeps.
#[tactic(auto, unfolding(crate::specs::Nodes::node_list, crate::specs::AsCoded::RecordRow::written_at))]
fn put_node(words: &mut [u32], at: usize, node: Node, bounds: LightBounds)
    requires head { head_number (node_value node) < 0x4000_0000 }
    requires in_bounds { at + node_words ≤ length words.old }
    ensures { words.new ≡ sets words.old at (node_list (node_value node) bounds) }
{
    words[at] = node.head();
    words[at + RIGHT_CHILD_PLACE] = node.right_child();
    words[at + PARENT_PLACE] = node.parent();
    write_record(words, at + BOUNDS_PLACE, bounds);
}

// Writes a node at a place, or nothing where its row is not there or its head has no room for the handle or the left
// child: whether it wrote, by `node_fits`, for any node. Build drops the answer: its labels and places fit.
#[tactic(auto, unfolding(crate::specs::AsCoded::NodeRow::node_written, crate::specs::AsCoded::NodeRow::node_fits))]
pub fn write_node(words: &mut [u32], place: usize, node: Node, bounds: LightBounds) -> bool
    ensures value { result ≡ node_fits words.old place (node_value node) }
    ensures words_after { words.new ≡ node_written words.old place (node_value node) bounds }
{
    if words.len() / NODE_WORDS <= place || node.number() >= HEAD_ROOM {
        return false;
    }
    put_node(words, NODE_WORDS * place, node, bounds);
    true
}

// ---- reading: build reads words, the walks and the packing little-endian bytes

// The record of the node at a place, words past the end as 0. The place is a word, so that no sum overflows; build has
// a usize and casts it back, which is proved lossless.
pub fn bounds_in(nodes: &[u32], place: u32) -> LightBounds
    ensures { result ≡ read_record nodes.now (bounds_place place) }
{
    record_or_zeros(nodes, NODE_WORDS * wide(place) + BOUNDS_PLACE)
}

// How many nodes there are: over 8,191 are Crowded, a part of a node is Ragged.
#[tactic(auto, unfolding(crate::specs::Nodes::node_count))]
pub fn node_count(nodes: &[u8]) -> Result<usize, Refusal>
    ensures { answered result ≡ node_count nodes.now }
{
    let count = nodes.len() / NODE_BYTES;
    if MAX_NODES < count {
        return Err(Refusal::Crowded);
    }
    if nodes.len() % NODE_BYTES == 0 {
        return Ok(count);
    }
    Err(Refusal::Ragged)
}

#[tactic(auto, unfolding(crate::specs::Nodes::node_of))]
fn node_of(head: u32, right_child: u32, parent: u32) -> Result<Node, Refusal>
    ensures { node result ≡ node_of head right_child parent }
{
    match kind_of(head) {
        LEAF_KIND => Ok(Node::Leaf {
            light_handle: handle_of(head),
            parent,
        }),
        INTERIOR_KIND => Ok(Node::Interior {
            left_child: handle_of(head),
            right_child,
            parent,
        }),
        _ => Err(Refusal::BrokenTree),
    }
}

// The node at a place: past the end or of no kind is BrokenTree.
#[tactic(auto, unfolding(crate::specs::Nodes::node_at))]
pub fn node_at<W: Words>(nodes: W, place: usize) -> Result<Node, Refusal>
    ensures { node result ≡ node_at (W.words nodes) place }
{
    if place < nodes.count() / NODE_WORDS {
        let at = NODE_WORDS * place;
        return node_of(
            nodes.word(at),
            nodes.word(at + RIGHT_CHILD_PLACE),
            nodes.word(at + PARENT_PLACE),
        );
    }
    Err(Refusal::BrokenTree)
}

// The record of the node at a place: past the end or of an unknown side is BrokenTree.
pub fn bounds_at(nodes: &[u8], place: usize) -> Result<LightBounds, Refusal>
    ensures { answered result ≡ bounds_at (words_of nodes.now) place }
{
    if place < nodes.len() / 4 / NODE_WORDS {
        return read_record_bytes(nodes, NODE_WORDS * place + BOUNDS_PLACE);
    }
    Err(Refusal::BrokenTree)
}
