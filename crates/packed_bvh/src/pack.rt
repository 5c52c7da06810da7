// `pack_light_bvh` (specs/Packed.antt): node words in, a header and packed nodes out.
ghost use Rattle.std.specs.Prelude.{◌||◌, ◌≡◌, eqb, ltb, ◌+◌, ◌*◌, ◌/◌, ◌≤◌, ◌<◌, length};
ghost use Rattle.std.proofs.Math.Option.{some};
ghost use Rattle.std.proofs.lemmas.List.Edits.{sets};
ghost use Rattle.words.specs.Answers.{answered, optional};
ghost use Rattle.words.specs.LittleEndian.{words_of, bytes_of};
ghost use Rattle.words.specs.AsCoded.Fill.{filled};
ghost use Rattle.words.specs.Tray.{tray};
ghost use Rattle.light_rows.specs.Nodes.{node_value, invalid_index, node_bytes};
ghost use Rattle.packed_bvh.specs.Packed.{paired, cone_word, compact_words, payload, pack_node, header};
ghost use Rattle.packed_bvh.specs.Packed.{pack_check, agreed};
ghost use Rattle.packed_bvh.specs.Packed.{packed_tree, pack_light_bvh, packed_bytes, bytes_reserve, words_packed};
ghost use Rattle.packed_bvh.specs.Packed.{packed};
ghost use Rattle.packed_bvh.specs.AsCoded.PackedParts.{placing, placed, agreement};

use super::quantize::{Axis, octahedral, quantize_axis, quantize_cos};
use light_bounds::bounds::{Bounds3, check};
use light_bounds::light_bounds::{LightBounds, validate};
use light_bounds::vecmath::{Vec3, normalize_by_division};
use light_rows::nodes::{INVALID_INDEX, NODE_BYTES, Node, bounds_at, node_at, node_count};
use words::fill::fill;
use words::floats::Float;
use words::little_endian::set_word;
use words::refusals::Refusal;

// The words of the header.
const HEADER_WORDS: usize = 8;

// The words of a node.
const NODE_WORDS: usize = 8;

// The greatest payload.
const INDEX_MAX: u32 = 0x7fff_ffff;

// The bit above it, which a leaf's payload has.
const LEAF_BIT: u32 = 0x8000_0000;

// ---- a node's words

// Two numbers of sixteen bits as a word, the first one below.
fn pair(low: u16, high: u16) -> u32
    ensures { result ≡ paired low high }
{
    u32::from(low) + 0x1_0000 * u32::from(high)
}

// Both cosines and the side.
fn cone_word(bounds: LightBounds) -> u32
    ensures { result ≡ cone_word bounds }
{
    let o = u32::from(quantize_cos(bounds.cos_theta_o));
    let e = u32::from(quantize_cos(bounds.cos_theta_e));
    o + 0x8000 * e + 0x4000_0000 * u32::from(bounds.side.two_sided)
}

// The record within the overall box, with its direction at unit length.
#[tactic(auto, unfolding(crate::specs::Packed::compact_words, crate::specs::Quantize::encode_octahedral))]
fn compact_words(
    all: Bounds3,
    bounds: LightBounds,
    d: Vec3,
    payload: u32,
    parent: u32,
) -> [u32; NODE_WORDS]
    ensures { result ≡ compact_words all bounds d payload parent }
{
    let inner = bounds.bounds;
    let x = Axis {
        min: all.min.x,
        max: all.max.x,
    };
    let y = Axis {
        min: all.min.y,
        max: all.max.y,
    };
    let z = Axis {
        min: all.min.z,
        max: all.max.z,
    };
    let octahedral_direction = octahedral(d);
    [
        pair(x.quantize_down(inner.min.x), y.quantize_down(inner.min.y)),
        pair(z.quantize_down(inner.min.z), x.quantize_up(inner.max.x)),
        pair(y.quantize_up(inner.max.y), z.quantize_up(inner.max.z)),
        pair(
            quantize_axis(octahedral_direction.x),
            quantize_axis(octahedral_direction.y),
        ),
        bounds.phi.word(),
        cone_word(bounds),
        payload,
        parent,
    ]
}

// ---- a node's own checks

// The payload's word and the parent.
#[derive(Clone, Copy)]
struct Placed {
    payload: u32,
    parent: u32,
}

// The handle of a leaf, the right child of an interior node.
fn payload(node: Node) -> u32
    ensures { result ≡ payload (node_value node) }
{
    match node {
        Node::Leaf { light_handle, .. } => light_handle,
        Node::Interior { right_child, .. } => right_child,
    }
}

// Whether a parent is one of the nodes, or the root's. It is the node's word, which is packed as it stands.
fn is_parent(parent: u32, count: usize) -> bool
    ensures { result ≡ eqb parent invalid_index || ltb parent count }
{
    parent == INVALID_INDEX || (parent as usize) < count
}

// A node's payload and parent, once its payload's size, its parent and its left child are checked.
fn place(node: Node, count: usize, index: usize) -> Result<Placed, Refusal>
    requires { index < count }
    ensures { placed result ≡ placing count index (node_value node) }
{
    if INDEX_MAX < payload(node) {
        return Err(Refusal::TooWide);
    }
    if !is_parent(node.parent(), count) {
        return Err(Refusal::BrokenTree);
    }
    match node {
        Node::Leaf {
            light_handle,
            parent,
        } => {
            Ok(Placed {
                payload: LEAF_BIT + light_handle,
                parent,
            })
        }
        Node::Interior {
            left_child,
            right_child,
            parent,
        } => {
            if left_child as usize == index + 1 {
                Ok(Placed {
                    payload: right_child,
                    parent,
                })
            } else {
                Err(Refusal::BrokenTree)
            }
        }
    }
}

// ---- a node

// Its kind and its side, its record, its direction's length, then what `place` asks.
#[tactic(auto, using(words::proofs::AnswerLaws::steps), unfolding(crate::specs::Packed::pack_node))]
fn pack_node(
    nodes: &[u8],
    all: Bounds3,
    count: usize,
    index: usize,
) -> Result<[u32; NODE_WORDS], Refusal>
    requires { index < count }
    ensures { answered result ≡ pack_node count all (words_of nodes.now) index }
{
    let node = node_at(nodes, index)?;
    let bounds = bounds_at(nodes, index)?;
    validate(bounds)?;
    let d = normalize_by_division(bounds.direction)?;
    let placed = place(node, count, index)?;
    Ok(compact_words(all, bounds, d, placed.payload, placed.parent))
}

// ---- what is written

// Writes words as little-endian bytes from a word's place on. It takes the place and not a part of the lent bytes: its
// caller would have to say what all of them hold then.
fn write_words(out: &mut [u8], place: usize, words: &[u32])
    requires { 4 * (place + length words.now) ≤ length out.old }
    ensures { out.new ≡ sets out.old (4 * place) (bytes_of words.now) }
{
    for (i, word) in words.iter().enumerate() {
        set_word(out, place + i, *word);
    }
}

fn header(all: Bounds3) -> [u32; HEADER_WORDS]
    ensures { result ≡ header all }
{
    [
        all.min.x.word(),
        all.min.y.word(),
        all.min.z.word(),
        0,
        all.max.x.word(),
        all.max.y.word(),
        all.max.z.word(),
        0,
    ]
}

// The bytes of the packed tree, header and nodes; 0 without nodes.
fn bytes_reserve(nodes: &[u8]) -> usize
    ensures { result ≡ bytes_reserve nodes.now }
{
    let n = nodes.len() / NODE_BYTES;
    if n == 0 {
        0
    } else {
        4 * (HEADER_WORDS + NODE_WORDS * n)
    }
}

fn zero_reserve(nodes: &[u8], out: &mut [u8])
    ensures { out.new ≡ filled out.old 0 (bytes_reserve nodes.now) 0 }
{
    fill(out, 0, bytes_reserve(nodes), 0);
}

// Header and nodes; a refusal zeroes the reserve.
fn pack_nodes(nodes: &[u8], all: Bounds3, out: &mut [u8]) -> Result<Option<usize>, Refusal>
    requires n_nonzero { 0 < length nodes.now / node_bytes }
    requires n_in_bounds { bytes_reserve nodes.now ≤ length out.old }
    ensures result_value { packed result
        ≡ words_packed (packed_tree (words_of nodes.now) (length nodes.now / node_bytes) (some all)) }
    ensures out_after { out.new ≡ tray packed_bytes (bytes_reserve nodes.now)
        (packed_tree (words_of nodes.now) (length nodes.now / node_bytes) (some all)) out.old }
{
    let n = nodes.len() / NODE_BYTES;
    write_words(out, 0, &header(all));
    for i in 0..n {
        match pack_node(nodes, all, n, i) {
            Ok(words) => write_words(out, HEADER_WORDS + NODE_WORDS * i, &words),
            Err(why) => {
                zero_reserve(nodes, out);
                return Err(why);
            }
        }
    }
    Ok(Some(HEADER_WORDS + NODE_WORDS * n))
}

// ---- the checks

// Crowded, Ragged, ShortTray; else how many nodes there are.
#[tactic(auto, using(crate::proofs::PackLaws::room_checks))]
fn check_pack(nodes: &[u8], room: usize) -> Result<usize, Refusal>
    ensures { answered result ≡ pack_check nodes.now room }
{
    let n = node_count(nodes)?;
    if room < bytes_reserve(nodes) {
        return Err(Refusal::ShortTray);
    }
    Ok(n)
}

// Without a box there are neither nodes nor lamps; a box has both, and its own check.
#[tactic(auto, using(words::proofs::AnswerLaws::steps), unfolding(crate::specs::Packed::agreed))]
fn agree(n: usize, k: usize, all_bounds: Option<Bounds3>) -> Result<Option<Bounds3>, Refusal>
    ensures { agreement result ≡ agreed n k (optional all_bounds) }
{
    match all_bounds {
        None => {
            if n == 0 && k == 0 {
                Ok(None)
            } else {
                Err(Refusal::BrokenTree)
            }
        }
        Some(all) => {
            if n == 0 || k == 0 {
                return Err(Refusal::BrokenTree);
            }
            check(all)?;
            Ok(Some(all))
        }
    }
}

// Packs the node words with k, the number of powered lamps, and their box: the header and the nodes are written as
// bytes, little-endian, and no word without nodes. Refusals 2, 1, 3 leave the lent bytes as they are; 12 where box,
// nodes and k do not agree, 5 and 6 of the box, then node by node 12 of its kind and its side, 5 to 8 of its record, 7
// of its direction's length, 13 of a payload over INDEX_MAX, 12 of its parent and its left child: these zero the
// reserve. No tree gives none.
pub fn pack_light_bvh(
    nodes: &[u8],
    k: usize,
    all_bounds: Option<Bounds3>,
    out: &mut [u8],
) -> Result<Option<usize>, Refusal>
    ensures result_value { packed result
        ≡ words_packed (pack_light_bvh nodes.now k (optional all_bounds) (length out.old)) }
    ensures out_after { out.new ≡ tray packed_bytes (bytes_reserve nodes.now)
        (pack_light_bvh nodes.now k (optional all_bounds) (length out.old))
        out.old }
{
    let n = check_pack(nodes, out.len())?;
    match agree(n, k, all_bounds) {
        Ok(Some(all)) => pack_nodes(nodes, all, out),
        Ok(None) => Ok(None),
        Err(why) => {
            zero_reserve(nodes, out);
            Err(why)
        }
    }
}
