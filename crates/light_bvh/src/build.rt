// `build_light_bvh` (specs/Build.antt): a bounds block in, the nodes and the handle table out. The handles of the
// powered lamps stand in the table's words while the tree is built; the work is what their stretches are parted by.
ghost use Rattle.std.specs.Prelude.{◌≡◌, ◌*◌, ◌/◌, ◌≤◌, length, get_or};
ghost use Rattle.words.specs.Answers.{given, answered, optional};
ghost use Rattle.words.specs.AsCoded.Fill.{filled};
ghost use Rattle.words.specs.Tray.{tray};
ghost use Rattle.words.specs.AsCoded.ListParts.{laid};
ghost use Rattle.light_rows.specs.Nodes.{node_words, max_nodes};
ghost use Rattle.light_bvh.specs.Build.{is_powered, bounded_handles, grown, all_bounds as powered_box, validated};
ghost use Rattle.light_bvh.specs.Build.{built_bvh, nodes_reserve, work_reserve, is_short, build_check, build_light_bvh};
ghost use Rattle.light_bvh.specs.Build.{nodes_written, table_written, work_written, summary, built};
ghost use Rattle.light_bvh.specs.AsCoded.Tables.{tabled_below};

use super::subtree::build_subtree;
use light_bounds::bounds::{Bounds3, union};
use light_bounds::light_bounds::validate;
use light_rows::block::{check_handles, check_layout, light, light_box, light_phi};
use light_rows::nodes::{INVALID_INDEX, NODE_WORDS, Node, node_at};
use words::fill::{fill, zero_words};
use words::places::{wide, word_or_zero};
use words::refusals::Refusal;

// A tree: how many lamps have power, and the box of just these.
#[derive(Clone, Copy)]
pub struct Built {
    pub powered: usize,
    pub bounds: Bounds3,
}

// How many rows the block has.
fn row_count(block: &[u32]) -> u32
    ensures { result ≡ get_or block.now 0 0 }
{
    word_or_zero(block, 0)
}

// ---- the reserves of m rows

// Counts and places are words (u32), so that sums of them as usize cannot overflow; casts back are proved lossless.
pub fn nodes_reserve(m: u32) -> usize
    ensures { result ≡ nodes_reserve m }
{
    NODE_WORDS * (2 * wide(m)).saturating_sub(1)
}

fn work_reserve(m: u32) -> usize
    ensures { result ≡ work_reserve m }
{
    2 * wide(m)
}

// ---- the checks that leave the lent words alone: Crowded, Ragged, Misplaced, ShortTray

// Whether a slice is under its reserve. Told by the lengths, since the slices are lent on only behind the checks.
fn is_short(m: u32, nodes: usize, table: usize, work: usize) -> bool
    ensures { result ≡ is_short m nodes table work }
{
    nodes < nodes_reserve(m) || table < wide(m) || work < work_reserve(m)
}

// How many rows a tree is to be built of.
pub fn check_build(
    lights: usize,
    block: &[u32],
    nodes: usize,
    table: usize,
    work: usize,
) -> Result<usize, Refusal>
    ensures { answered result ≡ build_check lights block.now nodes table work }
{
    let rows = check_layout(block)?;
    if lights != rows {
        return Err(Refusal::Ragged);
    }
    let m = check_handles(block)?;
    if is_short(row_count(block), nodes, table, work) {
        return Err(Refusal::ShortTray);
    }
    Ok(m)
}

// Every record's own check, in order.
fn check_records(block: &[u32]) -> Result<(), Refusal>
    ensures { answered result ≡ validated block.now (get_or block.now 0 0) }
{
    for i in 0..row_count(block) {
        validate(light(block, i))?;
    }
    Ok(())
}

// ---- the powered lamps

fn is_powered(block: &[u32], handle: u32) -> bool
    ensures { result ≡ is_powered block.now handle }
{
    light_phi(block, handle) > 0.0
}

// Their handles, in order, to the front of the slice, and how many they are. k is the place and the answer; an iterator
// chain would need a second pass to count.
fn gather_handles(block: &[u32], handles: &mut [u32]) -> usize
    requires { get_or block.now 0 0 ≤ length handles.old }
    ensures value { result ≡ length (bounded_handles block.now (get_or block.now 0 0)) }
    ensures handles_after { handles.new ≡
        laid (bounded_handles block.now (get_or block.now 0 0)) handles.old }
{
    let mut k: usize = 0;
    for i in 0..row_count(block) {
        if is_powered(block, i) {
            handles[k] = i;
            k += 1;
        }
    }
    k
}

// Their box.
fn all_bounds(block: &[u32]) -> Option<Bounds3>
    ensures { optional result ≡ powered_box block.now (get_or block.now 0 0) }
{
    let mut all = None;
    for i in 0..row_count(block) {
        if is_powered(block, i) {
            all = grow(all, light_box(block, i));
        }
    }
    all
}

fn grow(all: Option<Bounds3>, bounds: Bounds3) -> Option<Bounds3>
    ensures { optional result ≡ grown (optional all) bounds }
{
    match all {
        Some(before) => Some(union(before, bounds)),
        None => Some(bounds),
    }
}

// ---- what is left in the lent words

// Zeroes the reserves of so many rows.
fn zero_reserves(rows: u32, nodes: &mut [u32], table: &mut [u32], work: &mut [u32])
    ensures nodes_after { nodes.new ≡ filled nodes.old 0 (nodes_reserve rows) 0 }
    ensures table_after { table.new ≡ filled table.old 0 rows 0 }
    ensures work_after { work.new ≡ filled work.old 0 (work_reserve rows) 0 }
{
    zero_words(nodes, 0, nodes_reserve(rows));
    zero_words(table, 0, wide(rows));
    zero_words(work, 0, work_reserve(rows));
}

// Writes each leaf's place at its label, by a pass over the nodes. By index: `get_mut` has no clause on what a write
// leaves in the slice.
fn table_leaves(nodes: &[u32], table: &mut [u32])
    requires { length nodes.now ≤ node_words * max_nodes }
    ensures { table.new ≡ tabled_below nodes.now (length nodes.now / node_words) table.old }
{
    for place in 0..(nodes.len() / NODE_WORDS) as u32 {
        if let Ok(Node::Leaf { light_handle, .. }) = node_at(nodes, wide(place)) {
            let handle = wide(light_handle);
            if handle < table.len() {
                table[handle] = place;
            }
        }
    }
}

// The rows behind the checks: the tree, or why there is none. The lent slices stay apart, since each clause says what
// is left in one of them.
fn build_rows(
    block: &[u32],
    nodes: &mut [u32],
    table: &mut [u32],
    work: &mut [u32],
) -> Result<Option<Built>, Refusal>
    requires { let m = get_or block.now 0 0 in
        build_check m block.now (length nodes.old) (length table.old) (length work.old) ≡ given m }
    ensures result_value { built result ≡ summary (built_bvh block.now (get_or block.now 0 0)) }
    ensures nodes_after { let m = get_or block.now 0 0 in nodes.new ≡
        tray nodes_written (nodes_reserve m) (built_bvh block.now m) nodes.old }
    ensures table_after { let m = get_or block.now 0 0 in table.new ≡
        tray table_written m (built_bvh block.now m) table.old }
    ensures work_after { let m = get_or block.now 0 0 in work.new ≡
        tray work_written (work_reserve m) (built_bvh block.now m) work.old }
{
    let m = row_count(block);
    let k = gather_handles(block, table);
    if k == 0 {
        zero_reserves(m, nodes, table, work);
        fill(table, 0, wide(m), INVALID_INDEX);
        return Ok(None);
    }
    let end = NODE_WORDS * (2 * k - 1);
    if let Err(why) = build_subtree(
        block,
        &mut table[0..k],
        &mut work[0..k],
        &mut nodes[0..end],
        0,
        INVALID_INDEX,
    ) {
        zero_reserves(m, nodes, table, work);
        return Err(why);
    }
    fill(table, 0, wide(m), INVALID_INDEX);
    table_leaves(&nodes[..end], table);
    zero_words(nodes, end, nodes_reserve(m));
    zero_words(work, 0, work_reserve(m));
    Ok(all_bounds(block).map(|bounds| Built { powered: k, bounds }))
}

// The tree of a block of m rows: 16(2m - 1) words of nodes, m of the handle table, 2m of work are lent. Crowded,
// Ragged, Misplaced and ShortTray leave the lent words as they are, later refusals zero the reserves; acceptance zeroes
// what it does not use of them.
pub fn build_light_bvh(
    lights: usize,
    block: &[u32],
    nodes: &mut [u32],
    table: &mut [u32],
    work: &mut [u32],
) -> Result<Option<Built>, Refusal>
    ensures result_value { built result ≡ summary
        (build_light_bvh lights block.now (length nodes.old) (length table.old)
        (length work.old)) }
    ensures nodes_after { nodes.new ≡
        tray nodes_written (nodes_reserve (get_or block.now 0 0)) (build_light_bvh lights block.now
        (length nodes.old) (length table.old) (length work.old)) nodes.old }
    ensures table_after { table.new ≡
        tray table_written (get_or block.now 0 0) (build_light_bvh lights block.now
        (length nodes.old) (length table.old) (length work.old)) table.old }
    ensures work_after { work.new ≡
        tray work_written (work_reserve (get_or block.now 0 0)) (build_light_bvh lights block.now
        (length nodes.old) (length table.old) (length work.old)) work.old }
{
    check_build(lights, block, nodes.len(), table.len(), work.len())?;
    if let Err(why) = check_records(block) {
        zero_reserves(row_count(block), nodes, table, work);
        return Err(why);
    }
    build_rows(block, nodes, table, work)
}
