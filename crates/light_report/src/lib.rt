// The light report (docs/REQUIREMENTS.md R13; specs/Report.antt): a bounds block of at most 512 lamps and seven-word
// groups p, n, u on standard input, little-endian; the report on standard output. Its lines are in lines.rt. The input
// is read as a stream, a chunk of groups at a time, so a longer report takes no more memory. A must-fail edit needs the
// checked modules of a library, so all of the program stands here and `columns` only calls it.
#![tactic(auto)]

mod lines;

ghost use Rattle.words.specs.Answers.{answered};
ghost use Rattle.std.specs.Prelude.{◌≡◌, ◌+◌, ◌*◌, ◌/◌, ◌%◌, ◌≤◌, length, get_or, take};
ghost use Rattle.words.specs.LittleEndian.{words_of};
ghost use Rattle.words.specs.Tray.{tray};
ghost use Rattle.light_rows.specs.Block.{block_words};
ghost use Rattle.light_bvh.specs.Build.{summary, nodes_reserve, nodes_written, table_written};
ghost use Rattle.light_report.specs.Report.{block_bytes, block_lamps, tree_of, report_tree};
ghost use Rattle.light_report.specs.AsCoded.Written.{powered, sizes, taken};
ghost use Rattle.light_report.specs.AsCoded.Written.{front_bytes, first_lines, node_bytes};
ghost use Rattle.light_report.specs.AsCoded.Written.{table_bytes, chunk_lines, Opens};

use light_bvh::build::{build_light_bvh, nodes_reserve};
use light_rows::block::{EXHAUSTIVE_BOUNDS_WORDS, block_words};
use light_rows::nodes::NODE_WORDS;
use lines::{GROUP_BYTES, LINE_BYTES, Tree, put_lines};
use text::{put_refused, put_text, put_words};
use words::little_endian::{word_at, words_of_bytes};
use words::places::wide;
use words::refusals::Refusal;

// ---- room

// Lamps of a report's block.
const REPORT_LAMPS: usize = 512;

// The words that they take of a block and of a tree's nodes. A constant's value can't call `block_words`, nor
// `nodes_reserve`.
const BLOCK_WORDS: usize = 1 + EXHAUSTIVE_BOUNDS_WORDS * REPORT_LAMPS;

const NODES_WORDS: usize = NODE_WORDS * (2 * REPORT_LAMPS - 1);

// A chunk of groups, and its lines with a part group's.
const CHUNK_GROUPS: usize = 2048;

const CHUNK_BYTES: usize = GROUP_BYTES * CHUNK_GROUPS;

const LINES_BYTES: usize = LINE_BYTES * (CHUNK_GROUPS + 1);

// The words of a block, and what build takes for them: its trays and what it works on.
#[derive(Drop)]
struct Room {
    block: [u32; BLOCK_WORDS],
    nodes: [u32; NODES_WORDS],
    table: [u32; REPORT_LAMPS],
    work: [u32; 2 * REPORT_LAMPS],
}

// A tree's bytes, which draws walk, each at the front of its room.
#[derive(Drop)]
struct WalkedTree {
    nodes: [u8; 4 * NODES_WORDS],
    table: [u8; 4 * REPORT_LAMPS],
}

// ---- the block

// How many lamps a tree has, and how many of them have power.
#[derive(Clone, Copy)]
struct Taken {
    lamps: u32,
    powered: usize,
}

// How many bytes the block takes of an input that begins with these four.
#[tactic(auto, unfolding(crate::specs::AsCoded::Written::front_bytes))]
fn front_bytes(head: &[u8]) -> usize
    ensures value { result ≡ front_bytes head.now }
    ensures lower_bound { (4 ≤ result) × (result ≤ 28676) }
{
    let lamps = word_at(head, 0);
    if wide(lamps) > REPORT_LAMPS {
        return 4;
    }
    4 * block_words(lamps)
}

// How many lamps the block has.
#[tactic(auto, unfolding(crate::specs::Report::block_lamps))]
fn block_lamps(input: &[u8]) -> Result<u32, Refusal>
    ensures { answered result ≡ block_lamps input.now }
{
    if input.len() < 4 {
        return Err(Refusal::Ragged);
    }
    let lamps = word_at(input, 0);
    if REPORT_LAMPS < wide(lamps) {
        return Err(Refusal::Crowded);
    }
    if input.len() < 4 * block_words(lamps) {
        return Err(Refusal::Ragged);
    }
    Ok(lamps)
}

// The words of bytes, to the front of the slice.
fn read_words(bytes: &[u8], words: &mut [u32])
    requires { (length bytes.now % 4 ≡ 0) × (length bytes.now ≤ 4 * length words.old) }
    ensures { take (length bytes.now / 4) words.new ≡ words_of bytes.now }
{
    let _ = words_of_bytes(bytes, words);
}

// Builds the tree of the block's words; how many lamps have power.
#[tactic(auto, unfolding(crate::specs::Report::tree_of, crate::specs::AsCoded::Written::powered))]
fn build_tree(lamps: u32, room: &mut Room) -> Result<usize, Refusal>
    requires { lamps ≤ 512 }
    ensures result_value { answered result
        ≡ powered (summary (tree_of lamps (take (block_words lamps) room.old.block))) }
    ensures nodes_after { room.new.nodes
        ≡ tray nodes_written (nodes_reserve (get_or (take (block_words lamps) room.old.block) 0 0))
        (tree_of lamps (take (block_words lamps) room.old.block)) room.old.nodes }
    ensures table_after { room.new.table
        ≡ tray table_written (get_or (take (block_words lamps) room.old.block) 0 0)
        (tree_of lamps (take (block_words lamps) room.old.block)) room.old.table }
{
    let Room {
        block,
        nodes,
        table,
        work,
    } = room;
    let built = build_light_bvh(
        wide(lamps),
        &block[..block_words(lamps)],
        nodes,
        table,
        work,
    )?;
    Ok(built.map_or(0, |built| built.powered))
}

// The same from the block's bytes.
fn make_tree(lamps: u32, input: &[u8], room: &mut Room) -> Result<usize, Refusal>
    requires { (lamps ≤ 512) × (block_bytes lamps ≤ length input.now) }
    ensures result_value { answered result
        ≡ powered (summary (tree_of lamps (words_of (take (block_bytes lamps) input.now)))) }
    ensures nodes_after { room.new.nodes
        ≡ tray nodes_written (nodes_reserve (get_or (words_of (take (block_bytes lamps) input.now)) 0 0))
        (tree_of lamps (words_of (take (block_bytes lamps) input.now))) room.old.nodes }
    ensures table_after { room.new.table
        ≡ tray table_written (get_or (words_of (take (block_bytes lamps) input.now)) 0 0)
        (tree_of lamps (words_of (take (block_bytes lamps) input.now))) room.old.table }
{
    read_words(&input[..4 * block_words(lamps)], &mut room.block);
    build_tree(lamps, room)
}

// The tree of the block at the front of the input. Its nodes and its handle table stand at the front of the two trays.
fn take_tree(input: &[u8], room: &mut Room) -> Result<Taken, Refusal>
    ensures result_value { taken result ≡ sizes (report_tree input.now) }
    ensures nodes_after { room.new.nodes ≡ tray nodes_written (nodes_reserve (get_or (words_of input.now) 0 0))
        (report_tree input.now) room.old.nodes }
    ensures table_after { room.new.table ≡ tray table_written (get_or (words_of input.now) 0 0)
        (report_tree input.now) room.old.table }
{
    let lamps = block_lamps(input)?;
    let powered = make_tree(lamps, input, room)?;
    Ok(Taken { lamps, powered })
}

// ---- the first lines

// How many bytes a tree's nodes and its table have. Lengths stand beside their rooms here: rooms are arrays of fixed
// length, since there is no heap, and these say how much of each is used, from its front on.
#[derive(Clone, Copy)]
struct TreeEnds {
    nodes: usize,
    table: usize,
}

// What stands ready when the block is read: how many bytes the first lines have, and the tree's; or, of a bad block,
// the first lines alone, and that is all of the report.
#[derive(Clone, Copy)]
struct Opened {
    lines: usize,
    tree: Option<TreeEnds>,
}

// Draws walk the tree's words as bytes. The front is lent apart from tree and lines: they are written as it is read.
fn open_report(
    front: &[u8],
    room: &mut Room,
    tree: &mut WalkedTree,
    out: &mut [u8; LINES_BYTES],
) -> Opened
    ensures { Opens (report_tree front.now) result tree.old.nodes tree.old.table
        out.old tree.new.nodes tree.new.table out.new }
{
    let header = put_text(out, 0, b"lamp drawn named\n");
    match take_tree(front, room) {
        Ok(taken) => {
            let words = nodes_reserve(taken.powered as u32);
            let nodes = put_words(&mut tree.nodes, &room.nodes[..words]);
            let table = put_words(&mut tree.table, &room.table[..wide(taken.lamps)]);
            Opened {
                lines: header,
                tree: Some(TreeEnds { nodes, table }),
            }
        }
        Err(why) => Opened {
            lines: header + put_refused(out, header, why),
            tree: None,
        },
    }
}

// The same with room of its own for the block and the tree's words.
fn open_front(front: &[u8], tree: &mut WalkedTree, out: &mut [u8; LINES_BYTES]) -> Opened
    ensures { Opens (report_tree front.now) result tree.old.nodes tree.old.table
        out.old tree.new.nodes tree.new.table out.new }
{
    let mut room = Room {
        block: [0; BLOCK_WORDS],
        nodes: [0; NODES_WORDS],
        table: [0; REPORT_LAMPS],
        work: [0; 2 * REPORT_LAMPS],
    };
    open_report(front, &mut room, tree, out)
}

// ---- reading and writing

// Reads the block's bytes, as many as there are; how many.
fn read_front(front: &mut [u8; 4 * BLOCK_WORDS]) -> usize
    ensures { result ≤ 28676 }
{
    let head = io::read_full(0, &mut front[..4]);
    if head < 4 {
        return head;
    }
    let end = front_bytes(&front[..4]);
    4 + io::read_full(0, &mut front[4..end])
}

// Whether all of it was written, as `io::write_all` answers. A program has no exit status here, so one that cannot
// write says so. No public function in `text` for both programs: it could promise nothing, as `io::write_all`
// promises nothing, and the sentence names the program.
fn write(text: &[u8]) -> bool {
    if io::write_all(1, text) {
        return true;
    }
    io::write_all(2, b"columns: standard output could not be written whole\n");
    false
}

// Writes the block's lines; the contract says of which bytes.
fn write_first(front: &[u8], text: &[u8]) -> bool
    requires { text.now ≡ first_lines (report_tree front.now) }
{
    write(text)
}

// Writes a chunk's lines, likewise.
fn write_lines(front: &[u8], groups: &[u8], text: &[u8]) -> bool
    requires { text.now ≡ chunk_lines (report_tree front.now) groups.now }
{
    write(text)
}

// Reads a chunk of groups and writes its lines; whether there may be more. Chunk and lines are lent apart from front
// and tree: they are written as these are read. Front and tree are no struct: `front` is there for the contract
// alone, whose lines these are, and `tree` is what draws walk.
fn write_chunk(
    front: &[u8],
    tree: Tree,
    chunk: &mut [u8; CHUNK_BYTES],
    out: &mut [u8; LINES_BYTES],
) -> bool
    requires { (tree.nodes.now ≡ node_bytes (report_tree front.now))
        × (tree.table.now ≡ table_bytes (report_tree front.now)) }
{
    let n = io::read_full(0, chunk);
    let end = put_lines(tree, &chunk[..n], out);
    write_lines(front, &chunk[..n], &out[..end]) && n == chunk.len()
}

// The lines of all chunks, what is lent as in `write_chunk`. A proved loop has to end, and nothing says that the input
// does: no run comes to the last turn.
fn write_groups(
    front: &[u8],
    tree: Tree,
    chunk: &mut [u8; CHUNK_BYTES],
    out: &mut [u8; LINES_BYTES],
)
    requires { (tree.nodes.now ≡ node_bytes (report_tree front.now))
        × (tree.table.now ≡ table_bytes (report_tree front.now)) }
{
    for _ in 0..u64::MAX {
        if !write_chunk(front, tree, chunk, out) {
            break;
        }
    }
}

// ---- the report

// Behind a front that was read. It is lent apart from tree, chunk and lines, which are written while it is read.
fn write_report(
    front: &[u8],
    tree: &mut WalkedTree,
    chunk: &mut [u8; CHUNK_BYTES],
    out: &mut [u8; LINES_BYTES],
) {
    let opened = open_front(front, tree, out);
    if !write_first(front, &out[..opened.lines]) {
        return;
    }
    if let Some(ends) = opened.tree {
        let walked = Tree {
            nodes: &tree.nodes[..ends.nodes],
            table: &tree.table[..ends.table],
        };
        write_groups(front, walked, chunk, out);
    }
}

// The program `columns`, whole; all of its room is on the stack: 306 KiB. It gives nothing back: what it hands to
// standard output is what `write_first` and `write_lines` ask for.
pub fn columns()
    ensures { result ≡ tt }
{
    let mut front = [0; 4 * BLOCK_WORDS];
    let mut tree = WalkedTree {
        nodes: [0; 4 * NODES_WORDS],
        table: [0; 4 * REPORT_LAMPS],
    };
    let mut chunk = [0; CHUNK_BYTES];
    let mut out = [0; LINES_BYTES];
    let n = read_front(&mut front);
    write_report(&front[..n], &mut tree, &mut chunk, &mut out);
}
