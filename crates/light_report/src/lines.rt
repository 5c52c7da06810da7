// The report's lines (specs/Lines.antt): what a group draws, and how a line is written into a lent slice.
ghost use Rattle.std.specs.Prelude.{◌≡◌, ◌+◌, ◌*◌, ◌/◌, ◌≤◌, length};
ghost use Rattle.std.proofs.Math.Option.{some};
ghost use Rattle.std.proofs.lemmas.List.Edits.{sets};
ghost use Rattle.words.specs.Answers.{given};
ghost use Rattle.words.specs.LittleEndian.{words_of};
ghost use Rattle.text.specs.AsCoded.Puts.{Put};
ghost use Rattle.light_report.specs.Lines.{line, line_bytes, chance_bytes, group_shown};
ghost use Rattle.light_report.specs.Lines.{group_line, report_lines};

use light_rows::query_words::{QUERY_WORDS, float_at, query_of};
use light_sampler::pmf::bvh_light_sampler_pmf;
use light_sampler::sample::{SampledLight, bvh_light_sampler_sample};
use text::{put_decimal, put_hex, put_refused, put_text};
use words::floats::Float;
use words::refusals::Refusal;

// A tree's bytes as draws walk them: its nodes and its handle table.
#[derive(Clone, Copy)]
pub struct Tree<'a> {
    pub nodes: &'a [u8],
    pub table: &'a [u8],
}

// What a line shows of a lamp: its chance as drawn and its chance by name.
#[derive(Clone, Copy)]
pub struct Line {
    pub handle: u32,
    pub drawn: f32,
    pub named: f32,
}

// The bytes of a group.
pub const GROUP_BYTES: usize = 4 * (QUERY_WORDS + 1);

// What a line has at the most: ten digits, a space, eight digits, a space, eight digits, the end.
pub const LINE_BYTES: usize = 29;

// ---- what a group draws

// Words past a group's end are read as 0.
#[tactic(auto, using(words::proofs::AnswerLaws::steps), unfolding(crate::specs::Lines::named))]
fn draw_group(tree: Tree, group: &[u8]) -> Result<Option<Line>, Refusal>
    ensures { line result ≡ group_shown tree.entry.nodes.now tree.entry.table.now (words_of group.now) }
{
    let query = query_of(group);
    let u = float_at(group, QUERY_WORDS);
    let Some(SampledLight { light, pmf }) = bvh_light_sampler_sample(tree.nodes, query, u)? else {
        return Ok(None);
    };
    let named = bvh_light_sampler_pmf(tree.nodes, tree.table, query, light)?;
    Ok(Some(Line {
        handle: light,
        drawn: pmf,
        named,
    }))
}

// ---- how it is written, at a place of the lent slice, as `text` writes

// Each asks for the room of what it may write, a whole line but for `put_chance`, since a line's length is known only
// then. No type asks that: a struct of slice and place would have to promise of each call that it keeps the slice.

// Writes a space and a float's bits; the place behind them.
fn put_chance(out: &mut [u8], at: usize, x: f32) -> usize
    requires { at + 9 ≤ length out.old }
    ensures put { Put out.old at (chance_bytes x) out.new result }
    ensures value { result ≡ at + 9 }
{
    out[at] = b' ';
    let digits_at = at + 1;
    digits_at + put_hex(out, digits_at, x.word())
}

fn put_lamp(out: &mut [u8], at: usize, lamp: Line) -> usize
    requires { at + 29 ≤ length out.old }
    ensures put { Put out.old at (line_bytes (given (some (lamp.handle, (lamp.drawn, lamp.named)))))
        out.new result }
    ensures upper_bound { result ≤ at + 29 }
{
    let drawn_at = at + put_decimal(out, at, lamp.handle);
    let named_at = put_chance(out, drawn_at, lamp.drawn);
    let end = put_chance(out, named_at, lamp.named);
    out[end] = b'\n';
    end + 1
}

// Writes a line; the place behind it.
pub(crate) fn put_line(out: &mut [u8], at: usize, shown: Result<Option<Line>, Refusal>) -> usize
    requires { at + 29 ≤ length out.old }
    ensures out_after { out.new ≡ sets out.old at (line_bytes (line shown)) }
    ensures value { result ≡ at + length (line_bytes (line shown)) }
    ensures upper_bound { result ≤ at + 29 }
{
    match shown {
        Ok(Some(lamp)) => put_lamp(out, at, lamp),
        Ok(None) => at + put_text(out, at, b"none\n"),
        Err(why) => at + put_refused(out, at, why),
    }
}

// ---- the lines of the bytes behind the block

// Writes the line of a group; the place behind it.
fn put_group(tree: Tree, group: &[u8], out: &mut [u8], at: usize) -> usize
    requires { at + 29 ≤ length out.old }
    ensures put { Put out.old at
        (group_line tree.entry.nodes.now tree.entry.table.now group.now) out.new result }
    ensures upper_bound { result ≤ at + 29 }
{
    put_line(out, at, draw_group(tree, group))
}

// Writes the lines of groups, and of a part group behind them; how many bytes these are.
pub(crate) fn put_lines(tree: Tree, groups: &[u8], out: &mut [u8]) -> usize
    requires { 29 * (length groups.now / 28) + 29 ≤ length out.old }
    ensures out_after { out.new
        ≡ sets out.old 0 (report_lines tree.entry.nodes.now tree.entry.table.now groups.now) }
    ensures value { result ≡ length (report_lines tree.entry.nodes.now tree.entry.table.now groups.now) }
    ensures upper_bound { result ≤ length out.old }
{
    let mut at = 0;
    for group in groups.chunks_exact(GROUP_BYTES) {
        at = put_group(tree, group, out, at);
    }
    if groups.len() % GROUP_BYTES == 0 {
        return at;
    }
    put_line(out, at, Err(Refusal::Ragged))
}
