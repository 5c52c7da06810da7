// The bounds block (specs/Block.antt): the layout of pbrt-r4's `pack_exhaustive_bounds`, row by row, and read back. A
// count, then rows of a handle and a record. Where the words of a row stand is said here alone.
ghost use Rattle.std.specs.Prelude.{◌≡◌, cond, ◌+◌, ◌≤◌, length, get_or};
ghost use Rattle.std.proofs.lemmas.List.Edits.{sets};
ghost use Rattle.words.specs.Answers.{given, refused, answered};
ghost use Rattle.words.specs.Rows.{below};
ghost use Rattle.light_rows.specs.RecordWords.{read_record};
ghost use Rattle.light_rows.specs.Block.{block_words, bounds_words, bounds_row};
ghost use Rattle.light_rows.specs.AsCoded.BlockRow.{row_written};
ghost use Rattle.light_rows.specs.Block.{handle_place, record_place, side_at, block_layout, block_handles};

use super::record_words::{
    RECORD_WORDS, SIDE_PLACE, box_at, phi_at, record_or_zeros, write_record,
};
use light_bounds::bounds::Bounds3;
use light_bounds::light_bounds::LightBounds;
use light_bounds::side::is_side;
use words::limits::{crowded, fits};
use words::places::{wide, word_or_zero};
use words::refusals::Refusal;

// The words of a row: a handle and a record.
pub const EXHAUSTIVE_BOUNDS_WORDS: usize = 1 + RECORD_WORDS;

// ---- places

// The words of a block of m rows; a next row's handle stands behind them. m is a word, so that the sum can't overflow;
// callers that have a usize cast it back, which is proved lossless.
pub fn block_words(m: u32) -> usize
    ensures { result ≡ block_words m }
{
    1 + EXHAUSTIVE_BOUNDS_WORDS * wide(m)
}

// One behind the row's handle, written out as the definition is.
fn record_place(row: u32) -> usize
    ensures { result ≡ record_place row }
{
    2 + EXHAUSTIVE_BOUNDS_WORDS * wide(row)
}

// ---- a row, words past the block's end as 0

// The handle word of a row.
pub fn label(block: &[u32], row: u32) -> u32
    ensures { result ≡ get_or block.now (handle_place row) 0 }
{
    word_or_zero(block, block_words(row))
}

// The record of a row.
pub fn light(block: &[u32], row: u32) -> LightBounds
    ensures { result ≡ read_record block.now (record_place row) }
{
    record_or_zeros(block, record_place(row))
}

// Its box alone.
pub fn light_box(block: &[u32], row: u32) -> Bounds3
    ensures { result ≡ (read_record block.now (record_place row)).bounds }
{
    box_at(block, record_place(row))
}

// Its power alone.
pub fn light_phi(block: &[u32], row: u32) -> f32
    ensures { result ≡ (read_record block.now (record_place row)).phi }
{
    phi_at(block, record_place(row))
}

// Writes a row, its place as its handle; where there are too few words nothing is written.
#[tactic(auto, unfolding(crate::specs::AsCoded::BlockRow::row_written))]
pub fn write_row(block: &mut [u32], row: u32, record: LightBounds)
    ensures { block.new ≡ row_written block.old row «record» }
{
    if fits(block.len(), block_words(row), EXHAUSTIVE_BOUNDS_WORDS) {
        put_row(block, row, record);
    }
}

// By its place: the slice is the caller's, and a part of it would leave `write_row` to say what the rest keeps.
#[tactic(auto, unfolding(crate::specs::AsCoded::RecordRow::written_at))]
fn put_row(block: &mut [u32], row: u32, record: LightBounds)
    requires { handle_place row + bounds_words ≤ length block.old }
    ensures { block.new ≡ sets block.old (handle_place row) (bounds_row row «record») }
{
    block[block_words(row)] = row;
    write_record(block, record_place(row), record);
}

// ---- the block's checks; its records are not judged

// Over the limits is Crowded, a wrong length or an unknown side Ragged: how many rows there are.
#[tactic(auto, unfolding(crate::specs::Block::block_layout))]
pub fn check_layout(block: &[u32]) -> Result<usize, Refusal>
    ensures { answered result ≡ block_layout block.now }
{
    if crowded(block) {
        return Err(Refusal::Crowded);
    }
    let m = word_or_zero(block, 0);
    if block.len() == block_words(m) {
        return check_sides(block, m);
    }
    Err(Refusal::Ragged)
}

#[tactic(auto, unfolding(words::specs::Rows::below))]
fn check_sides(block: &[u32], m: u32) -> Result<usize, Refusal>
    requires { length block.now ≡ block_words m }
    ensures { answered result ≡ cond (below (side_at block.now) m) (given m) (refused 1) }
{
    for i in 0..m {
        if !is_side(block[record_place(i) + SIDE_PLACE]) {
            return Err(Refusal::Ragged);
        }
    }
    Ok(wide(m))
}

// A handle that is not its place is Misplaced; words past the end are read as 0.
#[tactic(auto, unfolding(crate::specs::Block::block_handles, words::specs::Rows::below))]
pub fn check_handles(block: &[u32]) -> Result<usize, Refusal>
    ensures { answered result ≡ block_handles block.now }
{
    let m = word_or_zero(block, 0);
    for i in 0..m {
        if label(block, i) != i {
            return Err(Refusal::Misplaced);
        }
    }
    Ok(wide(m))
}
