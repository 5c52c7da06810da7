// `build_light_bounds` of pbrt-r4's light_bounds.rs: a lamp list in, a bounds block out (specs/BuildBounds.antt).
ghost use Rattle.std.specs.Prelude.{◌≡◌, ◌≤◌, length, get_or};
ghost use Rattle.words.specs.Answers.{given, count, answered};
ghost use Rattle.words.specs.Tray.{tray};
ghost use Rattle.light_rows.specs.Block.{block_words, pack_exhaustive_bounds};
ghost use Rattle.lamps.specs.BuildBounds.{build_light_bounds};
ghost use Rattle.lamps.specs.AsCoded.Passed.{next_bounds};
ghost use Rattle.lamps.specs.LampList.{lamp_list};

use super::lamp_bounds::light_bounds_for_input;
use super::lamp_list::{Cursor, check_list};
use light_bounds::light_bounds::LightBounds;
use light_rows::block::{block_words, write_row};
use words::fill::zero_words;
use words::refusals::Refusal;

// The bounds of the lamp at a cursor, and the cursor past it.
#[derive(Clone, Copy)]
struct Passed {
    bounds: LightBounds,
    next: Cursor,
}

fn next_bounds(list: &[u32], cursor: Cursor) -> Result<Passed, Refusal>
    ensures { answered result ≡ next_bounds list.now cursor.at }
{
    let reading = cursor.next(list)?;
    let bounds = light_bounds_for_input(reading.lamp, reading.triangles(list))?;
    Ok(Passed {
        bounds,
        next: reading.next,
    })
}

// The block of a list: 1 + 14m words, the side last in each record. Refusals 2, 1, 4, 3 leave the lent words as they
// are, later ones zero 1 + 14m of them.
pub fn build_light_bounds(list: &[u32], block: &mut [u32]) -> Result<usize, Refusal>
    ensures result_value { answered result ≡ count (build_light_bounds list.now (length block.old)) }
    ensures block_after { block.new ≡ tray pack_exhaustive_bounds (block_words (get_or list.now 0 0))
        (build_light_bounds list.now (length block.old)) block.old }
{
    let m = check_list(list)?;
    if block.len() < block_words(m as u32) {
        return Err(Refusal::ShortTray);
    }
    write_block(list, m, block)
}

// The block of a list that was read as m lamps, or zeros in its place.
fn write_block(list: &[u32], m: usize, block: &mut [u32]) -> Result<usize, Refusal>
    requires list_value { count (lamp_list list.now) ≡ given m }
    requires m_in_bounds { block_words m ≤ length block.old }
    ensures result_value { answered result ≡ count (build_light_bounds list.now (length block.old)) }
    ensures block_after { block.new ≡ tray pack_exhaustive_bounds (block_words (get_or list.now 0 0))
        (build_light_bounds list.now (length block.old)) block.old }
{
    block[0] = m as u32;
    let mut cursor = Cursor::new();
    for place in 0..m {
        match next_bounds(list, cursor) {
            Ok(passed) => {
                write_row(block, place as u32, passed.bounds);
                cursor = passed.next;
            }
            Err(why) => {
                zero_words(block, 0, block_words(m as u32));
                return Err(why);
            }
        }
    }
    Ok(m)
}
