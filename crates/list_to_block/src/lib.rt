// A lamp list on standard input, its bounds block on standard output (specs/ListToBlock.antt): little-endian words
// in, little-endian words out; or `refused N` and a line's end. Bytes that are no whole word make the list Ragged,
// unless it is over the limits: Crowded. A must-fail edit needs the checked modules of a library, so all of the
// program stands here and `lamps_to_block` only calls it.
#![tactic(auto)]

ghost use Rattle.std.specs.Prelude.{◌≡◌, ◌≤◌, length, get_or};
ghost use Rattle.std.proofs.lemmas.List.Edits.{sets};
ghost use Rattle.words.specs.Answers.{answered, count};
ghost use Rattle.words.specs.Tray.{tray};
ghost use Rattle.light_rows.specs.Block.{block_words, pack_exhaustive_bounds};
ghost use Rattle.list_to_block.specs.ListToBlock.{answered as answered_of, converted};

use lamps::build_bounds::build_light_bounds;
use light_rows::block::{EXHAUSTIVE_BOUNDS_WORDS, block_words};
use text::{put_refused, put_words};
use words::limits::{MAX_LAMPS, MAX_WORDS, crowded};
use words::little_endian::words_of_bytes;
use words::refusals::Refusal;

// The words that are read at a time.
const CHUNK_WORDS: usize = 0x4000;

const CHUNK_BYTES: usize = 4 * CHUNK_WORDS;

// The words of the longest list, and a chunk more.
const LIST_WORDS: usize = MAX_WORDS + CHUNK_WORDS;

// The words of the longest block. A constant's value can't call `block_words`.
const BLOCK_WORDS: usize = 1 + EXHAUSTIVE_BOUNDS_WORDS * MAX_LAMPS;

const BLOCK_BYTES: usize = 4 * BLOCK_WORDS;

// ---- the answer's bytes

// What was read: whole words, and how many stray bytes stand behind them.
#[derive(Clone, Copy)]
struct Input<'a> {
    words: &'a [u32],
    stray: usize,
}

// The block of what was read; how many lamps.
#[tactic(auto, unfolding(crate::specs::ListToBlock::answered, words::specs::Tray::tray))]
fn build(input: Input, block: &mut [u32; BLOCK_WORDS]) -> Result<usize, Refusal>
    ensures result_value { answered result ≡ count (answered_of input.entry.words.now input.entry.stray) }
    ensures block_after { block.new ≡ tray pack_exhaustive_bounds (block_words (get_or input.entry.words.now 0 0))
        (answered_of input.entry.words.now input.entry.stray) block.old }
{
    if crowded(input.words) {
        return Err(Refusal::Crowded);
    }
    if input.stray != 0 {
        return Err(Refusal::Ragged);
    }
    build_light_bounds(input.words, block)
}

// The answer's bytes, at the front of `out`; how many.
fn answer(input: Input, block: &mut [u32; BLOCK_WORDS], out: &mut [u8; BLOCK_BYTES]) -> usize
    ensures out_after { out.new ≡ sets out.old 0 (converted input.entry.words.now input.entry.stray) }
    ensures value { result ≡ length (converted input.entry.words.now input.entry.stray) }
{
    match build(input, block) {
        Ok(m) => {
            let end = block_words(m as u32);
            put_words(out, &block[..end])
        }
        Err(why) => put_refused(out, 0, why),
    }
}

// ---- reading and writing

// How many words stand at the front of the list's room, and how many stray bytes were behind them: a length beside its
// room, which is an array of fixed length, since there is no heap.
#[derive(Drop)]
struct Counts {
    words: usize,
    stray: usize,
}

// Reads standard input, a chunk at a time, until it ends or the list is full: then it is over 2^20 words, and what was
// read tells as much as all of it (proofs/ListToBlockLaws.antt).
fn read_list(list: &mut [u32; LIST_WORDS], chunk: &mut [u8; CHUNK_BYTES]) -> Counts
    ensures { result.words ≤ LIST_WORDS }
{
    // Not `step_by(CHUNK_WORDS)`: tried, it asks for a measure and an invariant where chunks by number ask for none.
    for i in 0..LIST_WORDS / CHUNK_WORDS {
        let start = CHUNK_WORDS * i;
        let n = io::read_full(0, chunk);
        let words = n / 4;
        // Whole words, for which there is room, are not refused.
        let _ = words_of_bytes(&chunk[..4 * words], &mut list[start..]);
        if n < CHUNK_BYTES {
            return Counts {
                words: start + words,
                stray: n % 4,
            };
        }
    }
    Counts {
        words: LIST_WORDS,
        stray: 0,
    }
}

// Hands the answer to standard output; what was read is there to say whose it is. A program has no exit status here, so
// one that cannot write says so. No public function in `text` for both programs: it could promise nothing, as
// `io::write_all` promises nothing, and the sentence names the program.
fn write(input: Input, text: &[u8])
    requires { text.now ≡ converted input.words.now input.stray }
{
    if io::write_all(1, text) {
        return;
    }
    io::write_all(
        2,
        b"lamps_to_block: standard output could not be written whole\n",
    );
}

fn run(
    list: &mut [u32; LIST_WORDS],
    block: &mut [u32; BLOCK_WORDS],
    chunk: &mut [u8; CHUNK_BYTES],
    out: &mut [u8; BLOCK_BYTES],
) {
    let Counts { words, stray } = read_list(list, chunk);
    let input = Input {
        words: &list[..words],
        stray,
    };
    let end = answer(input, block, out);
    write(input, &out[..end]);
}

// The program `lamps_to_block`, whole; all of its room is on the stack: 4.6 MiB. It gives nothing back: what it hands
// to standard output is what `write` asks for.
pub fn lamps_to_block()
    ensures { result ≡ tt }
{
    let mut list = [0u32; LIST_WORDS];
    let mut block = [0u32; BLOCK_WORDS];
    let mut chunk = [0u8; CHUNK_BYTES];
    let mut out = [0u8; BLOCK_BYTES];
    run(&mut list, &mut block, &mut chunk, &mut out);
}
