// What only the differential runs and the benchmarks call, for C and Rust: plain numbers, slices as a pointer and a
// length, answers as words. What a renderer calls is in light_c.
// Functions told by a number, and flat parameters, are those of the C interface.
#![tactic(auto)]

ghost use Rattle.std.specs.Prelude.{◌≡◌, ℕ, ◌*◌, ◌/◌, ◌≤◌, get_or, length};
ghost use Rattle.std.specs.Float.{binary32, binary64};
ghost use Rattle.std.specs.Float.Ieee.{of_bits, to_bits};
ghost use Rattle.ieee.specs.Choose.{clamp, is_sign_negative};
ghost use Rattle.ieee.specs.Narrow.{narrow};
ghost use Rattle.ieee.specs.Sqrt.{sqrt};
ghost use Rattle.words.specs.AsCoded.Fill.{filled};
ghost use Rattle.words.specs.LittleEndian.{words_of, bytes_of};
ghost use Rattle.words.specs.AsCoded.WordSlices.{set_word, word_count, read_words, written_words};
ghost use Rattle.words.specs.Answers.{code, answered};
ghost use Rattle.words.specs.Tray.{tray};
ghost use Rattle.light_bounds.specs.LightBounds.{union as union_of};
ghost use Rattle.light_rows.specs.RecordWords.{record_list, record_words};
ghost use Rattle.light_rows.specs.Block.{block_check};
ghost use Rattle.light_c.specs.Codes.{value_code};
ghost use Rattle.parts_c.specs.LibraryFunctions.{of_one, of_two, angle_of, to_whole};
ghost use Rattle.parts_c.specs.PartCodes.{count_code, validate_words, importance_words, union_words};

use light_bounds::importance::importance;
use light_bounds::light_bounds::{LightBounds, union, validate};
use light_rows::block::{check_handles, check_layout};
use light_rows::query_words::{QUERY_WORDS, query_of};
use light_rows::record_words::{RECORD_WORDS, read_record, write_record};
use words::answers::code;
use words::fill::zero_words;
use words::floats::Float;
use words::refusals::Refusal;

// ---- words and floats: plain numbers, and slices as a pointer and a length

// The functions of one number, by a number of their own, as C passes one; the number itself past the last.
#[unsafe(no_mangle)]
pub extern "C" fn floats_of_one(which: u32, x: f32) -> f32
    ensures { result ≡ of_one which x }
{
    match which {
        0 => floats::choose::abs(x),
        1 => floats::whole::floor(x),
        2 => floats::whole::ceil(x),
        3 => floats::whole::round(x),
        4 => floats::sqrt::sqrt(x),
        _ => x,
    }
}

// The same of angles and cosines.
#[unsafe(no_mangle)]
pub extern "C" fn trig_of_one(which: u32, x: f32) -> f32
    ensures { result ≡ angle_of which x }
{
    match which {
        0 => trig::cos(x),
        1 => trig::sin(x),
        2 => trig::acos(x),
        3 => trig::asin(x),
        _ => x,
    }
}

// The same of two; the first of them past the last.
#[unsafe(no_mangle)]
pub extern "C" fn floats_of_two(which: u32, x: f32, y: f32) -> f32
    ensures { result ≡ of_two which x y }
{
    match which {
        0 => floats::choose::min(x, y),
        1 => floats::choose::max(x, y),
        _ => x,
    }
}

// The casts to whole numbers and the word of a float, by a number of their own; 0 past the last. A usize is cast, since
// Rust has no `From` of it.
#[unsafe(no_mangle)]
pub extern "C" fn floats_to_whole(which: u32, x: f32) -> u64
    ensures { result ≡ to_whole which x }
{
    match which {
        0 => u64::from(floats::whole::to_u16(x)),
        1 => u64::from(floats::whole::to_u32(x)),
        2 => floats::whole::to_usize(x) as u64,
        3 => u64::from(x.word()),
        _ => 0,
    }
}

#[unsafe(no_mangle)]
pub extern "C" fn floats_clamp(x: f32, lo: f32, hi: f32) -> f32
    ensures { result ≡ clamp x lo hi }
{
    floats::choose::clamp(x, lo, hi)
}

#[unsafe(no_mangle)]
pub extern "C" fn floats_is_sign_negative(x: f32) -> bool
    ensures { result ≡ is_sign_negative x }
{
    floats::choose::is_sign_negative(x)
}

#[unsafe(no_mangle)]
pub extern "C" fn floats_sqrt64(x: f64) -> f64
    ensures { result ≡ sqrt binary64 x }
{
    floats::sqrt::sqrt(x)
}

#[unsafe(no_mangle)]
pub extern "C" fn floats_narrow(x: f64) -> f32
    ensures { result ≡ narrow x }
{
    floats::narrow::narrow(x)
}

#[unsafe(no_mangle)]
pub extern "C" fn floats_widen(x: f32) -> f64
    ensures { result ≡ x }
{
    floats::narrow::widen(x)
}

#[unsafe(no_mangle)]
pub extern "C" fn words_f32_of_word(w: u32) -> f32
    ensures { result ≡ of_bits binary32 w }
{
    f32::of_word(w)
}

#[unsafe(no_mangle)]
pub extern "C" fn words_f64_of_word(w: u64) -> f64
    ensures { result ≡ of_bits binary64 w }
{
    f64::of_word(w)
}

#[unsafe(no_mangle)]
pub extern "C" fn words_word_of_f64(x: f64) -> u64
    ensures { result ≡ to_bits binary64 x }
{
    x.word()
}

#[unsafe(no_mangle)]
pub extern "C" fn words_word_at(bytes: &[u8], place: usize) -> u32
    ensures { result ≡ get_or (words_of bytes.now) place 0 }
{
    words::little_endian::word_at(bytes, place)
}

#[unsafe(no_mangle)]
pub extern "C" fn words_set_word(bytes: &mut [u8], place: usize, w: u32)
    ensures { bytes.new ≡ set_word bytes.old place w }
{
    words::little_endian::set_word(bytes, place, w);
}

#[unsafe(no_mangle)]
pub extern "C" fn words_fill(s: &mut [u32], from: usize, to: usize, v: u32)
    ensures { s.new ≡ filled s.old from to v }
{
    words::fill::fill(s, from, to, v);
}

// The largest usize where the length is no multiple of four.
#[unsafe(no_mangle)]
pub extern "C" fn words_word_count(bytes: &[u8]) -> usize
    ensures { result ≡ count_code (word_count bytes.now) }
{
    words::little_endian::word_count(bytes).unwrap_or(usize::MAX)
}

// 0 where it is done, else the refusal's number.
#[unsafe(no_mangle)]
pub extern "C" fn words_words_of_bytes(bytes: &[u8], words: &mut [u32]) -> u32
    ensures value { result ≡ code (read_words bytes.now (length words.old)) }
    ensures words_after { words.new ≡
        tray (λ (n : ℕ). words_of bytes.now) (length bytes.now / 4)
        (read_words bytes.now (length words.old)) words.old }
{
    code(words::little_endian::words_of_bytes(bytes, words))
}

#[unsafe(no_mangle)]
pub extern "C" fn words_bytes_of_words(words: &[u32], bytes: &mut [u8]) -> u32
    ensures value { result ≡ code (written_words words.now (length bytes.old)) }
    ensures bytes_after { bytes.new ≡
        tray (λ (n : ℕ). bytes_of words.now) (4 * length words.now)
        (written_words words.now (length bytes.old)) bytes.old }
{
    code(words::little_endian::bytes_of_words(words, bytes))
}

// ---- bounds of lamps, records and queries as slices of words

#[tactic(auto, using(words::proofs::AnswerLaws::steps), unfolding(crate::specs::PartCodes::validate_words))]
fn validate_words(record: &[u32]) -> Result<(), Refusal>
    ensures { answered result ≡ validate_words «record».now }
{
    validate(read_record(record, 0)?)
}

// 0, or the refusal's number.
#[unsafe(no_mangle)]
pub extern "C" fn bounds_validate(record: &[u32]) -> u32
    ensures { result ≡ code (validate_words «record».now) }
{
    code(validate_words(record))
}

#[tactic(auto, using(words::proofs::AnswerLaws::steps), unfolding(crate::specs::PartCodes::importance_words))]
fn importance_words(record: &[u32], query: &[u32]) -> Result<f32, Refusal>
    ensures { answered result ≡ importance_words «record».now query.now }
{
    if query.len() < QUERY_WORDS {
        return Err(Refusal::Ragged);
    }
    importance(read_record(record, 0)?, query_of(query))
}

// The importance's bits, or 2^32 and the refusal's number.
#[unsafe(no_mangle)]
pub extern "C" fn bounds_importance(record: &[u32], query: &[u32]) -> u64
    ensures { result ≡ value_code (importance_words «record».now query.now) }
{
    value_code(importance_words(record, query))
}

// A value's bits, or 2^32 and the refusal's number. light_c has its own: none of the code here calls light_c.
fn value_code(answer: Result<f32, Refusal>) -> u64
    ensures { result ≡ value_code (answered answer) }
{
    match answer {
        Ok(x) => u64::from(x.word()),
        Err(why) => 0x1_0000_0000 + u64::from(why.number()),
    }
}

// The union of two records, its words written, or zeros where it is refused.
fn write_union(a: LightBounds, b: LightBounds, out: &mut [u32]) -> Result<LightBounds, Refusal>
    requires { record_words ≤ length out.old }
    ensures result_value { answered result ≡ union_of a b }
    ensures out_after { out.new ≡ tray record_list record_words (union_of a b) out.old }
{
    let answer = union(a, b);
    match answer {
        Ok(record) => write_record(out, 0, record),
        Err(_) => zero_words(out, 0, RECORD_WORDS),
    }
    answer
}

fn union_words(a: &[u32], b: &[u32], out: &mut [u32]) -> Result<LightBounds, Refusal>
    ensures result_value { answered result ≡ union_words a.now b.now (length out.old) }
    ensures out_after { out.new ≡
        tray record_list record_words (union_words a.now b.now (length out.old))
        out.old }
{
    let first = read_record(a, 0)?;
    let second = read_record(b, 0)?;
    if out.len() < RECORD_WORDS {
        return Err(Refusal::ShortTray);
    }
    write_union(first, second, out)
}

// 0, or the refusal's number.
#[unsafe(no_mangle)]
pub extern "C" fn bounds_union(a: &[u32], b: &[u32], out: &mut [u32]) -> u32
    ensures value { result ≡ code (union_words a.now b.now (length out.old)) }
    ensures out_after { out.new ≡
        tray record_list record_words (union_words a.now b.now (length out.old))
        out.old }
{
    code(union_words(a, b, out))
}

// ---- the bounds block's check

// The layout before the handles.
#[tactic(auto, using(words::proofs::AnswerLaws::steps), unfolding(light_rows::specs::Block::block_check))]
fn check_block(block: &[u32]) -> Result<usize, Refusal>
    ensures { answered result ≡ block_check block.now }
{
    check_layout(block)?;
    check_handles(block)
}

// 0, or the refusal's number.
#[unsafe(no_mangle)]
pub extern "C" fn lamps_check_block(block: &[u32]) -> u32
    ensures { result ≡ code (block_check block.now) }
{
    code(check_block(block))
}
