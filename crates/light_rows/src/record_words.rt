// Records as words (specs/RecordWords.antt): box min and max, direction, phi, the two cosines, side. Where a record's
// words stand is said here alone. They are fetched by name, from words or from little-endian bytes
// (specs/AsCoded/RecordRow.antt), and one decoder makes the record of them.
ghost use Rattle.words.specs.Answers.{answered};
ghost use Rattle.std.specs.Prelude.{◌≡◌, ℕ, List, ◌<◌, get_or, length};
ghost use Rattle.ieee.specs.Single.{single};
ghost use Rattle.words.specs.LittleEndian.{words_of};
ghost use Rattle.words.specs.Refusals.{number};
ghost use Rattle.light_rows.specs.AsCoded.RecordRow.{triple_at, row_at, vec_of, record_of, judged_row, written_at};
ghost use Rattle.light_rows.specs.RecordWords.{phi_place, read_record, record_at, vec_at, box_at, record_list};

use light_bounds::bounds::Bounds3;
use light_bounds::cones::Cone;
use light_bounds::light_bounds::LightBounds;
use light_bounds::side::{Side, is_side};
use light_bounds::vecmath::Vec3;
use words::floats::Float;
use words::limits::fits;
use words::little_endian::word_at;
use words::places::word_or_zero;
use words::refusals::Refusal;

// The words of a record.
pub const RECORD_WORDS: usize = 13;

const RECORD_BYTES: usize = 4 * RECORD_WORDS;

// The places of a record's parts behind the box's min.
const MAX_PLACE: usize = 3;

const DIRECTION_PLACE: usize = 6;

const PHI_PLACE: usize = 9;

const COS_THETA_O_PLACE: usize = 10;

const COS_THETA_E_PLACE: usize = 11;

pub const SIDE_PLACE: usize = 12;

// A vector's words, which `vec_of` makes floats of.
#[derive(Clone, Copy)]
struct Triple {
    x: u32,
    y: u32,
    z: u32,
}

// A record's words, fetched by name, those past the end as 0: the compiler lays the row into registers
// (docs/DECISIONS.md).
#[derive(Drop)]
struct Row {
    min: Triple,
    max: Triple,
    direction: Triple,
    phi: u32,
    cos_theta_o: u32,
    cos_theta_e: u32,
    side: u32,
}

// ---- fetching: words past the end are 0

// Words as they are lent: a slice of them, or of their little-endian bytes.
pub trait Words: Copy {
    ghost words: { Self → List ℕ };

    // How many there are.
    fn count(self) -> usize
        ensures value { result ≡ length (words self) }
        ensures room { result < 0x8000_0000_0000_0000 };

    // The word at a place.
    fn word(self, place: usize) -> u32
        ensures { result ≡ get_or (words self) place 0 };
}

impl Words for &[u32] {
    ghost words = { λ s. s.now };

    fn count(self) -> usize {
        self.len()
    }

    fn word(self, place: usize) -> u32 {
        word_or_zero(self, place)
    }
}

impl Words for &[u8] {
    ghost words = { λ s. words_of s.now };

    fn count(self) -> usize {
        self.len() / 4
    }

    fn word(self, place: usize) -> u32 {
        word_at(self, place)
    }
}

fn triple_at<W: Words>(words: W, at: usize) -> Triple
    ensures { result ≡ triple_at (W.words words) at }
{
    if words.count() <= at {
        return Triple { x: 0, y: 0, z: 0 };
    }
    Triple {
        x: words.word(at),
        y: words.word(at + 1),
        z: words.word(at + 2),
    }
}

fn row_at<W: Words>(words: W, at: usize) -> Row
    ensures { result ≡ row_at (W.words words) at }
{
    let min = triple_at(words, at);
    if words.count() <= at {
        return Row {
            min,
            max: min,
            direction: min,
            phi: 0,
            cos_theta_o: 0,
            cos_theta_e: 0,
            side: 0,
        };
    }
    Row {
        min,
        max: triple_at(words, at + MAX_PLACE),
        direction: triple_at(words, at + DIRECTION_PLACE),
        phi: words.word(at + PHI_PLACE),
        cos_theta_o: words.word(at + COS_THETA_O_PLACE),
        cos_theta_e: words.word(at + COS_THETA_E_PLACE),
        side: words.word(at + SIDE_PLACE),
    }
}

// ---- decoding

fn vec_of(row: Triple) -> Vec3
    ensures { result ≡ vec_of row }
{
    Vec3 {
        x: f32::of_word(row.x),
        y: f32::of_word(row.y),
        z: f32::of_word(row.z),
    }
}

fn record_of(row: Row) -> LightBounds
    ensures { result ≡ record_of row }
{
    let min = vec_of(row.min);
    let max = vec_of(row.max);
    let cone = Cone {
        direction: vec_of(row.direction),
        cos_theta: f32::of_word(row.cos_theta_o),
    };
    LightBounds::new(
        Bounds3 { min, max },
        cone,
        f32::of_word(row.phi),
        f32::of_word(row.cos_theta_e),
        Side::from(row.side),
    )
}

// The side is judged; an unknown one is the refusal of whoever reads.
fn judged(row: Row, unknown: Refusal) -> Result<LightBounds, Refusal>
    ensures { answered result ≡ judged_row (number unknown) row }
{
    if is_side(row.side) {
        return Ok(record_of(row));
    }
    Err(unknown)
}

// ---- reading

// Three words as a vector, words past the end as 0.
#[tactic(auto, unfolding(crate::specs::RecordWords::vec_at))]
pub fn vec_at<W: Words>(words: W, at: usize) -> Vec3
    ensures { result ≡ vec_at (W.words words) at }
{
    vec_of(triple_at(words, at))
}

// The box of the record at a place, words past the end as 0.
#[tactic(auto, unfolding(crate::specs::RecordWords::vec_at))]
pub fn box_at(words: &[u32], at: usize) -> Bounds3
    ensures { result ≡ box_at words.now at }
{
    let min = vec_at(words, at);
    if words.len() <= at {
        return Bounds3 { min, max: min };
    }
    let max = vec_at(words, at + MAX_PLACE);
    Bounds3 { min, max }
}

// The power alone of the record at a place, 0 past the end.
pub fn phi_at(words: &[u32], at: usize) -> f32
    ensures { result ≡ single (get_or words.now (phi_place at) 0) }
{
    if words.len() <= at {
        return 0.0;
    }
    f32::of_word(word_or_zero(words, at + PHI_PLACE))
}

// The record at a place, words past the end as 0, whatever its side word; any but 1 is one-sided.
#[tactic(auto, unfolding(crate::specs::RecordWords::vec_at))]
pub fn record_or_zeros(words: &[u32], at: usize) -> LightBounds
    ensures { result ≡ read_record words.now at }
{
    record_of(row_at(words, at))
}

// The record at a place of lent words: none, or an unknown side, is Ragged.
#[tactic(auto, unfolding(crate::specs::RecordWords::record_at, crate::specs::RecordWords::vec_at))]
pub fn read_record(words: &[u32], at: usize) -> Result<LightBounds, Refusal>
    ensures { answered result ≡ record_at 1 words.now at }
{
    if fits(words.len(), at, RECORD_WORDS) {
        return judged(row_at(words, at), Refusal::Ragged);
    }
    Err(Refusal::Ragged)
}

// The record at a place of the little-endian bytes of a tree: none, or an unknown side, is BrokenTree. Not one
// function with `read_record` over `Words`: it was tried, and a record was then weighed in 102 ns, not 94, since the
// place of each word is tested. Here the record's bytes are cut out first, and their length is known.
pub fn read_record_bytes(bytes: &[u8], at: usize) -> Result<LightBounds, Refusal>
    ensures { answered result ≡ record_at 12 (words_of bytes.now) at }
{
    if fits(bytes.len() / 4, at, RECORD_WORDS) {
        let from = 4 * at;
        return judged(
            row_at(&bytes[from..from + RECORD_BYTES], 0),
            Refusal::BrokenTree,
        );
    }
    Err(Refusal::BrokenTree)
}

// ---- writing

// An array and no `Row`: a record is written only where there is room for all its words, so they are copied at once.
#[tactic(auto, unfolding(crate::specs::RecordWords::record_list))]
fn words_of_record(record: LightBounds) -> [u32; RECORD_WORDS]
    ensures { result ≡ record_list «record» }
{
    let Bounds3 { min, max } = record.bounds;
    let direction = record.direction;
    [
        min.x.word(),
        min.y.word(),
        min.z.word(),
        max.x.word(),
        max.y.word(),
        max.z.word(),
        direction.x.word(),
        direction.y.word(),
        direction.z.word(),
        record.phi.word(),
        record.cos_theta_o.word(),
        record.cos_theta_e.word(),
        u32::from(record.side),
    ]
}

// Writes the record; where there are too few words nothing is written. At a place: the slice is the caller's, and a
// part of it would leave each caller to say what the rest keeps.
#[tactic(auto, unfolding(crate::specs::AsCoded::RecordRow::written_at))]
pub fn write_record(words: &mut [u32], at: usize, record: LightBounds)
    ensures { words.new ≡ written_at words.old at «record» }
{
    if fits(words.len(), at, RECORD_WORDS) {
        words[at..at + RECORD_WORDS].copy_from_slice(&words_of_record(record));
    }
}
