// The lamp list, read lamp by lamp (specs/LampList.antt).
ghost use Rattle.std.specs.Prelude.{◌≡◌, cond, ◌&&◌, ◌+◌, ◌≤◌, leb, eqb, length, get_or};
ghost use Rattle.words.specs.Answers.{given, refused, count, answered};
ghost use Rattle.lamps.specs.LampList.{first_lamp, lamp_at, triangles_of, handle};
ghost use Rattle.lamps.specs.LampList.{point_words, spot_words, group_words, group_end, group_fits};
ghost use Rattle.lamps.specs.LampList.{alone as alone_of, point_at, spot_at, group_at};
ghost use Rattle.lamps.specs.LampList.{list_side_known, lamp_list, placed_lamps};

use light_bounds::vecmath::Vec3;
use light_rows::record_words::vec_at;
use words::floats::Float;
use words::heads::{handle_of, kind_of};
use words::limits::{crowded, fits};
use words::places::{wide, word_or_zero};
use words::refusals::Refusal;

// The kinds of lamps, as the head of each has them.
const POINT_KIND: u32 = 1;

const SPOT_KIND: u32 = 2;

const GROUP_KIND: u32 = 3;

// The words of a point, of a spot, of a group before its triangles, and of a triangle.
const POINT_WORDS: usize = 6;

const SPOT_WORDS: usize = 11;

const GROUP_WORDS: usize = 5;

pub const TRIANGLE_WORDS: usize = 13;

// The reading place.
#[derive(Clone, Copy)]
pub struct Cursor {
    pub at: usize,
}

// `LightBoundInput`; a group's triangles stay beside it, where the list has them.
#[derive(Clone, Copy)]
pub enum Lamp {
    Point {
        handle: u32,
        world_position: Vec3,
        intensity_max: f32,
        scale: f32,
    },
    Spot {
        handle: u32,
        world_position: Vec3,
        direction: Vec3,
        intensity_max: f32,
        scale: f32,
        cos_theta_o: f32,
        cos_falloff_end: f32,
    },
    AreaGroup {
        handle: u32,
        emission_max: f32,
        scale: f32,
        two_sided: bool,
    },
}

// A lamp, the place where its triangles start, and the cursor past it; places and no slice, as the definitions have
// them (`alone`, `group_at`, `triangles_of`). A point or a spot has no triangles: they start where the next lamp
// does.
#[derive(Clone, Copy)]
pub struct Reading {
    pub lamp: Lamp,
    pub triangles: usize,
    pub next: Cursor,
}

impl Lamp {
    pub fn handle(self) -> u32
        ensures { result ≡ handle self }
    {
        match self {
            Lamp::Point { handle, .. } => handle,
            Lamp::Spot { handle, .. } => handle,
            Lamp::AreaGroup { handle, .. } => handle,
        }
    }
}

impl Cursor {
    // The first lamp, behind the count.
    pub fn new() -> Self
        ensures { result ≡ first_lamp }
    {
        Cursor { at: 1 }
    }

    // The lamp here, with the cursor moved past it.
    pub fn next(self, list: &[u32]) -> Result<Reading, Refusal>
        ensures { answered result ≡ lamp_at list.now self.at }
    {
        let at = self.at;
        match kind_of(word_or_zero(list, at)) {
            POINT_KIND => point_at(list, at),
            SPOT_KIND => spot_at(list, at),
            GROUP_KIND => group_at(list, at),
            _ => Err(Refusal::Ragged),
        }
    }
}

impl Reading {
    // The triangles of a group, thirteen words each: the list's own.
    pub fn triangles(self, list: &[u32]) -> &[u32]
        ensures { result.now ≡ triangles_of list.now self }
    {
        list.get(self.triangles..self.next.at).unwrap_or(&[])
    }
}

// ---- one lamp. Each reader asks that its own words lie in the list: the counts differ, and the definitions take list
// and place.

// A lamp without triangles that ends before `end`.
fn alone(lamp: Lamp, end: usize) -> Reading
    ensures { result ≡ alone_of lamp end }
{
    Reading {
        lamp,
        triangles: end,
        next: Cursor { at: end },
    }
}

// A point and a spot differ in the words that they read: one function of both would take width and reader.
fn point_at(list: &[u32], at: usize) -> Result<Reading, Refusal>
    ensures { answered result ≡ cond (leb (at + point_words) (length list.now))
        (given (point_at list.now at)) (refused 1) }
{
    if fits(list.len(), at, POINT_WORDS) {
        return Ok(read_point(list, at));
    }
    Err(Refusal::Ragged)
}

fn read_point(list: &[u32], at: usize) -> Reading
    requires { at + point_words ≤ length list.now }
    ensures { result ≡ point_at list.now at }
{
    let lamp = Lamp::Point {
        handle: handle_of(list[at]),
        world_position: vec_at(list, at + 1),
        intensity_max: f32::of_word(list[at + 4]),
        scale: f32::of_word(list[at + 5]),
    };
    alone(lamp, at + POINT_WORDS)
}

fn spot_at(list: &[u32], at: usize) -> Result<Reading, Refusal>
    ensures { answered result ≡ cond (leb (at + spot_words) (length list.now))
        (given (spot_at list.now at)) (refused 1) }
{
    if fits(list.len(), at, SPOT_WORDS) {
        return Ok(read_spot(list, at));
    }
    Err(Refusal::Ragged)
}

fn read_spot(list: &[u32], at: usize) -> Reading
    requires { at + spot_words ≤ length list.now }
    ensures { result ≡ spot_at list.now at }
{
    let lamp = Lamp::Spot {
        handle: handle_of(list[at]),
        world_position: vec_at(list, at + 1),
        direction: vec_at(list, at + 4),
        intensity_max: f32::of_word(list[at + 7]),
        scale: f32::of_word(list[at + 8]),
        cos_theta_o: f32::of_word(list[at + 9]),
        cos_falloff_end: f32::of_word(list[at + 10]),
    };
    alone(lamp, at + SPOT_WORDS)
}

fn group_at(list: &[u32], at: usize) -> Result<Reading, Refusal>
    ensures { answered result ≡ cond (leb (at + group_words) (length list.now) && group_fits list.now
        at)
        (given (group_at list.now at)) (refused 1) }
{
    if fits(list.len(), at, GROUP_WORDS) && group_fits(list, at) {
        return Ok(read_group(list, at));
    }
    Err(Refusal::Ragged)
}

// Whether a group's side is known and its triangles lie in the list. Their count may be anything up to 2^32 - 1: it is
// held against what is left by division.
fn group_fits(list: &[u32], at: usize) -> bool
    requires { at + group_words ≤ length list.now }
    ensures { result ≡ group_fits list.now at }
{
    is_list_side(list[at + 3])
        && wide(list[at + 4]) <= (list.len() - (at + GROUP_WORDS)) / TRIANGLE_WORDS
}

// Whether a group's side word is known. List and record are two layouts, so each has its own test.
fn is_list_side(w: u32) -> bool
    ensures { result ≡ list_side_known w }
{
    w <= 1
}

fn read_group(list: &[u32], at: usize) -> Reading
    requires group_words_in_bounds { at + group_words ≤ length list.now }
    requires at_in_bounds { group_end list.now at ≤ length list.now }
    ensures { result ≡ group_at list.now at }
{
    let triangles = at + GROUP_WORDS;
    let lamp = Lamp::AreaGroup {
        handle: handle_of(list[at]),
        emission_max: f32::of_word(list[at + 1]),
        scale: f32::of_word(list[at + 2]),
        two_sided: list[at + 3] == 1,
    };
    let end = triangles + TRIANGLE_WORDS * wide(list[at + 4]);
    Reading {
        lamp,
        triangles,
        next: Cursor { at: end },
    }
}

// ---- the list

// How many lamps a list has: over the limits is refusal 2, a wrong layout, kind or side 1, a handle that is not its
// place 4. The lamps' figures are not judged.
pub fn check_list(list: &[u32]) -> Result<usize, Refusal>
    ensures { answered result ≡ count (lamp_list list.now) }
{
    if crowded(list) {
        return Err(Refusal::Crowded);
    }
    check_lamps(list)
}

// As many lamps as word 0 says, then the list's end; then the handles: that one is misplaced is kept as a flag up to
// the list's end, since Ragged comes before Misplaced.
fn check_lamps(list: &[u32]) -> Result<usize, Refusal>
    ensures { answered result ≡ count (placed_lamps list.now) }
{
    let m = wide(word_or_zero(list, 0));
    let mut cursor = Cursor::new();
    let mut placed = true;
    for i in 0..m {
        let reading = cursor.next(list)?;
        placed = still_placed(placed, reading.lamp.handle(), i);
        cursor = reading.next;
    }
    if cursor.at != list.len() {
        return Err(Refusal::Ragged);
    }
    if !placed {
        return Err(Refusal::Misplaced);
    }
    Ok(m)
}

// Whether every handle so far is its place, this one too.
fn still_placed(placed: bool, handle: u32, place: usize) -> bool
    ensures { result ≡ placed && eqb handle place }
{
    placed && handle as usize == place
}
