// The light tree for C and Rust, as `include/light_tree.h` tells it: a block from a lamp list, build, draw, chance by
// name, packing, the power alias table, and the library's version. Each but the last is its function with numbers and
// slices for arguments and a number for its answer, and promises what that promises. Draw, chance and packing read and
// write a tree as bytes, little-endian; the others take words. `light_exports` exports them.
// Parameters are flat, numbers and slices beside each other: they are those of the C interface.
#![tactic(auto)]

ghost use Rattle.std.specs.Prelude.{◌≡◌, List, [], ◌∷◌, ◌*◌, ◌^◌, ◌≤◌, ◌<◌, get_or, length};
ghost use Rattle.std.proofs.Math.Option.{some};
ghost use Rattle.std.proofs.lemmas.List.Edits.{sets};
ghost use Rattle.words.specs.Answers.{code, refused, answered, optional};
ghost use Rattle.words.specs.Refusals.{number};
ghost use Rattle.words.specs.Tray.{tray};
ghost use Rattle.light_rows.specs.Block.{block_words, pack_exhaustive_bounds};
ghost use Rattle.lamps.specs.BuildBounds.{build_light_bounds};
ghost use Rattle.light_bounds.specs.Vecmath.{vec};
ghost use Rattle.light_bvh.specs.Build.{nodes_written, table_written, work_written, nodes_reserve, work_reserve};
ghost use Rattle.light_sampler.specs.Sampler.{sample, pmf, drawn};
ghost use Rattle.packed_bvh.specs.Packed.{pack_light_bvh, packed, packed_bytes, bytes_reserve, words_packed};
ghost use Rattle.alias_table.specs.AliasTable.{Bin, build_power_alias_table, bin_words};
ghost use Rattle.light_c.specs.Codes.{answer_reserve, box_words, summary_list, build_answered};
ghost use Rattle.light_c.specs.AsCoded.ShortAnswer.{short_answer};
ghost use Rattle.light_c.specs.Codes.{query_at, draw_code, value_code, packed_code, box_of};
ghost use Rattle.light_c.specs.Version.{library_version};

use alias_table::build_power_alias_table;
use lamps::build_bounds::build_light_bounds;
use light_bounds::bounds::Bounds3;
use light_bounds::importance::Query;
use light_bounds::vecmath::Vec3;
use light_bvh::build::{Built, build_light_bvh, check_build};
use light_sampler::pmf::bvh_light_sampler_pmf;
use light_sampler::sample::{SampledLight, bvh_light_sampler_sample};
use packed_bvh::pack::pack_light_bvh;
use words::answers::code;
use words::fill::zero_words;
use words::floats::Float;
use words::refusals::Refusal;

// ---- the lamp list to the bounds block

// 0, or the refusal's number.
pub fn light_bounds_block(list: &[u32], block: &mut [u32]) -> u32
    ensures value { result ≡ code (build_light_bounds list.now (length block.old)) }
    ensures block_after { block.new ≡ tray pack_exhaustive_bounds (block_words (get_or list.now 0 0))
        (build_light_bounds list.now (length block.old)) block.old }
{
    code(build_light_bounds(list, block))
}

// ---- the tree

// The words of build's answer: k and the box's two corners.
pub const ANSWER_WORDS: usize = 7;

fn write_summary(answer: &mut [u32], built: Built)
    requires k_bound { built.powered < 2 ^ 32 }
    requires answer_reserve_in_bounds { answer_reserve ≤ length answer.old }
    ensures { answer.new ≡ sets answer.old 0 (built.powered ∷ box_words (some built.bounds)) }
{
    let Bounds3 { min, max } = built.bounds;
    answer[..ANSWER_WORDS].copy_from_slice(&[
        built.powered as u32,
        min.x.word(),
        min.y.word(),
        min.z.word(),
        max.x.word(),
        max.y.word(),
        max.z.word(),
    ]);
}

// The refusal's number; but for the four that leave the lent words as they are, it zeroes the answer.
fn refuse_build(answer: &mut [u32], why: Refusal) -> u32
    requires { answer_reserve ≤ length answer.old }
    ensures value { result ≡ number why }
    ensures answer_after { answer.new ≡ tray summary_list answer_reserve (refused (number why)) answer.old }
{
    match why {
        Refusal::Ragged | Refusal::Crowded | Refusal::ShortTray | Refusal::Misplaced => {}
        _ => zero_words(answer, 0, ANSWER_WORDS),
    }
    why.number()
}

// The number where the answer is short: the refusals before it come first.
#[tactic(auto, using(words::proofs::AnswerLaws::steps), unfolding(crate::specs::AsCoded::ShortAnswer::short_answer))]
fn refuse_short(lights: usize, block: &[u32], nodes: usize, table: usize, work: usize) -> u32
    ensures { refused result ≡ short_answer lights block.now nodes table work }
{
    match check_build(lights, block, nodes, table, work) {
        Ok(_) => Refusal::ShortTray.number(),
        Err(why) => why.number(),
    }
}

// 0, with k and the box in the answer's seven words, zeros for an absent box; or the refusal's number.
pub fn light_build(
    lights: usize,
    block: &[u32],
    nodes: &mut [u32],
    table: &mut [u32],
    work: &mut [u32],
    answer: &mut [u32],
) -> u32
    ensures value { result ≡ code
        (build_answered lights block.now (length nodes.old) (length table.old)
        (length work.old) (length answer.old)) }
    ensures nodes_after { nodes.new ≡ tray nodes_written (nodes_reserve (get_or block.now 0 0))
        (build_answered lights block.now (length nodes.old) (length table.old)
        (length work.old) (length answer.old)) nodes.old }
    ensures table_after { table.new ≡ tray table_written (get_or block.now 0 0)
        (build_answered lights block.now (length nodes.old) (length table.old)
        (length work.old) (length answer.old)) table.old }
    ensures work_after { work.new ≡ tray work_written (work_reserve (get_or block.now 0 0))
        (build_answered lights block.now (length nodes.old) (length table.old)
        (length work.old) (length answer.old)) work.old }
    ensures answer_after { answer.new ≡ tray summary_list answer_reserve
        (build_answered lights block.now (length nodes.old) (length table.old)
        (length work.old) (length answer.old)) answer.old }
{
    if answer.len() < ANSWER_WORDS {
        return refuse_short(lights, block, nodes.len(), table.len(), work.len());
    }
    match build_light_bvh(lights, block, nodes, table, work) {
        Ok(Some(built)) => {
            write_summary(answer, built);
            0
        }
        Ok(None) => {
            zero_words(answer, 0, ANSWER_WORDS);
            0
        }
        Err(why) => refuse_build(answer, why),
    }
}

// ---- draws and chances

fn vec3(x: f32, y: f32, z: f32) -> Vec3
    ensures { result ≡ vec x y z }
{
    Vec3 { x, y, z }
}

// Point, normal.
fn query_at(px: f32, py: f32, pz: f32, nx: f32, ny: f32, nz: f32) -> Query
    ensures { result ≡ query_at px py pz nx ny nz }
{
    let p = vec3(px, py, pz);
    let n = vec3(nx, ny, nz);
    Query { p, n }
}

// A draw as one number, which C can take.
fn draw_code(answer: Result<Option<SampledLight>, Refusal>) -> u64
    ensures { result ≡ draw_code (drawn answer) }
{
    match answer {
        Ok(Some(SampledLight { light, pmf })) => u64::from(light) * 0x1_0000_0000
            + u64::from(pmf.word()),
        Ok(None) => 0x4000_0000_0000_0000,
        Err(why) => 0x8000_0000_0000_0000 + u64::from(why.number()),
    }
}

// The light above its chance's bits; 2^62 where none is drawn, 2^63 and the refusal's number.
pub fn light_sample(
    nodes: &[u8],
    px: f32,
    py: f32,
    pz: f32,
    nx: f32,
    ny: f32,
    nz: f32,
    u: f32,
) -> u64
    ensures { result ≡ draw_code (sample nodes.now (query_at px py pz nx ny nz) u) }
{
    draw_code(bvh_light_sampler_sample(nodes, query_at(px, py, pz, nx, ny, nz), u))
}

// A value's bits, or 2^32 and the refusal's number: one number, which C can take.
pub fn value_code(answer: Result<f32, Refusal>) -> u64
    ensures { result ≡ value_code (answered answer) }
{
    match answer {
        Ok(x) => u64::from(x.word()),
        Err(why) => 0x1_0000_0000 + u64::from(why.number()),
    }
}

// The chance's bits, or 2^32 and the refusal's number.
pub fn light_pmf(
    nodes: &[u8],
    table: &[u8],
    px: f32,
    py: f32,
    pz: f32,
    nx: f32,
    ny: f32,
    nz: f32,
    handle: u32,
) -> u64
    ensures { result ≡ value_code (pmf nodes.now table.now (query_at px py pz nx ny nz) handle) }
{
    value_code(bvh_light_sampler_pmf(nodes, table, query_at(px, py, pz, nx, ny, nz), handle))
}

// ---- the packed tree

// The box of two corners, or its absence.
#[tactic(auto, unfolding(crate::specs::Codes::box_of))]
fn box_of(present: u32, min: Vec3, max: Vec3) -> Option<Bounds3>
    ensures { optional result ≡ box_of present min.x min.y min.z max.x max.y max.z }
{
    if present == 0 {
        return None;
    }
    Some(Bounds3 { min, max })
}

// How many words were packed, as one number, which C can take. A usize is cast: Rust has no `From` of it to u64.
fn packed_code(answer: Result<Option<usize>, Refusal>) -> u64
    ensures { result ≡ packed_code (packed answer) }
{
    match answer {
        Ok(Some(n)) => n as u64,
        Ok(None) => 0x1_0000_0000,
        Err(why) => 0x2_0000_0000 + u64::from(why.number()),
    }
}

// How many words were packed, 2^32 where there is no tree, or 2^33 and the refusal's number. There is no overall box
// where `present` is 0, since C has no `Option`.
pub fn light_pack(
    nodes: &[u8],
    k: usize,
    present: u32,
    min_x: f32,
    min_y: f32,
    min_z: f32,
    max_x: f32,
    max_y: f32,
    max_z: f32,
    out: &mut [u8],
) -> u64
    ensures value { result ≡ packed_code (words_packed
        (pack_light_bvh nodes.now k (box_of present min_x min_y min_z max_x max_y max_z)
        (length out.old))) }
    ensures out_after { out.new ≡ tray packed_bytes (bytes_reserve nodes.now)
        (pack_light_bvh nodes.now k (box_of present min_x min_y min_z max_x max_y max_z)
        (length out.old)) out.old }
{
    let min = vec3(min_x, min_y, min_z);
    let max = vec3(max_x, max_y, max_z);
    let all = box_of(present, min, max);
    packed_code(pack_light_bvh(nodes, k, all, out))
}

// ---- the power alias table

// 0, or the refusal's number.
pub fn light_alias_table(weights: &[u32], bins: &mut [u32], work: &mut [u32]) -> u32
    ensures value { result ≡ code (build_power_alias_table weights.now (length bins.old)
        (length work.old)) }
    ensures bins_after { bins.new ≡ tray bin_words (3 * length weights.now)
        (build_power_alias_table weights.now (length bins.old) (length work.old))
        bins.old }
    ensures work_after { work.new ≡ tray (λ (bs : List Bin). []) (4 * length weights.now)
        (build_power_alias_table weights.now (length bins.old) (length work.old))
        work.old }
{
    code(build_power_alias_table(weights, bins, work))
}

// ---- the version

// The parts of the library's version: what the header and the Rust crate are held to.
pub const MAJOR: u32 = 0;

pub const MINOR: u32 = 1;

pub const PATCH: u32 = 0;

// 10,000 times the major part, 100 times the minor one, and the patch.
pub fn light_version() -> u32
    ensures { result ≡ library_version }
{
    MAJOR * 10_000 + MINOR * 100 + PATCH
}
