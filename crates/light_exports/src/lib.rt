// The light tree for C and Rust, as `include/light_tree.h` tells it: the functions that the static library exports.
// Each is the function of its name in `light_c`, promises what that promises, and calls it; a crate of the repository
// that another one stands on cannot be a static library itself, and flat parameters are those of the C interface.
// tools/archives makes `liblight_c.a` of it.
#![tactic(auto)]

ghost use Rattle.std.specs.Prelude.{◌≡◌, List, [], ◌*◌, get_or, length};
ghost use Rattle.words.specs.Answers.{code};
ghost use Rattle.words.specs.Tray.{tray};
ghost use Rattle.light_rows.specs.Block.{block_words, pack_exhaustive_bounds};
ghost use Rattle.lamps.specs.BuildBounds.{build_light_bounds};
ghost use Rattle.light_bvh.specs.Build.{nodes_written, table_written, work_written, nodes_reserve, work_reserve};
ghost use Rattle.light_sampler.specs.Sampler.{sample, pmf};
ghost use Rattle.packed_bvh.specs.Packed.{pack_light_bvh, packed_bytes, bytes_reserve, words_packed};
ghost use Rattle.alias_table.specs.AliasTable.{Bin, build_power_alias_table, bin_words};
ghost use Rattle.light_c.specs.Codes.{answer_reserve, summary_list, build_answered};
ghost use Rattle.light_c.specs.Codes.{query_at, draw_code, value_code, packed_code, box_of};
ghost use Rattle.light_c.specs.Version.{library_version};

// 0, or the refusal's number.
#[unsafe(no_mangle)]
pub extern "C" fn light_bounds_block(list: &[u32], block: &mut [u32]) -> u32
    ensures value { result ≡ code (build_light_bounds list.now (length block.old)) }
    ensures block_after { block.new ≡ tray pack_exhaustive_bounds (block_words (get_or list.now 0 0))
        (build_light_bounds list.now (length block.old)) block.old }
{
    light_c::light_bounds_block(list, block)
}

// 0, with k and the box in the answer's seven words, zeros for an absent box; or the refusal's number.
#[unsafe(no_mangle)]
pub extern "C" fn light_build(
    lights: usize,
    block: &[u32],
    nodes: &mut [u32],
    table: &mut [u32],
    work: &mut [u32],
    answer: &mut [u32],
) -> u32
    ensures value { result ≡ code
        (build_answered lights block.now (length nodes.old) (length table.old)
        (length work.old) (length answer.old)) }
    ensures nodes_after { nodes.new ≡ tray nodes_written (nodes_reserve (get_or block.now 0 0))
        (build_answered lights block.now (length nodes.old) (length table.old)
        (length work.old) (length answer.old)) nodes.old }
    ensures table_after { table.new ≡ tray table_written (get_or block.now 0 0)
        (build_answered lights block.now (length nodes.old) (length table.old)
        (length work.old) (length answer.old)) table.old }
    ensures work_after { work.new ≡ tray work_written (work_reserve (get_or block.now 0 0))
        (build_answered lights block.now (length nodes.old) (length table.old)
        (length work.old) (length answer.old)) work.old }
    ensures answer_after { answer.new ≡ tray summary_list answer_reserve
        (build_answered lights block.now (length nodes.old) (length table.old)
        (length work.old) (length answer.old)) answer.old }
{
    light_c::light_build(lights, block, nodes, table, work, answer)
}

// The light above its chance's bits; 2^62 where none is drawn, 2^63 and the refusal's number.
#[unsafe(no_mangle)]
pub extern "C" fn light_sample(
    nodes: &[u8],
    px: f32,
    py: f32,
    pz: f32,
    nx: f32,
    ny: f32,
    nz: f32,
    u: f32,
) -> u64
    ensures { result ≡ draw_code (sample nodes.now (query_at px py pz nx ny nz) u) }
{
    light_c::light_sample(nodes, px, py, pz, nx, ny, nz, u)
}

// The chance's bits, or 2^32 and the refusal's number.
#[unsafe(no_mangle)]
pub extern "C" fn light_pmf(
    nodes: &[u8],
    table: &[u8],
    px: f32,
    py: f32,
    pz: f32,
    nx: f32,
    ny: f32,
    nz: f32,
    handle: u32,
) -> u64
    ensures { result ≡ value_code (pmf nodes.now table.now (query_at px py pz nx ny nz) handle) }
{
    light_c::light_pmf(nodes, table, px, py, pz, nx, ny, nz, handle)
}

// How many words were packed, 2^32 where there is no tree, or 2^33 and the refusal's number. There is no overall box
// where `present` is 0, since C has no `Option`.
#[unsafe(no_mangle)]
pub extern "C" fn light_pack(
    nodes: &[u8],
    k: usize,
    present: u32,
    min_x: f32,
    min_y: f32,
    min_z: f32,
    max_x: f32,
    max_y: f32,
    max_z: f32,
    out: &mut [u8],
) -> u64
    ensures value { result ≡ packed_code (words_packed
        (pack_light_bvh nodes.now k (box_of present min_x min_y min_z max_x max_y max_z)
        (length out.old))) }
    ensures out_after { out.new ≡ tray packed_bytes (bytes_reserve nodes.now)
        (pack_light_bvh nodes.now k (box_of present min_x min_y min_z max_x max_y max_z)
        (length out.old)) out.old }
{
    light_c::light_pack(
        nodes, k, present, min_x, min_y, min_z, max_x, max_y, max_z, out,
    )
}

// 0, or the refusal's number.
#[unsafe(no_mangle)]
pub extern "C" fn light_alias_table(weights: &[u32], bins: &mut [u32], work: &mut [u32]) -> u32
    ensures value { result ≡ code (build_power_alias_table weights.now (length bins.old)
        (length work.old)) }
    ensures bins_after { bins.new ≡ tray bin_words (3 * length weights.now)
        (build_power_alias_table weights.now (length bins.old) (length work.old))
        bins.old }
    ensures work_after { work.new ≡ tray (λ (bs : List Bin). []) (4 * length weights.now)
        (build_power_alias_table weights.now (length bins.old) (length work.old))
        work.old }
{
    light_c::light_alias_table(weights, bins, work)
}

// 10,000 times the major part, 100 times the minor one, and the patch.
#[unsafe(no_mangle)]
pub extern "C" fn light_version() -> u32
    ensures { result ≡ library_version }
{
    light_c::light_version()
}
