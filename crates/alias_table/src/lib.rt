// The power alias table (specs/AliasTable.antt): `build_power_alias_table` of pbrt-r4's light_sampler.rs over lent
// slices. The two stacks of the Rust stand in the lent work, each entry a weight's word and a place: `under` from word
// 0 on, `over` from word 2m on.
#![tactic(auto)]

ghost use Rattle.std.specs.Prelude.{◌≡◌, cond, List, [], ◌∷◌, map, ◌++◌, ◌+◌, ◌*◌, ◌<◌, length, get_or, set};
ghost use Rattle.std.specs.Prelude.{replicate, drop};
ghost use Rattle.std.specs.Float.{binary32, binary64};
ghost use Rattle.std.specs.Float.Ieee.{to_bits, lt};
ghost use Rattle.std.proofs.lemmas.List.Edits.{sets};
ghost use Rattle.ieee.specs.Single.{◌⊕◌, ◌⊖◌, single, zerof, onef};
ghost use Rattle.ieee.specs.Narrow.{narrow as narrowed};
ghost use Rattle.words.specs.Answers.{count, answered};
ghost use Rattle.words.specs.Tray.{tray};
ghost use Rattle.alias_table.specs.AliasTable.{Bin, sum_from, total as total_of, build_power_alias_table, bin_words};
ghost use Rattle.alias_table.specs.AsCoded.Stacks.{sums_of, weighted, played, put, top, Room};
ghost use Rattle.alias_table.specs.AsCoded.Stacks.{Started, Playing, Played, Left, Wholed};

use floats::narrow::{narrow, widen};
use words::fill::zero_words;
use words::floats::Float;
use words::limits::MAX_LAMPS;
use words::refusals::Refusal;

// The word of no alias, as a bin has it.
const NO_ALIAS: u32 = 0xffff_ffff;

// The word of 1, as a bin's q has it.
const ONE: u32 = 0x3f80_0000;

// The sum of the weights as f32 and as f64.
#[derive(Clone, Copy)]
struct Sums {
    single: f32,
    double: f64,
}

// How many entries each stack holds: lengths beside the lent work, since there is no heap.
#[derive(Clone, Copy)]
struct Heights {
    under: usize,
    over: usize,
}

// Bins of three words (q, p, alias) into `bins`, with `work` of four words a weight, and how many bins. Over MAX_LAMPS
// weights is refusal 2, short bins or work 3, a weight that is NaN, infinite or below zero 8.
pub fn build_power_alias_table(
    weights: &[u32],
    bins: &mut [u32],
    work: &mut [u32],
) -> Result<usize, Refusal>
    ensures result_value { answered result ≡ count
        (build_power_alias_table weights.now (length bins.old) (length work.old)) }
    ensures bins_after { bins.new ≡ tray bin_words (3 * length weights.now)
        (build_power_alias_table weights.now (length bins.old) (length work.old))
        bins.old }
    ensures work_after { work.new ≡ tray (λ (bs : List Bin). []) (4 * length weights.now)
        (build_power_alias_table weights.now (length bins.old) (length work.old))
        work.old }
{
    let m = weights.len();
    if m > MAX_LAMPS {
        return Err(Refusal::Crowded);
    }
    if bins.len() < 3 * m || work.len() < 4 * m {
        return Err(Refusal::ShortTray);
    }
    let Some(sums) = add_up(weights) else {
        zero_words(bins, 0, 3 * m);
        zero_words(work, 0, 4 * m);
        return Err(Refusal::OutOfRange);
    };
    // The definition's own flag (`weighted flat words`): a sum of 0 makes every weight one.
    let flat = sums.single == 0.0;
    build(weights, flat, total(flat, sums.double, m), bins, work);
    Ok(m)
}

// Both sums left to right, in one pass; None where a weight is not finite or below zero.
fn add_up(weights: &[u32]) -> Option<Sums>
    ensures { result ≡ sums_of (map single weights.now) }
{
    let mut single = 0.0;
    let mut double = 0.0;
    for word in weights {
        let w = f32::of_word(*word);
        if !w.is_finite() || w < 0.0 {
            return None;
        }
        single += w;
        double += widen(w);
    }
    Some(Sums { single, double })
}

// The sum to divide by: that of the weights, or of m ones.
fn total(flat: bool, double: f64, m: usize) -> f32
    ensures { result ≡ narrowed (cond flat (sum_from binary64 zerof (replicate m onef)) double) }
{
    if flat {
        narrow(ones(m))
    } else {
        narrow(double)
    }
}

// The Rust's own sum, one step a weight. That it is `m as f64` would be one lemma more.
fn ones(m: usize) -> f64
    ensures { result ≡ sum_from binary64 zerof (replicate m onef) }
{
    let mut s = 0.0;
    for _ in 0..m {
        s += 1.0;
    }
    s
}

// The weight that is played for a word: it, or one. The flag that chooses is the definition's own (`weighted`).
fn played_weight(flat: bool, word: u32) -> f32
    ensures { result ≡ cond flat onef (single word) }
{
    if flat { 1.0 } else { f32::of_word(word) }
}

// The game, from the start to the zeroed work. Bins and work are lent apart: each clause says what is left in one.
fn build(weights: &[u32], flat: bool, sum: f32, bins: &mut [u32], work: &mut [u32])
    requires room { Room (length weights.now) bins.old work.old }
    requires sum_value { sum ≡ total_of (weighted flat weights.now) }
    ensures bins_after { bins.new
        ≡ bin_words (played (weighted flat weights.now)) ++
        drop (3 * length weights.now) bins.old }
    ensures work_after { work.new
        ≡ replicate (4 * length weights.now) 0 ++
        drop (4 * length weights.now) work.old }
{
    let count = weights.len();
    let first = start(weights, flat, sum, bins, work);
    let last = play(count, bins, work, first);
    make_whole(bins, &work[..2 * last.under]);
    make_whole(bins, &work[2 * count..2 * count + 2 * last.over]);
    zero_words(work, 0, 4 * count);
}

// The bins with q zero and no alias, and each on its stack.
fn start(weights: &[u32], flat: bool, sum: f32, bins: &mut [u32], work: &mut [u32]) -> Heights
    requires room { Room (length weights.now) bins.old work.old }
    requires sum_value { sum ≡ total_of (weighted flat weights.now) }
    ensures { Started (length weights.now) (weighted flat weights.now) bins.old
        work.old
        bins.new work.new result.under result.over }
{
    let m = weights.len();
    let count = m as f32;
    let mut heights = Heights { under: 0, over: 0 };
    for (i, word) in weights.iter().enumerate() {
        let p = played_weight(flat, *word) / sum;
        put_bin(bins, 3 * i, p);
        heights.push(m, work, p * count, i as u32);
    }
    heights
}

// A bin's three words at a place: q zero, p, no alias. This, `put_entry` and `settle` write at a place of what is lent:
// of a part of it each caller would have to say again what the rest keeps.
fn put_bin(bins: &mut [u32], at: usize, p: f32)
    requires { at + 2 < length bins.old }
    ensures { bins.new ≡ sets bins.old at (0 ∷ to_bits binary32 p ∷ 0xffff_ffff ∷ []) }
{
    bins[at..at + 3].copy_from_slice(&[0, p.word(), NO_ALIAS]);
}

impl Heights {
    // An entry on top of its stack: below one on `under`, else on `over`.
    fn push(&mut self, m: usize, work: &mut [u32], weight: f32, index: u32)
        requires { (2 * self.old.under + 1 < length work.old) × (2 * m + 2 * self.old.over + 1 < length work.old) }
        ensures under_after { self.new.under ≡ cond (lt weight onef) (self.old.under + 1) self.old.under }
        ensures over_after { self.new.over ≡ cond (lt weight onef) self.old.over (self.old.over + 1) }
        ensures work_after { work.new
            ≡ put work.old (top m self.old.under self.old.over (lt weight onef)) weight index }
    {
        if weight < 1.0 {
            put_entry(work, 2 * self.under, weight, index);
            self.under += 1;
        } else {
            put_entry(work, 2 * m + 2 * self.over, weight, index);
            self.over += 1;
        }
    }
}

// A stack's entry at a place.
fn put_entry(work: &mut [u32], at: usize, weight: f32, index: u32)
    requires { at + 1 < length work.old }
    ensures { work.new ≡ put work.old at weight index }
{
    work[at] = weight.word();
    work[at + 1] = index;
}

// Turns, while neither stack is empty. Each takes one bin out of the game.
fn play(m: usize, bins: &mut [u32], work: &mut [u32], first: Heights) -> Heights
    requires { Playing m bins.old work.old first.under first.over }
    ensures { Played m bins.old work.old first.under first.over bins.new work.new
        result.under result.over }
{
    let mut heights = first;
    while 0 < heights.under && 0 < heights.over {
        heights.under -= 1;
        heights.over -= 1;
        let u = 2 * heights.under;
        let o = 2 * m + 2 * heights.over;
        let under_word = work[u];
        let over_index = work[o + 1];
        let excess = joint(under_word, work[o]);
        settle(bins, work[u + 1], under_word, over_index);
        heights.push(m, work, excess, over_index);
    }
    heights
}

// What an over bin has left beside an under one.
fn joint(under: u32, over: u32) -> f32
    ensures { result ≡ single under ⊕ single over ⊖ onef }
{
    f32::of_word(under) + f32::of_word(over) - 1.0
}

// q and the alias of the bin at a place.
fn settle(bins: &mut [u32], place: u32, q: u32, alias: u32)
    requires { 3 * place + 2 < length bins.old }
    ensures { bins.new ≡ set (set bins.old (3 * place) q) (3 * place + 2) alias }
{
    let at = 3 * (place as usize);
    bins[at] = q;
    bins[at + 2] = alias;
}

// What is left on a stack is whole: q is 1.
fn make_whole(bins: &mut [u32], stack: &[u32])
    requires { Left bins.old stack.now }
    ensures { Wholed bins.old stack.now bins.new }
{
    for entry in stack.chunks_exact(2) {
        bins[3 * (entry[1] as usize)] = ONE;
    }
}
