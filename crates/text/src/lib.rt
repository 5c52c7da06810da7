// What the programs write, laid into a lent slice (specs/Text.antt): text, a word in decimal or in hexadecimal
// digits, a refusal's line, words as bytes. Each function writes all of its bytes and answers how many they are;
// where the slice has no room for all, it writes none and answers 0. The answer is a count of bytes, which callers add
// to a place: an `Option` of it would be `unwrap_or(0)` at each call.
#![tactic(auto)]

ghost use Rattle.std.specs.Prelude.{◌≡◌, ◌+◌, ◌≤◌, ◌<◌, length};
ghost use Rattle.std.proofs.lemmas.List.Edits.{sets};
ghost use Rattle.io.specs.Digits.{last_digits, hex_digit_ascii as glyph_of};
ghost use Rattle.words.specs.LittleEndian.{bytes_of};
ghost use Rattle.words.specs.Refusals.{number};
ghost use Rattle.text.specs.Text.{places as places_of, decimal_bytes, hex_bytes, refusal_line};
ghost use Rattle.text.specs.AsCoded.Puts.{fitting};

use words::limits::fits;
use words::little_endian::bytes_of_words;
use words::refusals::Refusal;

// ---- where there is room

fn glyph(d: u32) -> u8
    requires { d < 16 }
    ensures { result ≡ glyph_of d }
{
    if d < 10 { 48 + d as u8 } else { 87 + d as u8 }
}

// Writes the last k digits of n, the most significant first.
fn lay_digits(out: &mut [u8], at: usize, base: u32, k: usize, n: u32)
    requires { (0 < base) × (base ≤ 16) × (at + k ≤ length out.old) }
    ensures { out.new ≡ sets out.old at (last_digits base k n) }
{
    let mut i = k;
    let mut rest = n;
    while i > 0 {
        i -= 1;
        out[at + i] = glyph(rest % base);
        rest /= base;
    }
}

fn lay_text(out: &mut [u8], at: usize, text: &[u8])
    requires { at + length text.now ≤ length out.old }
    ensures { out.new ≡ sets out.old at text.now }
{
    let mut i = 0;
    while i < text.len() {
        out[at + i] = text[i];
        i += 1;
    }
}

// How many decimal digits a word has.
fn places(n: u32) -> usize
    ensures value { result ≡ places_of n }
    ensures upper_bound { result ≤ 10 }
{
    let mut k = 1;
    let mut rest = n;
    while k < 10 && rest >= 10 {
        rest /= 10;
        k += 1;
    }
    k
}

// The line of refusal n, which has k digits.
fn lay_refused(out: &mut [u8], at: usize, k: usize, n: u32)
    requires { (k ≡ places_of n) × (k ≤ 10) × (at + (9 + k) ≤ length out.old) }
    ensures { out.new ≡ sets out.old at (refusal_line n) }
{
    lay_text(out, at, b"refused ");
    let number_at = at + 8;
    lay_digits(out, number_at, 10, k, n);
    let end = number_at + k;
    out[end] = b'\n';
}

// ---- at a place

// No struct holds slice and place: each method would also have to promise that it keeps the slice.

pub fn put_text(out: &mut [u8], at: usize, text: &[u8]) -> usize
    ensures out_after { out.new
        ≡ sets out.old at (fitting out.old at text.now) }
    ensures value { result ≡ length (fitting out.old at text.now) }
{
    let count = text.len();
    if fits(out.len(), at, count) {
        out[at..at + count].copy_from_slice(text);
        return count;
    }
    0
}

// A word in decimal, without leading zeros.
pub fn put_decimal(out: &mut [u8], at: usize, n: u32) -> usize
    ensures out_after { out.new
        ≡ sets out.old at (fitting out.old at (decimal_bytes n)) }
    ensures value { result ≡ length (fitting out.old at (decimal_bytes n)) }
{
    let count = places(n);
    if fits(out.len(), at, count) {
        lay_digits(out, at, 10, count, n);
        return count;
    }
    0
}

// A word's eight hexadecimal digits.
pub fn put_hex(out: &mut [u8], at: usize, n: u32) -> usize
    ensures out_after { out.new
        ≡ sets out.old at (fitting out.old at (hex_bytes n)) }
    ensures value { result ≡ length (fitting out.old at (hex_bytes n)) }
{
    if fits(out.len(), at, 8) {
        lay_digits(out, at, 16, 8, n);
        return 8;
    }
    0
}

// A refusal's line.
pub fn put_refused(out: &mut [u8], at: usize, why: Refusal) -> usize
    ensures out_after { out.new
        ≡ sets out.old at (fitting out.old at (refusal_line (number why))) }
    ensures value { result ≡ length (fitting out.old at (refusal_line (number why))) }
{
    let n = why.number();
    let k = places(n);
    let count = 9 + k;
    if fits(out.len(), at, count) {
        lay_refused(out, at, k, n);
        return count;
    }
    0
}

// ---- at the front

// Words as little-endian bytes.
pub fn put_words(out: &mut [u8], words: &[u32]) -> usize
    ensures out_after { out.new
        ≡ sets out.old 0 (fitting out.old 0 (bytes_of words.now)) }
    ensures value { result ≡ length (fitting out.old 0 (bytes_of words.now)) }
{
    bytes_of_words(words, out).map_or(0, |n| 4 * n)
}
