// Words as little-endian bytes (specs/LittleEndian.antt).
ghost use Rattle.std.specs.Prelude.{◌≡◌, ℕ, ◌*◌, ◌/◌, ◌<◌, get_or, length};
ghost use Rattle.words.specs.LittleEndian.{words_of, bytes_of};
ghost use Rattle.words.specs.AsCoded.WordSlices.{set_word, word_count, read_words, written_words};
ghost use Rattle.words.specs.Answers.{answered};
ghost use Rattle.words.specs.Tray.{tray};

use super::refusals::Refusal;

// How many words the bytes hold; a length that is no multiple of four is refused.
pub fn word_count(bytes: &[u8]) -> Result<usize, Refusal>
    ensures { answered result ≡ word_count bytes.now }
{
    if bytes.len() % 4 == 0 {
        Ok(bytes.len() / 4)
    } else {
        Err(Refusal::Ragged)
    }
}

// The word at a place that is known to be within the bytes.
fn word_in(bytes: &[u8], place: usize) -> u32
    requires { place < length bytes.now / 4 }
    ensures { result ≡ get_or (words_of bytes.now) place 0 }
{
    let at = 4 * place;
    u32::from_le_bytes([bytes[at], bytes[at + 1], bytes[at + 2], bytes[at + 3]])
}

// The word at a place, and 0 past the last whole word.
pub fn word_at(bytes: &[u8], place: usize) -> u32
    ensures { result ≡ get_or (words_of bytes.now) place 0 }
{
    if place < bytes.len() / 4 {
        word_in(bytes, place)
    } else {
        0
    }
}

// Writes the word at a place, as the definition has it; past the last whole word nothing is written.
pub fn set_word(bytes: &mut [u8], place: usize, w: u32)
    ensures { bytes.new ≡ set_word bytes.old place w }
{
    if place < bytes.len() / 4 {
        let at = 4 * place;
        bytes[at..at + 4].copy_from_slice(&w.to_le_bytes());
    }
}

// Reads the words of bytes into a lent slice. A length that is no multiple of four is refusal 1, a slice that is too
// short for the words 3. By places, since `word_in` and `set_word` alone say where the bytes of a word stand.
pub fn words_of_bytes(bytes: &[u8], words: &mut [u32]) -> Result<usize, Refusal>
    ensures result_value { answered result ≡ read_words bytes.now (length words.old) }
    ensures words_after { words.new ≡
        tray (λ (n : ℕ). words_of bytes.now) (length bytes.now / 4)
        (read_words bytes.now (length words.old)) words.old }
{
    let count = word_count(bytes)?;
    if words.len() < count {
        return Err(Refusal::ShortTray);
    }
    for (i, word) in words[..count].iter_mut().enumerate() {
        *word = word_at(bytes, i);
    }
    Ok(count)
}

// Writes words as bytes into a lent slice, which is refused (3) where it is too short for them.
pub fn bytes_of_words(words: &[u32], bytes: &mut [u8]) -> Result<usize, Refusal>
    ensures result_value { answered result ≡ written_words words.now (length bytes.old) }
    ensures bytes_after { bytes.new ≡
        tray (λ (n : ℕ). bytes_of words.now) (4 * length words.now)
        (written_words words.now (length bytes.old)) bytes.old }
{
    if bytes.len() / 4 < words.len() {
        return Err(Refusal::ShortTray);
    }
    for (i, word) in words.iter().enumerate() {
        set_word(bytes, i, *word);
    }
    Ok(words.len())
}
