// A word of a slice by its place, for places of any size, and a word as a place.
ghost use Rattle.std.specs.Prelude.{◌≡◌, get_or};

// The word at a place, and 0 past the end.
pub fn word_or_zero(words: &[u32], place: usize) -> u32
    ensures { result ≡ get_or words.now place 0 }
{
    words.get(place).copied().unwrap_or(0)
}

// A u32 as a usize: Rust has no `From` of it. Where no proof cites its promise by name, it is cast with `as`.
pub fn wide(w: u32) -> usize
    ensures { result ≡ w }
{
    w as usize
}
