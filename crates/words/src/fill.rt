// Filling and zeroing a stretch of a lent slice (specs/AsCoded/Fill.antt), told by its places: a part would leave each
// caller to say what the rest keeps. Zeroing has a name, since most trays are left so.
ghost use Rattle.std.specs.Prelude.{◌≡◌};
ghost use Rattle.words.specs.AsCoded.Fill.{filled};

// Writes v from place `from` up to, not including, place `to`, as far as the slice goes. By a `for`: std's `fill`
// requires that cloning a T cannot fail, and this function would have to require it too.
pub fn fill<T: Copy>(s: &mut [T], from: usize, to: usize, v: T)
    ensures { s.new ≡ filled s.old from to v }
{
    let end = to.min(s.len());
    if from < end {
        for x in &mut s[from..end] {
            *x = v;
        }
    }
}

// Writes 0 there.
pub fn zero_words(s: &mut [u32], from: usize, to: usize)
    ensures { s.new ≡ filled s.old from to 0 }
{
    fill(s, from, to, 0);
}
