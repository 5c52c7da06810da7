// Floats and their words, at both widths. Every NaN pattern is read as the one NaN, and a NaN is written as 7fc00000,
// or 7ff8000000000000 at 64 bits. Of one generic body every number would be a parameter, and each comparison a
// conversion: so a width has an impl.
ghost use Rattle.std.specs.Prelude.{◌≡◌, ℕ};
ghost use Rattle.std.specs.Float.{Float as IeeeFloat, binary32, binary64};
ghost use Rattle.std.specs.Float.Ieee.{Format, of_bits, to_bits};

// A float format: its words, and what they stand for.
pub trait Float: Copy {
    type Word: Copy;

    ghost format: { Format };

    ghost value: { Self → IeeeFloat };

    ghost number: { Self.Word → ℕ };

    // The float that a word stands for.
    fn of_word(w: Self::Word) -> Self
        ensures { value result ≡ of_bits format (number w) };

    // The word of a float.
    fn word(self) -> Self::Word
        ensures { number result ≡ to_bits format (value self) };
}

impl Float for f32 {
    type Word = u32;

    ghost format = { binary32 };

    ghost value = { λ x. x };

    ghost number = { λ w. w };

    fn of_word(w: u32) -> f32
        ensures { result ≡ of_bits binary32 w }
    {
        if w % 0x8000_0000 > 0x7f80_0000 {
            f32::NAN
        } else {
            f32::from_bits(w)
        }
    }

    fn word(self) -> u32
        ensures { result ≡ to_bits binary32 self }
    {
        if self.is_nan() {
            0x7fc0_0000
        } else {
            f32::to_bits(self)
        }
    }
}

impl Float for f64 {
    type Word = u64;

    ghost format = { binary64 };

    ghost value = { λ x. x };

    ghost number = { λ w. w };

    fn of_word(w: u64) -> f64
        ensures { result ≡ of_bits binary64 w }
    {
        if w % 0x8000_0000_0000_0000 > 0x7ff0_0000_0000_0000 {
            f64::NAN
        } else {
            f64::from_bits(w)
        }
    }

    fn word(self) -> u64
        ensures { result ≡ to_bits binary64 self }
    {
        if self.is_nan() {
            0x7ff8_0000_0000_0000
        } else {
            f64::to_bits(self)
        }
    }
}
