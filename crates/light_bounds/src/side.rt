// The side of a record (specs/Side.antt): what its last word says. It is judged, read, written and joined here alone,
// but that packing writes it as one bit (packed_bvh `cone_word`).
ghost use Rattle.std.specs.Prelude.{◌≡◌};
ghost use Rattle.light_bounds.specs.Side.{side_known, side_of, side_word, lamp_side, either as either_of};

#[derive(Clone, Copy)]
pub struct Side {
    pub two_sided: bool,
}

// Whether a word is a side: 0 or 1. A test apart from the reading, since a record past the end is read unjudged.
pub fn is_side(w: u32) -> bool
    ensures { result ≡ side_known w }
{
    w <= 1
}

// The side that a word says: any but 1 is one-sided, so it is no TryFrom.
impl From<u32> for Side {
    ghost from_gives = { λ w side. side ≡ side_of w };

    fn from(w: u32) -> Side {
        Side { two_sided: w == 1 }
    }
}

// The side's word.
impl From<Side> for u32 {
    ghost from_gives = { λ side w. w ≡ side_word side };

    fn from(side: Side) -> u32 {
        u32::from(side.two_sided)
    }
}

// The side of a lamp in a list.
impl From<bool> for Side {
    ghost from_gives = { λ two_sided side. side ≡ lamp_side two_sided };

    fn from(two_sided: bool) -> Side {
        Side { two_sided }
    }
}

// The side of a union.
pub fn either(a: Side, b: Side) -> Side
    ensures { result ≡ either_of a b }
{
    if a.two_sided { a } else { b }
}
