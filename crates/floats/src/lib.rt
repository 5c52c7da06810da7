// The library functions of docs/REQUIREMENTS.md R2 on floats, at every bit pattern: NaN, infinities, both zeros and
// subnormals included. Each promise is an equation with a definition of crates/ieee/specs, which reads as its line
// there. `widen` is the library's, and so are `floor` and `ceil` but for a NaN. The others are written out:
// - `min`, `max`: the library's leave open which of two equal values is given, as 0 and -0; R2.4 asks for the first.
// - `clamp`, `is_sign_negative`: the library's ask their caller for ends in order, and for no NaN; by R1.6 nothing is.
// - `sqrt`: R2.3 and R16.5 fix its steps, and the library's is one operation of the processor.
// - `abs`, `round`, `narrow` and the casts to whole numbers: the library's are slower, by the figures beside them.
#![tactic(auto)]

pub mod choose;
pub mod narrow;
pub mod root;
pub mod shift;
pub mod sqrt;
pub mod whole;
