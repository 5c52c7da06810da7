// Numbers packed into sixteen and fifteen bits (specs/Quantize.antt). Steps are counted in u32 and cast at the end: with
// sums of u16 packing 4,096 lamps took 1.01 of the Rust's time, and it takes 0.94.
ghost use Rattle.std.specs.Prelude.{true, false, ◌≡◌};
ghost use Rattle.packed_bvh.specs.Quantize.{steps_of, quantize_bounds, quantize_cos, sign as sign_of, folded};
ghost use Rattle.packed_bvh.specs.Quantize.{octahedral as octahedral_of, quantize_axis};

use floats::choose::{abs, clamp, is_sign_negative};
use floats::whole::{to_u16, to_u32};
use light_bounds::vecmath::{Vec3, divide_vector};

// ---- coordinates within an axis, in 65535 steps; 0 on an axis without extent

// The extent of the overall box along one axis.
#[derive(Clone, Copy)]
pub struct Axis {
    pub min: f32,
    pub max: f32,
}

impl Axis {
    #[tactic(auto, unfolding(crate::specs::Quantize::steps_of))]
    fn steps(self, value: f32) -> f32
        ensures { result ≡ steps_of value self.min self.max }
    {
        clamp((value - self.min) / (self.max - self.min), 0.0, 1.0) * 65535.0
    }

    // Down to a whole step, or up to one. `up` is the definition's own flag (`quantize_bounds up`), the Rust's `ceil`:
    // one body goes both ways.
    fn quantize_bounds(self, up: bool, value: f32) -> u16
        ensures { result ≡ quantize_bounds up value self.min self.max }
    {
        if self.min == self.max {
            return 0;
        }
        let step = self.steps(value);
        let n = to_u32(step);
        if up && (n as f32) < step {
            (n + 1) as u16
        } else {
            n as u16
        }
    }

    pub fn quantize_down(self, value: f32) -> u16
        ensures { result ≡ quantize_bounds false value self.min self.max }
    {
        self.quantize_bounds(false, value)
    }

    pub fn quantize_up(self, value: f32) -> u16
        ensures { result ≡ quantize_bounds true value self.min self.max }
    {
        self.quantize_bounds(true, value)
    }
}

// ---- cosines, in 32767 steps from -1 to 1

#[tactic(auto, using(crate::proofs::QuantizeCuts::cut_cos))]
pub fn quantize_cos(value: f32) -> u16
    ensures { result ≡ quantize_cos value }
{
    to_u16(32767.0 * ((value + 1.0) / 2.0))
}

// ---- directions

fn sign(value: f32) -> f32
    ensures { result ≡ sign_of value }
{
    if is_sign_negative(value) { -1.0 } else { 1.0 }
}

#[tactic(auto, unfolding(crate::specs::Quantize::folded))]
fn fold(d: Vec3) -> Vec3
    ensures { result ≡ folded d }
{
    if d.z < 0.0 {
        return Vec3 {
            x: (1.0 - abs(d.y)) * sign(d.x),
            y: (1.0 - abs(d.x)) * sign(d.y),
            z: d.z,
        };
    }
    d
}

// The direction on the octahedron, folded out.
#[tactic(auto, unfolding(crate::specs::Quantize::octahedral))]
pub fn octahedral(v: Vec3) -> Vec3
    ensures { result ≡ octahedral_of v }
{
    fold(divide_vector(v, abs(v.x) + abs(v.y) + abs(v.z)))
}

// To the nearest of 65535 steps from -1 to 1.
pub fn quantize_axis(c: f32) -> u16
    ensures { result ≡ quantize_axis c }
{
    let step = (c + 1.0) * 0.5 * 65535.0;
    let n = to_u32(step);
    if n >= 65535 {
        return 65535;
    }
    if (n as f32) + 0.5 <= step {
        (n + 1) as u16
    } else {
        n as u16
    }
}
