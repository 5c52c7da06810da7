// A fork of the tree (specs/Fork.antt): from two weights and u, the branch with its share and the u within it.
ghost use Rattle.std.specs.Prelude.{◌≡◌, Some};
ghost use Rattle.light_sampler.specs.Fork.{parted as parted_of, fork as fork_of};
ghost use Rattle.light_sampler.specs.AsCoded.Turns.{turned};

use floats::choose::min;

// The greatest u that a walk goes on with, 3f7ffffe: 1 - 2^-23.
pub const MOST: f32 = 0.99999988;

#[derive(Clone, Copy)]
pub enum Branch {
    Left,
    Right,
}

// The branch that a fork sends u into, with its share and the u within it.
#[derive(Clone, Copy)]
pub struct Turn {
    pub branch: Branch,
    pub share: f32,
    pub u: f32,
}

#[tactic(auto, unfolding(crate::specs::Fork::parted))]
fn part(share: f32, u: f32) -> Turn
    ensures { turned (Some result) ≡ parted_of share u }
{
    if u < share {
        return Turn {
            branch: Branch::Left,
            share,
            u: min(u / share, MOST),
        };
    }
    let rest = 1.0 - share;
    Turn {
        branch: Branch::Right,
        share: rest,
        u: min((u - share) / rest, MOST),
    }
}

// None where neither branch has weight.
#[tactic(auto, unfolding(crate::specs::Fork::fork))]
pub fn fork(left: f32, right: f32, u: f32) -> Option<Turn>
    ensures { turned result ≡ fork_of left right u }
{
    let total = left + right;
    if total <= 0.0 {
        return None;
    }
    Some(part(left / total, u))
}
