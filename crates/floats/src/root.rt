// Integer square roots of digits: whole, of 24 digits to the nearest, and with 54 zero digits behind them.
ghost use Rattle.std.specs.Prelude.{◌≡◌, ◌+◌, ◌*◌, ◌^◌, ◌≤◌, ◌<◌};
ghost use Rattle.std.specs.Float.Ieee.Nearest.{closest};
ghost use Rattle.ieee.specs.Sqrt.{isqrt};
ghost use Rattle.ieee.specs.Laws.SqrtNear.{is_nearest};
ghost use Rattle.ieee.specs.Laws.SqrtWords.{sticky};

use super::shift::shifted_to_even;
use words::floats::Float;

// Made as n = normal * 2^odd, with normal from 2^52 up to 2^53; the fields below are what is proved of it.
#[derive(Clone, Copy)]
pub(crate) struct Digits {
    pub(crate) n: u64,
    pub(crate) normal: u64,
    pub(crate) odd: u64,
    ghost n_from: { 2 ^ 52 ≤ n },
    ghost n_bound: { n < 2 ^ 54 },
    ghost normal_bound: { normal < 2 ^ 53 },
    ghost odd_bound: { odd < 2 },
}

// What the polynomials near a root are of: x from 1 up to 2, its powers, and the scale, which takes in odd.
struct Reduced {
    x: f64,
    x2: f64,
    x4: f64,
    scale: f64,
}

impl Digits {
    // x is normal / 2^52, and the scale is 1, or the root of 2 where odd is 1.
    fn reduced(self) -> Reduced {
        let x = f64::of_word(0x3fe0_0000_0000_0000 + self.normal);
        let scale = f64::of_word(0x3ff0_0000_0000_0000 + self.odd * 0x6_a09e_667f_3bcd);
        let x2 = x * x;
        Reduced {
            x,
            x2,
            x4: x2 * x2,
            scale,
        }
    }

    // A float near the root of n / 2^52, to 28 digits: a polynomial near the root of x, times the scale. Nothing rests
    // on how near it is.
    fn near_root(self) -> f64 {
        let Reduced { x, x2, x4, scale } = self.reduced();
        let low = 0.23340100123411664
            + 1.3193533027095627 * x
            + (0.9014983820579215 * x - 1.0794072036466167) * x2;
        let high = 0.010791799780307481 * x - 0.06605540806667079 - 0.0007844869615530467 * x2;
        let middle = 0.23722064099379359 * x - 0.5560180246773033 + high * x2;
        low * scale + middle * (x4 * scale)
    }

    // The same to 33 digits, by a polynomial of two degrees more.
    fn nearer_root(self) -> f64 {
        let Reduced { x, x2, x4, scale } = self.reduced();
        let low = 0.20942746719644256
            + 1.480147379936842 * x
            + (1.742466250429782 * x - 1.559674922066227) * x2;
        let middle = 0.9734175379389632 * x - 1.511709545069776
            + (0.15005734208131682 * x - 0.4551800078956743) * x2;
        let high = 0.004368806373851808 * x - 0.03305833417517536 - 0.0002619746762963585 * x2;
        low * scale + (middle + high * x4) * (x4 * scale)
    }

    // A number near the root of n, and below 2^27. The sum with 2^26 leaves whole numbers in the float's last digits;
    // it is cut a little late, so that a root that is whole is met.
    fn guess(self) -> u64
        ensures { result < 2 ^ 27 }
    {
        (self.nearer_root() - 0.0000000074214 + 67108864.0).word() % 0x800_0000
    }

    // The greatest number whose square is at most n, by halving the range in which it lies.
    fn halving_root(self) -> u64
        ensures { result ≡ isqrt self.n }
    {
        let mut low = 0u64;
        let mut range = 0x800_0000u64;
        while range > 1 {
            let step = range / 2;
            let middle = low + step;
            if middle * middle <= self.n {
                low = middle;
                range -= step;
            } else {
                range = step;
            }
        }
        low
    }

    // The same, from the guess: it is the root, or one above it, or else the root is found by halving. Inlined, so that
    // the digits stay in registers.
    #[inline(always)]
    fn root(self) -> u64
        ensures { result ≡ isqrt self.n }
    {
        let n = self.n;
        let q = self.guess();
        let square = q * q;
        if square <= n && n - square <= 2 * q {
            return q;
        }
        if square > n && (q - 1) * (q - 1) <= n {
            return q - 1;
        }
        self.halving_root()
    }

    // Twice the root of n, and one more where the root leaves a rest.
    #[tactic(auto, using(crate::proofs::RootLaws::digits))]
    fn sticky_root(self) -> u64
        ensures { result ≡ sticky self.n }
    {
        let q = self.root();
        if q * q == self.n { 2 * q } else { 2 * q + 1 }
    }

    // What is kept of the root of n when its last three digits and its rest are rounded away.
    #[tactic(auto, using(crate::proofs::RootLaws::digits))]
    pub(crate) fn kept_root(self) -> u64
        ensures { result ≡ closest (sticky self.n) (2 ^ 4) }
    {
        shifted_to_even(self.sticky_root(), 4)
    }

    // Whether q is the whole number nearest to the root of n / 64.
    #[tactic(auto, using(crate::proofs::RootLaws::digits), unfolding(ieee::specs::Laws::SqrtNear::is_nearest))]
    fn is_nearest(self, q: u64) -> bool
        requires { q ≤ 2 ^ 25 }
        ensures { result ≡ is_nearest self.n q }
    {
        let square = 64 * (q * q);
        square + 16 < self.n + 64 * q && self.n < square + 64 * q + 16
    }

    // What is kept of the root of n where q is not it: one up or one down by the same test, and else by all the digits.
    #[tactic(auto, using(crate::proofs::RootLaws::nearest))]
    fn beside(self, q: u64) -> u64
        requires { q < 2 ^ 25 }
        ensures { result ≡ closest (sticky self.n) (2 ^ 4) }
    {
        if self.is_nearest(q + 1) {
            return q + 1;
        }
        if q > 0 && self.is_nearest(q - 1) {
            return q - 1;
        }
        self.kept_root()
    }

    // What is kept of the root of n: the float near it, which the sum with 2^29 rounds to 24 digits, where that is the
    // nearest.
    #[tactic(auto, using(crate::proofs::RootLaws::nearest))]
    pub(crate) fn nearest_root(self) -> u64
        ensures { result ≡ closest (sticky self.n) (2 ^ 4) }
    {
        let near = self.near_root() + 536870912.0;
        if near.is_nan() {
            return self.kept_root();
        }
        let q = near.to_bits() % 0x200_0000;
        if self.is_nearest(q) {
            q
        } else {
            self.beside(q)
        }
    }

    // Twice the root of n * 2^54, and one more where it leaves a rest: the root's upper half is the root of n, a
    // division by it finds the lower half or one more, and the rest tells which.
    pub(crate) fn wide_sticky_root(self) -> u64
        ensures { result ≡ sticky (self.n * 2 ^ 54) }
    {
        let n = self.n;
        let upper = self.root();
        let rest = (n - upper * upper) * 0x800_0000;
        let lower = rest / (2 * upper);
        let over = rest % (2 * upper) * 0x800_0000;
        let whole = upper * 0x800_0000 + lower;
        let square = lower * lower;
        if over == square {
            2 * whole
        } else if over < square {
            2 * whole - 1
        } else {
            2 * whole + 1
        }
    }
}
