// Powers of two, and rounding, by a shift.
ghost use Rattle.std.specs.Prelude.{◌≡◌, ◌^◌, ◌≤◌, ◌<◌};
ghost use Rattle.std.specs.Float.Ieee.Nearest.{closest};

// a without its last `gone` digits, rounded to the nearest number, ties to even.
pub(crate) fn shifted_to_even(a: u64, gone: u64) -> u64
    requires a_bound { a < 2 ^ 63 }
    requires le_gone { 1 ≤ gone }
    requires gone_bound { gone ≤ 62 }
    ensures { result ≡ closest a (2 ^ gone) }
{
    let half = 1u64 << (gone - 1);
    (a + (half - 1) + (a >> gone) % 2) >> gone
}

// 2 to the k.
pub(crate) fn power(k: u32) -> u32
    requires { k < 32 }
    ensures { result ≡ 2 ^ k }
{
    1u32 << k
}
