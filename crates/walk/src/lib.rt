// The draws of the random walk, and where it stands.
#![tactic(auto)]

ghost use Rattle.std.specs.Prelude.{◌≡◌, ◌^◌, ◌≤◌};
ghost use Rattle.std.specs.Float.Ieee.{lt};
ghost use Rattle.walk.specs.Walk.{xorshift, float, sample};

// Where a walk stands, and the state of its draws.
#[derive(Clone, Copy)]
pub struct Walker {
    pub at: u32,
    pub state: u64,
}

pub fn xorshift(state: u64) -> u64
    ensures { result ≡ xorshift state }
{
    let a = state ^ (state << 13);
    let b = a ^ (a >> 7);
    b ^ (b << 17)
}

// A whole number up to 2 to the 53rd is an f64 exactly.
fn exact(n: u64) -> f64
    requires { n ≤ 2 ^ 53 }
    ensures { result ≡ float n }
{
    n as f64
}

pub fn sample(draw: u64, total: u64) -> f64
    requires { total ≤ 2 ^ 53 }
    ensures { result ≡ sample draw total }
{
    std::num::nearest_u64_to_f64(draw) / 18446744073709551616.0 * exact(total)
}

// Whether a running sum is greater than x.
pub fn greater(x: f64, sum: u64) -> bool
    requires { sum ≤ 2 ^ 53 }
    ensures { result ≡ lt x (float sum) }
{
    x < exact(sum)
}
