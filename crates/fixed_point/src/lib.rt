// Whole numbers made from floats, and the upper half of a product.

#![tactic(auto)]

ghost use Rattle.std.specs.Prelude.{◌≡◌, ℕ, ◌+◌, ◌*◌, ◌/◌, ◌^◌, ◌<◌, ◌≤◌, T, Float};
ghost use Rattle.std.specs.Float.{fin, binary64};
ghost use Rattle.std.specs.Float.Ieee.{is_nan};
ghost use Rattle.std.specs.Float.Ieee.Scale.{finite};
ghost use Rattle.fixed_point.specs.Fixed.{high_of, scaled_of, choose_of, offset_of};

// The upper half of a * b, for a and b below 2^63.
pub fn high(a: u64, b: u64) -> u64
    requires { (a < 2 ^ 63) × (b < 2 ^ 63) }
    ensures { result ≡ high_of a b }
{
    let a1 = a / 4294967296;
    let a0 = a % 4294967296;
    let b1 = b / 4294967296;
    let b0 = b % 4294967296;
    let c = a1 * b0 + a0 * b0 / 4294967296;
    let d = c % 4294967296 + a0 * b1;
    a1 * b1 + c / 4294967296 + d / 4294967296
}

// The whole part of |x| * 2^k.
pub fn scaled(x: f64, k: u64) -> u64
    requires { T (finite x) × (k ≤ 62) × (scaled_of k x < 2 ^ 63) }
    ensures { result ≡ scaled_of k x }
{
    let b = f64::to_bits(x) % 9223372036854775808;
    let n = 1086 - k - b / 4503599627370496;
    if n < 64 {
        return (b % 4503599627370496 + 4503599627370496) * 2048 >> n;
    }
    0
}

// x where h is 0, and y elsewhere. A function this short becomes a conditional move; a branch would be mispredicted where
// h is a sign or a parity.
pub fn choose(h: u64, x: u64, y: u64) -> u64
    ensures { result ≡ choose_of h x y }
{
    if h == 0 {
        return x;
    }
    y
}

// u + p where h is 0, and u - p elsewhere.
pub fn offset(h: u64, u: u64, p: u64) -> u64
    requires { (u + p < 2 ^ 64) × ((h ≡ 0 → ⊥) → p ≤ u) }
    ensures { result ≡ offset_of h u p }
{
    if h == 0 {
        return u + p;
    }
    u - p
}
