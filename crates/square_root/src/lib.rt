// The square root: the whole number nearest to the root of a * 2^52, by squares compared. The first guess may be any.

#![tactic(auto)]

ghost use Rattle.std.specs.Prelude.{◌≡◌, ℕ, ◌+◌, ◌-◌, ◌*◌, ◌/◌, ◌^◌, ◌<◌, ◌≤◌, T, not, Float};
ghost use Rattle.std.specs.Float.{binary64};
ghost use Rattle.std.specs.Float.Ieee.{is_nan, to_bits};
ghost use Rattle.square_root.specs.Root.{Over, Nearest, radicand_of, root_of, sqrt_of};

use fixed_point::high;

// s^2 / 2^54, for s below 2^54.
pub fn square(s: u64) -> u64
    requires { s < 2 ^ 54 }
    ensures { result ≡ s * s / 2 ^ 54 }
{
    high(s * 512, s * 2)
}

// The guess, raised until it is at most half too small.
pub fn raised(a: u64, guess: u64) -> u64
    requires { (a + 2 ≤ 2 ^ 54) × (guess < 2 ^ 53) }
    ensures { (result < 2 ^ 53) × Over a result }
{
    let mut r = guess;
    while square(2 * r + 1) < a {
        r += 1;
    }
    r
}

// Lowered again until it is at most half too large.
pub fn lowered(a: u64, guess: u64) -> u64
    requires { (a + 2 ≤ 2 ^ 54) × (1 ≤ a) × (guess < 2 ^ 53) }
    ensures { Nearest a result }
{
    let mut r = raised(a, guess);
    while a <= square(2 * r - 1) {
        r -= 1;
    }
    r
}

// The nearest root. One square settles nearly every guess: a * 2^52 is at most guess^2 + guess and above guess^2 - guess,
// each by its upper digits.
pub fn nearest(a: u64, guess: u64) -> u64
    requires { (a + 2 ≤ 2 ^ 54) × (1 ≤ a) × (2 ^ 52 ≤ guess) × (guess < 2 ^ 53) }
    ensures { Nearest a result }
{
    let p = high(guess * 1024, guess * 1024);
    let q = guess / 17592186044416;
    if p < a * 256 + q {
        if a * 256 <= p + q {
            return guess;
        }
    }
    lowered(a, guess)
}

// A number near the root of z in units of 2^-52: a cubic, Heron's step, and two terms of what is left. Nothing is promised
// of it but its size: `nearest` corrects it. The cubic is split so that its terms do not wait for each other; g has 26
// digits, so that its square and what z is more are exact.
pub fn guess(z: f64) -> u64
    ensures { (2 ^ 52 ≤ result) × (result < 2 ^ 53) }
{
    let y = (0.450156 + 0.637129 * z) + z * z * (0.007556 * z - 0.092585);
    let g = (0.5 * (y + z / y) + 201326592.0) - 201326592.0;
    let k = 0.5 / g;
    let d = k * (z - g * g);
    let r = g + (d - d * d * k);
    if r < 1.0 {
        return 4503599627370496;
    }
    if r < 2.0 {
        return f64::to_bits(r) % 4503599627370496 + 4503599627370496;
    }
    9007199254740991
}

// The root of x over 2^k, for a positive x that is not below 2^-1022.
pub fn root(x: f64, k: u64) -> f64
    requires { T (not (is_nan x)) × (k ≤ 27) }
    ensures { result ≡ root_of x k }
{
    let b = f64::to_bits(x) % 9223372036854775808;
    let e = b / 4503599627370496;
    let t = b % 4503599627370496;
    let a = (t + 4503599627370496) * (2 - e % 2);
    let z = f64::from_bits((1024 - e % 2) * 4503599627370496 + t);
    let r = nearest(a, guess(z));
    f64::from_bits(((e + 1021) / 2 - k) * 4503599627370496 + r)
}

pub fn sqrt(x: f64) -> f64
    ensures { result ≡ sqrt_of x }
{
    if x != x {
        return x;
    }
    if x < 0.0 {
        return 0.0 / 0.0;
    }
    if x == 0.0 {
        return x;
    }
    if x == f64::from_bits(9218868437227405312) {
        return x;
    }
    if x < f64::from_bits(4503599627370496) {
        return root(x * 18014398509481984.0, 27);
    }
    root(x, 0)
}
