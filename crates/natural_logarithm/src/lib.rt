// log on f64, by whole numbers alone. The digits are multiplied by a short reciprocal, which leaves a number little below
// 1, and a short series gives its logarithm.

#![tactic(auto)]

ghost use Rattle.std.specs.Prelude.{◌≡◌, not, ℕ, ◌+◌, ◌*◌, ◌/◌, ◌^◌, ◌<◌, ◌≤◌, T, Float};
ghost use Rattle.std.specs.Float.{binary64};
ghost use Rattle.std.specs.Float.Ieee.{is_nan};
ghost use Rattle.natural_logarithm.specs.Log.{log1m_of, log_tail, fraction_of, difference_of, log_digits, log_of};

use logarithm_tables::piece_at;

// 1/2 + z/3 + z^2/4 + .. + z^5/7 in units of 2^-33, for z in units of 2^-38.
pub fn tail(s: u64) -> u64
    requires { s ≤ 2355575561 }
    ensures { (result ≡ log_tail s) × (result ≤ 4330000000) }
{
    let a = 1431655765 + s * 1227133513 / 274877906944;
    let b = 1717986918 + s * a / 274877906944;
    let c = 2147483648 + s * b / 274877906944;
    let d = 2863311530 + s * c / 274877906944;
    4294967296 + s * d / 274877906944
}

// -log (1 - z) in units of 2^-58, for z in units of 2^-58, below 2^-6.6.
pub fn log1m(z: u64) -> u64
    requires { z ≤ 2470000000000000 }
    ensures { (result ≡ log1m_of z) × (result ≤ 2 ^ 57) }
{
    let s = z / 1048576;
    let l = z % 1048576;
    let q = (s * s + s * l / 524288) / 2147483648;
    z + q * tail(s) / 1048576
}

// (u - 2^63) / 2^53, rounded once. The upper digits make a float from 2^31 on and the lower ones one from 1/2 on, by their
// bits; what both have too much is taken off exactly. A cast of |u - 2^63| and a sign would take twice as many steps.
pub fn difference(u: u64) -> f64
    ensures { result ≡ difference_of u (2 ^ 63) }
{
    let upper = f64::from_bits(4746794007248502784 + u / 4294967296);
    let lower = f64::from_bits(4602678819172646912 + u % 4294967296);
    upper - 2147484672.5 + lower
}

// The logarithm of (1 + t / 2^52) * 2^(e - 1023 - k).
pub fn digits(k: u64, e: u64, t: u64) -> f64
    requires { (k ≤ 54) × (e < 2048) × (t < 2 ^ 52) }
    ensures { result ≡ log_digits k e t }
{
    let i = t / 35184372088832;
    let piece = piece_at(i);
    let z = (4611686018427387904 - (t + 4503599627370496) * piece.0) / 16;
    let w = (piece.1 + 288230376151711744 - log1m(z)) / 32;
    difference(e * 6243314768165359 + w + (2827453829766872559 - k * 6243314768165359))
}

// What is most asked for comes first: one test leaves NaN, negative numbers, the zeros and the tail for later. A number below
// 2^-1022 is taken 2^54 times as large, exactly.
pub fn log(x: f64) -> f64
    ensures { result ≡ log_of x }
{
    if x >= f64::from_bits(4503599627370496) {
        if x == f64::from_bits(9218868437227405312) {
            return x;
        }
        if x == 1.0 {
            return 0.0;
        }
        let b = f64::to_bits(x) % 9223372036854775808;
        return digits(0, b / 4503599627370496, b % 4503599627370496);
    }
    if x > 0.0 {
        let b = f64::to_bits(x * 18014398509481984.0) % 9223372036854775808;
        return digits(54, b / 4503599627370496, b % 4503599627370496);
    }
    if x == 0.0 {
        return -f64::from_bits(9218868437227405312);
    }
    0.0 / 0.0
}
