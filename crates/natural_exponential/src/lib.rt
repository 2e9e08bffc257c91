// exp on f64, by whole numbers alone.

#![tactic(auto)]

ghost use Rattle.std.specs.Prelude.{◌≡◌, false, ℕ, ◌+◌, ◌*◌, ◌/◌, ◌^◌, ◌<◌, ◌≤◌, T, Float};
ghost use Rattle.std.specs.Float.{fin, binary64};
ghost use Rattle.std.specs.Float.Ieee.{is_nan, lt};
ghost use Rattle.std.specs.Float.Ieee.Scale.{finite};
ghost use Rattle.natural_exponential.specs.Exp.{expm1_of, compounded_of, kernel_of, assembled_of, times_of, exp_rest, most, least, exp_of};
ghost use Rattle.fixed_point.specs.Fixed.{offset_of};

use exponential_tables::{coarse_at, fine_at};
use fixed_point::{high, offset, scaled};

// e^d - 1 in units of 2^-51, for d in units of 2^-58, below 2^48.
pub fn expm1(d: u64) -> u64
    requires { d < 2 ^ 48 }
    ensures { (result ≡ expm1_of d) × (result ≤ 2200097350000) }
{
    let s = d / 65536;
    let h = 715827883 + s * 178956971 / 4398046511104;
    let r = 2147483648 + s * h / 4398046511104;
    let v = s * r / 4294967296;
    (d + s * v / 67108864) / 128
}

// c + c * p, for c in units of 2^-58 and p in units of 2^-51.
pub fn compounded(c: u64, p: u64) -> u64
    requires { (c ≤ 808000000000000000) × (p ≤ 2200097350000) }
    ensures { (result ≡ compounded_of c p) × (result < 2 ^ 60) }
{
    c + high(p * 2097152, c / 65536 * 256)
}

// e^(t - 1) in units of 2^-58, for t in units of 2^-58, from 0 to 2.
pub fn kernel(t: u64) -> u64
    requires { t ≤ 2 ^ 59 }
    ensures { (result ≡ kernel_of t) × (128 ≤ result) × (result < 2 ^ 60) }
{
    let c = high(
        coarse_at(t / 9007199254740992),
        fine_at(t / 281474976710656 % 32),
    );
    compounded(c, expm1(t % 281474976710656))
}

// v / 128 * 2^k / 2^1138 as a float. From k = 116 on 2^(k - 1138) is a float by its bits, and the one product is exact.
// Below that v / 128 over 2^115 is exact, and only the last product rounds, below 2^-1022 too.
pub fn assembled(v: u64, k: u64) -> f64
    requires { (128 ≤ v) × (v < 2 ^ 60) × (1 ≤ k) × (k ≤ 2109) }
    ensures { result ≡ assembled_of v k }
{
    let q = v / 128;
    if 115 < k {
        return (q as f64) * f64::from_bits((k - 115) * 4503599627370496);
    }
    (q as f64) * f64::from_bits(4089268461652410368) * f64::from_bits(k * 4503599627370496)
}

// What is left of an argument for the kernel: t, and the exponent k.
#[derive(Clone, Copy)]
pub struct Rest {
    pub t: u64,
    pub k: u64,
}

// For x = m in units of 2^-53, above 1: n times log 2 is taken off m, and 2^n is left to the exponent.
pub fn risen(m: u64) -> Rest
    requires { m ≤ 709 * 2 ^ 53 }
    ensures { (result.t ≡ exp_rest 0 m (times_of m)) × (result.k ≡ offset_of 0 1087 (times_of m)) × (result.t ≤ 2 ^ 59) × (1 ≤ result.k) × (result.k ≤ 2109) }
{
    let n = m / 4294967296 * 3098164009 / 4503599627370496;
    let t = (9007199254740992 + m - n * 6243314768165359) * 32 - n * 6;
    Rest { t: t, k: 1087 + n }
}

// For -x = m: m is taken off n times log 2, and 2^-n is left to the exponent.
pub fn fallen(m: u64) -> Rest
    requires { m ≤ 745 * 2 ^ 53 }
    ensures { (result.t ≡ exp_rest 1 m (times_of m + 1)) × (result.k ≡ offset_of 1 1087 (times_of m + 1)) × (result.t ≤ 2 ^ 59) × (1 ≤ result.k) × (result.k ≤ 2109) }
{
    let n = m / 4294967296 * 3098164009 / 4503599627370496 + 1;
    let t = (9007199254740992 + n * 6243314768165359 - m) * 32 + n * 6;
    Rest { t: t, k: 1087 - n }
}

// For |x| = m in units of 2^-58, at most 1: nothing is taken off.
pub fn near(s: u64, m: u64) -> Rest
    requires { m ≤ 2 ^ 58 }
    ensures { (result.t ≡ offset_of s (2 ^ 58) m) × (result.k ≡ 1087) × (result.t ≤ 2 ^ 59) × (1 ≤ result.k) × (result.k ≤ 2109) }
{
    let t = offset(s, 288230376151711744, m);
    Rest { t: t, k: 1087 }
}

// What is left of x, from -745 to 709.
pub fn rest_of(x: f64) -> Rest
    requires { (is_nan x ≡ false) × (lt most x ≡ false) × (lt x least ≡ false) }
    ensures { (assembled_of (kernel_of result.t) result.k ≡ exp_of x) × (result.t ≤ 2 ^ 59) × (1 ≤ result.k) × (result.k ≤ 2109) }
{
    let b = f64::to_bits(x);
    if 4607182418800017408 < b % 9223372036854775808 {
        if b < 9223372036854775808 {
            return risen(scaled(x, 53));
        }
        return fallen(scaled(x, 53));
    }
    near(b / 9223372036854775808, scaled(x, 58))
}

// The usual range first; one call of the kernel for every x, so that it stands in line.
pub fn exp(x: f64) -> f64
    ensures { result ≡ exp_of x }
{
    if x >= -745.0 {
        if x <= 709.0 {
            let r = rest_of(x);
            return assembled(kernel(r.t), r.k);
        }
        return f64::from_bits(9218868437227405312);
    }
    if x != x {
        return x;
    }
    0.0
}
