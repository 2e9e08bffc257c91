// sin and cos on f64, by whole numbers alone: quarter turns are taken off the argument, and the sine and the cosine of
// what is left come from a table's entry and a short series.

#![tactic(auto)]

ghost use Rattle.std.specs.Prelude.{◌≡◌, ℕ, ◌+◌, ◌-◌, ◌*◌, ◌/◌, ◌^◌, ◌<◌, ◌≤◌, Float};
ghost use Rattle.std.specs.Float.{fin, binary64};
ghost use Rattle.std.specs.Float.Ieee.{is_nan};
ghost use Rattle.fixed_point.specs.Float.{Within};
ghost use Rattle.circular_functions.specs.Trig.{sine_cubic, versine_of, scaling_of, decrement_of, circular_part, circular_signed, quarter_of, sinusoid_of, circular_reduced, circular_turned, sin_of, cos_of};

use circular_tables::sine_cosine_at;
use fixed_point::{choose, high, offset, scaled};

// sin d in units of 2^-50, for d in units of 2^-58, below 2^50: d - d^3/6.
pub fn cubic(d: u64) -> u64
    requires { d < 2 ^ 50 }
    ensures { (result ≡ sine_cubic d) × (result ≤ 2 ^ 42) }
{
    let s = d / 262144;
    let q = s * s / 4294967296;
    (d - s * (715827883 * q / 4294967296) / 1073741824) / 256
}

// 1 - cos d in units of 2^-49: d^2/2 - d^4/24.
pub fn versine(d: u64) -> u64
    requires { d < 2 ^ 50 }
    ensures { (result ≡ versine_of d) × (result ≤ 2 ^ 32) }
{
    let s = d / 262144;
    let q = s * s / 4294967296;
    q - q * (178956971 * q / 1099511627776) / 549755813888
}

// a * p in units of 2^-58, for a in units of 2^-58 and p in units of 2^-50.
pub fn scaling(a: u64, p: u64) -> u64
    requires { (a ≤ 2 ^ 58) × (p ≤ 2 ^ 42) }
    ensures { (result ≡ scaling_of a p) × (result ≤ 2 ^ 51) }
{
    high(p * 1048576, a / 65536 * 1024)
}

// a * e in units of 2^-58, for a in units of 2^-58 and e in units of 2^-49.
pub fn decrement(a: u64, e: u64) -> u64
    requires { (a ≤ 2 ^ 58) × (e ≤ 2 ^ 32) }
    ensures { (result ≡ decrement_of a e) × (result ≤ a) × (result ≤ 2 ^ 41) }
{
    e * (a / 134217728) / 4194304
}

// sin r for a parity of 0 and cos r for a parity of 1, in units of 2^-58, for r in units of 2^-58, from 0 to 1.
pub fn part(h: u64, r: u64) -> u64
    requires { r ≤ 2 ^ 58 }
    ensures { (result ≡ circular_part h r) × (result ≤ 2 ^ 59) }
{
    let entry = sine_cosine_at(r / 1125899906842624);
    let d = r % 1125899906842624;
    let u = choose(h, entry.0, entry.1);
    let w = choose(h, entry.1, entry.0);
    offset(h, u, scaling(w, cubic(d))) - decrement(u, versine(d))
}

// v in units of 2^-58 as a float, cut to 2^-51, below zero in the third and fourth quarters.
pub fn signed(n: u64, v: u64) -> f64
    requires { v ≤ 2 ^ 59 }
    ensures { result ≡ circular_signed n (v / 128) }
{
    let q = v / 128;
    if q == 0 {
        return 0.0;
    }
    (q as f64) * f64::from_bits(4377498837804122112 + n % 4 / 2 * 9223372036854775808)
}

// The quarter that decides the sign.
pub fn quarter(n: u64, t: u64) -> u64
    requires { n ≤ 2 ^ 32 }
    ensures { result ≡ quarter_of n t }
{
    if t < 288230376151711744 {
        if n % 2 == 0 {
            return n + 2;
        }
    }
    n
}

// The sine of n quarter turns and t - 1, for t in units of 2^-58, from 0 to 2.
pub fn sinusoid(n: u64, t: u64) -> f64
    requires { (n ≤ 2 ^ 32) × (t ≤ 2 ^ 59) }
    ensures { result ≡ sinusoid_of n t }
{
    signed(quarter(n, t), part(n % 2, t.abs_diff(288230376151711744)))
}

// The sine of k quarter turns and m, for m in units of 2^-46.
pub fn reduced(m: u64, k: u64) -> f64
    requires { (m ≤ 65536 * 2 ^ 46) × (k ≤ 2) }
    ensures { result ≡ circular_reduced m k }
{
    let n = (m / 2147483648 * 2734261102 + 70368744177664) / 140737488355328;
    let t = (m + 70368744177664 - n * 110534964875444) * 4096 - n * 1629119075 / 1048576;
    sinusoid(n + k, t)
}

// The sine of k quarter turns and |x|.
pub fn turned(x: f64, k: u64) -> f64
    requires { Within x 65536 × (k ≤ 2) }
    ensures { result ≡ circular_turned x k }
{
    let b = f64::to_bits(x) % 9223372036854775808;
    if 4607182418800017408 < b {
        return reduced(scaled(x, 46), k);
    }
    sinusoid(k, 288230376151711744 + scaled(x, 58))
}

pub fn sin(x: f64) -> f64
    ensures { result ≡ sin_of x }
{
    if x != x {
        return x;
    }
    let b = f64::to_bits(x);
    if 4679240012837945344 < b % 9223372036854775808 {
        return 0.0 / 0.0;
    }
    turned(x, b / 9223372036854775808 * 2)
}

pub fn cos(x: f64) -> f64
    ensures { result ≡ cos_of x }
{
    if x != x {
        return x;
    }
    let b = f64::to_bits(x);
    if 4679240012837945344 < b % 9223372036854775808 {
        return 0.0 / 0.0;
    }
    turned(x, 1)
}
