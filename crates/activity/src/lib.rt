// Magnetic activity: g0, sumex, sg0, and what globe7 leaves in apdf and apt.

#![tactic(auto)]

ghost use Rattle.std.specs.Prelude.{◌≡◌};
ghost use Rattle.activity.specs.Activity.{g0_of, sumex_of, weighted_mean_of, exp1_of, apdf_from_of, apdf_next_of, apt_next_of};
ghost use Rattle.activity.specs.Responses.{responses_of, sg0_from, apt_from};

use elementary::exponential::exp;
use elementary::power::product;
use elementary::root::sqrt;
use numbers::pick;

// g0 of the Rust, with r the root of p[24] squared.
fn g0(r: f64, p25: f64, a: f64) -> f64
    ensures { result ≡ g0_of r p25 a }
{
    let e = exp(-r * (a - 4.0));
    a - 4.0 + (p25 - 1.0) * (a - 4.0 + (e - 1.0) / r)
}

// sumex. Its powers and those of sg0 name their rule of pow, which the compiler does not find from a constant exponent.
fn sumex(ex: f64) -> f64
    ensures { result ≡ sumex_of ex }
{
    let a = product(ex, 19);
    let b = sqrt(ex);
    1.0 + (1.0 - a) / (1.0 - ex) * b
}

// The mean of sg0 over the six values.
pub fn weighted_mean(
    ex: f64,
    e3: f64,
    e4: f64,
    e12: f64,
    e8: f64,
    g1: f64,
    g2: f64,
    g3: f64,
    g4: f64,
    g5: f64,
    g6: f64,
    s: f64,
) -> f64
    ensures { result ≡ weighted_mean_of ex e3 e4 e12 e8 g1 g2 g3 g4 g5 g6 s }
{
    (g1 + (g2 * ex + g3 * ex * ex + g4 * e3 + (g5 * e4 + g6 * e12) * (1.0 - e8) / (1.0 - ex))) / s
}

// g0 of the six later values of the history.
#[derive(Clone, Copy)]
pub struct Responses {
    pub g1: f64,
    pub g2: f64,
    pub g3: f64,
    pub g4: f64,
    pub g5: f64,
    pub g6: f64,
}

// The responses that p[24] as raised and p[25] give.
pub fn responses_to(p24: f64, p25: f64, ap: [f64; 7]) -> Responses
    ensures { result ≡ responses_of p24 p25 ap }
{
    let q = pick(p24 < 1.0E-4, 1.0E-4, p24);
    let r = sqrt(q * q);
    let g1 = g0(r, p25, ap[1]);
    let g2 = g0(r, p25, ap[2]);
    let g3 = g0(r, p25, ap[3]);
    let g4 = g0(r, p25, ap[4]);
    let g5 = g0(r, p25, ap[5]);
    let g6 = g0(r, p25, ap[6]);
    Responses {
        g1: g1,
        g2: g2,
        g3: g3,
        g4: g4,
        g5: g5,
        g6: g6,
    }
}

// sg0 of responses.
fn sg0(ex: f64, g: Responses) -> f64
    ensures { result ≡ sg0_from ex g }
{
    let e3 = product(ex, 3);
    let e4 = product(ex, 4);
    let e12 = product(ex, 12);
    let e8 = product(ex, 8);
    let s = sumex(ex);
    weighted_mean(ex, e3, e4, e12, e8, g.g1, g.g2, g.g3, g.g4, g.g5, g.g6, s)
}

// exp1 of globe7, at most 0.99999.
pub fn exp1(p51: f64, p138: f64, glat: f64) -> f64
    ensures { result ≡ exp1_of p51 p138 glat }
{
    let a = sqrt(p51 * p51);
    let b = sqrt(glat * glat);
    let e = exp(-10800.0 * a / (1.0 + p138 * (45.0 - b)));
    pick(e > 0.99999, 0.99999, e)
}

// apdf of globe7.
pub fn apdf_from(p43: f64, p44: f64, ap: f64) -> f64
    ensures { result ≡ apdf_from_of p43 p44 ap }
{
    let apd = ap - 4.0;
    let q = pick(p43 < 0.0, 1.0E-5, p43);
    let e = exp(-q * apd);
    apd + (p44 - 1.0) * (apd + (e - 1.0) / q)
}

// apdf after globe7: kept in history mode.
pub fn apdf_next(sw9: f64, p43: f64, p44: f64, ap: f64, old: f64) -> f64
    ensures { result ≡ apdf_next_of sw9 p43 p44 ap old }
{
    if sw9 == -1.0 {
        return old;
    }
    apdf_from(p43, p44, ap)
}

// apt[0] after globe7: kept unless the history is asked for and p[51] is not zero.
pub fn apt_next(
    sw9: f64,
    p51: f64,
    p138: f64,
    p24: f64,
    p25: f64,
    glat: f64,
    ap: [f64; 7],
    old: f64,
) -> f64
    ensures { result ≡ apt_next_of sw9 p51 p138 p24 p25 glat ap old }
{
    if !((sw9 == -1.0) & (p51 != 0.0)) {
        return old;
    }
    let e = exp1(p51, p138, glat);
    let g = responses_to(p24, p25, ap);
    sg0(e, g)
}

// The same where the responses are known.
pub fn apt_from(sw9: f64, p51: f64, p138: f64, glat: f64, g: Responses, old: f64) -> f64
    ensures { result ≡ apt_from sw9 p51 p138 glat g old }
{
    if !((sw9 == -1.0) & (p51 != 0.0)) {
        return old;
    }
    let e = exp1(p51, p138, glat);
    sg0(e, g)
}
