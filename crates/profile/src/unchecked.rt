// The two profiles over nodes that need no check.
ghost use Rattle.std.specs.Prelude.{◌≡◌, ◌≤◌, length};
ghost use Rattle.profile.specs.Profile.{bates_of, gradient_of, densa_of, densu_above, densu_below, densu_of, tn1_of, tgn1_of, lowered_of, profile_answer, densm_of, returned_number, temperature_in};

use super::curve::{Curve, capped, exponent, floored, layer, unset};
use super::gravity::zeta;
use elementary::exponential::exp;
use elementary::power::pow;
use numbers::pick;

// What a profile answers: a temperature, or a density and the temperature there.
#[derive(Clone, Copy)]
pub enum Profile {
    Temperature(f64),
    Density(f64, f64),
}

// What densu reads besides an altitude, a density, a mass and a diffusion factor; rgas is the gas constant.
#[derive(Clone, Copy)]
pub struct Shape {
    pub rgas: f64,
    pub gsurf: f64,
    pub re: f64,
    pub tinf: f64,
    pub tlb: f64,
    pub s: f64,
    pub tn: [f64; 5],
    pub tgn: [f64; 2],
}

// The Bates temperature at a geopotential height zg2 above zlb.
pub fn bates(tinf: f64, tlb: f64, s2: f64, zg2: f64) -> f64
    ensures { result ≡ bates_of tinf tlb s2 zg2 }
{
    tinf - (tinf - tlb) * exp(-s2 * zg2)
}

// Its gradient at za.
pub fn gradient(re: f64, tinf: f64, ta: f64, zlb: f64, s2: f64, za: f64) -> f64
    ensures { result ≡ gradient_of re tinf ta zlb s2 za }
{
    (tinf - ta) * s2 * pow((re + zlb) / (re + za), 2.0)
}

// The density under the Bates temperature tt.
pub fn densa(
    rgas: f64,
    gsurf: f64,
    re: f64,
    dlb: f64,
    tinf: f64,
    tlb: f64,
    xm: f64,
    alpha: f64,
    zlb: f64,
    s2: f64,
    zg2: f64,
    tt: f64,
) -> f64
    ensures { result ≡ densa_of rgas gsurf re dlb tinf tlb xm alpha zlb s2 zg2 tt }
{
    let q = pow(1.0 + zlb / re, 2.0);
    let glb = gsurf / q;
    let gamma = xm * glb / (s2 * rgas * tinf);
    let e = exp(-s2 * gamma * zg2);
    let c = capped(e);
    let expl = pick(tt <= 0.0, 50.0, c);
    let p = pow(tlb / tt, 1.0 + alpha + gamma);
    dlb * p * expl
}

// densu at or above the first node.
pub fn above(
    rgas: f64,
    gsurf: f64,
    re: f64,
    dlb: f64,
    tinf: f64,
    tlb: f64,
    xm: f64,
    alpha: f64,
    zlb: f64,
    s2: f64,
    zg2: f64,
    tt: f64,
) -> Profile
    ensures { result ≡ densu_above rgas gsurf re dlb tinf tlb xm alpha zlb s2 zg2 tt }
{
    if xm == 0.0 {
        return Profile::Temperature(tt);
    }
    let d = densa(rgas, gsurf, re, dlb, tinf, tlb, xm, alpha, zlb, s2, zg2, tt);
    Profile::Density(d, tt)
}

// densu from the curve l on, where the altitude is not at or above the first node.
pub fn below(
    rgas: f64,
    gsurf: f64,
    re: f64,
    dlb: f64,
    tinf: f64,
    tlb: f64,
    xm: f64,
    alpha: f64,
    zlb: f64,
    s2: f64,
    zg2: f64,
    tt: f64,
    l: Curve,
    n: usize,
) -> Profile
    requires { (2 ≤ n) × (n ≤ 10) }
    ensures { result ≡ densu_below rgas gsurf re dlb tinf tlb xm alpha zlb s2 zg2 tt l n }
{
    if xm == 0.0 {
        return Profile::Temperature(l.tz);
    }
    let d = densa(rgas, gsurf, re, dlb, tinf, tlb, xm, alpha, zlb, s2, zg2, tt);
    let e = exponent(rgas, gsurf, re, xm, l, n);
    let c = capped(e);
    let expl = pick(l.tz <= 0.0, 50.0, c);
    let p = pow(l.t1 / l.tz, 1.0 + alpha);
    let k = exp(-expl);
    Profile::Density(d * p * k, l.tz)
}

// densu over n nodes; below the first node element 0 of tn1 and of tgn1 is set.
pub fn densu(
    rgas: f64,
    gsurf: f64,
    re: f64,
    alt: f64,
    dlb: f64,
    tinf: f64,
    tlb: f64,
    xm: f64,
    alpha: f64,
    zlb: f64,
    s2: f64,
    mn1: usize,
    zn1: &[f64],
    tn1: &mut [f64],
    tgn1: &mut [f64],
) -> Profile
    requires { (2 ≤ mn1) × (mn1 ≤ 10) × (mn1 ≤ length zn1.now) × (mn1 ≤ length tn1.old) × (2 ≤ length tgn1.old) }
    ensures value { result ≡ densu_of rgas gsurf re alt dlb tinf tlb xm alpha zlb s2 mn1 zn1.now tn1.old tgn1.old }
    ensures tn1_after { tn1.new ≡ tn1_of re alt tinf tlb zlb s2 zn1.now tn1.old }
    ensures tgn1_after { tgn1.new ≡ tgn1_of re alt tinf tlb zlb s2 zn1.now tgn1.old }
{
    let za = zn1[0];
    let z = pick(alt > za, alt, za);
    let zg2 = zeta(re, z, zlb);
    let tt = bates(tinf, tlb, s2, zg2);
    if alt < za {
        let dta = gradient(re, tinf, tt, zlb, s2, za);
        tgn1[0] = dta;
        tn1[0] = tt;
        let l = floored(re, zn1, tn1, mn1, tgn1, alt);
        return below(
            rgas, gsurf, re, dlb, tinf, tlb, xm, alpha, zlb, s2, zg2, tt, l, mn1,
        );
    }
    if alt >= za {
        return above(rgas, gsurf, re, dlb, tinf, tlb, xm, alpha, zlb, s2, zg2, tt);
    }
    let l = unset(tt);
    below(
        rgas, gsurf, re, dlb, tinf, tlb, xm, alpha, zlb, s2, zg2, tt, l, mn1,
    )
}

// The density d carried down a curve.
pub fn lowered(rgas: f64, gsurf: f64, re: f64, xm: f64, d: f64, l: Curve, n: usize) -> f64
    requires { (2 ≤ n) × (n ≤ 10) }
    ensures { result ≡ lowered_of rgas gsurf re xm d l n }
{
    if xm == 0.0 {
        return d;
    }
    let e = exponent(rgas, gsurf, re, xm, l, n);
    let c = capped(e);
    let k = exp(-c);
    d * (l.t1 / l.tz) * k
}

// The temperature where xm is 0, else the density with it.
pub fn answer(xm: f64, d: f64, tz: f64) -> Profile
    ensures { result ≡ profile_answer xm d tz }
{
    if xm == 0.0 {
        return Profile::Temperature(tz);
    }
    Profile::Density(d, tz)
}

// densm over mn3 nodes of set 3 and mn2 nodes of set 2.
pub fn densm(
    rgas: f64,
    gsurf: f64,
    re: f64,
    alt: f64,
    d0: f64,
    xm: f64,
    tz: f64,
    mn3: usize,
    zn3: &[f64],
    tn3: &[f64],
    tgn3: &[f64],
    mn2: usize,
    zn2: &[f64],
    tn2: &[f64],
    tgn2: &[f64],
) -> Profile
    requires le_mn3 { (2 ≤ mn3) × (mn3 ≤ 10) × (mn3 ≤ length zn3.now) × (mn3 ≤ length tn3.now) × (2 ≤ length tgn3.now) }
    requires le_mn2 { (2 ≤ mn2) × (mn2 ≤ 10) × (mn2 ≤ length zn2.now) × (mn2 ≤ length tn2.now) × (2 ≤ length tgn2.now) }
    ensures { result ≡ densm_of rgas gsurf re alt d0 xm tz mn3 zn3.now tn3.now tgn3.now mn2 zn2.now tn2.now tgn2.now }
{
    if alt > zn2[0] {
        return answer(xm, d0, tz);
    }
    let l = floored(re, zn2, tn2, mn2, tgn2, alt);
    let d1 = lowered(rgas, gsurf, re, xm, d0, l, mn2);
    if alt > zn3[0] {
        return answer(xm, d1, l.tz);
    }
    let k = layer(re, zn3, tn3, mn3, tgn3, alt);
    let d2 = lowered(rgas, gsurf, re, xm, d1, k, mn3);
    answer(xm, d2, k.tz)
}

// densm over five nodes and four, as gtd7 has them.
pub fn densm54(
    rgas: f64,
    gsurf: f64,
    re: f64,
    alt: f64,
    d0: f64,
    xm: f64,
    tz: f64,
    zn3: [f64; 5],
    tn3: [f64; 5],
    tgn3: [f64; 2],
    zn2: [f64; 4],
    tn2: [f64; 4],
    tgn2: [f64; 2],
) -> Profile
    ensures { result ≡ densm_of rgas gsurf re alt d0 xm tz 5 zn3 tn3 tgn3 4 zn2 tn2 tgn2 }
{
    densm(
        rgas, gsurf, re, alt, d0, xm, tz, 5, &zn3, &tn3, &tgn3, 4, &zn2, &tn2, &tgn2,
    )
}

// The number that the Rust returns.
pub fn returned_number(a: Profile) -> f64
    ensures { result ≡ returned_number a }
{
    match a {
        Profile::Temperature(t) => t,
        Profile::Density(d, t) => d,
    }
}

// The temperature that the Rust writes.
pub fn temperature_in(a: Profile) -> f64
    ensures { result ≡ temperature_in a }
{
    match a {
        Profile::Temperature(t) => t,
        Profile::Density(d, t) => t,
    }
}
