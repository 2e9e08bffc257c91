// The calls of scalh, which is never refused, and of densm and densu, with their refusals.

#![tactic(auto)]

ghost use Rattle.std.specs.Prelude.{◌≡◌, ◌≤◌, OnOk, length};
ghost use Rattle.spline_calls.specs.Outcome.{gives};
ghost use Rattle.spline_calls.specs.Calls.{outcome_of};
ghost use Rattle.profile_calls.specs.Calls.{checked, scalh_call, densm_call, densu_call, densu_tn1, densu_tgn1};

use numbers::RGAS;
use profile::unchecked::Profile;
use spline_calls::{NodesRefusal, check_count};

// A set of nodes: their count, the slices that hold them, then two gradients.
fn check_set(n: usize, most: usize, zn: &[f64], tn: &[f64], tgn: &[f64]) -> Result<(), NodesRefusal>
    ensures outcome { outcome_of result ≡ checked n most zn.now tn.now tgn.now (gives tt) }
    ensures fit { OnOk result ((2 ≤ n) × (n ≤ most) × (n ≤ length zn.now) × (n ≤ length tn.now) × (2 ≤ length tgn.now)) }
{
    check_count(n, most)?;
    if (zn.len() < n) | (tn.len() < n) {
        return Err(NodesRefusal::SliceLength(n));
    }
    if tgn.len() < 2 {
        return Err(NodesRefusal::SliceLength(2));
    }
    Ok(())
}

// The scale height of a gas of mass xm.
pub fn scalh(gsurf: f64, re: f64, alt: f64, xm: f64, temp: f64) -> f64
    ensures { result ≡ scalh_call gsurf re alt xm temp }
{
    profile::gravity::scalh(RGAS, gsurf, re, alt, xm, temp)
}

// Temperature and density in the lower atmosphere; the nodes of set 2 are checked before those of set 3.
pub fn densm(
    gsurf: f64,
    re: f64,
    alt: f64,
    d0: f64,
    xm: f64,
    tz: f64,
    mn3: usize,
    zn3: &[f64],
    tn3: &[f64],
    tgn3: &[f64],
    mn2: usize,
    zn2: &[f64],
    tn2: &[f64],
    tgn2: &[f64],
) -> Result<Profile, NodesRefusal>
    ensures { outcome_of result ≡ densm_call gsurf re alt d0 xm tz mn3 zn3.now tn3.now tgn3.now mn2 zn2.now tn2.now tgn2.now }
{
    check_set(mn2, 10, zn2, tn2, tgn2)?;
    check_set(mn3, 10, zn3, tn3, tgn3)?;
    let p = profile::unchecked::densm(
        RGAS, gsurf, re, alt, d0, xm, tz, mn3, zn3, tn3, tgn3, mn2, zn2, tn2, tgn2,
    );
    Ok(p)
}

// Temperature and density in the thermosphere; tz is not read.
pub fn densu(
    gsurf: f64,
    re: f64,
    alt: f64,
    dlb: f64,
    tinf: f64,
    tlb: f64,
    xm: f64,
    alpha: f64,
    tz: f64,
    zlb: f64,
    s2: f64,
    mn1: usize,
    zn1: &[f64],
    tn1: &mut [f64],
    tgn1: &mut [f64],
) -> Result<Profile, NodesRefusal>
    ensures result_value { outcome_of result ≡ densu_call gsurf re alt dlb tinf tlb xm alpha tz zlb s2 mn1 zn1.now tn1.old tgn1.old }
    ensures tn1_after { tn1.new ≡ densu_tn1 re alt tinf tlb zlb s2 mn1 zn1.now tn1.old tgn1.old }
    ensures tgn1_after { tgn1.new ≡ densu_tgn1 re alt tinf tlb zlb s2 mn1 zn1.now tn1.old tgn1.old }
{
    check_set(mn1, 5, zn1, tn1, tgn1)?;
    let a = profile::unchecked::densu(
        RGAS, gsurf, re, alt, dlb, tinf, tlb, xm, alpha, zlb, s2, mn1, zn1, tn1, tgn1,
    );
    Ok(a)
}
