// Mixing, splines and profiles for the host, on numbers and slices, with the elementary functions under them. A call that may be refused
// writes its values into a lent slice, out, and answers 0, or the refusal's number times 2^32 and its place, all lent slices as lent; an out
// that has not its length is refused first, with 4 and the length needed.

#![tactic(auto)]

ghost use Rattle.std.specs.Prelude.{◌≡◌, Err, List, length, Float};
ghost use Rattle.elementary.specs.Exp.{exp_of};
ghost use Rattle.elementary.specs.Log.{log_of};
ghost use Rattle.elementary.specs.Trig.{sin_of, cos_of};
ghost use Rattle.elementary.specs.Root.{sqrt_of};
ghost use Rattle.elementary.specs.Pow.{pow_of};
ghost use Rattle.mixing.specs.Mixing.{ccor_of, ccor2_of, dnet_of};
ghost use Rattle.spline_calls.specs.Outcome.{after};
ghost use Rattle.spline_calls.specs.Calls.{outcome_of, splini_call, splint_call, spline_call};
ghost use Rattle.profile.specs.Gravity.{glatf_of, zeta_of};
ghost use Rattle.profile_calls.specs.Calls.{scalh_call, densm_call, densu_call, densu_tn1, densu_tgn1};
ghost use Rattle.oracle_parts.specs.OracleParts.{outcome_code, one_number, two_numbers, lent, kept_unless_long};

use elementary::exponential::exp;
use elementary::logarithm::log;
use elementary::power::pow;
use elementary::root::sqrt;
use elementary::trigonometry::{cos, sin};
use host_record::packed;
use mixing::{ccor, ccor2, dnet};
use profile::gravity::{glatf, zeta};
use profile::unchecked::{Profile, returned_number, temperature_in};
use profile_calls::{densm, densu, scalh};
use spline_calls::{NodesRefusal, spline, splini, splint};

// A refusal as one number: document 01's times 2^32, and its place.
fn code(e: NodesRefusal) -> u64
    ensures { result ≡ outcome_code (outcome_of {A = List Float} (Err e)) }
{
    match e {
        NodesRefusal::NodeCount(place) => packed(5, place),
        NodesRefusal::SliceLength(place) => packed(4, place),
    }
}

// An answer into a lent slice of one number.
fn tell_value(a: Result<f64, NodesRefusal>, out: &mut [f64]) -> u64
    requires { length out.old ≡ 1 }
    ensures { (result ≡ outcome_code (one_number (outcome_of a))) × (out.new ≡ after (one_number (outcome_of a)) out.old) }
{
    match a {
        Ok(x) => {
            out[0] = x;
            0
        }
        Err(e) => code(e),
    }
}

// An answer into a lent slice of two numbers: the number that the Rust returns, and the temperature that it writes into tz.
fn tell_profile(a: Result<Profile, NodesRefusal>, out: &mut [f64]) -> u64
    requires { length out.old ≡ 2 }
    ensures { (result ≡ outcome_code (two_numbers (outcome_of a))) × (out.new ≡ after (two_numbers (outcome_of a)) out.old) }
{
    match a {
        Ok(p) => {
            out[0] = returned_number(p);
            out[1] = temperature_in(p);
            0
        }
        Err(e) => code(e),
    }
}

// ccor.
#[unsafe(no_mangle)]
pub extern "C" fn parts_ccor(alt: f64, r: f64, h1: f64, zh: f64) -> f64
    ensures { result ≡ ccor_of alt r h1 zh }
{
    ccor(alt, r, h1, zh)
}

// ccor2.
#[unsafe(no_mangle)]
pub extern "C" fn parts_ccor2(alt: f64, r: f64, h1: f64, zh: f64, h2: f64) -> f64
    ensures { result ≡ ccor2_of alt r h1 zh h2 }
{
    ccor2(alt, r, h1, zh, h2)
}

// dnet.
#[unsafe(no_mangle)]
pub extern "C" fn parts_dnet(dd: f64, dm: f64, zhm: f64, xmm: f64, xm: f64) -> f64
    ensures { result ≡ dnet_of dd dm zhm xmm xm }
{
    dnet(dd, dm, zhm, xmm, xm)
}

// glatf's gsurf.
#[unsafe(no_mangle)]
pub extern "C" fn parts_gsurf(lat: f64) -> f64
    ensures { result ≡ (glatf_of lat).gsurf }
{
    let g = glatf(lat);
    g.gsurf
}

// glatf's re.
#[unsafe(no_mangle)]
pub extern "C" fn parts_re(lat: f64) -> f64
    ensures { result ≡ (glatf_of lat).re }
{
    let g = glatf(lat);
    g.re
}

// zeta.
#[unsafe(no_mangle)]
pub extern "C" fn parts_zeta(re: f64, zz: f64, zl: f64) -> f64
    ensures { result ≡ zeta_of re zz zl }
{
    zeta(re, zz, zl)
}

// scalh.
#[unsafe(no_mangle)]
pub extern "C" fn parts_scalh(gsurf: f64, re: f64, alt: f64, xm: f64, temp: f64) -> f64
    ensures { result ≡ scalh_call gsurf re alt xm temp }
{
    scalh(gsurf, re, alt, xm, temp)
}

// splini; out gets the value.
#[unsafe(no_mangle)]
pub extern "C" fn parts_splini(
    xa: &[f64],
    ya: &[f64],
    y2a: &[f64],
    n: usize,
    x: f64,
    out: &mut [f64],
) -> u64
    ensures value { result ≡ outcome_code (lent 1 out.old (one_number (splini_call xa.now ya.now y2a.now n x))) }
    ensures out_after { out.new ≡ after (lent 1 out.old (one_number (splini_call xa.now ya.now y2a.now n x))) out.old }
{
    if out.len() != 1 {
        return packed(4, 1);
    }
    let a = splini(xa, ya, y2a, n, x);
    tell_value(a, out)
}

// splint; out gets the value.
#[unsafe(no_mangle)]
pub extern "C" fn parts_splint(
    xa: &[f64],
    ya: &[f64],
    y2a: &[f64],
    n: usize,
    x: f64,
    out: &mut [f64],
) -> u64
    ensures value { result ≡ outcome_code (lent 1 out.old (one_number (splint_call xa.now ya.now y2a.now n x))) }
    ensures out_after { out.new ≡ after (lent 1 out.old (one_number (splint_call xa.now ya.now y2a.now n x))) out.old }
{
    if out.len() != 1 {
        return packed(4, 1);
    }
    let a = splint(xa, ya, y2a, n, x);
    tell_value(a, out)
}

// spline; y2 gets the second derivatives.
#[unsafe(no_mangle)]
pub extern "C" fn parts_spline(
    x: &[f64],
    y: &[f64],
    n: usize,
    yp1: f64,
    ypn: f64,
    y2: &mut [f64],
) -> u64
    ensures value { result ≡ outcome_code (spline_call x.now y.now n yp1 ypn y2.old) }
    ensures y2_after { y2.new ≡ after (spline_call x.now y.now n yp1 ypn y2.old) y2.old }
{
    match spline(x, y, n, yp1, ypn, y2) {
        Ok(()) => 0,
        Err(e) => code(e),
    }
}

// densm; out gets the number that the Rust returns and the temperature that it writes into tz.
#[unsafe(no_mangle)]
pub extern "C" fn parts_densm(
    gsurf: f64,
    re: f64,
    alt: f64,
    d0: f64,
    xm: f64,
    tz: f64,
    mn3: usize,
    zn3: &[f64],
    tn3: &[f64],
    tgn3: &[f64],
    mn2: usize,
    zn2: &[f64],
    tn2: &[f64],
    tgn2: &[f64],
    out: &mut [f64],
) -> u64
    ensures value { result ≡ outcome_code (lent 2 out.old (two_numbers (densm_call gsurf re alt d0 xm tz mn3 zn3.now tn3.now tgn3.now mn2 zn2.now tn2.now tgn2.now))) }
    ensures out_after { out.new ≡ after (lent 2 out.old (two_numbers (densm_call gsurf re alt d0 xm tz mn3 zn3.now tn3.now tgn3.now mn2 zn2.now tn2.now tgn2.now))) out.old }
{
    if out.len() != 2 {
        return packed(4, 2);
    }
    let a = densm(
        gsurf, re, alt, d0, xm, tz, mn3, zn3, tn3, tgn3, mn2, zn2, tn2, tgn2,
    );
    tell_profile(a, out)
}

// densu; out gets the number that the Rust returns and the temperature that it writes into tz, tn1 and tgn1 their element 0.
#[unsafe(no_mangle)]
pub extern "C" fn parts_densu(
    gsurf: f64,
    re: f64,
    alt: f64,
    dlb: f64,
    tinf: f64,
    tlb: f64,
    xm: f64,
    alpha: f64,
    tz: f64,
    zlb: f64,
    s2: f64,
    mn1: usize,
    zn1: &[f64],
    tn1: &mut [f64],
    tgn1: &mut [f64],
    out: &mut [f64],
) -> u64
    ensures value { result ≡ outcome_code (lent 2 out.old (two_numbers (densu_call gsurf re alt dlb tinf tlb xm alpha tz zlb s2 mn1 zn1.now tn1.old tgn1.old))) }
    ensures out_after { out.new ≡ after (lent 2 out.old (two_numbers (densu_call gsurf re alt dlb tinf tlb xm alpha tz zlb s2 mn1 zn1.now tn1.old tgn1.old))) out.old }
    ensures tn1_after { tn1.new ≡ kept_unless_long 2 out.old tn1.old (densu_tn1 re alt tinf tlb zlb s2 mn1 zn1.now tn1.old tgn1.old) }
    ensures tgn1_after { tgn1.new ≡ kept_unless_long 2 out.old tgn1.old (densu_tgn1 re alt tinf tlb zlb s2 mn1 zn1.now tn1.old tgn1.old) }
{
    if out.len() != 2 {
        return packed(4, 2);
    }
    let a = densu(
        gsurf, re, alt, dlb, tinf, tlb, xm, alpha, tz, zlb, s2, mn1, zn1, tn1, tgn1,
    );
    tell_profile(a, out)
}

// exp.
#[unsafe(no_mangle)]
pub extern "C" fn parts_exp(x: f64) -> f64
    ensures { result ≡ exp_of x }
{
    exp(x)
}

// log.
#[unsafe(no_mangle)]
pub extern "C" fn parts_log(x: f64) -> f64
    ensures { result ≡ log_of x }
{
    log(x)
}

// sin.
#[unsafe(no_mangle)]
pub extern "C" fn parts_sin(x: f64) -> f64
    ensures { result ≡ sin_of x }
{
    sin(x)
}

// cos.
#[unsafe(no_mangle)]
pub extern "C" fn parts_cos(x: f64) -> f64
    ensures { result ≡ cos_of x }
{
    cos(x)
}

// sqrt.
#[unsafe(no_mangle)]
pub extern "C" fn parts_sqrt(x: f64) -> f64
    ensures { result ≡ sqrt_of x }
{
    sqrt(x)
}

// pow.
#[unsafe(no_mangle)]
pub extern "C" fn parts_pow(b: f64, e: f64) -> f64
    ensures { result ≡ pow_of b e }
{
    pow(b, e)
}
