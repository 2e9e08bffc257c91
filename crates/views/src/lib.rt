// The View of a row and a record, and the cosines with a phase that the expansions read.

#![tactic(auto)]

ghost use Rattle.std.specs.Prelude.{◌≡◌};
ghost use Rattle.std.specs.Float.{binary64};
ghost use Rattle.std.specs.Float.Ieee.{of_int};
ghost use Rattle.numbers.specs.Arithmetic.{◌⊗◌};
ghost use Rattle.numbers.specs.Constants.{dgtr, hr};
ghost use Rattle.elementary.specs.Trig.{cos_of};
ghost use Rattle.views.specs.View.{turned_of, plain_of, view_of};

pub mod phases;

use crate::phases::{annual_cos, cos_again, semiannual_cos, ut_cos, ut_long_cos};
use elementary::power::pow;
use elementary::trigonometry::{cos, sin};
use numbers::{DGTR, HR};
use setting::switches::tselec;
use setting::{Input, View};

// The sines and cosines of local time, once, twice and three times a day.
#[derive(Clone, Copy)]
pub struct Turns {
    pub st: f64,
    pub ct: f64,
    pub s2t: f64,
    pub c2t: f64,
    pub s3t: f64,
    pub c3t: f64,
}

pub fn turned(lst: f64) -> Turns
    ensures { result ≡ turned_of lst }
{
    let st = sin(HR * lst);
    let ct = cos(HR * lst);
    let s2t = sin(2.0 * HR * lst);
    let c2t = cos(2.0 * HR * lst);
    let s3t = sin(3.0 * HR * lst);
    let c3t = cos(3.0 * HR * lst);
    Turns {
        st: st,
        ct: ct,
        s2t: s2t,
        c2t: c2t,
        s3t: s3t,
        c3t: c3t,
    }
}

// The cosines of the phase 0; ct and clong, those of local time and of the longitude, are among them.
#[derive(Clone, Copy)]
pub struct Plain {
    pub year: f64,
    pub half_year: f64,
    pub local: f64,
    pub ut: f64,
    pub ut_long: f64,
    pub long: f64,
}

pub fn phase_zero(doy: f64, sec: f64, g_long: f64, lst: f64, ct: f64, clong: f64) -> Plain
    requires { (ct ≡ cos_of (hr ⊗ lst)) × (clong ≡ cos_of (dgtr ⊗ g_long)) }
    ensures { result ≡ plain_of doy sec g_long lst }
{
    let year = annual_cos(doy, 0.0);
    let half_year = semiannual_cos(doy, 0.0);
    let local = cos_again(HR * (lst - 0.0), HR * lst, ct);
    let ut = ut_cos(sec, 0.0);
    let ut_long = ut_long_cos(sec, 0.0, g_long);
    let long = cos_again(DGTR * (g_long - 0.0), DGTR * g_long, clong);
    Plain {
        year: year,
        half_year: half_year,
        local: local,
        ut: ut,
        ut_long: ut_long,
        long: long,
    }
}

pub fn day(n: Input) -> f64
    ensures { result ≡ of_int binary64 n.doy }
{
    let d = n.doy;
    d as f64
}

pub fn view_of(w: [i32; 24], n: Input) -> View
    ensures { result ≡ view_of w n }
{
    let f = tselec(w);
    let doy = day(n);
    let dfa2 = pow(n.f107a - 150.0, 2.0);
    let slat = sin(n.g_lat * DGTR);
    let clat = cos(n.g_lat * DGTR);
    let slong = sin(DGTR * n.g_long);
    let clong = cos(DGTR * n.g_long);
    let t = turned(n.lst);
    let z = phase_zero(doy, n.sec, n.g_long, n.lst, t.ct, clong);
    let sw = f.sw;
    let swc = f.swc;
    let ap_array = n.ap_array;
    View {
        sw: sw,
        swc: swc,
        doy: doy,
        sec: n.sec,
        g_lat: n.g_lat,
        g_long: n.g_long,
        lst: n.lst,
        ap: n.ap,
        ap_array: ap_array,
        df: n.f107 - n.f107a,
        dfa: n.f107a - 150.0,
        dfa2: dfa2,
        slat: slat,
        clat: clat,
        slong: slong,
        clong: clong,
        st: t.st,
        ct: t.ct,
        s2t: t.s2t,
        c2t: t.c2t,
        s3t: t.s3t,
        c3t: t.c3t,
        cos_year: z.year,
        cos_half_year: z.half_year,
        cos_local: z.local,
        cos_ut: z.ut,
        cos_ut_long: z.ut_long,
        cos_long: z.long,
    }
}
