// globe7 and glob7s over a View: the State after, and the value.

#![tactic(auto)]

ghost use Rattle.std.specs.Prelude.{◌≡◌, ◌≤◌, length};
ghost use Rattle.views.specs.Shared.{Shared};
ghost use Rattle.expansion.specs.Expansion.{first_terms_of, carried_of, globe7_given, turns_after_of, state_after, globe7_of, glob7s_given, glob7s_from_given, glob7s_of};

use activity::{apdf_next, apt_next};
use expansion_parts::{
    LongitudeSeasons, Seasons, day_cosines, longitude_cosines, t6, t6s, t7, t7s, t8, t8s, t10,
    t10s, t11, t12, t13, t13s, weighted,
};
use legendre::{flat, legendre, rows};
use numbers::pick;
use setting::{Left, State, View};
use terms::{f1, f2, t0, t1, t1s, t2s, t3, t3s, t4, t4s, t5};
use views::Turns;

// t[0] to t[5] of globe7.
#[derive(Clone, Copy)]
pub struct FirstTerms {
    pub t0: f64,
    pub t1: f64,
    pub t2: f64,
    pub t3: f64,
    pub t4: f64,
    pub t5: f64,
}

// What State carries for the terms, beside the Legendre values.
#[derive(Clone, Copy)]
pub struct Carried {
    pub dfa: f64,
    pub ctloc: f64,
    pub stloc: f64,
    pub c2tloc: f64,
    pub s2tloc: f64,
    pub s3tloc: f64,
    pub c3tloc: f64,
    pub apdf: f64,
    pub apt: f64,
}

pub fn carried_in(s: State) -> Carried
    ensures { result ≡ carried_of s }
{
    Carried {
        dfa: s.dfa,
        ctloc: s.ctloc,
        stloc: s.stloc,
        c2tloc: s.c2tloc,
        s2tloc: s.s2tloc,
        s3tloc: s.s3tloc,
        c3tloc: s.c3tloc,
        apdf: s.apdf,
        apt: s.apt[0],
    }
}

// t[0] to t[5] of globe7.
pub fn first_terms(v: View, p: &[f64], g: [[f64; 9]; 4], d: Seasons) -> FirstTerms
    requires { length p.now ≡ 150 }
    ensures { result ≡ first_terms_of v p.now g d }
{
    let fa = f1(p, v.df, v.dfa, v.swc[1]);
    let x0 = t0(p, v.df, v.dfa, v.dfa2);
    let x1 = t1(p, g, v.dfa, v.swc[1]);
    let x3 = t3(p, g, d.cd18);
    let x4 = t4(p, g, fa, d.cd14);
    let x5 = t5(p, g, d.cd39);
    FirstTerms {
        t0: x0,
        t1: x1,
        t2: p[18] * d.cd32,
        t3: x3,
        t4: x4,
        t5: x5,
    }
}

// The value of globe7, from what the State after it carries and its cosines of the day.
pub fn globe7_value(v: View, p: &[f64], g: [[f64; 9]; 4], s: Carried, d: Seasons) -> f64
    requires { (length p.now ≡ 150) × Shared v }
    ensures { result ≡ globe7_given v p.now g s d }
{
    let y = first_terms(v, p, g, d);
    let fb = f2(p, v.df, v.dfa, v.swc[1]);
    let x6 = t6(p, g, v.sw[7], fb, d.cd14, v.swc[5], s.ctloc, s.stloc);
    let x7 = t7(p, g, v.sw[8], fb, d.cd14, v.swc[5], s.c2tloc, s.s2tloc);
    let x8 = t8(v, p, g, d.cd14, s.apdf, s.apt);
    let x10 = t10(v, p, g, d.cd14);
    let x11 = t11(v, p, g, d.cd14);
    let x12 = t12(v, p, g, d.cd14, s.apdf, s.apt);
    let x13 = t13(p, g, v.sw[14], fb, d.cd14, v.swc[5], s.c3tloc, s.s3tloc);
    let t = [
        y.t0, y.t1, y.t2, y.t3, y.t4, y.t5, x6, x7, x8, 0.0, x10, x11, x12, x13,
    ];
    let a = v.sw;
    weighted(p[30], a, t)
}

// The sines of local time after globe7: new only where switch 7, 8 or 14 is on.
pub fn turns_after(v: View, s: State) -> Turns
    ensures { result ≡ turns_after_of v s }
{
    let any = !((v.sw[7] == 0.0) & (v.sw[8] == 0.0) & (v.sw[14] == 0.0));
    let st = pick(any, v.st, s.stloc);
    let ct = pick(any, v.ct, s.ctloc);
    let s2t = pick(any, v.s2t, s.s2tloc);
    let c2t = pick(any, v.c2t, s.c2tloc);
    let s3t = pick(any, v.s3t, s.s3tloc);
    let c3t = pick(any, v.c3t, s.c3tloc);
    Turns {
        st: st,
        ct: ct,
        s2t: s2t,
        c2t: c2t,
        s3t: s3t,
        c3t: c3t,
    }
}

// The State after globe7.
pub fn after(v: View, p: &[f64], s: State) -> State
    requires { length p.now ≡ 150 }
    ensures { result ≡ state_after v p.now s }
{
    let old = s.plg;
    let g = legendre(v.slat, v.clat, old);
    let q = flat(g);
    let t = turns_after(v, s);
    let apdf = apdf_next(v.sw[9], p[43], p[44], v.ap, s.apdf);
    let h = v.ap_array;
    let apt = apt_next(v.sw[9], p[51], p[138], p[24], p[25], v.g_lat, h, s.apt[0]);
    let mut out = s;
    out.dfa = v.dfa;
    out.plg = q;
    out.stloc = t.st;
    out.ctloc = t.ct;
    out.s2tloc = t.s2t;
    out.c2tloc = t.c2t;
    out.s3tloc = t.s3t;
    out.c3tloc = t.c3t;
    out.apdf = apdf;
    out.apt[0] = apt;
    out
}

// globe7 from a View.
pub fn globe7(v: View, p: &[f64], s: State) -> Left<f64>
    requires { (length p.now ≡ 150) × Shared v }
    ensures { result ≡ globe7_of v p.now s }
{
    let a = after(v, p, s);
    let q = a.plg;
    let g = rows(q);
    let c = carried_in(a);
    let d = day_cosines(
        v.doy,
        v.cos_year,
        v.cos_half_year,
        p[31],
        p[17],
        p[13],
        p[38],
    );
    let x = globe7_value(v, p, g, c, d);
    Left { value: x, state: a }
}

// The value of glob7s, with its cosines of the day; e are those of the longitude's term.
pub fn glob7s_value(
    v: View,
    p: &[f64],
    g: [[f64; 9]; 4],
    s: Carried,
    d: Seasons,
    e: LongitudeSeasons,
) -> f64
    requires { (100 ≤ length p.now) × Shared v }
    ensures { result ≡ glob7s_given v p.now g s d e }
{
    let x0 = p[21] * s.dfa;
    let x1 = t1s(p, g);
    let x2 = t2s(p, g, d.cd32);
    let x3 = t3s(p, g, d.cd18);
    let x4 = t4s(p, g, d.cd14);
    let x5 = t5(p, g, d.cd39);
    let x6 = t6s(p, g, v.sw[7], d.cd14, v.swc[5], s.ctloc, s.stloc);
    let x7 = t7s(p, g, v.sw[8], d.cd14, v.swc[5], s.c2tloc, s.s2tloc);
    let x8 = t8s(v, p, g, s.apdf, s.apt);
    let x10 = t10s(v, p, g, e);
    let x13 = t13s(p, g, v.sw[14], s.c3tloc, s.s3tloc);
    let t = [x0, x1, x2, x3, x4, x5, x6, x7, x8, 0.0, x10, 0.0, 0.0, x13];
    let a = v.sw;
    weighted(0.0, a, t)
}

// glob7s from what State carries.
pub fn glob7s_from(
    v: View,
    p: &[f64],
    g: [[f64; 9]; 4],
    s: Carried,
    d: Seasons,
    e: LongitudeSeasons,
) -> f64
    requires { (100 ≤ length p.now) × Shared v }
    ensures { result ≡ glob7s_from_given v p.now g s d e }
{
    let p99 = pick(p[99] == 0.0, 2.0, p[99]);
    if p99 != 2.0 {
        return -1.0;
    }
    glob7s_value(v, p, g, s, d, e)
}

// glob7s from a View.
pub fn glob7s(v: View, p: &[f64], s: State) -> f64
    requires { (100 ≤ length p.now) × Shared v }
    ensures { result ≡ glob7s_of v p.now s }
{
    let q = s.plg;
    let g = rows(q);
    let c = carried_in(s);
    let d = day_cosines(
        v.doy,
        v.cos_year,
        v.cos_half_year,
        p[31],
        p[17],
        p[13],
        p[38],
    );
    let e = longitude_cosines(
        v.doy,
        v.cos_year,
        v.cos_half_year,
        p[81],
        p[86],
        p[84],
        p[88],
    );
    glob7s_from(v, p, g, c, d, e)
}
