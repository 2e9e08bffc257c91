// The values of the expansions that gtd7 asks for from a fresh State, each worked out once.

#![tactic(auto)]

ghost use Rattle.std.specs.Prelude.{◌≡◌, ◌+◌, ◌*◌, ◌<◌, ◌≤◌, true, cond, length};
ghost use Rattle.std.specs.Float.{binary64};
ghost use Rattle.std.specs.Float.Ieee.{of_int};
ghost use Rattle.numbers.specs.Literals.{0·0};
ghost use Rattle.tables.specs.Tables.{pt_t, pd_t3, pd_t7, pd_t8};
ghost use Rattle.views.specs.Shared.{Shared};
ghost use Rattle.expansion.specs.Expansion.{globe7_given, glob7s_from_given};
ghost use Rattle.numbers.specs.Arithmetic.{◌‼◌};
ghost use Rattle.needed_sets.specs.NeededSets.{glob7s_end};
ghost use Rattle.needed_sets.specs.Sets.{globe7_set, glob7s_set};
ghost use Rattle.season.specs.Season.{seasons_at, longitude_seasons_at, season_into};
ghost use Rattle.expansion_values.specs.Activities.{activity_of, activity_in, active_from, carrying};
ghost use Rattle.expansion_values.specs.ExpansionValues.{legendre_in, quiet_of, active_of, record_values_of};
ghost use Rattle.expansion_values.specs.Sets.{globe7_before, glob7s_before, wide_given, globe7_values_given, glob7s_values_given, expansion_values_given, record_values_given};
ghost use Rattle.expansion_values.specs.InSeason.{longitude_in};

use activity::{Responses, apdf_from, apt_from, responses_to};
use expansion::{Carried, glob7s_from, globe7_value, turns_after};
use expansion_parts::Seasons;
use legendre::legendre;
use needed_sets::{Need, glob7s_end, glob7s_needed, globe7_needed};
use numbers::pick;
use plan::ExpansionValues;
use season::{longitude_seasons_at, season_into, seasons_at};
use setting::{Input, View, fresh};
use switch_rows::is_one;
use tables::{
    pd0, pd1, pd2, pd3, pd4, pd5, pd6, pd7, pd8, pma0, pma1, pma2, pma3, pma4, pma5, pma6, pma7,
    pma8, pma9, ps, pt, ptl0, ptl1, ptl2, ptl3,
};
use views::{day, view_of};

// What State carries before a set's magnetic activity.
pub fn quiet(v: View) -> Carried
    ensures { result ≡ quiet_of v }
{
    let s = fresh();
    let t = turns_after(v, s);
    Carried {
        dfa: v.dfa,
        ctloc: t.ct,
        stloc: t.st,
        c2tloc: t.c2t,
        s2tloc: t.s2t,
        s3tloc: t.s3t,
        c3tloc: t.c3t,
        apdf: 0.0,
        apt: 0.0,
    }
}

// Magnetic activity by the coefficients that most sets share: apdf of the daily ap, or the responses to the history.
#[derive(Clone, Copy)]
pub struct Activity {
    pub apdf: f64,
    pub g: Responses,
}

// The one that switch 9 asks for; the other is 0.
pub fn activity_of(
    sw9: f64,
    ap: f64,
    history: [f64; 7],
    p43: f64,
    p44: f64,
    p24: f64,
    p25: f64,
) -> Activity
    ensures { result ≡ activity_of sw9 ap history p43 p44 p24 p25 }
{
    if sw9 == -1.0 {
        let g = responses_to(p24, p25, history);
        return Activity { apdf: 0.0, g: g };
    }
    let apdf = apdf_from(p43, p44, ap);
    let none = Responses {
        g1: 0.0,
        g2: 0.0,
        g3: 0.0,
        g4: 0.0,
        g5: 0.0,
        g6: 0.0,
    };
    Activity {
        apdf: apdf,
        g: none,
    }
}

// The activity of a set. It stands in line: a set that is lent to a function that does not is written to memory whole.
#[inline(always)]
pub fn activity_by(v: View, p: &[f64]) -> Activity
    requires { length p.now ≡ 150 }
    ensures { result ≡ activity_in v p.now }
{
    let h = v.ap_array;
    activity_of(v.sw[9], v.ap, h, p[43], p[44], p[24], p[25])
}

// What State carries after globe7 over a set of the activity a.
pub fn active(v: View, a: Activity, p51: f64, p138: f64, c: Carried) -> Carried
    ensures { result ≡ active_from v a p51 p138 c }
{
    let apdf = pick(v.sw[9] == -1.0, c.apdf, a.apdf);
    let g = a.g;
    let apt = apt_from(v.sw[9], p51, p138, v.g_lat, g, c.apt);
    let mut out = c;
    out.apdf = apdf;
    out.apt = apt;
    out
}

// Switch 9, and the latitude. Each is read in a function of its own: a View that is read and handed on in one function is copied for each call.
pub fn nine_in(v: View) -> f64
    ensures { result ≡ v.sw ‼ 9 }
{
    v.sw[9]
}

pub fn latitude_in(v: View) -> f64
    ensures { result ≡ v.g_lat }
{
    v.g_lat
}

pub fn legendre_in(v: View) -> [[f64; 9]; 4]
    ensures { result ≡ legendre_in v }
{
    legendre(v.slat, v.clat, [0.0; 36])
}

// globe7 from what State carries, but for apdf and apt.
pub fn globe7_with(
    v: View,
    p: &[f64],
    g: [[f64; 9]; 4],
    c: Carried,
    apdf: f64,
    apt: f64,
    d: Seasons,
) -> f64
    requires { (length p.now ≡ 150) × Shared v }
    ensures { result ≡ globe7_given v p.now g (carrying c apdf apt) d }
{
    let mut s = c;
    s.apdf = apdf;
    s.apt = apt;
    globe7_value(v, p, g, s, d)
}

// The set k of globe7, k from 0: PT, PD[0] to PD[8], PS. It is put where one lies; an array that a match gives is copied once more.
pub fn put_globe7_set(k: usize, p: &mut [f64; 150])
    requires { k < 11 }
    ensures { p.new ≡ globe7_set k }
{
    match k {
        0 => {
            *p = pt();
        }
        1 => {
            *p = pd0();
        }
        2 => {
            *p = pd1();
        }
        3 => {
            *p = pd2();
        }
        4 => {
            *p = pd3();
        }
        5 => {
            *p = pd4();
        }
        6 => {
            *p = pd5();
        }
        7 => {
            *p = pd6();
        }
        8 => {
            *p = pd7();
        }
        9 => {
            *p = pd8();
        }
        _ => {
            *p = ps();
        }
    }
}

// The same where it is needed.
pub fn put_needed_set(on: bool, k: usize, p: &mut [f64; 150])
    requires { (k < 11) × (length p.old ≡ 150) }
    ensures { (length p.new ≡ 150) × (on ≡ true → p.new ≡ globe7_set k) }
{
    if !on {
        return;
    }
    put_globe7_set(k, p);
}

// The activity of the set k: PD[0] and PD[1] have their own, every other set has PT's, which is a.
pub fn globe7_activity(k: usize, v: View, a: Activity) -> Activity
    requires { a ≡ activity_in v pt_t }
    ensures { result ≡ activity_in v (globe7_set k) }
{
    if k == 1 {
        let p = pd0();
        return activity_by(v, &p);
    }
    if k == 2 {
        let p = pd1();
        return activity_by(v, &p);
    }
    a
}

// globe7 over the set k, which is p where it is needed, and 0 where not; c7 is what PD[7] leaves, s the season.
pub fn globe7_at(
    on: bool,
    k: usize,
    v: View,
    p: &[f64],
    g: [[f64; 9]; 4],
    c: Carried,
    a: Activity,
    c7: Carried,
    s: &[f64],
) -> f64
    requires { (length p.now ≡ 150) × Shared v × (on ≡ true → p.now ≡ globe7_set k) × (a ≡ activity_in v pt_t) × (c7 ≡ active_of v pd_t7 c) × (k < 11) × (length s.now ≡ 156) }
    ensures { result ≡ cond on (wide_given v g (globe7_before v c k) (globe7_set k) (seasons_at s.now (4 * k))) 0·0 }
{
    if on {
        let b = globe7_activity(k, v, a);
        let nine = nine_in(v);
        let latitude = latitude_in(v);
        let apdf = pick(nine == -1.0, c.apdf, b.apdf);
        let before = pick(k == 9, c7.apt, c.apt);
        let r = b.g;
        let apt = apt_from(nine, p[51], p[138], latitude, r, before);
        let d = seasons_at(s, 4 * k);
        return globe7_with(v, p, g, c, apdf, apt, d);
    }
    0.0
}

// globe7 over its sets. A loop, so that it stands here once, and what it reads of the View is read in place.
pub fn globe7_values(
    n: Need,
    v: View,
    g: [[f64; 9]; 4],
    c: Carried,
    a: Activity,
    c7: Carried,
    s: &[f64],
) -> [f64; 11]
    requires { Shared v × (a ≡ activity_in v pt_t) × (c7 ≡ active_of v pd_t7 c) × (length s.now ≡ 156) }
    ensures { result ≡ globe7_values_given n v g c s.now }
{
    let mut p = [0.0; 150];
    let mut x = [0.0; 11];
    for k in 0..11 {
        let on = globe7_needed(n, k);
        put_needed_set(on, k, &mut p);
        x[k] = globe7_at(on, k, v, &p, g, c, a, c7, s);
    }
    x
}

// The set k of glob7s, k from 0: PTL and PMA[8], PMA[0], PMA[1], PMA[2] and PMA[9], PMA[3] to PMA[7].
pub fn put_glob7s_set(k: usize, p: &mut [f64; 100])
    requires { k < 14 }
    ensures { p.new ≡ glob7s_set k }
{
    match k {
        0 => {
            *p = ptl0();
        }
        1 => {
            *p = ptl1();
        }
        2 => {
            *p = ptl2();
        }
        3 => {
            *p = ptl3();
        }
        4 => {
            *p = pma8();
        }
        5 => {
            *p = pma0();
        }
        6 => {
            *p = pma1();
        }
        7 => {
            *p = pma2();
        }
        8 => {
            *p = pma9();
        }
        9 => {
            *p = pma3();
        }
        10 => {
            *p = pma4();
        }
        11 => {
            *p = pma5();
        }
        12 => {
            *p = pma6();
        }
        _ => {
            *p = pma7();
        }
    }
}

// What State carries before the set k: c3 for the lower thermosphere, c8 below it.
pub fn glob7s_before(k: usize, c3: Carried, c8: Carried) -> Carried
    ensures { result ≡ glob7s_before k c3 c8 }
{
    if k < 5 {
        return c3;
    }
    c8
}

// glob7s over the set k, which is p, where it is needed.
pub fn glob7s_at(
    on: bool,
    k: usize,
    v: View,
    p: &[f64],
    g: [[f64; 9]; 4],
    c3: Carried,
    c8: Carried,
    s: &[f64],
) -> f64
    requires { (100 ≤ length p.now) × Shared v × (p.now ≡ glob7s_set k) × (k < 14) × (length s.now ≡ 156) }
    ensures { result ≡ cond on (glob7s_from_given v (glob7s_set k) g (glob7s_before k c3 c8) (seasons_at s.now (44 + 4 * k)) (longitude_seasons_at s.now (100 + 4 * k))) 0·0 }
{
    if on {
        let c = glob7s_before(k, c3, c8);
        let d = seasons_at(s, 44 + 4 * k);
        let e = longitude_seasons_at(s, 100 + 4 * k);
        return glob7s_from(v, p, g, c, d, e);
    }
    0.0
}

// glob7s over its sets, the first end of which hold all that are needed.
pub fn glob7s_filled(
    end: usize,
    n: Need,
    v: View,
    g: [[f64; 9]; 4],
    c3: Carried,
    c8: Carried,
    s: &[f64],
) -> [f64; 14]
    requires { (end ≡ glob7s_end n) × Shared v × (length s.now ≡ 156) }
    ensures { result ≡ glob7s_values_given n v g c3 c8 s.now }
{
    let mut p = [0.0; 100];
    let mut x = [0.0; 14];
    for k in 0..end {
        let on = glob7s_needed(n, k);
        put_glob7s_set(k, &mut p);
        x[k] = glob7s_at(on, k, v, &p, g, c3, c8, s);
    }
    x
}

// glob7s over its sets; a is the activity of PT, and c7 what PD[7] leaves. What PD[3] and PD[8] leave is worked out only where a set is needed.
pub fn glob7s_values(
    n: Need,
    v: View,
    g: [[f64; 9]; 4],
    c: Carried,
    a: Activity,
    c7: Carried,
    s: &[f64],
) -> [f64; 14]
    requires { Shared v × (a ≡ activity_in v pt_t) × (length s.now ≡ 156) }
    ensures { result ≡ glob7s_values_given n v g (active_of v pd_t3 c) (active_of v pd_t8 c7) s.now }
{
    let end = glob7s_end(n);
    if end == 0 {
        return [0.0; 14];
    }
    let p3 = pd3();
    let c3 = active(v, a, p3[51], p3[138], c);
    let p8 = pd8();
    let c8 = active(v, a, p8[51], p8[138], c7);
    glob7s_filled(end, n, v, g, c3, c8, s)
}

// The values that are needed, out of a season; the others are 0.
pub fn expansion_values_of(v: View, n: Need, s: &[f64]) -> ExpansionValues
    requires { Shared v × (length s.now ≡ 156) }
    ensures { result ≡ expansion_values_given v n s.now }
{
    let g = legendre_in(v);
    let c = quiet(v);
    let t = pt();
    let k = activity_by(v, &t);
    let p7 = pd7();
    let c7 = active(v, k, p7[51], p7[138], c);
    let x = globe7_values(n, v, g, c, k, c7, s);
    let y = glob7s_values(n, v, g, c, k, c7, s);
    ExpansionValues {
        pt: x[0],
        ps: x[10],
        pd0: x[1],
        pd1: x[2],
        pd2: x[3],
        pd3: x[4],
        pd4: x[5],
        pd5: x[6],
        pd6: x[7],
        pd7: x[8],
        pd8: x[9],
        ptl0: y[0],
        ptl1: y[1],
        ptl2: y[2],
        ptl3: y[3],
        pma0: y[5],
        pma1: y[6],
        pma2: y[7],
        pma3: y[9],
        pma4: y[10],
        pma5: y[11],
        pma6: y[12],
        pma7: y[13],
        pma8: y[4],
        pma9: y[8],
    }
}

// What gts7 and gtd7 read of a record under a switch row, its altitude apart: the switches' main effects, the sine of the latitude and the day's cosine
// with PT's phase, the expansions' values. The View ends here, so that no more of it lies on the stack.
#[derive(Clone, Copy)]
pub struct RecordValues {
    pub sw: [f64; 24],
    pub slat: f64,
    pub cos_pt: f64,
    pub values: ExpansionValues,
}

// Out of a season.
pub fn record_values_in(w: [i32; 24], n: Input, a: Need, s: &[f64]) -> RecordValues
    requires { length s.now ≡ 156 }
    ensures { result ≡ record_values_given w n a s.now }
{
    let v = view_of(w, n);
    let l = expansion_values_of(v, a, s);
    let sw = v.sw;
    RecordValues {
        sw: sw,
        slat: v.slat,
        cos_pt: s[2],
        values: l,
    }
}

// Whether the longitude's term of glob7s reads its cosines of the day.
pub fn longitude_in(w: [i32; 24]) -> bool
    ensures { result ≡ longitude_in w }
{
    let ten = is_one(w, 10);
    let eleven = is_one(w, 11);
    ten & eleven
}

// The same with the season of the record's day, which is left in s.

pub fn record_values(w: [i32; 24], n: Input, a: Need, s: &mut [f64]) -> RecordValues
    requires { length s.old ≡ 156 }
    ensures { (result ≡ record_values_of w n a) × (s.new ≡ season_into (of_int binary64 n.doy) a (longitude_in w) s.old) }
{
    let doy = day(n);
    let long = longitude_in(w);
    season_into(doy, a, long, s);
    record_values_in(w, n, a, s)
}
