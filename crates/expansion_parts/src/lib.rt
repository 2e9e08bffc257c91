// The terms under their switches, the cosines with a phase, and the weighted sum.

#![tactic(auto)]

ghost use Rattle.std.specs.Prelude.{◌≡◌, ◌≤◌, length};
ghost use Rattle.views.specs.Phases.{annual_cos_of, semiannual_cos_of, local_cos_of, ut_cos_of, ut_long_cos_of, long_phase_cos_of};
ghost use Rattle.numbers.specs.Literals.{0·0};
ghost use Rattle.views.specs.Shared.{OwnSize, Shared};
ghost use Rattle.expansion_parts.specs.ExpansionParts.{day_cosines_at, longitude_cosines_at, has_longitude_of, t6_of, t7_of, t13_of, history8_of, daily8_of, t8_of, t10_of, t11_of, history12_of, daily12_of, t12_of, weighted_of, t8s_of, t10s_given, t6s_of, t7s_of, t13s_of};

use numbers::{abs, plus_zero};
use setting::View;
use terms::{
    activity_annual, activity_long, activity_term, activity_ut, daily_s, diurnal, diurnal_s,
    flux_factor, history_s, local_time_part, long_cos, long_cos_s, long_sin, long_sin_s, season_s,
    semidiurnal, semidiurnal_s, terdiurnal, terdiurnal_s, ut_long, ut_mean,
};
use views::phases::{annual_cos, local_cos, long_phase_cos, semiannual_cos, ut_cos, ut_long_cos};

// The four cosines of the day that an expansion reads.
#[derive(Clone, Copy)]
pub struct Seasons {
    pub cd32: f64,
    pub cd18: f64,
    pub cd14: f64,
    pub cd39: f64,
}

// The four that the longitude's term of glob7s reads besides: of the phases p[81], p[86], p[84], p[88].
#[derive(Clone, Copy)]
pub struct LongitudeSeasons {
    pub cd82: f64,
    pub cd87: f64,
    pub cd85: f64,
    pub cd89: f64,
}

// The cosine over the year with phase x, where y is that of the phase 0.
pub fn annual_at(doy: f64, y: f64, x: f64) -> f64
    requires { y ≡ annual_cos_of doy 0·0 }
    ensures { result ≡ annual_cos_of doy x }
{
    if plus_zero(x) {
        return y;
    }
    annual_cos(doy, x)
}

// The cosine over half the year with phase x, where y is that of the phase 0.
pub fn semiannual_at(doy: f64, y: f64, x: f64) -> f64
    requires { y ≡ semiannual_cos_of doy 0·0 }
    ensures { result ≡ semiannual_cos_of doy x }
{
    if plus_zero(x) {
        return y;
    }
    semiannual_cos(doy, x)
}

// The cosine of local time with phase x.
pub fn local(v: View, x: f64) -> f64
    requires { Shared v }
    ensures { result ≡ local_cos_of v.lst x }
{
    if plus_zero(x) {
        return v.cos_local;
    }
    local_cos(v.lst, x)
}

// The cosine of UT with phase x.
pub fn ut(v: View, x: f64) -> f64
    requires { Shared v }
    ensures { result ≡ ut_cos_of v.sec x }
{
    if plus_zero(x) {
        return v.cos_ut;
    }
    ut_cos(v.sec, x)
}

// The cosine of UT with phase x and twice the longitude.
pub fn ut_with_long(v: View, x: f64) -> f64
    requires { Shared v }
    ensures { result ≡ ut_long_cos_of v.sec x v.g_long }
{
    if plus_zero(x) {
        return v.cos_ut_long;
    }
    ut_long_cos(v.sec, x, v.g_long)
}

// The cosine of longitude with phase x.
pub fn long_phase(v: View, x: f64) -> f64
    requires { Shared v }
    ensures { result ≡ long_phase_cos_of v.g_long x }
{
    if plus_zero(x) {
        return v.cos_long;
    }
    long_phase_cos(v.g_long, x)
}

// The four cosines of the day. It is handed the phases and not the set: a set that is lent to a function that does not stand in line is written to
// memory whole.
pub fn day_cosines(
    doy: f64,
    year: f64,
    half: f64,
    p31: f64,
    p17: f64,
    p13: f64,
    p38: f64,
) -> Seasons
    requires { (year ≡ annual_cos_of doy 0·0) × (half ≡ semiannual_cos_of doy 0·0) }
    ensures { result ≡ day_cosines_at doy p31 p17 p13 p38 }
{
    let a = annual_at(doy, year, p31);
    let b = semiannual_at(doy, half, p17);
    let c = annual_at(doy, year, p13);
    let d = semiannual_at(doy, half, p38);
    Seasons {
        cd32: a,
        cd18: b,
        cd14: c,
        cd39: d,
    }
}

// The four of the longitude's term of glob7s.
pub fn longitude_cosines(
    doy: f64,
    year: f64,
    half: f64,
    p81: f64,
    p86: f64,
    p84: f64,
    p88: f64,
) -> LongitudeSeasons
    requires { (year ≡ annual_cos_of doy 0·0) × (half ≡ semiannual_cos_of doy 0·0) }
    ensures { result ≡ longitude_cosines_at doy p81 p86 p84 p88 }
{
    let a = annual_at(doy, year, p81);
    let b = semiannual_at(doy, half, p86);
    let c = annual_at(doy, year, p84);
    let d = semiannual_at(doy, half, p88);
    LongitudeSeasons {
        cd82: a,
        cd87: b,
        cd85: c,
        cd89: d,
    }
}

// t[6]: 0 where switch 7 is off.
pub fn t6(
    p: &[f64],
    g: [[f64; 9]; 4],
    sw7: f64,
    f2: f64,
    cd14: f64,
    c5: f64,
    ct: f64,
    st: f64,
) -> f64
    requires { length p.now ≡ 150 }
    ensures { result ≡ t6_of p.now g sw7 f2 cd14 c5 ct st }
{
    if sw7 != 0.0 {
        return diurnal(p, g, f2, cd14, c5, ct, st);
    }
    0.0
}

// t[7]: 0 where switch 8 is off.
pub fn t7(
    p: &[f64],
    g: [[f64; 9]; 4],
    sw8: f64,
    f2: f64,
    cd14: f64,
    c5: f64,
    c2t: f64,
    s2t: f64,
) -> f64
    requires { length p.now ≡ 150 }
    ensures { result ≡ t7_of p.now g sw8 f2 cd14 c5 c2t s2t }
{
    if sw8 != 0.0 {
        return semidiurnal(p, g, f2, cd14, c5, c2t, s2t);
    }
    0.0
}

// t[13]: 0 where switch 14 is off.
pub fn t13(
    p: &[f64],
    g: [[f64; 9]; 4],
    sw14: f64,
    f2: f64,
    cd14: f64,
    c5: f64,
    c3t: f64,
    s3t: f64,
) -> f64
    requires { length p.now ≡ 150 }
    ensures { result ≡ t13_of p.now g sw14 f2 cd14 c5 c3t s3t }
{
    if sw14 != 0.0 {
        return terdiurnal(p, g, f2, cd14, c5, c3t, s3t);
    }
    0.0
}

// t[8] in history mode.
pub fn history8(v: View, p: &[f64], g: [[f64; 9]; 4], cd14: f64, apt: f64) -> f64
    requires { (length p.now ≡ 150) × Shared v }
    ensures { result ≡ history8_of v p.now g cd14 apt }
{
    if !(p[51] != 0.0) {
        return 0.0;
    }
    if !(v.sw[9] != 0.0) {
        return 0.0;
    }
    let y = local(v, p[131]);
    let z = local_time_part(g, p[128], p[129], p[130], v.swc[7], y);
    activity_term(
        g, apt, p[50], p[96], p[54], p[125], p[126], p[127], cd14, v.swc[5], z,
    )
}

// t[8] with the daily activity.
pub fn daily8(v: View, p: &[f64], g: [[f64; 9]; 4], cd14: f64, apdf: f64) -> f64
    requires { (length p.now ≡ 150) × Shared v }
    ensures { result ≡ daily8_of v p.now g cd14 apdf }
{
    if !(v.sw[9] != 0.0) {
        return 0.0;
    }
    let y = local(v, p[124]);
    let z = local_time_part(g, p[121], p[122], p[123], v.swc[7], y);
    activity_term(
        g, apdf, p[32], p[45], p[34], p[100], p[101], p[102], cd14, v.swc[5], z,
    )
}

// t[8]: magnetic activity.
pub fn t8(v: View, p: &[f64], g: [[f64; 9]; 4], cd14: f64, apdf: f64, apt: f64) -> f64
    requires { (length p.now ≡ 150) × Shared v }
    ensures { result ≡ t8_of v p.now g cd14 apdf apt }
{
    if v.sw[9] == -1.0 {
        return history8(v, p, g, cd14, apt);
    }
    daily8(v, p, g, cd14, apdf)
}

// Whether globe7 takes the longitude: switch 10 is on, and g_long is above the value that stands for none.
pub fn has_longitude(v: View) -> bool
    ensures { result ≡ has_longitude_of v }
{
    (v.sw[10] != 0.0) & (v.g_long > -1000.0)
}

// t[10]: longitudinal.
pub fn t10(v: View, p: &[f64], g: [[f64; 9]; 4], cd14: f64) -> f64
    requires { length p.now ≡ 150 }
    ensures { result ≡ t10_of v p.now g cd14 }
{
    if !has_longitude(v) {
        return 0.0;
    }
    if !(v.sw[11] != 0.0) {
        return 0.0;
    }
    let b = flux_factor(p[80], v.dfa, v.swc[1]);
    let x = long_cos(p, g, v.swc[5], cd14);
    let y = long_sin(p, g, v.swc[5], cd14);
    b * (x * v.clong + y * v.slong)
}

// t[11]: UT and mixed UT and longitude.
pub fn t11(v: View, p: &[f64], g: [[f64; 9]; 4], cd14: f64) -> f64
    requires { (length p.now ≡ 150) × Shared v }
    ensures { result ≡ t11_of v p.now g cd14 }
{
    if !has_longitude(v) {
        return 0.0;
    }
    if !(v.sw[12] != 0.0) {
        return 0.0;
    }
    let b81 = flux_factor(p[81], v.dfa, v.swc[1]);
    let b137 = flux_factor(p[137], v.dfa, v.swc[1]);
    let y = ut(v, p[71]);
    let z = ut_with_long(v, p[79]);
    let a = ut_mean(p, g, b81, v.swc[5], cd14, y);
    let b = ut_long(p, g, v.swc[11], z, b137);
    a + b
}

// t[12] in history mode.
pub fn history12(v: View, p: &[f64], g: [[f64; 9]; 4], cd14: f64, apt: f64) -> f64
    requires { (length p.now ≡ 150) × Shared v }
    ensures { result ≡ history12_of v p.now g cd14 apt }
{
    if !(p[51] != 0.0) {
        return 0.0;
    }
    let y0 = long_phase(v, p[97]);
    let y1 = long_phase(v, p[136]);
    let y2 = ut(v, p[58]);
    let a = activity_long(g, apt, v.swc[11], p[132], p[52], p[98], p[67], y0);
    let b = activity_annual(
        g, apt, v.swc[11], v.swc[5], p[133], p[134], p[135], cd14, y1,
    );
    let d = activity_ut(g, apt, v.swc[12], p[55], p[56], p[57], y2);
    a + b + d
}

// t[12] with the daily activity.
pub fn daily12(v: View, p: &[f64], g: [[f64; 9]; 4], cd14: f64, apdf: f64) -> f64
    requires { (length p.now ≡ 150) × Shared v }
    ensures { result ≡ daily12_of v p.now g cd14 apdf }
{
    let y0 = long_phase(v, p[63]);
    let y1 = long_phase(v, p[118]);
    let y2 = ut(v, p[75]);
    let a = activity_long(g, apdf, v.swc[11], p[120], p[60], p[61], p[62], y0);
    let b = activity_annual(
        g, apdf, v.swc[11], v.swc[5], p[115], p[116], p[117], cd14, y1,
    );
    let d = activity_ut(g, apdf, v.swc[12], p[83], p[84], p[85], y2);
    a + b + d
}

// t[12]: UT, longitude and magnetic activity.
pub fn t12(v: View, p: &[f64], g: [[f64; 9]; 4], cd14: f64, apdf: f64, apt: f64) -> f64
    requires { (length p.now ≡ 150) × Shared v }
    ensures { result ≡ t12_of v p.now g cd14 apdf apt }
{
    if !has_longitude(v) {
        return 0.0;
    }
    if !(v.sw[13] != 0.0) {
        return 0.0;
    }
    if v.sw[9] == -1.0 {
        return history12(v, p, g, cd14, apt);
    }
    daily12(v, p, g, cd14, apdf)
}

// first + |sw[1]| * t[0] + .. + |sw[14]| * t[13], from the left; a main effect other than entry 9 is its own size.
pub fn weighted(first: f64, sw: [f64; 24], t: [f64; 14]) -> f64
    requires { OwnSize sw }
    ensures { result ≡ weighted_of first sw t }
{
    let nine = abs(sw[9]);
    let a = first + sw[1] * t[0] + sw[2] * t[1] + sw[3] * t[2] + sw[4] * t[3] + sw[5] * t[4];
    let b = a + sw[6] * t[5] + sw[7] * t[6] + sw[8] * t[7] + nine * t[8] + sw[10] * t[9];
    b + sw[11] * t[10] + sw[12] * t[11] + sw[13] * t[12] + sw[14] * t[13]
}

// t[8] of glob7s.
pub fn t8s(v: View, p: &[f64], g: [[f64; 9]; 4], apdf: f64, apt: f64) -> f64
    requires { 100 ≤ length p.now }
    ensures { result ≡ t8s_of v p.now g apdf apt }
{
    if !(v.sw[9] != 0.0) {
        return 0.0;
    }
    if v.sw[9] == -1.0 {
        return history_s(p, g, apt, v.swc[2]);
    }
    if v.sw[9] == 1.0 {
        return daily_s(p, g, apdf, v.swc[2]);
    }
    0.0
}

// t[10] of glob7s: longitudinal.
pub fn t10s(v: View, p: &[f64], g: [[f64; 9]; 4], e: LongitudeSeasons) -> f64
    requires { 100 ≤ length p.now }
    ensures { result ≡ t10s_given v p.now g e }
{
    if (v.sw[10] == 0.0) | (v.sw[11] == 0.0) | (v.g_long <= -1000.0) {
        return 0.0;
    }
    let a = season_s(
        p, g, v.swc[3], v.swc[4], v.swc[5], v.swc[6], e.cd82, e.cd87, e.cd85, e.cd89,
    );
    let b = long_cos_s(p, g);
    let d = long_sin_s(p, g);
    a * (b * v.clong + d * v.slong)
}

// t[6] of glob7s: 0 where switch 7 is off.
pub fn t6s(p: &[f64], g: [[f64; 9]; 4], sw7: f64, cd14: f64, c5: f64, ct: f64, st: f64) -> f64
    requires { 100 ≤ length p.now }
    ensures { result ≡ t6s_of p.now g sw7 cd14 c5 ct st }
{
    if sw7 != 0.0 {
        return diurnal_s(p, g, cd14, c5, ct, st);
    }
    0.0
}

// t[7] of glob7s: 0 where switch 8 is off.
pub fn t7s(p: &[f64], g: [[f64; 9]; 4], sw8: f64, cd14: f64, c5: f64, c2t: f64, s2t: f64) -> f64
    requires { 100 ≤ length p.now }
    ensures { result ≡ t7s_of p.now g sw8 cd14 c5 c2t s2t }
{
    if sw8 != 0.0 {
        return semidiurnal_s(p, g, cd14, c5, c2t, s2t);
    }
    0.0
}

// t[13] of glob7s: 0 where switch 14 is off.
pub fn t13s(p: &[f64], g: [[f64; 9]; 4], sw14: f64, c3t: f64, s3t: f64) -> f64
    requires { 100 ≤ length p.now }
    ensures { result ≡ t13s_of p.now g sw14 c3t s3t }
{
    if sw14 != 0.0 {
        return terdiurnal_s(p, g, c3t, s3t);
    }
    0.0
}
