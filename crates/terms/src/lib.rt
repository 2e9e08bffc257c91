// The terms of globe7 and of glob7s as arithmetic: coefficients p, Legendre values g, and the numbers that each reads.

#![tactic(auto)]

ghost use Rattle.std.specs.Prelude.{◌≡◌, ◌≤◌, length};
ghost use Rattle.terms.specs.Terms.{t0_of, f1_of, f2_of, flux_factor_of, t1_of, t3_of, t4_of, t5_of, diurnal_of, semidiurnal_of, terdiurnal_of, local_time_part_of, activity_term_of, long_cos_of, long_sin_of, ut_mean_of, ut_long_of, activity_long_of, activity_annual_of, activity_ut_of, t1s_of, t2s_of, t3s_of, t4s_of, diurnal_sof, semidiurnal_sof, terdiurnal_sof, daily_sof, history_sof, season_sof, long_cos_sof, long_sin_sof};

// t[0]: the F10.7 effect.
pub fn t0(p: &[f64], df: f64, dfa: f64, dfa2: f64) -> f64
    requires { length p.now ≡ 150 }
    ensures { result ≡ t0_of p.now df dfa dfa2 }
{
    p[19] * df * (1.0 + p[59] * dfa) + p[20] * df * df + p[21] * dfa + p[29] * dfa2
}

// f1 of globe7.
pub fn f1(p: &[f64], df: f64, dfa: f64, c1: f64) -> f64
    requires { length p.now ≡ 150 }
    ensures { result ≡ f1_of p.now df dfa c1 }
{
    1.0 + (p[47] * dfa + p[19] * df + p[20] * df * df) * c1
}

// f2 of globe7.
pub fn f2(p: &[f64], df: f64, dfa: f64, c1: f64) -> f64
    requires { length p.now ≡ 150 }
    ensures { result ≡ f2_of p.now df dfa c1 }
{
    1.0 + (p[49] * dfa + p[19] * df + p[20] * df * df) * c1
}

// 1 + x * dfa * swc[1], the factor of the flux in terms 10 and 11.
pub fn flux_factor(x: f64, dfa: f64, c1: f64) -> f64
    ensures { result ≡ flux_factor_of x dfa c1 }
{
    1.0 + x * dfa * c1
}

// t[1]: time independent.
pub fn t1(p: &[f64], g: [[f64; 9]; 4], dfa: f64, c1: f64) -> f64
    requires { length p.now ≡ 150 }
    ensures { result ≡ t1_of p.now g dfa c1 }
{
    (p[1] * g[0][2] + p[2] * g[0][4] + p[22] * g[0][6])
        + (p[14] * g[0][2]) * dfa * c1
        + p[26] * g[0][1]
}

// t[3]: symmetrical semiannual.
pub fn t3(p: &[f64], g: [[f64; 9]; 4], cd18: f64) -> f64
    requires { length p.now ≡ 150 }
    ensures { result ≡ t3_of p.now g cd18 }
{
    (p[15] + p[16] * g[0][2]) * cd18
}

// t[4]: asymmetrical annual.
pub fn t4(p: &[f64], g: [[f64; 9]; 4], f1: f64, cd14: f64) -> f64
    requires { length p.now ≡ 150 }
    ensures { result ≡ t4_of p.now g f1 cd14 }
{
    f1 * (p[9] * g[0][1] + p[10] * g[0][3]) * cd14
}

// t[5]: asymmetrical semiannual, the same in globe7 and glob7s.
pub fn t5(p: &[f64], g: [[f64; 9]; 4], cd39: f64) -> f64
    requires { 100 ≤ length p.now }
    ensures { result ≡ t5_of p.now g cd39 }
{
    p[37] * g[0][1] * cd39
}

// t[6]: diurnal.
pub fn diurnal(p: &[f64], g: [[f64; 9]; 4], f2: f64, cd14: f64, c5: f64, ct: f64, st: f64) -> f64
    requires { length p.now ≡ 150 }
    ensures { result ≡ diurnal_of p.now g f2 cd14 c5 ct st }
{
    let t71 = (p[11] * g[1][2]) * cd14 * c5;
    let t72 = (p[12] * g[1][2]) * cd14 * c5;
    f2 * ((p[3] * g[1][1] + p[4] * g[1][3] + p[27] * g[1][5] + t71) * ct
        + (p[6] * g[1][1] + p[7] * g[1][3] + p[28] * g[1][5] + t72) * st)
}

// t[7]: semidiurnal.
pub fn semidiurnal(
    p: &[f64],
    g: [[f64; 9]; 4],
    f2: f64,
    cd14: f64,
    c5: f64,
    c2t: f64,
    s2t: f64,
) -> f64
    requires { length p.now ≡ 150 }
    ensures { result ≡ semidiurnal_of p.now g f2 cd14 c5 c2t s2t }
{
    let t81 = (p[23] * g[2][3] + p[35] * g[2][5]) * cd14 * c5;
    let t82 = (p[33] * g[2][3] + p[36] * g[2][5]) * cd14 * c5;
    f2 * ((p[5] * g[2][2] + p[41] * g[2][4] + t81) * c2t
        + (p[8] * g[2][2] + p[42] * g[2][4] + t82) * s2t)
}

// t[13]: terdiurnal.
pub fn terdiurnal(
    p: &[f64],
    g: [[f64; 9]; 4],
    f2: f64,
    cd14: f64,
    c5: f64,
    c3t: f64,
    s3t: f64,
) -> f64
    requires { length p.now ≡ 150 }
    ensures { result ≡ terdiurnal_of p.now g f2 cd14 c5 c3t s3t }
{
    f2 * ((p[39] * g[3][3] + (p[93] * g[3][4] + p[46] * g[3][6]) * cd14 * c5) * s3t
        + (p[40] * g[3][3] + (p[94] * g[3][4] + p[48] * g[3][6]) * cd14 * c5) * c3t)
}

// The part of t[8] that turns with local time.
pub fn local_time_part(g: [[f64; 9]; 4], a: f64, b: f64, d: f64, c7: f64, y: f64) -> f64
    ensures { result ≡ local_time_part_of g a b d c7 y }
{
    (a * g[1][1] + b * g[1][3] + d * g[1][5]) * c7 * y
}

// t[8] over an activity a (apdf or apt[0]) and its six coefficients.
pub fn activity_term(
    g: [[f64; 9]; 4],
    a: f64,
    k0: f64,
    k1: f64,
    k2: f64,
    k3: f64,
    k4: f64,
    k5: f64,
    cd14: f64,
    c5: f64,
    z: f64,
) -> f64
    ensures { result ≡ activity_term_of g a k0 k1 k2 k3 k4 k5 cd14 c5 z }
{
    a * (k0
        + k1 * g[0][2]
        + k2 * g[0][4]
        + (k3 * g[0][1] + k4 * g[0][3] + k5 * g[0][5]) * cd14 * c5
        + z)
}

// t[10]: what the cosine of longitude is multiplied by.
pub fn long_cos(p: &[f64], g: [[f64; 9]; 4], c5: f64, cd14: f64) -> f64
    requires { length p.now ≡ 150 }
    ensures { result ≡ long_cos_of p.now g c5 cd14 }
{
    p[64] * g[1][2]
        + p[65] * g[1][4]
        + p[66] * g[1][6]
        + p[103] * g[1][1]
        + p[104] * g[1][3]
        + p[105] * g[1][5]
        + c5 * (p[109] * g[1][1] + p[110] * g[1][3] + p[111] * g[1][5]) * cd14
}

// t[10]: what the sine of longitude is multiplied by.
pub fn long_sin(p: &[f64], g: [[f64; 9]; 4], c5: f64, cd14: f64) -> f64
    requires { length p.now ≡ 150 }
    ensures { result ≡ long_sin_of p.now g c5 cd14 }
{
    p[90] * g[1][2]
        + p[91] * g[1][4]
        + p[92] * g[1][6]
        + p[106] * g[1][1]
        + p[107] * g[1][3]
        + p[108] * g[1][5]
        + c5 * (p[112] * g[1][1] + p[113] * g[1][3] + p[114] * g[1][5]) * cd14
}

// t[11]: the UT part.
pub fn ut_mean(p: &[f64], g: [[f64; 9]; 4], b81: f64, c5: f64, cd14: f64, y: f64) -> f64
    requires { length p.now ≡ 150 }
    ensures { result ≡ ut_mean_of p.now g b81 c5 cd14 y }
{
    (1.0 + p[95] * g[0][1])
        * b81
        * (1.0 + p[119] * g[0][1] * c5 * cd14)
        * ((p[68] * g[0][1] + p[69] * g[0][3] + p[70] * g[0][5]) * y)
}

// t[11]: the mixed UT and longitude part.
pub fn ut_long(p: &[f64], g: [[f64; 9]; 4], c11: f64, y: f64, b137: f64) -> f64
    requires { length p.now ≡ 150 }
    ensures { result ≡ ut_long_of p.now g c11 y b137 }
{
    c11 * (p[76] * g[2][3] + p[77] * g[2][5] + p[78] * g[2][7]) * y * b137
}

// t[12]: longitude and activity a.
pub fn activity_long(
    g: [[f64; 9]; 4],
    a: f64,
    c11: f64,
    k: f64,
    x0: f64,
    x1: f64,
    x2: f64,
    y: f64,
) -> f64
    ensures { result ≡ activity_long_of g a c11 k x0 x1 x2 y }
{
    a * c11 * (1.0 + k * g[0][1]) * ((x0 * g[1][2] + x1 * g[1][4] + x2 * g[1][6]) * y)
}

// t[12]: longitude and activity a over the year.
pub fn activity_annual(
    g: [[f64; 9]; 4],
    a: f64,
    c11: f64,
    c5: f64,
    x0: f64,
    x1: f64,
    x2: f64,
    cd14: f64,
    y: f64,
) -> f64
    ensures { result ≡ activity_annual_of g a c11 c5 x0 x1 x2 cd14 y }
{
    a * c11 * c5 * (x0 * g[1][1] + x1 * g[1][3] + x2 * g[1][5]) * cd14 * y
}

// t[12]: UT and activity a.
pub fn activity_ut(g: [[f64; 9]; 4], a: f64, c12: f64, x0: f64, x1: f64, x2: f64, y: f64) -> f64
    ensures { result ≡ activity_ut_of g a c12 x0 x1 x2 y }
{
    a * c12 * (x0 * g[0][1] + x1 * g[0][3] + x2 * g[0][5]) * y
}

// t[1] of glob7s: time independent.
pub fn t1s(p: &[f64], g: [[f64; 9]; 4]) -> f64
    requires { 100 ≤ length p.now }
    ensures { result ≡ t1s_of p.now g }
{
    p[1] * g[0][2]
        + p[2] * g[0][4]
        + p[22] * g[0][6]
        + p[26] * g[0][1]
        + p[14] * g[0][3]
        + p[59] * g[0][5]
}

// t[2] of glob7s: symmetrical annual.
pub fn t2s(p: &[f64], g: [[f64; 9]; 4], cd32: f64) -> f64
    requires { 100 ≤ length p.now }
    ensures { result ≡ t2s_of p.now g cd32 }
{
    (p[18] + p[47] * g[0][2] + p[29] * g[0][4]) * cd32
}

// t[3] of glob7s: symmetrical semiannual.
pub fn t3s(p: &[f64], g: [[f64; 9]; 4], cd18: f64) -> f64
    requires { 100 ≤ length p.now }
    ensures { result ≡ t3s_of p.now g cd18 }
{
    (p[15] + p[16] * g[0][2] + p[30] * g[0][4]) * cd18
}

// t[4] of glob7s: asymmetrical annual.
pub fn t4s(p: &[f64], g: [[f64; 9]; 4], cd14: f64) -> f64
    requires { 100 ≤ length p.now }
    ensures { result ≡ t4s_of p.now g cd14 }
{
    (p[9] * g[0][1] + p[10] * g[0][3] + p[20] * g[0][5]) * cd14
}

// t[6] of glob7s: diurnal.
pub fn diurnal_s(p: &[f64], g: [[f64; 9]; 4], cd14: f64, c5: f64, ct: f64, st: f64) -> f64
    requires { 100 ≤ length p.now }
    ensures { result ≡ diurnal_sof p.now g cd14 c5 ct st }
{
    let t71 = p[11] * g[1][2] * cd14 * c5;
    let t72 = p[12] * g[1][2] * cd14 * c5;
    (p[3] * g[1][1] + p[4] * g[1][3] + t71) * ct + (p[6] * g[1][1] + p[7] * g[1][3] + t72) * st
}

// t[7] of glob7s: semidiurnal.
pub fn semidiurnal_s(p: &[f64], g: [[f64; 9]; 4], cd14: f64, c5: f64, c2t: f64, s2t: f64) -> f64
    requires { 100 ≤ length p.now }
    ensures { result ≡ semidiurnal_sof p.now g cd14 c5 c2t s2t }
{
    let t81 = (p[23] * g[2][3] + p[35] * g[2][5]) * cd14 * c5;
    let t82 = (p[33] * g[2][3] + p[36] * g[2][5]) * cd14 * c5;
    (p[5] * g[2][2] + p[41] * g[2][4] + t81) * c2t + (p[8] * g[2][2] + p[42] * g[2][4] + t82) * s2t
}

// t[13] of glob7s: terdiurnal.
pub fn terdiurnal_s(p: &[f64], g: [[f64; 9]; 4], c3t: f64, s3t: f64) -> f64
    requires { 100 ≤ length p.now }
    ensures { result ≡ terdiurnal_sof p.now g c3t s3t }
{
    p[39] * g[3][3] * s3t + p[40] * g[3][3] * c3t
}

// t[8] of glob7s with the daily activity.
pub fn daily_s(p: &[f64], g: [[f64; 9]; 4], apdf: f64, c2: f64) -> f64
    requires { 100 ≤ length p.now }
    ensures { result ≡ daily_sof p.now g apdf c2 }
{
    apdf * (p[32] + p[45] * g[0][2] * c2)
}

// t[8] of glob7s with the history.
pub fn history_s(p: &[f64], g: [[f64; 9]; 4], apt: f64, c2: f64) -> f64
    requires { 100 ≤ length p.now }
    ensures { result ≡ history_sof p.now g apt c2 }
{
    p[50] * apt + p[96] * g[0][2] * apt * c2
}

// t[10] of glob7s: its factor over the year.
pub fn season_s(
    p: &[f64],
    g: [[f64; 9]; 4],
    c3: f64,
    c4: f64,
    c5: f64,
    c6: f64,
    y81: f64,
    y86: f64,
    y84: f64,
    y88: f64,
) -> f64
    requires { 100 ≤ length p.now }
    ensures { result ≡ season_sof p.now g c3 c4 c5 c6 y81 y86 y84 y88 }
{
    1.0 + g[0][1] * (p[80] * c5 * y81 + p[85] * c6 * y86) + p[83] * c3 * y84 + p[87] * c4 * y88
}

// t[10] of glob7s: what the cosine of longitude is multiplied by.
pub fn long_cos_s(p: &[f64], g: [[f64; 9]; 4]) -> f64
    requires { 100 ≤ length p.now }
    ensures { result ≡ long_cos_sof p.now g }
{
    p[64] * g[1][2]
        + p[65] * g[1][4]
        + p[66] * g[1][6]
        + p[74] * g[1][1]
        + p[75] * g[1][3]
        + p[76] * g[1][5]
}

// t[10] of glob7s: what the sine of longitude is multiplied by.
pub fn long_sin_s(p: &[f64], g: [[f64; 9]; 4]) -> f64
    requires { 100 ≤ length p.now }
    ensures { result ≡ long_sin_sof p.now g }
{
    p[90] * g[1][2]
        + p[91] * g[1][4]
        + p[92] * g[1][6]
        + p[77] * g[1][1]
        + p[78] * g[1][3]
        + p[79] * g[1][5]
}
