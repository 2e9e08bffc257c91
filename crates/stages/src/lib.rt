// A function for each stage of gts7 that asks one expansion, proved against its plan.

#![tactic(auto)]

ghost use Rattle.std.specs.Prelude.{◌≡◌};
ghost use Rattle.plan.specs.Plan.{told, answer_to};
ghost use Rattle.numbers.specs.Arithmetic.{◌⊗◌, ◌‼◌};
ghost use Rattle.species.specs.Places.{place_at, Turbopause, Mixes};
ghost use Rattle.tables.specs.Tables.{pdm_t0, pdm_t1, pdm_t2, pdm_t3, pdm_t4, pdm_t5, pdm_t6};
ghost use Rattle.stages.specs.Stages.{tinf_plan, gradient_plan, tlb_plan, n2_plan, helium_plan, oxygen_plan, o2_plan, argon_plan, hydrogen_plan, nitrogen_plan, anomalous_plan};

use elementary::exponential::exp;
use places::place::Place;
use places::thinning::Thinning;
use plan::ExpansionValues;
use profile::unchecked::Shape;
use species::{
    Blend, Mixture, anomalous_factor, anomalous_oxygen, argon, argon_root, helium, helium_root,
    hydrogen, hydrogen_root, n2, n2_root, nitrogen, nitrogen_root, o2, o2_root, oxygen,
    oxygen_root, place_alone_at,
};
use tables::{
    pd0, pd1, pd2, pd3, pd4, pd5, pd6, pd7, pd8, pdl0, pdl1, pdm0, pdm1, pdm2, pdm3, pdm4, pdm5,
    pdm6, pdm7, ps, pt, ptm,
};

// Exospheric temperature; its variation counts above za.
pub fn tinf_stage(sw: [f64; 24], z: f64, l: ExpansionValues) -> f64
    ensures { result ≡ told (answer_to l) (tinf_plan sw z) }
{
    let p = pt();
    let m = ptm();
    let d = pdl1();
    if z > d[15] {
        return m[0] * p[0] * (1.0 + sw[16] * l.pt);
    }
    m[0] * p[0]
}

// g0 of gts7, the gradient at the lower boundary; its variation counts above zn1[4].
pub fn gradient_stage(sw: [f64; 24], z: f64, l: ExpansionValues) -> f64
    ensures { result ≡ told (answer_to l) (gradient_plan sw z) }
{
    let p = ps();
    let m = ptm();
    if z > 72.5 {
        return m[3] * p[0] * (1.0 + sw[19] * l.ps);
    }
    m[3] * p[0]
}

// tlb, the temperature at the lower boundary.
pub fn tlb_stage(sw: [f64; 24], l: ExpansionValues) -> f64
    ensures { result ≡ told (answer_to l) (tlb_plan sw) }
{
    let p = pd3();
    let m = ptm();
    m[1] * (1.0 + sw[17] * l.pd3) * p[0]
}

pub fn n2_stage(
    sw: [f64; 24],
    h: Shape,
    on: bool,
    z: f64,
    p: Place,
    w: Place,
    t: Thinning,
    zhf: f64,
    xmm: f64,
    l: ExpansionValues,
) -> Blend
    requires { (p ≡ place_at h z) × (w ≡ place_at h (pdm_t2 ‼ 2 ⊗ zhf)) × Mixes on p xmm t }
    ensures { result ≡ told (answer_to l) (n2_plan sw h on z zhf xmm) }
{
    let c = pd2();
    let m = pdm2();
    let g = exp(sw[21] * l.pd2);
    let q = n2_root(w, m[0] * g * c[0], xmm);
    let x = n2(on, p, t, q, xmm);
    Blend {
        dens: x.dens,
        b: q.b,
        dm: x.dm,
    }
}

// Anomalous oxygen.
pub fn anomalous_stage(sw: [f64; 24], h: Shape, z: f64, l: ExpansionValues) -> f64
    ensures { result ≡ told (answer_to l) (anomalous_plan sw h z) }
{
    let c = pd8();
    let m = pdm7();
    let d = pdl0();
    let g = exp(sw[21] * l.pd8);
    let p = place_alone_at(h, z);
    let f = anomalous_factor(h.rgas, h.gsurf, h.re, m[5], m[4], m[9] * d[6]);
    anomalous_oxygen(z, p, m[0] * g * c[0], f, m[5], m[4])
}

pub fn helium_stage(
    sw: [f64; 24],
    h: Shape,
    on: bool,
    z: f64,
    p: Place,
    w: Place,
    t: Thinning,
    b28: f64,
    zhm: f64,
    xmm: f64,
    l: ExpansionValues,
) -> Mixture
    requires { (p ≡ place_at h z) × Turbopause h on (pdm_t0 ‼ 2) w × Mixes on p xmm t }
    ensures { result ≡ told (answer_to l) (helium_plan sw h on z b28 zhm xmm) }
{
    let c = pd0();
    let m = pdm0();
    let g = exp(sw[21] * l.pd0);
    let q = helium_root(on, w, m[0] * g * c[0], b28, xmm);
    helium(on, z, p, t, q, zhm, xmm)
}

pub fn oxygen_stage(
    sw: [f64; 24],
    h: Shape,
    on: bool,
    z: f64,
    p: Place,
    w: Place,
    t: Thinning,
    zhm: f64,
    xmm: f64,
    flux: f64,
    l: ExpansionValues,
) -> Mixture
    requires { (p ≡ place_at h z) × Turbopause h on (pdm_t1 ‼ 2) w × Mixes on p xmm t }
    ensures { result ≡ told (answer_to l) (oxygen_plan sw h on z zhm xmm flux) }
{
    let c = pd1();
    let m = pdm1();
    let g = exp(sw[21] * l.pd1);
    let q = oxygen_root(on, w, m[0] * g * c[0], flux, xmm);
    oxygen(on, z, p, t, q, zhm, xmm)
}

pub fn o2_stage(
    sw: [f64; 24],
    h: Shape,
    on: bool,
    z: f64,
    p: Place,
    w: Place,
    t: Thinning,
    b28: f64,
    zhm: f64,
    xmm: f64,
    flux: f64,
    l: ExpansionValues,
) -> Mixture
    requires { (p ≡ place_at h z) × Turbopause h on (pdm_t3 ‼ 2) w × Mixes on p xmm t }
    ensures { result ≡ told (answer_to l) (o2_plan sw h on z b28 zhm xmm flux) }
{
    let c = pd4();
    let m = pdm3();
    let k = pdl1();
    let g = exp(sw[21] * l.pd4);
    let q = o2_root(on, w, m[0] * g * c[0], b28, xmm);
    o2(sw[15], on, z, p, t, q, m[3] * k[23] * flux, zhm, xmm)
}

pub fn argon_stage(
    sw: [f64; 24],
    h: Shape,
    on: bool,
    z: f64,
    p: Place,
    w: Place,
    t: Thinning,
    b28: f64,
    zhm: f64,
    xmm: f64,
    l: ExpansionValues,
) -> Mixture
    requires { (p ≡ place_at h z) × Turbopause h on (pdm_t4 ‼ 2) w × Mixes on p xmm t }
    ensures { result ≡ told (answer_to l) (argon_plan sw h on z b28 zhm xmm) }
{
    let c = pd5();
    let m = pdm4();
    let g = exp(sw[21] * l.pd5);
    let q = argon_root(on, w, m[0] * g * c[0], b28, xmm);
    argon(on, z, p, t, q, zhm, xmm)
}

pub fn hydrogen_stage(
    sw: [f64; 24],
    h: Shape,
    on: bool,
    z: f64,
    p: Place,
    w: Place,
    t: Thinning,
    b28: f64,
    zhm: f64,
    xmm: f64,
    l: ExpansionValues,
) -> Mixture
    requires { (p ≡ place_at h z) × Turbopause h on (pdm_t5 ‼ 2) w × Mixes on p xmm t }
    ensures { result ≡ told (answer_to l) (hydrogen_plan sw h on z b28 zhm xmm) }
{
    let c = pd6();
    let m = pdm5();
    let g = exp(sw[21] * l.pd6);
    let q = hydrogen_root(on, w, m[0] * g * c[0], b28, xmm);
    hydrogen(on, z, p, t, q, zhm, xmm)
}

pub fn nitrogen_stage(
    sw: [f64; 24],
    h: Shape,
    on: bool,
    z: f64,
    p: Place,
    w: Place,
    t: Thinning,
    b28: f64,
    zhm: f64,
    xmm: f64,
    l: ExpansionValues,
) -> Mixture
    requires { (p ≡ place_at h z) × Turbopause h on (pdm_t6 ‼ 2) w × Mixes on p xmm t }
    ensures { result ≡ told (answer_to l) (nitrogen_plan sw h on z b28 zhm xmm) }
{
    let c = pd7();
    let m = pdm6();
    let g = exp(sw[21] * l.pd7);
    let q = nitrogen_root(on, w, m[0] * g * c[0], b28, xmm);
    nitrogen(on, z, p, t, q, zhm, xmm)
}
