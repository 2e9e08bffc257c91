// What densu sets in State, and gts7's species with what they set: State goes in by value and comes back by value.

#![tactic(auto)]

ghost use Rattle.std.specs.Prelude.{◌≡◌};
ghost use Rattle.numbers.specs.Arithmetic.{◌⊗◌, ◌‼◌};
ghost use Rattle.plan.specs.Plan.{ends, answer_to, stepped};
ghost use Rattle.species.specs.Places.{place_at, Turbopause, Mixes};
ghost use Rattle.tables.specs.Tables.{pdm_t0, pdm_t1, pdm_t2, pdm_t3, pdm_t4, pdm_t5, pdm_t6};
ghost use Rattle.plan.specs.Fields.{fields_of, with_fields, set_when};
ghost use Rattle.stages.specs.Stages.{densu_sets, n2_plan, helium_plan, oxygen_plan, o2_plan, argon_plan, hydrogen_plan, nitrogen_plan, anomalous_plan};

use numbers::pick;
use places::place::Place;
use places::thinning::Thinning;
use plan::ExpansionValues;
use profile::gravity::zeta;
use profile::unchecked::{Shape, bates, gradient};
use setting::{Left, State};
use species::{Blend, Mixture};
use stages::{
    anomalous_stage, argon_stage, helium_stage, hydrogen_stage, n2_stage, nitrogen_stage, o2_stage,
    oxygen_stage,
};
use state_fields::{set_dm01, set_dm04, set_dm14, set_dm16, set_dm28, set_dm32, set_dm40};
use tables::{pdl1, pdm0, pdm1, pdm2, pdm3, pdm4, pdm5, pdm6, ptm};

// What densu sets at z: element 0 of meso_tn1 and meso_tgn1, below za alone.
pub fn densu_sets(s: State, h: Shape, z: f64) -> State
    ensures { result ≡ with_fields s (densu_sets h z (fields_of s)) }
{
    let l = pdl1();
    let m = ptm();
    let za = l[15];
    if !(z < za) {
        return s;
    }
    let y = pick(z > za, z, za);
    let zg2 = zeta(h.re, y, m[5]);
    let ta = bates(h.tinf, h.tlb, h.s, zg2);
    let dta = gradient(h.re, h.tinf, ta, m[5], h.s, za);
    let mut tn1 = s.meso_tn1;
    tn1[0] = ta;
    let mut tgn1 = s.meso_tgn1;
    tgn1[0] = dta;
    let mut out = s;
    out.meso_tn1 = tn1;
    out.meso_tgn1 = tgn1;
    out
}

// The same where a test holds.
pub fn densu_where(s: State, on: bool, h: Shape, z: f64) -> State
    ensures { result ≡ with_fields s (set_when on (densu_sets h z) (fields_of s)) }
{
    if on {
        return densu_sets(s, h, z);
    }
    s
}

// What a species' calls of densu set: at z, and where it is mixed at its turbopause zh and at z again.
pub fn species_sets(s: State, on: bool, h: Shape, z: f64, zh: f64) -> State
    ensures { result ≡ with_fields s (set_when on (λ f. densu_sets h z (densu_sets h zh f)) (densu_sets h z (fields_of s))) }
{
    let a = densu_sets(s, h, z);
    let b = densu_where(a, on, h, zh);
    densu_where(b, on, h, z)
}

// N2.
pub fn n2_step(
    sw: [f64; 24],
    h: Shape,
    on: bool,
    z: f64,
    p: Place,
    w: Place,
    t: Thinning,
    zhf: f64,
    xmm: f64,
    l: ExpansionValues,
    s: State,
) -> Left<Blend>
    requires { (p ≡ place_at h z) × (w ≡ place_at h (pdm_t2 ‼ 2 ⊗ zhf)) × Mixes on p xmm t }
    ensures { stepped (answer_to l) (n2_plan sw h on z zhf xmm) s ≡ ends result.value result.state }
{
    let m = pdm2();
    let b = n2_stage(sw, h, on, z, p, w, t, zhf, xmm, l);
    let s1 = densu_sets(s, h, z);
    let s2 = densu_sets(s1, h, m[2] * zhf);
    let s3 = densu_where(s2, on, h, z);
    let s4 = set_dm28(s3, on, b.dm);
    Left {
        value: b,
        state: s4,
    }
}

// Anomalous oxygen.
pub fn anomalous_step(sw: [f64; 24], h: Shape, z: f64, l: ExpansionValues, s: State) -> Left<f64>
    ensures { stepped (answer_to l) (anomalous_plan sw h z) s ≡ ends result.value result.state }
{
    let o = anomalous_stage(sw, h, z, l);
    let s1 = densu_sets(s, h, z);
    Left {
        value: o,
        state: s1,
    }
}

pub fn helium_step(
    sw: [f64; 24],
    h: Shape,
    on: bool,
    z: f64,
    p: Place,
    w: Place,
    t: Thinning,
    b28: f64,
    zhm: f64,
    xmm: f64,
    l: ExpansionValues,
    s: State,
) -> Left<Mixture>
    requires { (p ≡ place_at h z) × Turbopause h on (pdm_t0 ‼ 2) w × Mixes on p xmm t }
    ensures { stepped (answer_to l) (helium_plan sw h on z b28 zhm xmm) s ≡ ends result.value result.state }
{
    let m = pdm0();
    let x = helium_stage(sw, h, on, z, p, w, t, b28, zhm, xmm, l);
    let s1 = species_sets(s, on, h, z, m[2]);
    let s2 = set_dm04(s1, on, x.dm);
    Left {
        value: x,
        state: s2,
    }
}

pub fn oxygen_step(
    sw: [f64; 24],
    h: Shape,
    on: bool,
    z: f64,
    p: Place,
    w: Place,
    t: Thinning,
    zhm: f64,
    xmm: f64,
    flux: f64,
    l: ExpansionValues,
    s: State,
) -> Left<Mixture>
    requires { (p ≡ place_at h z) × Turbopause h on (pdm_t1 ‼ 2) w × Mixes on p xmm t }
    ensures { stepped (answer_to l) (oxygen_plan sw h on z zhm xmm flux) s ≡ ends result.value result.state }
{
    let m = pdm1();
    let x = oxygen_stage(sw, h, on, z, p, w, t, zhm, xmm, flux, l);
    let s1 = species_sets(s, on, h, z, m[2]);
    let s2 = set_dm16(s1, on, x.dm);
    Left {
        value: x,
        state: s2,
    }
}

pub fn o2_step(
    sw: [f64; 24],
    h: Shape,
    on: bool,
    z: f64,
    p: Place,
    w: Place,
    t: Thinning,
    b28: f64,
    zhm: f64,
    xmm: f64,
    flux: f64,
    l: ExpansionValues,
    s: State,
) -> Left<Mixture>
    requires { (p ≡ place_at h z) × Turbopause h on (pdm_t3 ‼ 2) w × Mixes on p xmm t }
    ensures { stepped (answer_to l) (o2_plan sw h on z b28 zhm xmm flux) s ≡ ends result.value result.state }
{
    let m = pdm3();
    let x = o2_stage(sw, h, on, z, p, w, t, b28, zhm, xmm, flux, l);
    let s1 = species_sets(s, on, h, z, m[2]);
    let s2 = set_dm32(s1, on, x.dm);
    Left {
        value: x,
        state: s2,
    }
}

pub fn argon_step(
    sw: [f64; 24],
    h: Shape,
    on: bool,
    z: f64,
    p: Place,
    w: Place,
    t: Thinning,
    b28: f64,
    zhm: f64,
    xmm: f64,
    l: ExpansionValues,
    s: State,
) -> Left<Mixture>
    requires { (p ≡ place_at h z) × Turbopause h on (pdm_t4 ‼ 2) w × Mixes on p xmm t }
    ensures { stepped (answer_to l) (argon_plan sw h on z b28 zhm xmm) s ≡ ends result.value result.state }
{
    let m = pdm4();
    let x = argon_stage(sw, h, on, z, p, w, t, b28, zhm, xmm, l);
    let s1 = species_sets(s, on, h, z, m[2]);
    let s2 = set_dm40(s1, on, x.dm);
    Left {
        value: x,
        state: s2,
    }
}

pub fn hydrogen_step(
    sw: [f64; 24],
    h: Shape,
    on: bool,
    z: f64,
    p: Place,
    w: Place,
    t: Thinning,
    b28: f64,
    zhm: f64,
    xmm: f64,
    l: ExpansionValues,
    s: State,
) -> Left<Mixture>
    requires { (p ≡ place_at h z) × Turbopause h on (pdm_t5 ‼ 2) w × Mixes on p xmm t }
    ensures { stepped (answer_to l) (hydrogen_plan sw h on z b28 zhm xmm) s ≡ ends result.value result.state }
{
    let m = pdm5();
    let x = hydrogen_stage(sw, h, on, z, p, w, t, b28, zhm, xmm, l);
    let s1 = species_sets(s, on, h, z, m[2]);
    let s2 = set_dm01(s1, on, x.dm);
    Left {
        value: x,
        state: s2,
    }
}

pub fn nitrogen_step(
    sw: [f64; 24],
    h: Shape,
    on: bool,
    z: f64,
    p: Place,
    w: Place,
    t: Thinning,
    b28: f64,
    zhm: f64,
    xmm: f64,
    l: ExpansionValues,
    s: State,
) -> Left<Mixture>
    requires { (p ≡ place_at h z) × Turbopause h on (pdm_t6 ‼ 2) w × Mixes on p xmm t }
    ensures { stepped (answer_to l) (nitrogen_plan sw h on z b28 zhm xmm) s ≡ ends result.value result.state }
{
    let m = pdm6();
    let x = nitrogen_stage(sw, h, on, z, p, w, t, b28, zhm, xmm, l);
    let s1 = species_sets(s, on, h, z, m[2]);
    let s2 = set_dm14(s1, on, x.dm);
    Left {
        value: x,
        state: s2,
    }
}
