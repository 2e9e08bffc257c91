// gts7: its stages in order, proved against its plan.

#![tactic(auto)]

ghost use Rattle.std.specs.Prelude.{◌≡◌};
ghost use Rattle.plan.specs.Plan.{told, answer_to};
ghost use Rattle.mixing_limits.specs.Limits.{some_mixed};
ghost use Rattle.species.specs.Places.{spine_at, place_at, Mixes};
ghost use Rattle.thermosphere.specs.Turbopauses.{Apart};
ghost use Rattle.stages.specs.Stages.{nodes_plan, shape_plan, species_plan, gts7_plan};

use elementary::power::pow;
use gts7_arithmetic::{
    Gts7Output, Nodes, Site, SixSpecies, ThermoSets, anomalous, gather, mean, shape_of, varied,
};
use mixing_limits::{Mixed, mixed_at, oxygens_mixed, some_mixed};
use places::place::{Place, Spine};
use places::thinning::Thinning;
use plan::ExpansionValues;
use profile::unchecked::Shape;
use species::{mixing, place_at, spine_at, turbopause};
use stages::{
    anomalous_stage, argon_stage, gradient_stage, helium_stage, hydrogen_stage, n2_stage,
    nitrogen_stage, o2_stage, oxygen_stage, tinf_stage, tlb_stage,
};
use tables::{pdl1, pdm0, pdm1, pdm2, pdm5, pma8, ptl0, ptl1, ptl2, ptl3, ptm};

// The nodes of the lower thermosphere.
pub fn nodes_stage(sw: [f64; 24], z: f64, l: ExpansionValues) -> Nodes
    ensures { result ≡ told (answer_to l) (nodes_plan sw z) }
{
    let m = ptm();
    let p0 = ptl0();
    let p1 = ptl1();
    let p2 = ptl2();
    let p3 = ptl3();
    let p8 = pma8();
    let k = pow(m[4] * p3[0], 2.0);
    let first = ThermoSets {
        ptl0: p0[0],
        ptl1: p1[0],
        ptl2: p2[0],
        ptl3: p3[0],
        pma8: p8[0],
    };
    if z < 300.0 {
        let answer = ThermoSets {
            ptl0: 1.0 - sw[18] * l.ptl0,
            ptl1: 1.0 - sw[18] * l.ptl1,
            ptl2: 1.0 - sw[18] * l.ptl2,
            ptl3: 1.0 - sw[18] * sw[20] * l.ptl3,
            pma8: 1.0 + sw[18] * sw[20] * l.pma8,
        };
        return varied(m, first, k, answer);
    }
    mean(m, first, k)
}

// What densu reads.
pub fn shape_stage(sw: [f64; 24], x: Site, z: f64, l: ExpansionValues) -> Shape
    ensures { result ≡ told (answer_to l) (shape_plan sw x z) }
{
    let tinf = tinf_stage(sw, z, l);
    let g = gradient_stage(sw, z, l);
    let tlb = tlb_stage(sw, l);
    let n = nodes_stage(sw, z, l);
    shape_of(x, tinf, tlb, g, n)
}

// The turbopauses of helium, of hydrogen, and of the four species that have it where O has.
#[derive(Clone, Copy)]
pub struct Turbopauses {
    pub he: Place,
    pub o: Place,
    pub h: Place,
}

// The places of the turbopauses whose species m says to be mixed; elsewhere p, which nothing reads.
pub fn turbopauses_of(m: Mixed, h: Shape, s: Spine, p: Place) -> Turbopauses
    requires { s ≡ spine_at h }
    ensures { Apart m h result }
{
    let m0 = pdm0();
    let m1 = pdm1();
    let m5 = pdm5();
    let four = oxygens_mixed(m);
    let he = turbopause(h, s, m.he, m0[2], p);
    let o = turbopause(h, s, four, m1[2], p);
    let hy = turbopause(h, s, m.h, m5[2], p);
    Turbopauses {
        he: he,
        o: o,
        h: hy,
    }
}

// The six species that blend with N2, those mixed that m says; s is the spine of h, p the place of z, t thins out what is mixed there.
pub fn species_stage(
    sw: [f64; 24],
    h: Shape,
    s: Spine,
    m: Mixed,
    z: f64,
    p: Place,
    t: Thinning,
    b28: f64,
    flux: f64,
    xmm: f64,
    l: ExpansionValues,
) -> SixSpecies
    requires { (s ≡ spine_at h) × (p ≡ place_at h z) × Mixes (some_mixed m) p xmm t }
    ensures { result ≡ told (answer_to l) (species_plan sw h m z b28 flux xmm) }
{
    let a = pdm2();
    let d = pdl1();
    let zhm = a[3] * d[5];
    let w = turbopauses_of(m, h, s, p);
    let whe = w.he;
    let wo = w.o;
    let wh = w.h;
    let he = helium_stage(sw, h, m.he, z, p, whe, t, b28, zhm, xmm, l);
    let o = oxygen_stage(sw, h, m.o, z, p, wo, t, zhm, xmm, flux, l);
    let o2 = o2_stage(sw, h, m.o2, z, p, wo, t, b28, zhm, xmm, flux, l);
    let ar = argon_stage(sw, h, m.ar, z, p, wo, t, b28, zhm, xmm, l);
    let hy = hydrogen_stage(sw, h, m.h, z, p, wh, t, b28, zhm, xmm, l);
    let n = nitrogen_stage(sw, h, m.n, z, p, wo, t, b28, zhm, xmm, l);
    SixSpecies {
        he: he,
        o: o,
        o2: o2,
        ar: ar,
        h: hy,
        n: n,
    }
}

// The State form of it stands in the crate model_state.
pub fn gts7_stage(sw: [f64; 24], x: Site, z: f64, l: ExpansionValues) -> Gts7Output
    ensures { result ≡ told (answer_to l) (gts7_plan sw x z) }
{
    let h = shape_stage(sw, x, z, l);
    let s = spine_at(h);
    let p = place_at(h, s, z);
    let m = pdm2();
    let w = place_at(h, s, m[2] * x.zhf);
    let c = x.nine;
    let k = mixed_at(c, sw[15], z);
    let on = some_mixed(k);
    let t = mixing(on, p, c.xmm);
    let b = n2_stage(sw, h, k.n2, z, p, w, t, x.zhf, c.xmm, l);
    let y = species_stage(sw, h, s, k, z, p, t, b.b, x.flux, c.xmm, l);
    let g = anomalous(h);
    let o = anomalous_stage(sw, g, z, l);
    gather(sw[0], h, s, z, p, b, y, o)
}
