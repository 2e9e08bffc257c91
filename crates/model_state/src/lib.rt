// gts7 and gtd7 with State: it goes in by value and comes back by value beside the value, each field set by the step that sets it in the
// Rust. The expansions' values are worked out once and handed in, as in the calls that users make, which carry no State.

#![tactic(auto)]

ghost use Rattle.std.specs.Prelude.{◌≡◌};
ghost use Rattle.elementary.specs.Root.{sqrt_of};
ghost use Rattle.numbers.specs.Arithmetic.{◌⊗◌};
ghost use Rattle.views.specs.Shared.{Shared};
ghost use Rattle.setting.specs.State.{fresh_of};
ghost use Rattle.plan.specs.Fields.{fields_of, with_fields};
ghost use Rattle.plan.specs.Plan.{ends, answer_to, stepped, run};
ghost use Rattle.mixing_limits.specs.Limits.{some_mixed};
ghost use Rattle.species.specs.Places.{spine_at, place_at, Mixes};
ghost use Rattle.gts7_arithmetic.specs.Gts7Arithmetic.{gather_of};
ghost use Rattle.stages.specs.Stages.{densu_sets, nodes_plan, shape_plan, species_plan, gts7_plan};
ghost use Rattle.lower_atmosphere.specs.LowerAtmosphere.{meso_plan, lower_plan};
ghost use Rattle.atmosphere.specs.Atmosphere.{gtd7_plan};

use elementary::root::sqrt;
use expansion::after;
use expansion_values::expansion_values_of;
use gts7_arithmetic::{Gts7Output, Nodes, Site, SixSpecies, anomalous, gather, shape_of};
use lower_atmosphere::{Gtd7Output, Meso, above, below, lower_stage, meso_stage};
use mixing_limits::{Mixed, mixed_at, some_mixed};
use needed_sets::{need_at, with_high};
use numbers::pick;
use places::place::{Place, Spine};
use places::thinning::Thinning;
use plan::ExpansionValues;
use profile::unchecked::Shape;
use season::season_into;
use setting::{Left, State, View, fresh};
use species::{Blend, mixing, place_at, spine_at};
use stages::{gradient_stage, tinf_stage, tlb_stage};
use state_fields::{set_dd, set_gravity, set_nodes1, set_tn2, set_tn3, set_top3};
use state_steps::{
    anomalous_step, argon_step, densu_sets, helium_step, hydrogen_step, n2_step, nitrogen_step,
    o2_step, oxygen_step,
};
use tables::{pd7, pd8, pdl1, pdm2};
use thermosphere::{nodes_stage, turbopauses_of};

// The nodes of the lower thermosphere.
pub fn nodes_step(sw: [f64; 24], z: f64, l: ExpansionValues, s: State) -> Left<Nodes>
    ensures { stepped (answer_to l) (nodes_plan sw z) s ≡ ends result.value result.state }
{
    let n = nodes_stage(sw, z, l);
    let t = n.tn;
    let g = n.tgn;
    let s1 = set_nodes1(s, t, g);
    Left {
        value: n,
        state: s1,
    }
}

pub fn shape_step(sw: [f64; 24], x: Site, z: f64, l: ExpansionValues, s: State) -> Left<Shape>
    ensures { stepped (answer_to l) (shape_plan sw x z) s ≡ ends result.value result.state }
{
    let tinf = tinf_stage(sw, z, l);
    let g = gradient_stage(sw, z, l);
    let tlb = tlb_stage(sw, l);
    let n = nodes_step(sw, z, l, s);
    let v = n.value;
    let s1 = n.state;
    let h = shape_of(x, tinf, tlb, g, v);
    Left {
        value: h,
        state: s1,
    }
}

// The six species that blend with N2, those mixed that m says; k is the spine of h, p the place of z, t thins out what is mixed there.
pub fn species_step(
    sw: [f64; 24],
    h: Shape,
    k: Spine,
    m: Mixed,
    z: f64,
    p: Place,
    t: Thinning,
    b28: f64,
    flux: f64,
    xmm: f64,
    l: ExpansionValues,
    s: State,
) -> Left<SixSpecies>
    requires { (k ≡ spine_at h) × (p ≡ place_at h z) × Mixes (some_mixed m) p xmm t }
    ensures { stepped (answer_to l) (species_plan sw h m z b28 flux xmm) s ≡ ends result.value result.state }
{
    let a = pdm2();
    let d = pdl1();
    let zhm = a[3] * d[5];
    let w = turbopauses_of(m, h, k, p);
    let whe = w.he;
    let wo = w.o;
    let wh = w.h;
    let he = helium_step(sw, h, m.he, z, p, whe, t, b28, zhm, xmm, l, s);
    let s1 = he.state;
    let o = oxygen_step(sw, h, m.o, z, p, wo, t, zhm, xmm, flux, l, s1);
    let s2 = o.state;
    let o2 = o2_step(sw, h, m.o2, z, p, wo, t, b28, zhm, xmm, flux, l, s2);
    let s3 = o2.state;
    let ar = argon_step(sw, h, m.ar, z, p, wo, t, b28, zhm, xmm, l, s3);
    let s4 = ar.state;
    let hy = hydrogen_step(sw, h, m.h, z, p, wh, t, b28, zhm, xmm, l, s4);
    let s5 = hy.state;
    let n = nitrogen_step(sw, h, m.n, z, p, wo, t, b28, zhm, xmm, l, s5);
    let s6 = n.state;
    let x1 = he.value;
    let x2 = o.value;
    let x3 = o2.value;
    let x4 = ar.value;
    let x5 = hy.value;
    let x6 = n.value;
    let six = SixSpecies {
        he: x1,
        o: x2,
        o2: x3,
        ar: x4,
        h: x5,
        n: x6,
    };
    Left {
        value: six,
        state: s6,
    }
}

// gts7's totals, and what densu sets for the temperature at altitude.
pub fn gather_step(
    sw0: f64,
    h: Shape,
    k: Spine,
    z: f64,
    b: Blend,
    y: SixSpecies,
    o: f64,
    s: State,
) -> Left<Gts7Output>
    requires { k ≡ spine_at h }
    ensures { (result.value ≡ gather_of sw0 h z b y o) × (result.state ≡ with_fields s (densu_sets h (sqrt_of (z ⊗ z)) (fields_of s))) }
{
    let a = sqrt(z * z);
    let s1 = densu_sets(s, h, a);
    let p = place_at(h, k, z);
    let u = gather(sw0, h, k, z, p, b, y, o);
    Left {
        value: u,
        state: s1,
    }
}

fn gts7(sw: [f64; 24], x: Site, z: f64, l: ExpansionValues, s: State) -> Left<Gts7Output>
    ensures { stepped (answer_to l) (gts7_plan sw x z) s ≡ ends result.value result.state }
{
    let hs = shape_step(sw, x, z, l, s);
    let h = hs.value;
    let s1 = hs.state;
    let k = spine_at(h);
    let p = place_at(h, k, z);
    let m = pdm2();
    let w = place_at(h, k, m[2] * x.zhf);
    let c = x.nine;
    let g = mixed_at(c, sw[15], z);
    let on = some_mixed(g);
    let t = mixing(on, p, c.xmm);
    let bs = n2_step(sw, h, g.n2, z, p, w, t, x.zhf, c.xmm, l, s1);
    let b = bs.value;
    let s2 = bs.state;
    let ys = species_step(sw, h, k, g, z, p, t, b.b, x.flux, c.xmm, l, s2);
    let y = ys.value;
    let s3 = ys.state;
    let q = anomalous(h);
    let os = anomalous_step(sw, q, z, l, s3);
    let s4 = os.state;
    gather_step(sw[0], h, k, z, b, y, os.value, s4)
}

pub fn meso_step(sw: [f64; 24], u: Gts7Output, l: ExpansionValues, s: State) -> Left<Meso>
    ensures { stepped (answer_to l) (meso_plan sw u) s ≡ ends result.value result.state }
{
    let m = meso_stage(sw, u, l);
    let t = m.tn2;
    let g = m.tgn2;
    let s1 = set_tn2(s, t, g);
    let s2 = set_top3(s1, t[3]);
    Left {
        value: m,
        state: s2,
    }
}

pub fn lower_step(
    sw: [f64; 24],
    alt: f64,
    m: Meso,
    l: ExpansionValues,
    s: State,
) -> Left<lower_atmosphere::Nodes>
    ensures { stepped (answer_to l) (lower_plan sw alt m) s ≡ ends result.value result.state }
{
    let w = lower_stage(sw, alt, m, l);
    if !(alt < 32.5) {
        return Left { value: w, state: s };
    }
    let t = w.tn3;
    let g = w.tgn3;
    let s1 = set_tn3(s, t, g);
    Left {
        value: w,
        state: s1,
    }
}

pub fn gtd7(sw: [f64; 24], x: Site, alt: f64, l: ExpansionValues, s: State) -> Left<Gtd7Output>
    ensures { stepped (answer_to l) (gtd7_plan sw x alt) s ≡ ends result.value result.state }
{
    let s1 = set_gravity(s, x.gsurf, x.re);
    let altt = pick(alt > 72.5, alt, 72.5);
    let us = gts7(sw, x, altt, l, s1);
    let u = us.value;
    let s2 = us.state;
    if alt >= 72.5 {
        let a = above(u);
        return Left {
            value: a,
            state: s2,
        };
    }
    let ms = meso_step(sw, u, l, s2);
    let m = ms.value;
    let s3 = ms.state;
    let ns = lower_step(sw, alt, m, l, s3);
    let n = ns.value;
    let s4 = ns.state;
    let b = below(sw[0], x, alt, u, n);
    let s5 = set_dd(s4, b.dd);
    Left {
        value: b,
        state: s5,
    }
}

// gtd7 from a fresh State: of what the expansions leave, nothing but PD[7]'s and PD[8]'s is left at the end.
pub fn gtd7_from_fresh(v: View, x: Site, alt: f64) -> Left<Gtd7Output>
    requires { Shared v }
    ensures { run v (gtd7_plan v.sw x alt) fresh_of ≡ ends result.value result.state }
{
    let b = need_at(alt);
    let a = with_high(b);
    let mut season = [0.0; 156];
    season_into(v.doy, a, true, &mut season);
    let l = expansion_values_of(v, a, &season);
    let s = fresh();
    let p7 = pd7();
    let s7 = after(v, &p7, s);
    let p8 = pd8();
    let s8 = after(v, &p8, s7);
    let sw = v.sw;
    gtd7(sw, x, alt, l, s8)
}
