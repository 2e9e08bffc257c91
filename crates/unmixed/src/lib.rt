// gts7's row where nothing is mixed, above every altitude at which mixing ends or where switch 15 is off: no turbopause is read there.

#![tactic(auto)]

ghost use Rattle.std.specs.Prelude.{◌≡◌, false, Float};
ghost use Rattle.numbers.specs.Arithmetic.{◌⊗◌, ◌‼◌};
ghost use Rattle.numbers.specs.Literals.{0·0, 28·0};
ghost use Rattle.elementary.specs.Exp.{exp_of};
ghost use Rattle.tables.specs.Tables.{pd_t2, pdm_t2};
ghost use Rattle.mixing_limits.specs.Limits.{mixed_at, some_mixed};
ghost use Rattle.plan.specs.Plan.{told, answer_to};
ghost use Rattle.species.specs.Species.{density_of};
ghost use Rattle.species.specs.Places.{place_at};
ghost use Rattle.stages.specs.Stages.{species_plan, gts7_plan};
ghost use Rattle.lower_atmosphere.specs.LowerAtmosphere.{gtd7_above};

use elementary::exponential::exp;
use elementary::root::sqrt;
use gts7_arithmetic::{Site, SixSpecies, anomalous, row_from};
use mixing_limits::Mixed;
use places::place::Place;
use places::thinning::Thinning;
use plan::ExpansionValues;
use profile::unchecked::Shape;
use species::{density, place_alone_at, temperature_alone};
use stages::{
    anomalous_stage, argon_stage, helium_stage, hydrogen_stage, nitrogen_stage, o2_stage,
    oxygen_stage,
};
use tables::{pd2, pdl1, pdm2};
use thermosphere::shape_stage;

// N2's density, not mixed.
pub fn n2_alone(sw: [f64; 24], h: Shape, z: f64, p: Place, l: ExpansionValues) -> f64
    requires { p ≡ place_at h z }
    ensures { result ≡ density_of h z (pdm_t2 ‼ 0 ⊗ exp_of (sw ‼ 21 ⊗ l.pd2) ⊗ pd_t2 ‼ 0) 28·0 0·0 }
{
    let c = pd2();
    let m = pdm2();
    let g = exp(sw[21] * l.pd2);
    density(h, z, p, m[0] * g * c[0], 28.0, 0.0)
}

// The six other species, none of them mixed: whatever N2's density at its turbopause is, they do not read it.
pub fn six_alone(
    sw: [f64; 24],
    h: Shape,
    m: Mixed,
    z: f64,
    p: Place,
    flux: f64,
    xmm: f64,
    l: ExpansionValues,
) -> SixSpecies
    requires { (p ≡ place_at h z) × (some_mixed m ≡ false) }
    ensures { (b : Float) → result ≡ told (answer_to l) (species_plan sw h m z b flux xmm) }
{
    let a = pdm2();
    let d = pdl1();
    let zhm = a[3] * d[5];
    let t = Thinning {
        none: true,
        under: false,
        tz: 0.0,
        p: 0.0,
        e: 0.0,
        q: 0.0,
        k: 0.0,
    };
    let he = helium_stage(sw, h, m.he, z, p, p, t, 0.0, zhm, xmm, l);
    let o = oxygen_stage(sw, h, m.o, z, p, p, t, zhm, xmm, flux, l);
    let o2 = o2_stage(sw, h, m.o2, z, p, p, t, 0.0, zhm, xmm, flux, l);
    let ar = argon_stage(sw, h, m.ar, z, p, p, t, 0.0, zhm, xmm, l);
    let hy = hydrogen_stage(sw, h, m.h, z, p, p, t, 0.0, zhm, xmm, l);
    let n = nitrogen_stage(sw, h, m.n, z, p, p, t, 0.0, zhm, xmm, l);
    SixSpecies {
        he: he,
        o: o,
        o2: o2,
        ar: ar,
        h: hy,
        n: n,
    }
}

// m says which species are mixed: none.
pub fn unmixed_row(sw: [f64; 24], x: Site, m: Mixed, z: f64, l: ExpansionValues) -> [f64; 11]
    requires { (m ≡ mixed_at x.nine (sw ‼ 15) z) × (some_mixed m ≡ false) }
    ensures { result ≡ (gtd7_above (told (answer_to l) (gts7_plan sw x z))).row }
{
    let h = shape_stage(sw, x, z, l);
    let p = place_alone_at(h, z);
    let n2 = n2_alone(sw, h, z, p, l);
    let c = x.nine;
    let y = six_alone(sw, h, m, z, p, x.flux, c.xmm, l);
    let k = anomalous(h);
    let oh = anomalous_stage(sw, k, z, l);
    let r = sqrt(z * z);
    let t1 = temperature_alone(h, z, p, r);
    row_from(sw[0], h.tinf, n2, y, oh, t1)
}
