// gtd7 below 72.5 km: what gts7 at 72.5 km gives to every altitude there, worked out once, and the row of an altitude.

#![tactic(auto)]

ghost use Rattle.std.specs.Prelude.{◌≡◌, true, false};
ghost use Rattle.numbers.specs.Literals.{72·5};
ghost use Rattle.mixing_limits.specs.Limits.{some_mixed};
ghost use Rattle.species.specs.Places.{spine_at, place_at, Mixes};
ghost use Rattle.footing.specs.Footing.{in_units_of, three_of, summit_from, summit_at, summit_of, curves_of, footing_of, reached_of, row_below_of};

use gts7_arithmetic::{Site, mass};
use layers::{Span, blank, down, span_of};
use lower_atmosphere::{Meso, dm28m, full, kilograms, lower_stage, meso_nodes, n2, unset};
use mixing::dmc;
use mixing_limits::{Mixed, mixed_at, oxygens_mixed, some_mixed};
use numbers::pick;
use places::place::{Place, Spine};
use places::thinning::Thinning;
use plan::ExpansionValues;
use profile::curve::layer;
use profile::unchecked::{Profile, Shape, lowered, returned_number, temperature_in};
use species::{Blend, Mixture, mixing, place_at, spine_at, turbopause};
use stages::{argon_stage, helium_stage, n2_stage, o2_stage};
use tables::{pdl1, pdm0, pdm1, pdm2, pdm3, pdm4};
use thermosphere::shape_stage;

// densm's layers for N2: from 72.5 to 32.5 km, the density at 32.5 km, from there down.
#[derive(Clone, Copy)]
pub struct Curves {
    pub upper: Span,
    pub d32: f64,
    pub lower: Span,
}

// What every altitude below 72.5 km reads of gts7 there: t[0], the mixed density of N2 and d[0], d[2], d[3], d[4] in the units asked for; the
// nodes from there to 32.5 km, and the layers.
#[derive(Clone, Copy)]
pub struct Footing {
    pub x: Site,
    pub tinf: f64,
    pub dm28m: f64,
    pub he: f64,
    pub n2: f64,
    pub o2: f64,
    pub ar: f64,
    pub meso: Meso,
    pub curves: Curves,
}

// The species at 72.5 km whose share of N2 the altitudes below carry on.
#[derive(Clone, Copy)]
pub struct Three {
    pub he: Mixture,
    pub o2: Mixture,
    pub ar: Mixture,
}

// s is the spine of h, p the place of 72.5 km, m says which species are mixed there, t thins them out.
pub fn three_of(
    sw: [f64; 24],
    h: Shape,
    s: Spine,
    m: Mixed,
    p: Place,
    t: Thinning,
    b28: f64,
    flux: f64,
    xmm: f64,
    l: ExpansionValues,
) -> Three
    requires { (s ≡ spine_at h) × (p ≡ place_at h 72·5) × Mixes (some_mixed m) p xmm t }
    ensures { result ≡ three_of sw h m b28 flux xmm l }
{
    let a = pdm2();
    let d = pdl1();
    let m0 = pdm0();
    let m1 = pdm1();
    let zhm = a[3] * d[5];
    let w = turbopause(h, s, m.he, m0[2], p);
    let he = helium_stage(sw, h, m.he, 72.5, p, w, t, b28, zhm, xmm, l);
    let four = oxygens_mixed(m);
    let y = turbopause(h, s, four, m1[2], p);
    let o2 = o2_stage(sw, h, m.o2, 72.5, p, y, t, b28, zhm, xmm, flux, l);
    let ar = argon_stage(sw, h, m.ar, 72.5, p, y, t, b28, zhm, xmm, l);
    Three {
        he: he,
        o2: o2,
        ar: ar,
    }
}

// What the altitudes below 72.5 km read of gts7's densities there: those of He, N2, O2 and Ar in the units asked for, and N2's mixed density. known
// says that they are at hand.
#[derive(Clone, Copy)]
pub struct Summit {
    pub known: bool,
    pub he: f64,
    pub n2: f64,
    pub o2: f64,
    pub ar: f64,
    pub dm28: f64,
}

// None of it at hand.
pub fn unknown() -> Summit
    ensures { result.known ≡ false }
{
    Summit {
        known: false,
        he: 0.0,
        n2: 0.0,
        o2: 0.0,
        ar: 0.0,
        dm28: 0.0,
    }
}

// A density in the units asked for.
pub fn in_units(sw0: f64, d: f64) -> f64
    ensures { result ≡ in_units_of sw0 d }
{
    pick(sw0 != 0.0, d * 1.0E6, d)
}

// The layers; that of the troposphere and the density at 32.5 km where they are asked for. d is the density at 72.5 km.
pub fn curves_of(sw: [f64; 24], x: Site, d: f64, m: Meso, l: ExpansionValues, tropo: bool) -> Curves
    ensures { result ≡ curves_of sw x d m l tropo }
{
    let c = x.nine;
    let tn2 = m.tn2;
    let tgn2 = m.tgn2;
    let a = layer(x.re, &[72.5, 55.0, 45.0, 32.5], &tn2, 4, &tgn2, 32.5);
    let u = span_of(c.rgas, x.gsurf, x.re, c.xmm, a);
    if !tropo {
        let v = blank();
        return Curves {
            upper: u,
            d32: 0.0,
            lower: v,
        };
    }
    let d32 = lowered(c.rgas, x.gsurf, x.re, c.xmm, d, a, 4);
    let w = lower_stage(sw, 0.0, m, l);
    let tn3 = w.tn3;
    let tgn3 = w.tgn3;
    let b = layer(x.re, &[32.5, 20.0, 15.0, 10.0, 0.0], &tn3, 5, &tgn3, 0.0);
    let v = span_of(c.rgas, x.gsurf, x.re, c.xmm, b);
    Curves {
        upper: u,
        d32: d32,
        lower: v,
    }
}

pub fn summit_from(sw0: f64, b: Blend, y: Three) -> Summit
    ensures { result ≡ summit_from sw0 b y }
{
    let a = y.he;
    let c = y.o2;
    let e = y.ar;
    let he = in_units(sw0, a.dens);
    let n2 = in_units(sw0, b.dens);
    let o2 = in_units(sw0, c.dens);
    let ar = in_units(sw0, e.dens);
    Summit {
        known: true,
        he: he,
        n2: n2,
        o2: o2,
        ar: ar,
        dm28: b.dm,
    }
}

// The densities at 72.5 km, whose shape is h: those of q where they are known.
pub fn summit_at(sw: [f64; 24], x: Site, h: Shape, l: ExpansionValues, q: Summit) -> Summit
    requires { q.known ≡ true → q ≡ summit_at sw x h l }
    ensures { result ≡ summit_at sw x h l }
{
    if q.known {
        return q;
    }
    let s = spine_at(h);
    let p = place_at(h, s, 72.5);
    let m = pdm2();
    let v = place_at(h, s, m[2] * x.zhf);
    let c = x.nine;
    let g = mixed_at(c, sw[15], 72.5);
    let on = some_mixed(g);
    let t = mixing(on, p, c.xmm);
    let b = n2_stage(sw, h, g.n2, 72.5, p, v, t, x.zhf, c.xmm, l);
    let y = three_of(sw, h, s, g, p, t, b.b, x.flux, c.xmm, l);
    summit_from(sw[0], b, y)
}

// What the altitudes below 72.5 km share, with the densities there where they are known; tropo: some of the altitudes lie below 32.5 km.
pub fn footing_of(sw: [f64; 24], x: Site, l: ExpansionValues, tropo: bool, q: Summit) -> Footing
    requires { q.known ≡ true → q ≡ summit_of sw x l }
    ensures { result ≡ footing_of sw x l tropo }
{
    let h = shape_stage(sw, x, 72.5, l);
    let u = summit_at(sw, x, h, l, q);
    let e = meso_nodes(sw, h, l);
    let d = dm28m(sw[0], u.dm28);
    let k = curves_of(sw, x, d, e, l, tropo);
    Footing {
        x: x,
        tinf: h.tinf,
        dm28m: d,
        he: u.he,
        n2: u.n2,
        o2: u.o2,
        ar: u.ar,
        meso: e,
        curves: k,
    }
}

// densm for N2, from its layers; at 32.5 km, where gtd7 does not set the nodes of the troposphere and still reads them, from the nodes.
pub fn reached(x: Site, d: f64, m: Meso, k: Curves, alt: f64) -> Profile
    ensures { result ≡ reached_of x d m k alt }
{
    if alt > 32.5 {
        let u = k.upper;
        return down(x.re, 72.5, u, 4, d, alt);
    }
    if alt < 32.5 {
        let v = k.lower;
        return down(x.re, 32.5, v, 5, k.d32, alt);
    }
    let w = unset(m);
    n2(x, alt, d, w)
}

// The eleven numbers at an altitude below 72.5 km; one densm gives density and temperature.
pub fn row_below(sw0: f64, f: Footing, alt: f64) -> [f64; 11]
    ensures { result ≡ row_below_of sw0 f alt }
{
    let m0 = pdm0();
    let m3 = pdm3();
    let m4 = pdm4();
    let c = dmc(alt);
    let x = f.x;
    let m = f.meso;
    let k = f.curves;
    let a = reached(x, f.dm28m, m, k, alt);
    let n = returned_number(a);
    let t1 = temperature_in(a);
    let d2 = n * (1.0 + (f.n2 / f.dm28m - 1.0) * c);
    let he = full(d2, m0[1], f.he, f.n2, c);
    let o2 = full(d2, m3[1], f.o2, f.n2, c);
    let ar = full(d2, m4[1], f.ar, f.n2, c);
    let g = mass(he, 0.0, d2, o2, ar, 0.0, 0.0);
    let all = kilograms(sw0, g);
    [he, 0.0, d2, o2, ar, all, 0.0, 0.0, 0.0, f.tinf, t1]
}
