// What a region of altitude fixes above 72.5 km (its temperatures and the species' Roots), and the row of an altitude in it with the present nine constants.
// No expansion is worked out here.

#![tactic(auto)]

ghost use Rattle.std.specs.Prelude.{◌≡◌};
ghost use Rattle.elementary.specs.Log.{log_of};
ghost use Rattle.parameters.specs.Parameters.{present_of};
ghost use Rattle.numbers.specs.Arithmetic.{◌‼◌};
ghost use Rattle.numbers.specs.Literals.{72·5};
ghost use Rattle.tables.specs.Tables.{pdl_t1};
ghost use Rattle.places.specs.Place.{under_of};
ghost use Rattle.places.specs.Thinning.{Logged};
ghost use Rattle.species.specs.Places.{spine_at, place_at};
ghost use Rattle.region.specs.Region.{base_of, thin_bases_of, dense_bases_of, bases_of, turbopauses_of, roots_from, roots_of, six_at, row_at, row_over, temperature_at, row_under};

use elementary::exponential::exp;
use elementary::root::sqrt;
use gts7_arithmetic::{Site, SixSpecies, anomalous, row_from};
use mixing_limits::{Mixed, mixed_at, some_mixed};
use numbers::same;
use parameters::present;
use places::place::{Place, Spine, temperature_under, under};
use places::thinning::Thinning;
use plan::ExpansionValues;
use profile::unchecked::Shape;
use species::{
    Root, anomalous_factor, anomalous_oxygen, argon, argon_root, helium, helium_root, hydrogen,
    hydrogen_root, mixing_at, n2, n2_root, nitrogen, nitrogen_root, o2, o2_root, oxygen,
    oxygen_root, place_alone_at, place_at, temperature_alone, temperature_over_at,
};
use tables::{
    pd0, pd1, pd2, pd4, pd5, pd6, pd7, pd8, pdl0, pdl1, pdm0, pdm1, pdm2, pdm3, pdm4, pdm5, pdm6,
    pdm7,
};

// The densities at the lower boundary of the four species that reach highest, and of the others.
#[derive(Clone, Copy)]
pub struct ThinBases {
    pub he: f64,
    pub h: f64,
    pub n: f64,
    pub hot: f64,
}

#[derive(Clone, Copy)]
pub struct DenseBases {
    pub n2: f64,
    pub o: f64,
    pub o2: f64,
    pub ar: f64,
}

#[derive(Clone, Copy)]
pub struct Bases {
    pub thin: ThinBases,
    pub dense: DenseBases,
}

// The places of the four turbopauses; O2, argon and N have theirs where O has.
#[derive(Clone, Copy)]
pub struct Turbopauses {
    pub n2: Place,
    pub he: Place,
    pub o: Place,
    pub h: Place,
}

// The species' Roots in a region; rate is that of O2's second correction, hot and factor are anomalous oxygen's.
#[derive(Clone, Copy)]
pub struct Roots {
    pub n2: Root,
    pub he: Root,
    pub o: Root,
    pub o2: Root,
    pub ar: Root,
    pub h: Root,
    pub n: Root,
    pub rate: f64,
    pub hot: f64,
    pub factor: f64,
}

// A density at the lower boundary: m and c are its species' first numbers, f is switch 21.
pub fn base(m: f64, f: f64, level: f64, c: f64) -> f64
    ensures { result ≡ base_of m f level c }
{
    let g = exp(f * level);
    m * g * c
}

pub fn thin_bases(f: f64, l: ExpansionValues) -> ThinBases
    ensures { result ≡ thin_bases_of f l }
{
    let c0 = pd0();
    let c6 = pd6();
    let c7 = pd7();
    let c8 = pd8();
    let m0 = pdm0();
    let m5 = pdm5();
    let m6 = pdm6();
    let m7 = pdm7();
    let he = base(m0[0], f, l.pd0, c0[0]);
    let h = base(m5[0], f, l.pd6, c6[0]);
    let n = base(m6[0], f, l.pd7, c7[0]);
    let hot = base(m7[0], f, l.pd8, c8[0]);
    ThinBases {
        he: he,
        h: h,
        n: n,
        hot: hot,
    }
}

pub fn dense_bases(f: f64, l: ExpansionValues) -> DenseBases
    ensures { result ≡ dense_bases_of f l }
{
    let c1 = pd1();
    let c2 = pd2();
    let c4 = pd4();
    let c5 = pd5();
    let m1 = pdm1();
    let m2 = pdm2();
    let m3 = pdm3();
    let m4 = pdm4();
    let o = base(m1[0], f, l.pd1, c1[0]);
    let n2 = base(m2[0], f, l.pd2, c2[0]);
    let o2 = base(m3[0], f, l.pd4, c4[0]);
    let ar = base(m4[0], f, l.pd5, c5[0]);
    DenseBases {
        n2: n2,
        o: o,
        o2: o2,
        ar: ar,
    }
}

// No region changes these.
pub fn bases_of(f: f64, l: ExpansionValues) -> Bases
    ensures { result ≡ bases_of f l }
{
    let a = thin_bases(f, l);
    let b = dense_bases(f, l);
    Bases { thin: a, dense: b }
}

// s is the spine of h.
pub fn turbopauses_of(h: Shape, s: Spine, zhf: f64) -> Turbopauses
    requires { s ≡ spine_at h }
    ensures { result ≡ turbopauses_of h zhf }
{
    let m0 = pdm0();
    let m1 = pdm1();
    let m2 = pdm2();
    let m5 = pdm5();
    let a = place_at(h, s, m2[2] * zhf);
    let b = place_at(h, s, m0[2]);
    let c = place_at(h, s, m1[2]);
    let e = place_at(h, s, m5[2]);
    Turbopauses {
        n2: a,
        he: b,
        o: c,
        h: e,
    }
}

pub fn roots_from(
    rgas: f64,
    gsurf: f64,
    re: f64,
    w: Turbopauses,
    flux: f64,
    xmm: f64,
    d: Bases,
) -> Roots
    requires { Logged w.n2 × Logged w.he × Logged w.o × Logged w.h }
    ensures { result ≡ roots_from rgas gsurf re w flux xmm d }
{
    let m3 = pdm3();
    let m7 = pdm7();
    let k = pdl0();
    let l = pdl1();
    let a = d.thin;
    let b = d.dense;
    let wn = w.n2;
    let whe = w.he;
    let wo = w.o;
    let wh = w.h;
    let n2 = n2_root(wn, b.n2, xmm);
    let he = helium_root(true, whe, a.he, n2.b, xmm);
    let o = oxygen_root(true, wo, b.o, flux, xmm);
    let o2 = o2_root(true, wo, b.o2, n2.b, xmm);
    let ar = argon_root(true, wo, b.ar, n2.b, xmm);
    let h = hydrogen_root(true, wh, a.h, n2.b, xmm);
    let n = nitrogen_root(true, wo, a.n, n2.b, xmm);
    let f = anomalous_factor(rgas, gsurf, re, m7[5], m7[4], m7[9] * k[6]);
    Roots {
        n2: n2,
        he: he,
        o: o,
        o2: o2,
        ar: ar,
        h: h,
        n: n,
        rate: m3[3] * l[23] * flux,
        hot: a.hot,
        factor: f,
    }
}

// The Roots over a shape; s is its spine.
pub fn roots_of(h: Shape, s: Spine, x: Site, d: Bases) -> Roots
    requires { s ≡ spine_at h }
    ensures { result ≡ roots_of h x d }
{
    let w = turbopauses_of(h, s, x.zhf);
    let c = x.nine;
    roots_from(h.rgas, h.gsurf, h.re, w, x.flux, c.xmm, d)
}

// The six species that blend with N2, at a place; m says which are mixed there.
pub fn six_at(
    sw15: f64,
    m: Mixed,
    z: f64,
    q: Roots,
    p: Place,
    t: Thinning,
    zhm: f64,
    xmm: f64,
) -> SixSpecies
    requires { Logged p }
    ensures { result ≡ six_at sw15 m z q p t zhm xmm }
{
    let a = q.he;
    let b = q.o;
    let c = q.o2;
    let d = q.ar;
    let e = q.h;
    let f = q.n;
    let he = helium(m.he, z, p, t, a, zhm, xmm);
    let o = oxygen(m.o, z, p, t, b, zhm, xmm);
    let o2 = o2(sw15, m.o2, z, p, t, c, q.rate, zhm, xmm);
    let ar = argon(m.ar, z, p, t, d, zhm, xmm);
    let h = hydrogen(m.h, z, p, t, e, zhm, xmm);
    let n = nitrogen(m.n, z, p, t, f, zhm, xmm);
    SixSpecies {
        he: he,
        o: o,
        o2: o2,
        ar: ar,
        h: h,
        n: n,
    }
}

// The row at z, whose place is p; k is its place over anomalous oxygen's shape, t1 the temperature.
pub fn row_at(
    sw0: f64,
    sw15: f64,
    z: f64,
    tinf: f64,
    q: Roots,
    p: Place,
    k: Place,
    t1: f64,
) -> [f64; 11]
    requires { Logged p × Logged k }
    ensures { result ≡ row_at present_of sw0 sw15 z tinf q p k t1 }
{
    let m = pdm2();
    let l = pdl1();
    let m7 = pdm7();
    let c = present();
    let g = mixed_at(c, sw15, z);
    let on = some_mixed(g);
    let t = mixing_at(on, p, c.xmm);
    let a = q.n2;
    let n2 = n2(g.n2, p, t, a, c.xmm);
    let y = six_at(sw15, g, z, q, p, t, m[3] * l[5], c.xmm);
    let oh = anomalous_oxygen(z, k, q.hot, q.factor, m7[5], m7[4]);
    row_from(sw0, tinf, n2.dens, y, oh, t1)
}

// The row at or above za: no curve is read.
pub fn row_over(sw0: f64, sw15: f64, h: Shape, q: Roots, z: f64) -> [f64; 11]
    ensures { result ≡ row_over present_of sw0 sw15 h q z }
{
    let p = place_alone_at(h, z);
    let g = anomalous(h);
    let k = place_alone_at(g, z);
    let r = sqrt(z * z);
    let t1 = temperature_alone(h, z, p, r);
    row_at(sw0, sw15, z, h.tinf, q, p, k, t1)
}

// The temperature at r, below za from the spine; p is what the spine gives at z.
pub fn temperature_at(h: Shape, s: Spine, z: f64, p: Place, r: f64) -> f64
    requires { p ≡ under_of h.re s z (pdl_t1 ‼ 15) 72·5 }
    ensures { result ≡ temperature_at h s r }
{
    let l = pdl1();
    if r < l[15] {
        if same(r, z) {
            return p.tz;
        }
        return temperature_under(h.re, s, r, l[15], 72.5);
    }
    temperature_over_at(h, r)
}

// The row below za, from the spine of the shape and of anomalous oxygen's.
pub fn row_under(sw0: f64, sw15: f64, h: Shape, s: Spine, g: Spine, q: Roots, z: f64) -> [f64; 11]
    requires { (s.lt ≡ log_of s.rt) × (g.lt ≡ log_of g.rt) }
    ensures { result ≡ row_under present_of sw0 sw15 h s g q z }
{
    let l = pdl1();
    let p = under(h.re, s, z, l[15], 72.5);
    let k = under(h.re, g, z, l[15], 72.5);
    let r = sqrt(z * z);
    let t1 = temperature_at(h, s, z, p, r);
    row_at(sw0, sw15, z, h.tinf, q, p, k, t1)
}
