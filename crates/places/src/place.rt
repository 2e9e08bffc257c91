// densu's altitudes over one Shape: what the shape fixes for all of them, and what an altitude adds.
ghost use Rattle.std.specs.Prelude.{◌≡◌, false};
ghost use Rattle.std.specs.Float.Ieee.{lt};
ghost use Rattle.numbers.specs.Arithmetic.{◌‼◌};
ghost use Rattle.places.specs.Place.{spine_of, under_of, over_of, unset_place, place_on, place_of};

use elementary::logarithm::log;
use elementary::power::pow;
use layers::{first_five, read_at};
use numbers::pick;
use profile::curve::layer;
use profile::gravity::zeta;
use profile::point::{Point, point_of};
use profile::unchecked::{Shape, bates, gradient};
use spline::nodes::splint;

// What a Shape fixes: gravity base at zlb, k = s * rgas * tinf; the gas constant rgas; the height zg2, the temperature tt, rt = tlb / tt and its
// logarithm lt at za; and the curve below za.
#[derive(Clone, Copy)]
pub struct Spine {
    pub base: f64,
    pub k: f64,
    pub rgas: f64,
    pub s: f64,
    pub zg2: f64,
    pub tt: f64,
    pub rt: f64,
    pub lt: f64,
    pub glb: f64,
    pub t1: f64,
    pub zgdif: f64,
    pub xs: [f64; 5],
    pub ys: [f64; 5],
    pub y2: [f64; 5],
}

// An altitude z with all that a gas reads there: a Point, what its Shape fixes, rt = tlb / tt, r1 = t1 / tz and their logarithms.
#[derive(Clone, Copy)]
pub struct Place {
    pub z: f64,
    pub under: bool,
    pub zg2: f64,
    pub tt: f64,
    pub tz: f64,
    pub glb: f64,
    pub zgdif: f64,
    pub yi: f64,
    pub base: f64,
    pub k: f64,
    pub rgas: f64,
    pub s: f64,
    pub rt: f64,
    pub lt: f64,
    pub r1: f64,
    pub l1: f64,
}

// What a Shape fixes.
pub fn spine_of(h: Shape, zlb: f64, zn: [f64; 5]) -> Spine
    ensures { result ≡ spine_of h zlb zn }
{
    let za = zn[0];
    let zg2 = zeta(h.re, za, zlb);
    let tt = bates(h.tinf, h.tlb, h.s, zg2);
    let rt = h.tlb / tt;
    let lt = log(rt);
    let dta = gradient(h.re, h.tinf, tt, zlb, h.s, za);
    let mut tn = h.tn;
    tn[0] = tt;
    let mut tgn = h.tgn;
    tgn[0] = dta;
    let l = layer(h.re, &zn, &tn, 5, &tgn, za);
    let q = pow(1.0 + zlb / h.re, 2.0);
    let g = pow(1.0 + l.z1 / h.re, 2.0);
    let a = l.xs;
    let b = l.ys;
    let c = l.y2;
    let xs = first_five(a);
    let ys = first_five(b);
    let y2 = first_five(c);
    Spine {
        base: h.gsurf / q,
        k: h.s * h.rgas * h.tinf,
        rgas: h.rgas,
        s: h.s,
        zg2: zg2,
        tt: tt,
        rt: rt,
        lt: lt,
        glb: h.gsurf / g,
        t1: l.t1,
        zgdif: l.zgdif,
        xs: xs,
        ys: ys,
        y2: y2,
    }
}

// An altitude below za, read no lower than the last node.
pub fn under(re: f64, s: Spine, z: f64, za: f64, low: f64) -> Place
    ensures { result ≡ under_of re s z za low }
{
    let zz = pick(z > low, z, low);
    let zg = zeta(re, zz, za);
    let xs = s.xs;
    let ys = s.ys;
    let y2 = s.y2;
    let a = read_at(xs, ys, y2, 5, zg / s.zgdif);
    let tz = 1.0 / a.y;
    let r1 = s.t1 / tz;
    let l1 = log(r1);
    Place {
        z: z,
        under: true,
        zg2: s.zg2,
        tt: s.tt,
        tz: tz,
        glb: s.glb,
        zgdif: s.zgdif,
        yi: a.yi,
        base: s.base,
        k: s.k,
        rgas: s.rgas,
        s: s.s,
        rt: s.rt,
        lt: s.lt,
        r1: r1,
        l1: l1,
    }
}

// An altitude at or above za.
pub fn over(
    re: f64,
    tinf: f64,
    tlb: f64,
    s2: f64,
    base: f64,
    k: f64,
    rgas: f64,
    z: f64,
    za: f64,
    zlb: f64,
) -> Place
    ensures { result ≡ over_of re tinf tlb s2 base k rgas z za zlb }
{
    let zz = pick(z > za, z, za);
    let zg2 = zeta(re, zz, zlb);
    let tt = bates(tinf, tlb, s2, zg2);
    let rt = tlb / tt;
    let lt = log(rt);
    Place {
        z: z,
        under: false,
        zg2: zg2,
        tt: tt,
        tz: tt,
        glb: 0.0,
        zgdif: 0.0,
        yi: 0.0,
        base: base,
        k: k,
        rgas: rgas,
        s: s2,
        rt: rt,
        lt: lt,
        r1: 0.0,
        l1: 0.0,
    }
}

// An altitude that is neither, a NaN: densu leaves its curve unset, so that no curve is worked out for it.
pub fn unset_place(gsurf: f64, re: f64, s: Spine, z: f64) -> Place
    ensures { result ≡ unset_place gsurf re s z }
{
    let g = pow(1.0 + 0.0 / re, 2.0);
    let r1 = 0.0 / s.tt;
    let l1 = log(r1);
    Place {
        z: z,
        under: true,
        zg2: s.zg2,
        tt: s.tt,
        tz: s.tt,
        glb: gsurf / g,
        zgdif: 0.0,
        yi: 0.0,
        base: s.base,
        k: s.k,
        rgas: s.rgas,
        s: s.s,
        rt: s.rt,
        lt: s.lt,
        r1: r1,
        l1: l1,
    }
}

// A Point with what a gas reads besides it.
pub fn place_on(h: Shape, zlb: f64, p: Point) -> Place
    ensures { result ≡ place_on h zlb p }
{
    let q = pow(1.0 + zlb / h.re, 2.0);
    let rt = h.tlb / p.tt;
    let lt = log(rt);
    let r1 = pick(p.under, p.t1 / p.tz, 0.0);
    let l = log(r1);
    let l1 = pick(p.under, l, 0.0);
    Place {
        z: p.z,
        under: p.under,
        zg2: p.zg2,
        tt: p.tt,
        tz: p.tz,
        glb: p.glb,
        zgdif: p.zgdif,
        yi: p.yi,
        base: h.gsurf / q,
        k: h.s * h.rgas * h.tinf,
        rgas: h.rgas,
        s: h.s,
        rt: rt,
        lt: lt,
        r1: r1,
        l1: l1,
    }
}

// What an altitude gives where no other altitude of the shape is read.
pub fn place_alone(h: Shape, z: f64, zlb: f64, zn: [f64; 5]) -> Place
    ensures { result ≡ place_of h z zlb zn }
{
    let za = zn[0];
    if (z >= za) & !(z < za) {
        let q = pow(1.0 + zlb / h.re, 2.0);
        return over(
            h.re,
            h.tinf,
            h.tlb,
            h.s,
            h.gsurf / q,
            h.s * h.rgas * h.tinf,
            h.rgas,
            z,
            za,
            zlb,
        );
    }
    let p = point_of(h, z, zlb, zn);
    place_on(h, zlb, p)
}

// What an altitude gives, from the spine of its shape.
pub fn place_of(h: Shape, s: Spine, z: f64, zlb: f64, zn: [f64; 5]) -> Place
    requires { s ≡ spine_of h zlb zn }
    ensures { result ≡ place_of h z zlb zn }
{
    let za = zn[0];
    if z < za {
        return under(h.re, s, z, za, zn[4]);
    }
    if z >= za {
        return over(h.re, h.tinf, h.tlb, h.s, s.base, s.k, s.rgas, z, za, zlb);
    }
    unset_place(h.gsurf, h.re, s, z)
}

// The temperature below za, from the spine.
pub fn temperature_under(re: f64, s: Spine, z: f64, za: f64, low: f64) -> f64
    ensures { result ≡ (under_of re s z za low).tz }
{
    let zz = pick(z > low, z, low);
    let zg = zeta(re, zz, za);
    let xs = s.xs;
    let ys = s.ys;
    let y2 = s.y2;
    let y = splint(&xs, &ys, &y2, 5, zg / s.zgdif);
    1.0 / y
}

// The temperature at or above za, and where z is NaN.
pub fn temperature_over(h: Shape, z: f64, zlb: f64, zn: [f64; 5]) -> f64
    requires { lt z (zn ‼ 0) ≡ false }
    ensures { result ≡ (place_of h z zlb zn).tz }
{
    let za = zn[0];
    let zz = pick(z > za, z, za);
    let zg2 = zeta(h.re, zz, zlb);
    bates(h.tinf, h.tlb, h.s, zg2)
}

// The temperature alone of what an altitude gives.
pub fn temperature_of(h: Shape, s: Spine, z: f64, zlb: f64, zn: [f64; 5]) -> f64
    requires { s ≡ spine_of h zlb zn }
    ensures { result ≡ (place_of h z zlb zn).tz }
{
    let za = zn[0];
    if z < za {
        return temperature_under(h.re, s, z, za, zn[4]);
    }
    temperature_over(h, z, zlb, zn)
}
