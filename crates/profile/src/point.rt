// densu in two parts: what the altitude gives, and what a gas adds to it.
ghost use Rattle.std.specs.Prelude.{◌≡◌};
ghost use Rattle.profile.specs.Point.{on_curve, off_curve, point_of, densu_at};

use super::curve::{Curve, capped, floored, integral, unset};
use super::gravity::zeta;
use super::unchecked::{Profile, Shape, above, bates, densa, gradient};
use elementary::exponential::exp;
use elementary::power::pow;
use numbers::pick;

// An altitude z: whether it is read on the curve below za, and what no gas changes there.
#[derive(Clone, Copy)]
pub struct Point {
    pub z: f64,
    pub under: bool,
    pub zg2: f64,
    pub tt: f64,
    pub t1: f64,
    pub tz: f64,
    pub glb: f64,
    pub zgdif: f64,
    pub yi: f64,
}

// An altitude read on a curve over five nodes.
pub fn on_curve(h: Shape, z: f64, zg2: f64, tt: f64, l: Curve) -> Point
    ensures { result ≡ on_curve h z zg2 tt l }
{
    let q = pow(1.0 + l.z1 / h.re, 2.0);
    let xs = l.xs;
    let ys = l.ys;
    let y2 = l.y2;
    let yi = integral(xs, ys, y2, 5, l.x);
    Point {
        z: z,
        under: true,
        zg2: zg2,
        tt: tt,
        t1: l.t1,
        tz: l.tz,
        glb: h.gsurf / q,
        zgdif: l.zgdif,
        yi: yi,
    }
}

// An altitude at or above za.
pub fn off_curve(z: f64, zg2: f64, tt: f64) -> Point
    ensures { result ≡ off_curve z zg2 tt }
{
    Point {
        z: z,
        under: false,
        zg2: zg2,
        tt: tt,
        t1: 0.0,
        tz: tt,
        glb: 0.0,
        zgdif: 0.0,
        yi: 0.0,
    }
}

// What an altitude gives.
pub fn point_of(h: Shape, z: f64, zlb: f64, zn: [f64; 5]) -> Point
    ensures { result ≡ point_of h z zlb zn }
{
    let za = zn[0];
    let zz = pick(z > za, z, za);
    let zg2 = zeta(h.re, zz, zlb);
    let tt = bates(h.tinf, h.tlb, h.s, zg2);
    if z < za {
        let dta = gradient(h.re, h.tinf, tt, zlb, h.s, za);
        let mut tn = h.tn;
        tn[0] = tt;
        let mut tgn = h.tgn;
        tgn[0] = dta;
        let l = floored(h.re, &zn, &tn, 5, &tgn, z);
        return on_curve(h, z, zg2, tt, l);
    }
    if z >= za {
        return off_curve(z, zg2, tt);
    }
    let l = unset(tt);
    on_curve(h, z, zg2, tt, l)
}
