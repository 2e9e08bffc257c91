// densm in two parts for many altitudes: what a layer's nodes fix for all of them, and what an altitude reads there.

#![tactic(auto)]

ghost use Rattle.std.specs.Prelude.{◌≡◌, ◌≤◌};
ghost use Rattle.layers.specs.Layers.{first_five, span_of, blank_of, layer_read, down_of};

use elementary::exponential::exp;
use elementary::power::pow;
use profile::curve::{Curve, capped};
use profile::gravity::zeta;
use profile::unchecked::Profile;
use spline::nodes::{splini, splint};

// What the nodes fix: the temperature t1 at the first, the height zgdif of the last, a gas's exponent gamm for an integral of 1, and the spline,
// of at most five nodes.
#[derive(Clone, Copy)]
pub struct Span {
    pub t1: f64,
    pub zgdif: f64,
    pub gamm: f64,
    pub xs: [f64; 5],
    pub ys: [f64; 5],
    pub y2: [f64; 5],
}

// The inverse temperature and its integral.
#[derive(Clone, Copy)]
pub struct Read {
    pub y: f64,
    pub yi: f64,
}

pub fn first_five(a: [f64; 10]) -> [f64; 5]
    ensures { result ≡ first_five a }
{
    [a[0], a[1], a[2], a[3], a[4]]
}

// What the nodes of a curve fix for a gas of mass xm.
pub fn span_of(rgas: f64, gsurf: f64, re: f64, xm: f64, l: Curve) -> Span
    ensures { result ≡ span_of rgas gsurf re xm l }
{
    let q = pow(1.0 + l.z1 / re, 2.0);
    let glb = gsurf / q;
    let a = l.xs;
    let b = l.ys;
    let c = l.y2;
    let xs = first_five(a);
    let ys = first_five(b);
    let y2 = first_five(c);
    Span {
        t1: l.t1,
        zgdif: l.zgdif,
        gamm: xm * glb * l.zgdif / rgas,
        xs: xs,
        ys: ys,
        y2: y2,
    }
}

// A layer that nothing reads.
pub fn blank() -> Span
    ensures { result ≡ blank_of }
{
    Span {
        t1: 0.0,
        zgdif: 0.0,
        gamm: 0.0,
        xs: [0.0; 5],
        ys: [0.0; 5],
        y2: [0.0; 5],
    }
}

// The spline over n nodes, read at x.
pub fn read_at(xs: [f64; 5], ys: [f64; 5], y2: [f64; 5], n: usize, x: f64) -> Read
    requires { (2 ≤ n) × (n ≤ 5) }
    ensures { result ≡ layer_read xs ys y2 n x }
{
    let y = splint(&xs, &ys, &y2, n, x);
    let yi = splini(&xs, &ys, &y2, n, x);
    Read { y: y, yi: yi }
}

// The density d at the first node, z1, carried down to z, and the temperature there.
pub fn down(re: f64, z1: f64, s: Span, n: usize, d: f64, z: f64) -> Profile
    requires { (2 ≤ n) × (n ≤ 5) }
    ensures { result ≡ down_of re z1 s n d z }
{
    let zg = zeta(re, z, z1);
    let xs = s.xs;
    let ys = s.ys;
    let y2 = s.y2;
    let a = read_at(xs, ys, y2, n, zg / s.zgdif);
    let tz = 1.0 / a.y;
    let c = capped(s.gamm * a.yi);
    let k = exp(-c);
    Profile::Density(d * (s.t1 / tz) * k, tz)
}
