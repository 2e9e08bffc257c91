// The inverse temperature over a set of nodes as a cubic spline: what densu and densm share.
ghost use Rattle.std.specs.Prelude.{◌≡◌, ◌≤◌, length};
ghost use Rattle.profile.specs.Curve.{node_xs_of, node_ys_of, slope_of, layer_of, floored_of, unset_curve, exponent_of, capped_of};
ghost use Rattle.spline.specs.Nodes.{splini_of};

use super::gravity::zeta;
use elementary::power::pow;
use numbers::pick;
use spline::nodes::{splini, splint};
use spline::sweep::second;

// The spline, the place x where it is read, and the temperature tz there; z1 and t1 are the first node.
#[derive(Clone, Copy)]
pub struct Curve {
    pub z1: f64,
    pub t1: f64,
    pub zgdif: f64,
    pub x: f64,
    pub tz: f64,
    pub xs: [f64; 10],
    pub ys: [f64; 10],
    pub y2: [f64; 10],
}

// The heights of the nodes, from 0 at the first to 1 at the last.
fn node_xs(re: f64, zn: &[f64], n: usize, z1: f64, zgdif: f64) -> [f64; 10]
    requires { (n ≤ 10) × (n ≤ length zn.now) }
    ensures { result ≡ node_xs_of re zn.now n z1 zgdif }
{
    let mut xs = [0.0; 10];
    for k in 0..n {
        xs[k] = zeta(re, zn[k], z1) / zgdif;
    }
    xs
}

// The inverse temperatures at the nodes.
fn node_ys(tn: &[f64], n: usize) -> [f64; 10]
    requires { (n ≤ 10) × (n ≤ length tn.now) }
    ensures { result ≡ node_ys_of tn.now n }
{
    let mut ys = [0.0; 10];
    for k in 0..n {
        ys[k] = 1.0 / tn[k];
    }
    ys
}

// The slope of the inverse temperature at an end node, from the gradient of the temperature.
fn slope(tg: f64, t: f64, zgdif: f64) -> f64
    ensures { result ≡ slope_of tg t zgdif }
{
    -tg / (t * t) * zgdif
}

// The spline over n nodes, read at the altitude z.
pub fn layer(re: f64, zn: &[f64], tn: &[f64], n: usize, tgn: &[f64], z: f64) -> Curve
    requires { (2 ≤ n) × (n ≤ 10) × (n ≤ length zn.now) × (n ≤ length tn.now) × (2 ≤ length tgn.now) }
    ensures { result ≡ layer_of re zn.now tn.now n tgn.now z }
{
    let m = n - 1;
    let z1 = zn[0];
    let z2 = zn[m];
    let t1 = tn[0];
    let t2 = tn[m];
    let zg = zeta(re, z, z1);
    let zgdif = zeta(re, z2, z1);
    let xs = node_xs(re, zn, n, z1, zgdif);
    let ys = node_ys(tn, n);
    let yd1 = slope(tgn[0], t1, zgdif);
    let q = pow((re + z2) / (re + z1), 2.0);
    let yd2 = slope(tgn[1], t2, zgdif);
    let y2 = second(&xs, &ys, n, yd1, yd2 * q);
    let x = zg / zgdif;
    let y = splint(&xs, &ys, &y2, n, x);
    Curve {
        z1,
        t1,
        zgdif,
        x,
        tz: 1.0 / y,
        xs,
        ys,
        y2,
    }
}

// The same, read no lower than the last node.
pub fn floored(re: f64, zn: &[f64], tn: &[f64], n: usize, tgn: &[f64], alt: f64) -> Curve
    requires { (2 ≤ n) × (n ≤ 10) × (n ≤ length zn.now) × (n ≤ length tn.now) × (2 ≤ length tgn.now) }
    ensures { result ≡ floored_of re zn.now tn.now n tgn.now alt }
{
    let m = n - 1;
    let z = pick(alt > zn[m], alt, zn[m]);
    layer(re, zn, tn, n, tgn, z)
}

// What densu goes on with where no spline was made.
pub fn unset(tz: f64) -> Curve
    ensures { result ≡ unset_curve tz }
{
    Curve {
        z1: 0.0,
        t1: 0.0,
        zgdif: 0.0,
        x: 0.0,
        tz: tz,
        xs: [0.0; 10],
        ys: [0.0; 10],
        y2: [0.0; 10],
    }
}

// splini over arrays by value.
pub fn integral(xs: [f64; 10], ys: [f64; 10], y2: [f64; 10], n: usize, x: f64) -> f64
    requires { (2 ≤ n) × (n ≤ 10) }
    ensures { result ≡ splini_of xs ys y2 n x }
{
    splini(&xs, &ys, &y2, n, x)
}

// The exponent by which a gas of mass xm thins out from the first node.
pub fn exponent(rgas: f64, gsurf: f64, re: f64, xm: f64, l: Curve, n: usize) -> f64
    requires { (2 ≤ n) × (n ≤ 10) }
    ensures { result ≡ exponent_of rgas gsurf re xm l n }
{
    let q = pow(1.0 + l.z1 / re, 2.0);
    let glb = gsurf / q;
    let xs = l.xs;
    let ys = l.ys;
    let y2 = l.y2;
    let yi = integral(xs, ys, y2, n, l.x);
    xm * glb * l.zgdif / rgas * yi
}

// An exponent no larger than 50.
pub fn capped(expl: f64) -> f64
    ensures { result ≡ capped_of expl }
{
    if expl > 50.0 {
        return 50.0;
    }
    expl
}
