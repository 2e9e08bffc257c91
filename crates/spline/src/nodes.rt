// Cubic splines over nodes that need no check: the integral and the interpolation.
ghost use Rattle.std.specs.Prelude.{◌≡◌, ◌+◌, ◌≤◌, ◌<◌, length};
ghost use Rattle.spline.specs.Nodes.{area_of, segment_of, splini_of, splint_of, cubic_of};

use numbers::pick;

// The integral from node k to xx, over the cubic between node k and the next.
fn area(xa: &[f64], ya: &[f64], y2a: &[f64], k: usize, xx: f64) -> f64
    requires { (k + 1 < length xa.now) × (k + 1 < length ya.now) × (k + 1 < length y2a.now) }
    ensures { result ≡ area_of xa.now ya.now y2a.now k xx }
{
    let khi = k + 1;
    let xlo = xa[k];
    let xhi = xa[khi];
    let h = xhi - xlo;
    let a = (xhi - xx) / h;
    let b = (xx - xlo) / h;
    let a2 = a * a;
    let b2 = b * b;
    ((1.0 - a2) * ya[k] / 2.0
        + b2 * ya[khi] / 2.0
        + ((-(1.0 + a2 * a2) / 4.0 + a2 / 2.0) * y2a[k] + (b2 * b2 / 4.0 - b2 / 2.0) * y2a[khi])
            * h
            * h
            / 6.0)
        * h
}

// The integral over the segment from node k to node k + 1, or to x in the last segment and where x lies before its end.
fn segment(xa: &[f64], ya: &[f64], y2a: &[f64], n: usize, x: f64, k: usize) -> f64
    requires { (k + 1 < n) × (n ≤ length xa.now) × (n ≤ length ya.now) × (n ≤ length y2a.now) }
    ensures { result ≡ segment_of xa.now ya.now y2a.now n x k }
{
    let khi = k + 1;
    let xx = pick((khi < n - 1) & !(x < xa[khi]), xa[khi], x);
    area(xa, ya, y2a, k, xx)
}

// The integral from the first node to x: it ends at the first node that is not below x, or after the last segment.
pub fn splini(xa: &[f64], ya: &[f64], y2a: &[f64], n: usize, x: f64) -> f64
    requires { (2 ≤ n) × (n ≤ length xa.now) × (n ≤ length ya.now) × (n ≤ length y2a.now) }
    ensures { result ≡ splini_of xa.now ya.now y2a.now n x }
{
    let mut yi = 0.0;
    for klo in 0..n - 1 {
        if !(x > xa[klo]) {
            return yi;
        }
        yi = yi + segment(xa, ya, y2a, n, x, klo);
    }
    yi
}

// The cubic between two nodes at x.
fn cubic(xa: &[f64], ya: &[f64], y2a: &[f64], klo: usize, khi: usize, x: f64) -> f64
    requires { (klo < length xa.now) × (klo < length ya.now) × (klo < length y2a.now) × (khi < length xa.now) × (khi < length ya.now) × (khi < length y2a.now) }
    ensures { result ≡ cubic_of xa.now ya.now y2a.now klo khi x }
{
    let xlo = xa[klo];
    let xhi = xa[khi];
    let h = xhi - xlo;
    let a = (xhi - x) / h;
    let b = (x - xlo) / h;
    a * ya[klo]
        + b * ya[khi]
        + ((a * a * a - a) * y2a[klo] + (b * b * b - b) * y2a[khi]) * h * h / 6.0
}

// The spline at x, in the segment found by halving.
pub fn splint(xa: &[f64], ya: &[f64], y2a: &[f64], n: usize, x: f64) -> f64
    requires { (2 ≤ n) × (n ≤ 10) × (n ≤ length xa.now) × (n ≤ length ya.now) × (n ≤ length y2a.now) }
    ensures { result ≡ splint_of xa.now ya.now y2a.now n x }
{
    let mut klo: usize = 0;
    let mut khi = n - 1;
    while 1 < khi - klo {
        let k = (khi + klo) / 2;
        if xa[k] > x {
            khi = k;
        } else {
            klo = k;
        }
    }
    cubic(xa, ya, y2a, klo, khi, x)
}
