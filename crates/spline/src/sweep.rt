// Second derivatives of a cubic spline: the ends, a sweep forward, a sweep back.
ghost use Rattle.std.specs.Prelude.{◌≡◌, ◌+◌, ◌≤◌, ◌<◌, length};
ghost use Rattle.spline.specs.Sweep.{step_y, step_u, forward_of, first_uof, last_uof, sweep_end, back, spline_of};

use numbers::pick;

// The next second derivative of the forward sweep.
fn step_y(x: &[f64], i: usize, yp: f64) -> f64
    requires { (1 ≤ i) × (i + 1 < length x.now) }
    ensures { result ≡ step_y x.now i yp }
{
    let x0 = x[i - 1];
    let sig = (x[i] - x0) / (x[i + 1] - x0);
    let p = sig * yp + 2.0;
    (sig - 1.0) / p
}

// The next number of its other row.
fn step_u(x: &[f64], y: &[f64], i: usize, yp: f64, up: f64) -> f64
    requires { (1 ≤ i) × (i + 1 < length x.now) × (i + 1 < length y.now) }
    ensures { result ≡ step_u x.now y.now i yp up }
{
    let lo = i - 1;
    let hi = i + 1;
    let x0 = x[lo];
    let x1 = x[i];
    let x2 = x[hi];
    let y1 = y[i];
    let sig = (x1 - x0) / (x2 - x0);
    let p = sig * yp + 2.0;
    (6.0 * ((y[hi] - y1) / (x2 - x1) - (y1 - y[lo]) / (x1 - x0)) / (x2 - x0) - sig * up) / p
}

// The two rows of the forward sweep.
#[derive(Clone, Copy)]
pub struct Pair {
    pub y2: [f64; 10],
    pub u: [f64; 10],
}

// The forward sweep over the inner nodes.
fn forward(x: &[f64], y: &[f64], n: usize, y0: [f64; 10], u0: [f64; 10]) -> Pair
    requires { (2 ≤ n) × (n ≤ 10) × (n ≤ length x.now) × (n ≤ length y.now) }
    ensures { (result.y2, result.u) ≡ forward_of x.now y.now n y0 u0 }
{
    let mut y2 = y0;
    let mut u = u0;
    for i in 1..n - 1 {
        let yp = y2[i - 1];
        let up = u[i - 1];
        let a = step_y(x, i, yp);
        let b = step_u(x, y, i, yp, up);
        y2[i] = a;
        u[i] = b;
    }
    Pair { y2, u }
}

// The other row at the first node: 0 at a natural end.
fn first_u(x: &[f64], y: &[f64], yp1: f64) -> f64
    requires { (2 ≤ length x.now) × (2 ≤ length y.now) }
    ensures { result ≡ first_uof x.now y.now yp1 }
{
    if yp1 > 0.99E30 {
        return 0.0;
    }
    let h = x[1] - x[0];
    (3.0 / h) * ((y[1] - y[0]) / h - yp1)
}

// The same at the last node.
fn last_u(x: &[f64], y: &[f64], n: usize, ypn: f64) -> f64
    requires { (2 ≤ n) × (n ≤ length x.now) × (n ≤ length y.now) }
    ensures { result ≡ last_uof x.now y.now n ypn }
{
    if ypn > 0.99E30 {
        return 0.0;
    }
    let a = n - 1;
    let b = n - 2;
    let h = x[a] - x[b];
    (3.0 / h) * (ypn - (y[a] - y[b]) / h)
}

// The second derivative at the last node.
fn end_of(un: f64, qn: f64, u: f64, y: f64) -> f64
    ensures { result ≡ sweep_end un qn u y }
{
    (un - qn * u) / (qn * y + 1.0)
}

// The sweep back from node m.
fn backward(m: usize, y0: [f64; 10], u: [f64; 10]) -> [f64; 10]
    requires { m < 10 }
    ensures { result ≡ back m y0 u }
{
    let mut y2 = y0;
    for k in (0..m).rev() {
        y2[k] = y2[k] * y2[k + 1] + u[k];
    }
    y2
}

// The second derivatives of the cubic spline over n nodes.
pub fn second(x: &[f64], y: &[f64], n: usize, yp1: f64, ypn: f64) -> [f64; 10]
    requires { (2 ≤ n) × (n ≤ 10) × (n ≤ length x.now) × (n ≤ length y.now) }
    ensures { result ≡ spline_of x.now y.now n yp1 ypn }
{
    let a = pick(yp1 > 0.99E30, 0.0, -0.5);
    let b = first_u(x, y, yp1);
    let mut y2 = [0.0; 10];
    y2[0] = a;
    let mut u = [0.0; 10];
    u[0] = b;
    let f = forward(x, y, n, y2, u);
    let un = last_u(x, y, n, ypn);
    let qn = pick(ypn > 0.99E30, 0.0, 0.5);
    let i = n - 2;
    let j = n - 1;
    let p = f.y2;
    let q = f.u;
    let e = end_of(un, qn, q[i], p[i]);
    let mut r = p;
    r[j] = e;
    backward(j, r, q)
}
