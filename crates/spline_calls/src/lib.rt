// The calls of splini, splint and spline, with their refusals.

#![tactic(auto)]

ghost use Rattle.std.specs.Prelude.{◌≡◌, ◌≤◌, ◌++◌, OnOk, length, take, drop};
ghost use Rattle.spline_calls.specs.Outcome.{gives, counted, after};
ghost use Rattle.spline_calls.specs.Calls.{outcome_of, write_outcome, three_long, splini_call, splint_call, spline_call};

// Why nodes are refused, with the place: their count, or a slice that is too short.
#[derive(Clone, Copy)]
pub enum NodesRefusal {
    NodeCount(usize),
    SliceLength(usize),
}

// A count of nodes from 2 to the most that there may be.
pub fn check_count(n: usize, most: usize) -> Result<(), NodesRefusal>
    ensures outcome { outcome_of result ≡ counted n most (gives tt) }
    ensures fit { OnOk result ((2 ≤ n) × (n ≤ most)) }
{
    if (n < 2) | (n > most) {
        return Err(NodesRefusal::NodeCount(most));
    }
    Ok(())
}

// From 2 to 10 nodes, and slices that have them all.
fn check_nodes(n: usize, a: &[f64], b: &[f64], c: &[f64]) -> Result<(), NodesRefusal>
    ensures outcome { outcome_of result ≡ three_long n a.now b.now c.now (gives tt) }
    ensures fit { OnOk result ((2 ≤ n) × (n ≤ 10) × (n ≤ length a.now) × (n ≤ length b.now) × (n ≤ length c.now)) }
{
    check_count(n, 10)?;
    if (a.len() < n) | (b.len() < n) | (c.len() < n) {
        return Err(NodesRefusal::SliceLength(n));
    }
    Ok(())
}

// The integral of the spline from the first node to x.
pub fn splini(xa: &[f64], ya: &[f64], y2a: &[f64], n: usize, x: f64) -> Result<f64, NodesRefusal>
    ensures { outcome_of result ≡ splini_call xa.now ya.now y2a.now n x }
{
    check_nodes(n, xa, ya, y2a)?;
    let yi = spline::nodes::splini(xa, ya, y2a, n, x);
    Ok(yi)
}

// The spline at x.
pub fn splint(xa: &[f64], ya: &[f64], y2a: &[f64], n: usize, x: f64) -> Result<f64, NodesRefusal>
    ensures { outcome_of result ≡ splint_call xa.now ya.now y2a.now n x }
{
    check_nodes(n, xa, ya, y2a)?;
    let y = spline::nodes::splint(xa, ya, y2a, n, x);
    Ok(y)
}

// The first n numbers of v go into y2.
fn put(v: [f64; 10], n: usize, y2: &mut [f64])
    requires { (n ≤ 10) × (n ≤ length y2.old) }
    ensures { y2.new ≡ take n v ++ drop n y2.old }
{
    y2[..n].copy_from_slice(&v[..n]);
}

// The second derivatives at the nodes go into y2; where yp1 or ypn is above 0.99E30, that end is a natural one.
pub fn spline(
    x: &[f64],
    y: &[f64],
    n: usize,
    yp1: f64,
    ypn: f64,
    y2: &mut [f64],
) -> Result<(), NodesRefusal>
    ensures y2_after { write_outcome result y2.new ≡ spline_call x.now y.now n yp1 ypn y2.old }
    ensures y2_after_2 { y2.new ≡ after (spline_call x.now y.now n yp1 ypn y2.old) y2.old }
{
    check_nodes(n, x, y, y2)?;
    let v = spline::sweep::second(x, y, n, yp1, ypn);
    put(v, n, y2);
    Ok(())
}
