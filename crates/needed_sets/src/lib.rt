// Which sets of coefficients an altitude needs.

#![tactic(auto)]

ghost use Rattle.std.specs.Prelude.{◌≡◌};
ghost use Rattle.needed_sets.specs.NeededSets.{need_at, with_high, globe7_needed, glob7s_needed, glob7s_end};

use numbers::pick;
use tables::pdl1;

// Which sets are needed: those of O, H, N and anomalous O, PT, PS, those of the nodes of the lower thermosphere, of the mesosphere, of the troposphere.
// The others always are.
#[derive(Clone, Copy)]
pub struct Need {
    pub high: bool,
    pub pt: bool,
    pub ps: bool,
    pub nodes: bool,
    pub meso: bool,
    pub tropo: bool,
}

// Which sets an altitude needs.
pub fn need_at(alt: f64) -> Need
    ensures { result ≡ need_at alt }
{
    let z = pick(alt > 72.5, alt, 72.5);
    let l = pdl1();
    Need {
        high: alt >= 72.5,
        pt: z > l[15],
        ps: z > 72.5,
        nodes: z < 300.0,
        meso: !(alt >= 72.5),
        tropo: alt < 32.5,
    }
}

// The same with those of O, H, N and anomalous O, which gts7 asks for at every altitude.
pub fn with_high(a: Need) -> Need
    ensures { result ≡ with_high a }
{
    Need { high: true, ..a }
}

// Whether globe7's set k is needed, of PT, PD[0] to PD[8] and PS.
pub fn globe7_needed(n: Need, k: usize) -> bool
    ensures { result ≡ globe7_needed n k }
{
    if k == 0 {
        return n.pt;
    }
    if k == 10 {
        return n.ps;
    }
    if (k == 2) | (k > 6) {
        return n.high;
    }
    true
}

// Whether glob7s's set k is needed, of the nodes' five, the mesosphere's four and the troposphere's five.
pub fn glob7s_needed(n: Need, k: usize) -> bool
    ensures { result ≡ glob7s_needed n k }
{
    if k < 5 {
        return n.nodes;
    }
    if k < 9 {
        return n.meso;
    }
    n.tropo
}

// How many of these hold all that are needed.
pub fn glob7s_end(n: Need) -> usize
    ensures { result ≡ glob7s_end n }
{
    if n.tropo {
        return 14;
    }
    if n.meso {
        return 9;
    }
    if n.nodes {
        return 5;
    }
    0
}
