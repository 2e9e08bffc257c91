// The nine constants that research users vary (W-211): the gas constant, the mass of mixed air, and the altitudes at which gts7's mixing ends.

#![tactic(auto)]

ghost use Rattle.std.specs.Prelude.{◌≡◌};
ghost use Rattle.parameters.specs.Parameters.{present_of};

use numbers::RGAS;

// rgas is the gas constant, xmm the mass of mixed air; he to n are the altitudes of gts7's altl, each by the name of its species.
#[derive(Clone, Copy)]
pub struct Parameters {
    pub rgas: f64,
    pub xmm: f64,
    pub he: f64,
    pub o: f64,
    pub n2: f64,
    pub o2: f64,
    pub ar: f64,
    pub h: f64,
    pub n: f64,
}

// The values that the Rust has.
pub fn present() -> Parameters
    ensures { result ≡ present_of }
{
    Parameters {
        rgas: RGAS,
        xmm: 28.95,
        he: 200.0,
        o: 300.0,
        n2: 160.0,
        o2: 250.0,
        ar: 240.0,
        h: 320.0,
        n: 450.0,
    }
}
