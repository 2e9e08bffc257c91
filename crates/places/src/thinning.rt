// By what a gas is thinned out from the lower boundary to a place, whatever its density there.
ghost use Rattle.std.specs.Prelude.{◌≡◌};
ghost use Rattle.places.specs.Thinning.{Logged, thinning_of, thinned_of};

use super::place::Place;
use elementary::exponential::exp;
use elementary::power::pow_with;
use numbers::pick;
use profile::curve::capped;

// The factors of densu in their order; where the mass is 0 (none), the temperature tz is densu's answer.
#[derive(Clone, Copy)]
pub struct Thinning {
    pub none: bool,
    pub under: bool,
    pub tz: f64,
    pub p: f64,
    pub e: f64,
    pub q: f64,
    pub k: f64,
}

// A gas of mass xm at a place.
pub fn thin(w: Place, xm: f64, alpha: f64) -> Thinning
    requires { Logged w }
    ensures { result ≡ thinning_of w xm alpha }
{
    let gamma = xm * w.base / w.k;
    let a = exp(-w.s * gamma * w.zg2);
    let c = capped(a);
    let e = pick(w.tt <= 0.0, 50.0, c);
    let p = pow_with(w.rt, 1.0 + alpha + gamma, w.lt);
    if !w.under {
        return Thinning {
            none: xm == 0.0,
            under: false,
            tz: w.tz,
            p: p,
            e: e,
            q: 1.0,
            k: 1.0,
        };
    }
    let b = capped(xm * w.glb * w.zgdif / w.rgas * w.yi);
    let expl = pick(w.tz <= 0.0, 50.0, b);
    let q = pow_with(w.r1, 1.0 + alpha, w.l1);
    let k = exp(-expl);
    Thinning {
        none: xm == 0.0,
        under: true,
        tz: w.tz,
        p: p,
        e: e,
        q: q,
        k: k,
    }
}

// A density dlb at the lower boundary, thinned out.
pub fn thinned(t: Thinning, dlb: f64) -> f64
    ensures { result ≡ thinned_of t dlb }
{
    if t.none {
        return t.tz;
    }
    if !t.under {
        return dlb * t.p * t.e;
    }
    dlb * t.p * t.e * t.q * t.k
}
