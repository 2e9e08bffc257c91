// Chemistry and dissociation corrections, the blend of two densities at the turbopause, and the transition to full mixing.

#![tactic(auto)]

ghost use Rattle.std.specs.Prelude.{◌≡◌};
ghost use Rattle.mixing.specs.Mixing.{ccor_of, ccor2_of, blend_of, dnet_of, dmc_of};

use elementary::exponential::exp;
use elementary::logarithm::log;
use elementary::power::pow;
use numbers::pick;

// Chemistry and dissociation correction.
pub fn ccor(alt: f64, r: f64, h1: f64, zh: f64) -> f64
    ensures { result ≡ ccor_of alt r h1 zh }
{
    let e = (alt - zh) / h1;
    if e > 70.0 {
        return exp(0.0);
    }
    if e < -70.0 {
        return exp(r);
    }
    let ex = exp(e);
    exp(r / (1.0 + ex))
}

// The same with two scale lengths.
pub fn ccor2(alt: f64, r: f64, h1: f64, zh: f64, h2: f64) -> f64
    ensures { result ≡ ccor2_of alt r h1 zh h2 }
{
    let e1 = (alt - zh) / h1;
    let e2 = (alt - zh) / h2;
    if (e1 > 70.0) | (e2 > 70.0) {
        return exp(0.0);
    }
    if (e1 < -70.0) & (e2 < -70.0) {
        return exp(r);
    }
    let ex1 = exp(e1);
    let ex2 = exp(e2);
    exp(r / (1.0 + 0.5 * (ex1 + ex2)))
}

// The end of dnet: the logarithm of the ratio decides.
fn blend(dd: f64, dm: f64, a: f64) -> f64
    ensures { result ≡ blend_of dd dm a }
{
    let ylog = a * log(dm / dd);
    if ylog < -10.0 {
        return dd;
    }
    if ylog > 10.0 {
        return dm;
    }
    dd * pow(1.0 + exp(ylog), 1.0 / a)
}

// Density at the turbopause from the diffusive dd and the mixed dm.
pub fn dnet(dd: f64, dm: f64, zhm: f64, xmm: f64, xm: f64) -> f64
    ensures { result ≡ dnet_of dd dm zhm xmm xm }
{
    let a = zhm / (xmm - xm);
    if (dm > 0.0) & (dd > 0.0) {
        return blend(dd, dm, a);
    }
    let dd1 = pick((dd == 0.0) & (dm == 0.0), 1.0, dd);
    if dm == 0.0 {
        return dd1;
    }
    if dd1 == 0.0 {
        return dm;
    }
    blend(dd1, dm, a)
}

// dmc: the linear transition to full mixing.
pub fn dmc(alt: f64) -> f64
    ensures { result ≡ dmc_of alt }
{
    pick(alt > 62.5, 1.0 - (72.5 - alt) / (72.5 - 62.5), 0.0)
}
