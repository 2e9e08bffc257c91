// The cosines with a phase that the expansions read.
ghost use Rattle.std.specs.Prelude.{◌≡◌};
ghost use Rattle.elementary.specs.Trig.{cos_of};
ghost use Rattle.views.specs.Phases.{annual_cos_of, semiannual_cos_of, local_cos_of, ut_cos_of, ut_long_cos_of, long_phase_cos_of};

use elementary::trigonometry::cos;
use numbers::{DGTR, DR, HR, SR, same};

// cd32 and cd14: the cosine over the year with phase x.
pub fn annual_cos(doy: f64, x: f64) -> f64
    ensures { result ≡ annual_cos_of doy x }
{
    cos(DR * (doy - x))
}

// cd18 and cd39: the cosine over half the year with phase x.
pub fn semiannual_cos(doy: f64, x: f64) -> f64
    ensures { result ≡ semiannual_cos_of doy x }
{
    cos(2.0 * DR * (doy - x))
}

// The cosine of local time with phase x.
pub fn local_cos(lst: f64, x: f64) -> f64
    ensures { result ≡ local_cos_of lst x }
{
    cos(HR * (lst - x))
}

// The cosine of UT with phase x.
pub fn ut_cos(sec: f64, x: f64) -> f64
    ensures { result ≡ ut_cos_of sec x }
{
    cos(SR * (sec - x))
}

// The cosine of UT with phase x and twice the longitude.
pub fn ut_long_cos(sec: f64, x: f64, glong: f64) -> f64
    ensures { result ≡ ut_long_cos_of sec x glong }
{
    cos(SR * (sec - x) + 2.0 * DGTR * glong)
}

// The cosine of longitude with phase x.
pub fn long_phase_cos(glong: f64, x: f64) -> f64
    ensures { result ≡ long_phase_cos_of glong x }
{
    cos(DGTR * (glong - x))
}

// The cosine of x, where c is that of y.
pub fn cos_again(x: f64, y: f64, c: f64) -> f64
    requires { c ≡ cos_of y }
    ensures { result ≡ cos_of x }
{
    if same(x, y) {
        return c;
    }
    cos(x)
}
