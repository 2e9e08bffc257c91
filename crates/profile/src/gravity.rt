// Gravity by latitude, geopotential heights, scale height.
ghost use Rattle.std.specs.Prelude.{◌≡◌};
ghost use Rattle.profile.specs.Gravity.{glatf_of, zeta_of, scalh_of};

use elementary::power::pow;
use elementary::trigonometry::cos;
use numbers::DGTR;

// Gravity at the surface, and the effective radius of the earth.
#[derive(Clone, Copy)]
pub struct Gravity {
    pub gsurf: f64,
    pub re: f64,
}

// Gravity at a latitude in degrees.
pub fn glatf(lat: f64) -> Gravity
    ensures { result ≡ glatf_of lat }
{
    let c2 = cos(2.0 * DGTR * lat);
    let gsurf = 980.616 * (1.0 - 0.0026373 * c2);
    Gravity {
        gsurf: gsurf,
        re: 2.0 * gsurf / (3.085462E-6 + 2.27E-9 * c2) * 1.0E-5,
    }
}

// The difference in geopotential height from zl to zz.
pub fn zeta(re: f64, zz: f64, zl: f64) -> f64
    ensures { result ≡ zeta_of re zz zl }
{
    (zz - zl) * (re + zl) / (re + zz)
}

// The scale height of a gas of mass xm.
pub fn scalh(rgas: f64, gsurf: f64, re: f64, alt: f64, xm: f64, temp: f64) -> f64
    ensures { result ≡ scalh_of rgas gsurf re alt xm temp }
{
    let q = pow(1.0 + alt / re, 2.0);
    let g = gsurf / q;
    rgas * temp / (g * xm)
}
