// Each species of gts7 at a place, from its Root: its density there, and the mixed density that the Rust keeps in State.

#![tactic(auto)]

ghost use Rattle.std.specs.Prelude.{◌≡◌, true, false};
ghost use Rattle.std.specs.Float.Ieee.{lt};
ghost use Rattle.numbers.specs.Arithmetic.{◌‼◌};
ghost use Rattle.places.specs.Thinning.{Logged};
ghost use Rattle.species.specs.Places.{spine_at, place_at, Turbopause, Mixes};
ghost use Rattle.species.specs.Species.{nodes, density_of, temperature_of};
ghost use Rattle.species.specs.Rooted.{gas_of, mixing_of, turbopause_density_of, gas_root, n2_root_of, helium_root_of, oxygen_root_of, o2_root_of, argon_root_of, hydrogen_root_of, nitrogen_root_of, blended_of, blended_n2, blended_helium, blended_oxygen, blended_o2, blended_argon, blended_hydrogen, blended_nitrogen, n2_from, helium_from, oxygen_from, o2_mixed_from, o2_from, argon_from, hydrogen_from, nitrogen_from, anomalous_factor_of, anomalous_oxygen_from};

use elementary::exponential::exp;
use elementary::logarithm::log;
use mixing::{ccor, ccor2, dnet};
use numbers::same;
use places::place::{
    Place, Spine, place_alone, place_of, spine_of, temperature_of, temperature_over,
};
use places::thinning::{Thinning, thin, thinned};
use profile::gravity::scalh;
use profile::unchecked::Shape;
use tables::{pdl0, pdl1, pdm0, pdm1, pdm2, pdm3, pdm4, pdm5, pdm6, ptm};

// A species blended at the turbopause: its density, the mixed density at the turbopause, and the mixed density here.
#[derive(Clone, Copy)]
pub struct Blend {
    pub dens: f64,
    pub b: f64,
    pub dm: f64,
}

// A species: its density, and its mixed density, 0 where nothing is mixed.
#[derive(Clone, Copy)]
pub struct Mixture {
    pub dens: f64,
    pub dm: f64,
}

// What a species has whatever the altitude: its density db at the lower boundary, its mixed density b at the turbopause, and r, by which
// ccor or ccor2 corrects it.
#[derive(Clone, Copy)]
pub struct Root {
    pub db: f64,
    pub b: f64,
    pub r: f64,
}

// gts7's nodes.
pub fn zn1() -> [f64; 5]
    ensures { result ≡ nodes }
{
    let l = pdl1();
    [l[15], 110.0, 100.0, 90.0, 72.5]
}

// What a shape fixes for every altitude, over gts7's nodes.
pub fn spine_at(h: Shape) -> Spine
    ensures { result ≡ spine_at h }
{
    let m = ptm();
    let zn = zn1();
    spine_of(h, m[5], zn)
}

// What an altitude gives for every species, over gts7's nodes.
pub fn place_at(h: Shape, s: Spine, z: f64) -> Place
    requires { s ≡ spine_at h }
    ensures { result ≡ place_at h z }
{
    let m = ptm();
    let zn = zn1();
    place_of(h, s, z, m[5], zn)
}

// The same where no other altitude of the shape is read.
pub fn place_alone_at(h: Shape, z: f64) -> Place
    ensures { result ≡ place_at h z }
{
    let m = ptm();
    let zn = zn1();
    place_alone(h, z, m[5], zn)
}

// The temperature alone at or above za, and where z is NaN.
pub fn temperature_over_at(h: Shape, z: f64) -> f64
    requires { lt z (nodes ‼ 0) ≡ false }
    ensures { result ≡ (place_at h z).tz }
{
    let m = ptm();
    let zn = zn1();
    temperature_over(h, z, m[5], zn)
}

// The place of the turbopause zh where a species is mixed; elsewhere p, which nothing reads.
pub fn turbopause(h: Shape, s: Spine, on: bool, zh: f64, p: Place) -> Place
    requires { s ≡ spine_at h }
    ensures { Turbopause h on zh result }
{
    if on {
        return place_at(h, s, zh);
    }
    p
}

// What thins out every mixed density at p, where a species is mixed; elsewhere nothing reads it.
pub fn mixing_at(on: bool, p: Place, xmm: f64) -> Thinning
    requires { Logged p }
    ensures { result ≡ mixing_of on p xmm }
{
    if on {
        return thin(p, xmm, 0.0);
    }
    Thinning {
        none: true,
        under: false,
        tz: 0.0,
        p: 0.0,
        e: 0.0,
        q: 0.0,
        k: 0.0,
    }
}

// The same by what it is where a species is mixed.
pub fn mixing(on: bool, p: Place, xmm: f64) -> Thinning
    requires { Logged p }
    ensures { Mixes on p xmm result }
{
    mixing_at(on, p, xmm)
}

// A gas at a place, from its density dlb at the lower boundary.
pub fn gas(p: Place, dlb: f64, xm: f64, alpha: f64) -> f64
    requires { Logged p }
    ensures { result ≡ gas_of p dlb xm alpha }
{
    let t = thin(p, xm, alpha);
    thinned(t, dlb)
}

// densu over gts7's nodes: the density at z from the density dlb at the lower boundary.
pub fn density(h: Shape, z: f64, p: Place, dlb: f64, xm: f64, alpha: f64) -> f64
    requires { p ≡ place_at h z }
    ensures { result ≡ density_of h z dlb xm alpha }
{
    gas(p, dlb, xm, alpha)
}

// densu over gts7's nodes: the temperature at r. It is p's where r is z, the altitude of p, as the root of z * z is.
pub fn temperature(h: Shape, s: Spine, z: f64, p: Place, r: f64) -> f64
    requires { (s ≡ spine_at h) × (p ≡ place_at h z) }
    ensures { result ≡ temperature_of h r }
{
    if same(r, z) {
        return p.tz;
    }
    let m = ptm();
    let zn = zn1();
    temperature_of(h, s, r, m[5], zn)
}

// The same where no other altitude of the shape is read.
pub fn temperature_alone(h: Shape, z: f64, p: Place, r: f64) -> f64
    requires { p ≡ place_at h z }
    ensures { result ≡ (place_at h r).tz }
{
    if same(r, z) {
        return p.tz;
    }
    let w = place_alone_at(h, r);
    w.tz
}

// The mixed density at the turbopause w, where it is asked for; xm and alpha are those of the gas less those of mixed air.
pub fn turbopause_density(on: bool, w: Place, db: f64, xm: f64, alpha: f64) -> f64
    requires { on ≡ true → Logged w }
    ensures { result ≡ turbopause_density_of on w db xm alpha }
{
    if on {
        return gas(w, db, xm, alpha);
    }
    0.0
}

// The root of a species that ccor brings to its share of N2: num is N2's mixed density times that share.
pub fn root_of(on: bool, w: Place, db: f64, xm: f64, alpha: f64, num: f64) -> Root
    requires { on ≡ true → Logged w }
    ensures { result ≡ gas_root on w db xm alpha num }
{
    if on {
        let b = turbopause_density(true, w, db, xm, alpha);
        let r = log(num / b);
        return Root { db: db, b: b, r: r };
    }
    Root {
        db: db,
        b: 0.0,
        r: 0.0,
    }
}

// Each species' root at its turbopause w, from its density db at the lower boundary and N2's mixed density b28; xmm is the mass of mixed air.
pub fn n2_root(w: Place, db: f64, xmm: f64) -> Root
    requires { Logged w }
    ensures { result ≡ n2_root_of w db xmm }
{
    let b = gas(w, db, 28.0 - xmm, 0.0 - 1.0);
    Root {
        db: db,
        b: b,
        r: 0.0,
    }
}

pub fn helium_root(on: bool, w: Place, db: f64, b28: f64, xmm: f64) -> Root
    requires { on ≡ true → Logged w }
    ensures { result ≡ helium_root_of on w db b28 xmm }
{
    let m = pdm0();
    root_of(on, w, db, 4.0 - xmm, -0.38 - 1.0, b28 * m[1])
}

pub fn oxygen_root(on: bool, w: Place, db: f64, flux: f64, xmm: f64) -> Root
    requires { on ≡ true → Logged w }
    ensures { result ≡ oxygen_root_of on w db flux xmm }
{
    let m = pdm1();
    let l = pdl1();
    let b = turbopause_density(on, w, db, 16.0 - xmm, 0.0 - 1.0);
    Root {
        db: db,
        b: b,
        r: m[1] * l[16] * flux,
    }
}

pub fn o2_root(on: bool, w: Place, db: f64, b28: f64, xmm: f64) -> Root
    requires { on ≡ true → Logged w }
    ensures { result ≡ o2_root_of on w db b28 xmm }
{
    let m = pdm3();
    root_of(on, w, db, 32.0 - xmm, 0.0 - 1.0, b28 * m[1])
}

pub fn argon_root(on: bool, w: Place, db: f64, b28: f64, xmm: f64) -> Root
    requires { on ≡ true → Logged w }
    ensures { result ≡ argon_root_of on w db b28 xmm }
{
    let m = pdm4();
    root_of(on, w, db, 40.0 - xmm, 0.17 - 1.0, b28 * m[1])
}

// The root of the square of a coefficient is the coefficient.
pub fn hydrogen_root(on: bool, w: Place, db: f64, b28: f64, xmm: f64) -> Root
    requires { on ≡ true → Logged w }
    ensures { result ≡ hydrogen_root_of on w db b28 xmm }
{
    let m = pdm5();
    let l = pdl1();
    root_of(on, w, db, 1.0 - xmm, -0.38 - 1.0, b28 * m[1] * l[17])
}

pub fn nitrogen_root(on: bool, w: Place, db: f64, b28: f64, xmm: f64) -> Root
    requires { on ≡ true → Logged w }
    ensures { result ≡ nitrogen_root_of on w db b28 xmm }
{
    let m = pdm6();
    let l = pdl0();
    root_of(on, w, db, 14.0 - xmm, 0.0 - 1.0, b28 * m[1] * l[2])
}

// A species blended at its turbopause: dd is its density where nothing is mixed, b the mixed one at the turbopause, which t thins out.
pub fn blended(dd: f64, t: Thinning, b: f64, xm: f64, zhm: f64, xmm: f64) -> Mixture
    ensures { result ≡ blended_of dd t b xm zhm xmm }
{
    let dm = thinned(t, b);
    let d = dnet(dd, dm, zhm, xmm, xm);
    Mixture { dens: d, dm: dm }
}

// Each species in two functions: its density at the place first, then what mixing makes of it. The second is handed that number and no place, which
// would be copied on the way.

// N2; on says whether it is mixed, and of the other species likewise.
pub fn blended_n2(on: bool, dd: f64, t: Thinning, q: Root, xmm: f64) -> Mixture
    ensures { result ≡ blended_n2 on dd t q xmm }
{
    if !on {
        return Mixture { dens: dd, dm: 0.0 };
    }
    let m = pdm2();
    let l = pdl1();
    blended(dd, t, q.b, 28.0, m[3] * l[5], xmm)
}

pub fn n2(on: bool, p: Place, t: Thinning, q: Root, xmm: f64) -> Mixture
    requires { Logged p }
    ensures { result ≡ n2_from on p t q xmm }
{
    let dd = gas(p, q.db, 28.0, 0.0);
    blended_n2(on, dd, t, q, xmm)
}

// Helium.
pub fn blended_helium(
    on: bool,
    z: f64,
    dd: f64,
    t: Thinning,
    q: Root,
    zhm: f64,
    xmm: f64,
) -> Mixture
    ensures { result ≡ blended_helium on z dd t q zhm xmm }
{
    if !on {
        return Mixture { dens: dd, dm: 0.0 };
    }
    let m = pdm0();
    let l = pdl1();
    let x = blended(dd, t, q.b, 4.0, zhm, xmm);
    let c = ccor(z, q.r, m[5] * l[1], m[4] * l[0]);
    Mixture {
        dens: x.dens * c,
        dm: x.dm,
    }
}

pub fn helium(on: bool, z: f64, p: Place, t: Thinning, q: Root, zhm: f64, xmm: f64) -> Mixture
    requires { Logged p }
    ensures { result ≡ helium_from on z p t q zhm xmm }
{
    let dd = gas(p, q.db, 4.0, -0.38);
    blended_helium(on, z, dd, t, q, zhm, xmm)
}

// Atomic oxygen.
pub fn blended_oxygen(
    on: bool,
    z: f64,
    dd: f64,
    t: Thinning,
    q: Root,
    zhm: f64,
    xmm: f64,
) -> Mixture
    ensures { result ≡ blended_oxygen on z dd t q zhm xmm }
{
    if !on {
        return Mixture { dens: dd, dm: 0.0 };
    }
    let m = pdm1();
    let l = pdl1();
    let x = blended(dd, t, q.b, 16.0, zhm, xmm);
    let c = ccor2(z, q.r, m[5] * l[3], m[4] * l[2], m[5] * l[4]);
    let e = ccor(z, m[3] * l[14], m[7] * l[13], m[6] * l[12]);
    Mixture {
        dens: x.dens * c * e,
        dm: x.dm,
    }
}

pub fn oxygen(on: bool, z: f64, p: Place, t: Thinning, q: Root, zhm: f64, xmm: f64) -> Mixture
    requires { Logged p }
    ensures { result ≡ oxygen_from on z p t q zhm xmm }
{
    let dd = gas(p, q.db, 16.0, 0.0);
    blended_oxygen(on, z, dd, t, q, zhm, xmm)
}

// Molecular oxygen without its second correction.
pub fn blended_o2(on: bool, z: f64, dd: f64, t: Thinning, q: Root, zhm: f64, xmm: f64) -> Mixture
    ensures { result ≡ blended_o2 on z dd t q zhm xmm }
{
    if !on {
        return Mixture { dens: dd, dm: 0.0 };
    }
    let m = pdm3();
    let l = pdl1();
    let x = blended(dd, t, q.b, 32.0, zhm, xmm);
    let c = ccor(z, q.r, m[5] * l[7], m[4] * l[6]);
    Mixture {
        dens: x.dens * c,
        dm: x.dm,
    }
}

pub fn o2_mixed(on: bool, z: f64, p: Place, t: Thinning, q: Root, zhm: f64, xmm: f64) -> Mixture
    requires { Logged p }
    ensures { result ≡ o2_mixed_from on z p t q zhm xmm }
{
    let dd = gas(p, q.db, 32.0, 0.0);
    blended_o2(on, z, dd, t, q, zhm, xmm)
}

// Argon.
pub fn blended_argon(on: bool, z: f64, dd: f64, t: Thinning, q: Root, zhm: f64, xmm: f64) -> Mixture
    ensures { result ≡ blended_argon on z dd t q zhm xmm }
{
    if !on {
        return Mixture { dens: dd, dm: 0.0 };
    }
    let m = pdm4();
    let l = pdl1();
    let x = blended(dd, t, q.b, 40.0, zhm, xmm);
    let c = ccor(z, q.r, m[5] * l[9], m[4] * l[8]);
    Mixture {
        dens: x.dens * c,
        dm: x.dm,
    }
}

pub fn argon(on: bool, z: f64, p: Place, t: Thinning, q: Root, zhm: f64, xmm: f64) -> Mixture
    requires { Logged p }
    ensures { result ≡ argon_from on z p t q zhm xmm }
{
    let dd = gas(p, q.db, 40.0, 0.17);
    blended_argon(on, z, dd, t, q, zhm, xmm)
}

// Hydrogen.
pub fn blended_hydrogen(
    on: bool,
    z: f64,
    dd: f64,
    t: Thinning,
    q: Root,
    zhm: f64,
    xmm: f64,
) -> Mixture
    ensures { result ≡ blended_hydrogen on z dd t q zhm xmm }
{
    if !on {
        return Mixture { dens: dd, dm: 0.0 };
    }
    let m = pdm5();
    let l = pdl1();
    let x = blended(dd, t, q.b, 1.0, zhm, xmm);
    let c = ccor(z, q.r, m[5] * l[11], m[4] * l[10]);
    let e = ccor(z, m[3] * l[20], m[7] * l[19], m[6] * l[18]);
    Mixture {
        dens: x.dens * c * e,
        dm: x.dm,
    }
}

pub fn hydrogen(on: bool, z: f64, p: Place, t: Thinning, q: Root, zhm: f64, xmm: f64) -> Mixture
    requires { Logged p }
    ensures { result ≡ hydrogen_from on z p t q zhm xmm }
{
    let dd = gas(p, q.db, 1.0, -0.38);
    blended_hydrogen(on, z, dd, t, q, zhm, xmm)
}

// Atomic nitrogen.
pub fn blended_nitrogen(
    on: bool,
    z: f64,
    dd: f64,
    t: Thinning,
    q: Root,
    zhm: f64,
    xmm: f64,
) -> Mixture
    ensures { result ≡ blended_nitrogen on z dd t q zhm xmm }
{
    if !on {
        return Mixture { dens: dd, dm: 0.0 };
    }
    let m = pdm6();
    let l = pdl0();
    let x = blended(dd, t, q.b, 14.0, zhm, xmm);
    let c = ccor(z, q.r, m[5] * l[1], m[4] * l[0]);
    let e = ccor(z, m[3] * l[5], m[7] * l[4], m[6] * l[3]);
    Mixture {
        dens: x.dens * c * e,
        dm: x.dm,
    }
}

pub fn nitrogen(on: bool, z: f64, p: Place, t: Thinning, q: Root, zhm: f64, xmm: f64) -> Mixture
    requires { Logged p }
    ensures { result ≡ nitrogen_from on z p t q zhm xmm }
{
    let dd = gas(p, q.db, 14.0, 0.0);
    blended_nitrogen(on, z, dd, t, q, zhm, xmm)
}

// Molecular oxygen; the second correction, by rate, asks switch 15 alone.
pub fn o2(
    sw15: f64,
    on: bool,
    z: f64,
    p: Place,
    t: Thinning,
    q: Root,
    rate: f64,
    zhm: f64,
    xmm: f64,
) -> Mixture
    requires { Logged p }
    ensures { result ≡ o2_from sw15 on z p t q rate zhm xmm }
{
    let x = o2_mixed(on, z, p, t, q, zhm, xmm);
    if !(sw15 != 0.0) {
        return x;
    }
    let m = pdm3();
    let k = pdl0();
    let l = pdl1();
    let c = ccor2(z, rate, m[7] * l[22], m[6] * l[21], m[7] * k[22]);
    Mixture {
        dens: x.dens * c,
        dm: x.dm,
    }
}

// The factor of anomalous oxygen's exponent, whatever the altitude; tho is its temperature.
pub fn anomalous_factor(rgas: f64, gsurf: f64, re: f64, zsht: f64, zmho: f64, tho: f64) -> f64
    ensures { result ≡ anomalous_factor_of rgas gsurf re zsht zmho tho }
{
    let zsho = scalh(rgas, gsurf, re, zmho, 16.0, tho);
    -zsht / zsho
}

// Anomalous oxygen at a place of its own shape, from its density db at the lower boundary and that factor.
pub fn anomalous_oxygen(z: f64, p: Place, db: f64, factor: f64, zsht: f64, zmho: f64) -> f64
    requires { Logged p }
    ensures { result ≡ anomalous_oxygen_from z p db factor zsht zmho }
{
    let dd = gas(p, db, 16.0, 0.0);
    let a = exp(-(z - zmho) / zsht);
    let b = exp(factor * (a - 1.0));
    dd * b
}
