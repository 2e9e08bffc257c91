// The arithmetic of gts7 around its expansions and species: place, temperatures, nodes, totals.

#![tactic(auto)]

ghost use Rattle.std.specs.Prelude.{◌≡◌};
ghost use Rattle.species.specs.Places.{spine_at, place_at};
ghost use Rattle.gts7_arithmetic.specs.Gts7Arithmetic.{site_from, site_with, site_of, varied_of, mean_of, shape_of, anomalous_of, mass_of, units_of, row_of, gather_of};

use elementary::root::sqrt;
use elementary::trigonometry::{cos, sin};
use numbers::{DGTR, DR, pick};
use parameters::{Parameters, present};
use places::place::{Place, Spine};
use profile::gravity::glatf;
use profile::unchecked::Shape;
use species::{Blend, Mixture, temperature};
use tables::{pdl0, pdl1, pdm7, pt};

// What gts7 and gtd7 read besides the altitude: of the record gravity, the turbopause's factor and the flux factor; and the nine constants.
#[derive(Clone, Copy)]
pub struct Site {
    pub gsurf: f64,
    pub re: f64,
    pub zhf: f64,
    pub flux: f64,
    pub nine: Parameters,
}

// The temperature nodes tn1 and gradients tgn1, element 0 not set.
#[derive(Clone, Copy)]
pub struct Nodes {
    pub tn: [f64; 5],
    pub tgn: [f64; 2],
}

// The six species that blend with N2.
#[derive(Clone, Copy)]
pub struct SixSpecies {
    pub he: Mixture,
    pub o: Mixture,
    pub o2: Mixture,
    pub ar: Mixture,
    pub h: Mixture,
    pub n: Mixture,
}

// What gts7 answers: nine densities, the temperature at altitude, and what gtd7 and State keep of it.
#[derive(Clone, Copy)]
pub struct Gts7Output {
    pub d: [f64; 9],
    pub t1: f64,
    pub shape: Shape,
    pub base: Blend,
    pub six: SixSpecies,
}

// Gravity at the latitude, or at 45 degrees where switch 2 is off; zhf, from the sine of the latitude and the day's cosine with PT's phase; and
// 1 + sw[1] * PDL[0][23] * (f107a - 150).
pub fn site_from(c: Parameters, sw: [f64; 24], lat: f64, slat: f64, cos_pt: f64, f107a: f64) -> Site
    ensures { result ≡ site_from c sw lat slat cos_pt f107a }
{
    let k = pdl0();
    let l = pdl1();
    let xlat = pick(sw[2] == 0.0, 45.0, lat);
    let g = glatf(xlat);
    Site {
        gsurf: g.gsurf,
        re: g.re,
        zhf: l[24] * (1.0 + sw[5] * k[24] * slat * cos_pt),
        flux: 1.0 + sw[1] * k[23] * (f107a - 150.0),
        nine: c,
    }
}

// The same of a latitude and a day.
pub fn site_with(c: Parameters, sw: [f64; 24], lat: f64, doy: f64, f107a: f64) -> Site
    ensures { result ≡ site_with c sw lat doy f107a }
{
    let p = pt();
    let a = sin(DGTR * lat);
    let b = cos(DR * (doy - p[13]));
    site_from(c, sw, lat, a, b, f107a)
}

// The same with the present nine.
pub fn site_of(sw: [f64; 24], lat: f64, doy: f64, f107a: f64) -> Site
    ensures { result ≡ site_of sw lat doy f107a }
{
    let c = present();
    site_with(c, sw, lat, doy, f107a)
}

// A number for each set that the nodes of the lower thermosphere read: their first coefficients, or the answers.
#[derive(Clone, Copy)]
pub struct ThermoSets {
    pub ptl0: f64,
    pub ptl1: f64,
    pub ptl2: f64,
    pub ptl3: f64,
    pub pma8: f64,
}

// The nodes below 300 km, from five expansions; k is the last denominator.
pub fn varied(m: [f64; 10], first: ThermoSets, k: f64, answer: ThermoSets) -> Nodes
    ensures { result ≡ varied_of m first k answer }
{
    let t4 = m[4] * first.ptl3 / answer.ptl3;
    Nodes {
        tn: [
            0.0,
            m[6] * first.ptl0 / answer.ptl0,
            m[2] * first.ptl1 / answer.ptl1,
            m[7] * first.ptl2 / answer.ptl2,
            t4,
        ],
        tgn: [0.0, m[8] * first.pma8 * answer.pma8 * t4 * t4 / k],
    }
}

// The nodes from 300 km on, from none.
pub fn mean(m: [f64; 10], first: ThermoSets, k: f64) -> Nodes
    ensures { result ≡ mean_of m first k }
{
    let t4 = m[4] * first.ptl3;
    Nodes {
        tn: [
            0.0,
            m[6] * first.ptl0,
            m[2] * first.ptl1,
            m[7] * first.ptl2,
            t4,
        ],
        tgn: [0.0, m[8] * first.pma8 * t4 * t4 / k],
    }
}

pub fn shape_of(x: Site, tinf: f64, tlb: f64, g: f64, n: Nodes) -> Shape
    ensures { result ≡ shape_of x tinf tlb g n }
{
    let a = n.tn;
    let b = n.tgn;
    Shape {
        rgas: x.nine.rgas,
        gsurf: x.gsurf,
        re: x.re,
        tinf: tinf,
        tlb: tlb,
        s: g / (tinf - tlb),
        tn: a,
        tgn: b,
    }
}

// The shape for anomalous oxygen, of one temperature.
pub fn anomalous(h: Shape) -> Shape
    ensures { result ≡ anomalous_of h }
{
    let m = pdm7();
    let l = pdl0();
    let tho = m[9] * l[6];
    let mut out = h;
    out.tinf = tho;
    out.tlb = tho;
    out
}

// d[5]: the mass of the seven species.
pub fn mass(he: f64, o: f64, n2: f64, o2: f64, ar: f64, h: f64, n: f64) -> f64
    ensures { result ≡ mass_of he o n2 o2 ar h n }
{
    1.66E-24 * (4.0 * he + 16.0 * o + 28.0 * n2 + 32.0 * o2 + 40.0 * ar + h + 14.0 * n)
}

// The nine densities, in m and kg where switch 0 is on.
pub fn units(
    sw0: f64,
    he: f64,
    o: f64,
    n2: f64,
    o2: f64,
    ar: f64,
    all: f64,
    h: f64,
    n: f64,
    oh: f64,
) -> [f64; 9]
    ensures { result ≡ units_of sw0 he o n2 o2 ar all h n oh }
{
    if !(sw0 != 0.0) {
        return [he, o, n2, o2, ar, all, h, n, oh];
    }
    [
        he * 1.0E6,
        o * 1.0E6,
        n2 * 1.0E6,
        o2 * 1.0E6,
        ar * 1.0E6,
        all * 1.0E6 / 1000.0,
        h * 1.0E6,
        n * 1.0E6,
        oh * 1.0E6,
    ]
}

// The row of eleven: the densities in the units asked for, and the temperatures.
pub fn row_from(sw0: f64, tinf: f64, n2: f64, y: SixSpecies, oh: f64, t1: f64) -> [f64; 11]
    ensures { result ≡ row_of sw0 tinf n2 y oh t1 }
{
    let all = mass(
        y.he.dens, y.o.dens, n2, y.o2.dens, y.ar.dens, y.h.dens, y.n.dens,
    );
    let d = units(
        sw0, y.he.dens, y.o.dens, n2, y.o2.dens, y.ar.dens, all, y.h.dens, y.n.dens, oh,
    );
    [
        d[0], d[1], d[2], d[3], d[4], d[5], d[6], d[7], d[8], tinf, t1,
    ]
}

// Totals, units and the temperature at altitude; s is the spine of h, and p its place at z.
pub fn gather(
    sw0: f64,
    h: Shape,
    s: Spine,
    z: f64,
    p: Place,
    x: Blend,
    y: SixSpecies,
    oh: f64,
) -> Gts7Output
    requires { (s ≡ spine_at h) × (p ≡ place_at h z) }
    ensures { result ≡ gather_of sw0 h z x y oh }
{
    let all = mass(
        y.he.dens, y.o.dens, x.dens, y.o2.dens, y.ar.dens, y.h.dens, y.n.dens,
    );
    let d = units(
        sw0, y.he.dens, y.o.dens, x.dens, y.o2.dens, y.ar.dens, all, y.h.dens, y.n.dens, oh,
    );
    let r = sqrt(z * z);
    let t = temperature(h, s, z, p, r);
    Gts7Output {
        d: d,
        t1: t,
        shape: h,
        base: x,
        six: y,
    }
}
