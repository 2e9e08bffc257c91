// gtd7 below 72.5 km: its nodes from the expansions, its densities and temperature.

#![tactic(auto)]

ghost use Rattle.std.specs.Prelude.{◌≡◌};
ghost use Rattle.plan.specs.Plan.{told, answer_to};
ghost use Rattle.lower_atmosphere.specs.LowerAtmosphere.{mesosphere_of, troposphere_of, unset_nodes, dm28m_of, lower_n2, full_of, kilograms_of, lower_temperature, gtd7_below, gtd7_above, meso_nodes_plan, meso_plan, lower_plan};

use elementary::power::pow;
use gts7_arithmetic::{Gts7Output, Site, mass};
use mixing::dmc;
use numbers::pick;
use plan::ExpansionValues;
use profile::unchecked::{Profile, Shape, densm54, returned_number, temperature_in};
use tables::{pavgm, pdm0, pdm3, pdm4, pma0, pma1, pma2, pma3, pma4, pma5, pma6, pma7, pma9};

// meso_tn2 and meso_tgn2.
#[derive(Clone, Copy)]
pub struct Meso {
    pub tn2: [f64; 4],
    pub tgn2: [f64; 2],
}

// The nodes of the lower atmosphere.
#[derive(Clone, Copy)]
pub struct Nodes {
    pub tn2: [f64; 4],
    pub tgn2: [f64; 2],
    pub tn3: [f64; 5],
    pub tgn3: [f64; 2],
}

// What gtd7 answers: d[0] to d[8], t[0], t[1], and below 72.5 km State's dd.
#[derive(Clone, Copy)]
pub struct Gtd7Output {
    pub row: [f64; 11],
    pub dd: f64,
}

// A number for each set that the nodes of the mesosphere read: their first coefficients, or the answers.
#[derive(Clone, Copy)]
pub struct MesoSets {
    pub pma0: f64,
    pub pma1: f64,
    pub pma2: f64,
    pub pma9: f64,
}

// The same for the nodes of the troposphere.
#[derive(Clone, Copy)]
pub struct TropoSets {
    pub pma3: f64,
    pub pma4: f64,
    pub pma5: f64,
    pub pma6: f64,
    pub pma7: f64,
}

// The nodes from 72.5 to 32.5 km: q is PAVGM, k the last denominator.
pub fn mesosphere(h: Shape, q: [f64; 10], first: MesoSets, k: f64, answer: MesoSets) -> Meso
    ensures { result ≡ mesosphere_of h q first k answer }
{
    let t3 = first.pma2 * q[2] / answer.pma2;
    Meso {
        tn2: [
            h.tn[4],
            first.pma0 * q[0] / answer.pma0,
            first.pma1 * q[1] / answer.pma1,
            t3,
        ],
        tgn2: [h.tgn[1], q[8] * first.pma9 * answer.pma9 * t3 * t3 / k],
    }
}

// The nodes from 32.5 km down.
pub fn troposphere(m: Meso, q: [f64; 10], first: TropoSets, k: f64, answer: TropoSets) -> Nodes
    ensures { result ≡ troposphere_of m q first k answer }
{
    let x = m.tn2;
    let y = m.tgn2;
    let t4 = first.pma6 * q[6] / answer.pma6;
    Nodes {
        tn2: x,
        tgn2: y,
        tn3: [
            x[3],
            first.pma3 * q[3] / answer.pma3,
            first.pma4 * q[4] / answer.pma4,
            first.pma5 * q[5] / answer.pma5,
            t4,
        ],
        tgn3: [y[1], first.pma7 * q[7] * answer.pma7 * t4 * t4 / k],
    }
}

// At or above 32.5 km all but the first of them stay 0.
pub fn unset(m: Meso) -> Nodes
    ensures { result ≡ unset_nodes m }
{
    let x = m.tn2;
    let y = m.tgn2;
    Nodes {
        tn2: x,
        tgn2: y,
        tn3: [x[3], 0.0, 0.0, 0.0, 0.0],
        tgn3: [0.0, 0.0],
    }
}

// The nodes of the mesosphere, over the shape of the profile above.
pub fn meso_nodes(sw: [f64; 24], h: Shape, l: ExpansionValues) -> Meso
    ensures { result ≡ told (answer_to l) (meso_nodes_plan sw h) }
{
    let q = pavgm();
    let p0 = pma0();
    let p1 = pma1();
    let p2 = pma2();
    let p9 = pma9();
    let k = pow(p2[0] * q[2], 2.0);
    let first = MesoSets {
        pma0: p0[0],
        pma1: p1[0],
        pma2: p2[0],
        pma9: p9[0],
    };
    let answer = MesoSets {
        pma0: 1.0 - sw[20] * l.pma0,
        pma1: 1.0 - sw[20] * l.pma1,
        pma2: 1.0 - sw[20] * sw[22] * l.pma2,
        pma9: 1.0 + sw[20] * sw[22] * l.pma9,
    };
    mesosphere(h, q, first, k, answer)
}

pub fn meso_stage(sw: [f64; 24], u: Gts7Output, l: ExpansionValues) -> Meso
    ensures { result ≡ told (answer_to l) (meso_plan sw u) }
{
    let h = u.shape;
    meso_nodes(sw, h, l)
}

pub fn lower_stage(sw: [f64; 24], alt: f64, m: Meso, l: ExpansionValues) -> Nodes
    ensures { result ≡ told (answer_to l) (lower_plan sw alt m) }
{
    if !(alt < 32.5) {
        return unset(m);
    }
    let q = pavgm();
    let p3 = pma3();
    let p4 = pma4();
    let p5 = pma5();
    let p6 = pma6();
    let p7 = pma7();
    let k = pow(p6[0] * q[6], 2.0);
    let first = TropoSets {
        pma3: p3[0],
        pma4: p4[0],
        pma5: p5[0],
        pma6: p6[0],
        pma7: p7[0],
    };
    let answer = TropoSets {
        pma3: 1.0 - sw[22] * l.pma3,
        pma4: 1.0 - sw[22] * l.pma4,
        pma5: 1.0 - sw[22] * l.pma5,
        pma6: 1.0 - sw[22] * l.pma6,
        pma7: 1.0 + sw[22] * l.pma7,
    };
    troposphere(m, q, first, k, answer)
}

// dm28m: the mixed density of N2 in the units asked for.
pub fn dm28m(sw0: f64, dm28: f64) -> f64
    ensures { result ≡ dm28m_of sw0 dm28 }
{
    pick(sw0 != 0.0, dm28 * 1.0E6, dm28)
}

// densm for N2.
pub fn n2(x: Site, alt: f64, d: f64, w: Nodes) -> Profile
    ensures { result ≡ lower_n2 x alt d w }
{
    let c = x.nine;
    let tn3 = w.tn3;
    let tgn3 = w.tgn3;
    let tn2 = w.tn2;
    let tgn2 = w.tgn2;
    densm54(
        c.rgas,
        x.gsurf,
        x.re,
        alt,
        d,
        c.xmm,
        0.0,
        [32.5, 20.0, 15.0, 10.0, 0.0],
        tn3,
        tgn3,
        [72.5, 55.0, 45.0, 32.5],
        tn2,
        tgn2,
    )
}

// densm for the temperature.
pub fn lower_temperature(x: Site, alt: f64, tz: f64, w: Nodes) -> Profile
    ensures { result ≡ lower_temperature x alt tz w }
{
    let c = x.nine;
    let tn3 = w.tn3;
    let tgn3 = w.tgn3;
    let tn2 = w.tn2;
    let tgn2 = w.tgn2;
    densm54(
        c.rgas,
        x.gsurf,
        x.re,
        alt,
        1.0,
        0.0,
        tz,
        [32.5, 20.0, 15.0, 10.0, 0.0],
        tn3,
        tgn3,
        [72.5, 55.0, 45.0, 32.5],
        tn2,
        tgn2,
    )
}

// A species below 72.5 km: its share k of N2, carried over from its density x at 72.5 km.
pub fn full(d2: f64, k: f64, x: f64, dz28: f64, c: f64) -> f64
    ensures { result ≡ full_of d2 k x dz28 c }
{
    let dmr = x / (dz28 * k) - 1.0;
    d2 * k * (1.0 + dmr * c)
}

pub fn kilograms(sw0: f64, all: f64) -> f64
    ensures { result ≡ kilograms_of sw0 all }
{
    pick(sw0 != 0.0, all / 1000.0, all)
}

// gtd7's answer below 72.5 km.
pub fn below(sw0: f64, x: Site, alt: f64, u: Gts7Output, w: Nodes) -> Gtd7Output
    ensures { result ≡ gtd7_below sw0 x alt u w }
{
    let m0 = pdm0();
    let m3 = pdm3();
    let m4 = pdm4();
    let y = u.base;
    let h = u.shape;
    let c = dmc(alt);
    let d = dm28m(sw0, y.dm);
    let a = n2(x, alt, d, w);
    let n = returned_number(a);
    let d2 = n * (1.0 + (u.d[2] / d - 1.0) * c);
    let he = full(d2, m0[1], u.d[0], u.d[2], c);
    let o2 = full(d2, m3[1], u.d[3], u.d[2], c);
    let ar = full(d2, m4[1], u.d[4], u.d[2], c);
    let g = mass(he, 0.0, d2, o2, ar, 0.0, 0.0);
    let all = kilograms(sw0, g);
    let tz = temperature_in(a);
    let b = lower_temperature(x, alt, tz, w);
    let dd = returned_number(b);
    let t1 = temperature_in(b);
    Gtd7Output {
        row: [he, 0.0, d2, o2, ar, all, 0.0, 0.0, 0.0, h.tinf, t1],
        dd: dd,
    }
}

// gtd7's answer at or above 72.5 km: gts7's.
pub fn above(u: Gts7Output) -> Gtd7Output
    ensures { result ≡ gtd7_above u }
{
    let d = u.d;
    let h = u.shape;
    Gtd7Output {
        row: [
            d[0], d[1], d[2], d[3], d[4], d[5], d[6], d[7], d[8], h.tinf, u.t1,
        ],
        dd: 0.0,
    }
}
