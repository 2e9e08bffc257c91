// gtd7 and the one-altitude call.

#![tactic(auto)]

ghost use Rattle.std.specs.Prelude.{◌≡◌, length, true, false, cond};
ghost use Rattle.std.specs.Float.Ieee.{lt, le, eq};
ghost use Rattle.numbers.specs.Arithmetic.{◌‼◌};
ghost use Rattle.numbers.specs.Literals.{0·0, 72·5};
ghost use Rattle.needed_sets.specs.NeededSets.{need_at};
ghost use Rattle.expansion_values.specs.ExpansionValues.{record_values_of};
ghost use Rattle.gts7_arithmetic.specs.Gts7Arithmetic.{HasMass, site_from};
ghost use Rattle.plan.specs.Plan.{told, answer_to};
ghost use Rattle.stages.specs.Stages.{gts7_plan};
ghost use Rattle.atmosphere.specs.Atmosphere.{eleven_from, eleven_with, eleven_of, answer_of, row_after};

use acceptance::record_answer;
use expansion_values::{RecordValues, record_values};
use footing::{footing_of, row_below, unknown};
use gts7_arithmetic::{Site, site_from};
use lower_atmosphere::above;
use mixing_limits::{mixed_at, some_mixed};
use needed_sets::need_at;
use numbers::{pick, put_row};
use parameters::{Parameters, present};
use plan::ExpansionValues;
use refusals::{Reason, Refusal};
use setting::Input;
use thermosphere::gts7_stage;
use unmixed::unmixed_row;

// A row, and N2's mixed density in gts7, which no row holds.
#[derive(Clone, Copy)]
pub struct RowAbove {
    pub row: [f64; 11],
    pub dm28: f64,
}

// The eleven numbers at or above 72.5 km: gts7's, by a shorter way where nothing is mixed.
pub fn row_above(sw: [f64; 24], x: Site, l: ExpansionValues, alt: f64) -> RowAbove
    requires { le 72·5 alt ≡ true }
    ensures { (result.row ≡ eleven_from sw x l alt) × (result.dm28 ≡ (told (answer_to l) (gts7_plan sw x (cond (lt 72·5 alt) alt 72·5))).base.dm) }
{
    let altt = pick(alt > 72.5, alt, 72.5);
    let c = x.nine;
    let m = mixed_at(c, sw[15], altt);
    if !some_mixed(m) {
        let row = unmixed_row(sw, x, m, altt, l);
        return RowAbove {
            row: row,
            dm28: 0.0,
        };
    }
    let u = gts7_stage(sw, x, altt, l);
    let n = u.base;
    let b = above(u);
    let row = b.row;
    RowAbove {
        row: row,
        dm28: n.dm,
    }
}

// The main effect of switch 0. Read in a function of its own, it costs its caller no second copy of the 24.
pub fn units_switch(sw: [f64; 24]) -> f64
    ensures { result ≡ sw ‼ 0 }
{
    sw[0]
}

// The eleven numbers below 72.5 km.
pub fn row_lower(sw: [f64; 24], x: Site, l: ExpansionValues, alt: f64) -> [f64; 11]
    requires { HasMass x × (le 72·5 alt ≡ false) }
    ensures { result ≡ eleven_from sw x l alt }
{
    let sw0 = units_switch(sw);
    let q = unknown();
    let f = footing_of(sw, x, l, alt < 32.5, q);
    row_below(sw0, f, alt)
}

// What the row of a record reads of it under a switch row.
pub fn values_at(w: [i32; 24], n: Input) -> RecordValues
    ensures { result ≡ record_values_of w n (need_at n.alt) }
{
    let a = need_at(n.alt);
    let mut season = [0.0; 156];
    record_values(w, n, a, &mut season)
}

// Whether an altitude takes the way from 72.5 km up.
pub fn takes_upper_way(alt: f64) -> bool
    ensures { result ≡ le 72·5 alt }
{
    alt >= 72.5
}

// The row of a record out of that, with nine constants, at or above 72.5 km. row_of and row_with choose between this and the other way themselves: a
// function that chose for both would hold copies of what either way reads, under either.
pub fn put_row_above(c: Parameters, n: Input, v: RecordValues, out: &mut [f64])
    requires { (length out.old ≡ 11) × (le 72·5 n.alt ≡ true) }
    ensures { out.new ≡ eleven_from v.sw (site_from c v.sw n.g_lat v.slat v.cos_pt n.f107a) v.values n.alt }
{
    let sw = v.sw;
    let x = site_from(c, sw, n.g_lat, v.slat, v.cos_pt, n.f107a);
    let l = v.values;
    let r = row_above(sw, x, l, n.alt);
    let row = r.row;
    put_row(out, row);
}

// The same below 72.5 km.
pub fn put_row_lower(c: Parameters, n: Input, v: RecordValues, out: &mut [f64])
    requires { (length out.old ≡ 11) × (eq c.xmm 0·0 ≡ false) × (le 72·5 n.alt ≡ false) }
    ensures { out.new ≡ eleven_from v.sw (site_from c v.sw n.g_lat v.slat v.cos_pt n.f107a) v.values n.alt }
{
    let sw = v.sw;
    let x = site_from(c, sw, n.g_lat, v.slat, v.cos_pt, n.f107a);
    let l = v.values;
    let lower = row_lower(sw, x, l, n.alt);
    put_row(out, lower);
}

// The row of a record under a switch row, with nine constants.
pub fn row_with(c: Parameters, w: [i32; 24], n: Input, out: &mut [f64])
    requires { (length out.old ≡ 11) × (eq c.xmm 0·0 ≡ false) }
    ensures { out.new ≡ eleven_with c w n }
{
    let v = values_at(w, n);
    if takes_upper_way(n.alt) {
        put_row_above(c, n, v, out);
        return;
    }
    put_row_lower(c, n, v, out);
}

// The same with the present nine.
pub fn row_of(w: [i32; 24], n: Input, out: &mut [f64])
    requires { length out.old ≡ 11 }
    ensures { out.new ≡ eleven_of w n }
{
    let v = values_at(w, n);
    let c = present();
    if takes_upper_way(n.alt) {
        put_row_above(c, n, v, out);
        return;
    }
    put_row_lower(c, n, v, out);
}

// The answer to a record and a row of the length len.
pub fn answer(w: [i32; 24], n: Input, len: usize) -> Result<(), Refusal>
    ensures { result ≡ answer_of w n len }
{
    if len != 11 {
        return Err(Reason::WrongLength.at(11));
    }
    record_answer(w, n)
}

// The one-altitude call: refused, the row as it was; accepted, the row of eleven.
pub fn gtd7(w: [i32; 24], n: Input, out: &mut [f64]) -> Result<(), Refusal>
    ensures { (result ≡ answer_of w n (length out.old)) × (out.new ≡ row_after w n out.old) }
{
    answer(w, n, out.len())?;
    row_of(w, n, out);
    Ok(())
}
