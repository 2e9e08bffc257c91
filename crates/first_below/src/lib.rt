// The first altitude of a column whose d[5] is below a level: document 02's W-214. What an altitude reads is stored when the walk first reaches it.

#![tactic(auto)]

ghost use Rattle.std.specs.Prelude.{◌≡◌, length, Ok};
ghost use Rattle.refusals.specs.Refusals.{Accepted};
ghost use Rattle.altitudes.specs.Altitudes.{altitudes_from};
ghost use Rattle.column.specs.Column.{column_rows};
ghost use Rattle.first_below_list.specs.FirstBelowList.{first_row};
ghost use Rattle.first_below.specs.FirstBelow.{first_below_checked, first_of, first_answer, first_after};
ghost use Rattle.first_below.specs.Walk.{parts_grown, numbers_grown};

use altitudes::column_answer;
use expansion_values::record_values;
use first_below_list::taken;
use gts7_arithmetic::site_of;
use refusals::{Reason, Refusal};
use setting::Input;
use setting::switches::tselec;
use stored::{need_of, row_on, store_in};
use stored_parts::{Parts, either_parts, no_parts, parts_at, reached, serves};
use views::day;

// 4 for a row whose length len is not 11; then the column's refusals, its buffer taken to be long enough.
pub fn checked(w: [i32; 24], n: Input, alts: &[f64], len: usize) -> Result<(), Refusal>
    ensures { result ≡ first_below_checked w n alts.now len }
{
    if len != 11 {
        return Err(Reason::WrongLength.at(11));
    }
    column_answer(w, n, alts, 11 * alts.len())
}

// The part that an altitude reads, worked out and stored beside the parts h that are there. The parts that are then there come back.
pub fn grown(w: [i32; 24], n: Input, h: Parts, z: f64, numbers: &mut [f64]) -> Parts
    requires { length numbers.old ≡ 234 }
    ensures { (result ≡ parts_grown h z) × (numbers.new ≡ numbers_grown w n h z numbers.old) }
{
    let q = parts_at(z);
    let p = reached(q, h);
    let a = need_of(p);
    let mut season = [0.0; 156];
    let v = record_values(w, n, a, &mut season);
    let sw = v.sw;
    let doy = day(n);
    let x = site_of(sw, n.g_lat, doy, n.f107a);
    let l = v.values;
    store_in(p, sw, x, l, numbers);
    either_parts(h, p)
}

// The first of accepted altitudes: a walk that ends at the hit.
pub fn first(w: [i32; 24], n: Input, alts: &[f64], level: f64, row: &mut [f64]) -> Option<usize>
    requires { (length row.old ≡ 11) × (altitudes_from 0 alts.now ≡ Accepted) }
    ensures { (Ok result ≡ first_of w n alts.now level) × (row.new ≡ first_row (Ok result) (column_rows w n alts.now) row.old) }
{
    let f = tselec(w);
    let sw0 = f.sw[0];
    let sw15 = f.sw[15];
    let mut numbers = [0.0; 234];
    let mut one = [0.0; 11];
    let mut there = no_parts();
    for (k, z) in alts.iter().enumerate() {
        if !serves(there, *z) {
            there = grown(w, n, there, *z, &mut numbers);
        }
        row_on(sw0, sw15, &numbers, *z, &mut one);
        if taken(level, &one, row) {
            return Some(k);
        }
    }
    None
}

// The call: the index of the first altitude thin enough, with its eleven numbers in the row; none or refused, the row as it was.
pub fn first_below(
    w: [i32; 24],
    n: Input,
    alts: &[f64],
    level: f64,
    row: &mut [f64],
) -> Result<Option<usize>, Refusal>
    ensures { (result ≡ first_answer w n alts.now level (length row.old))
        × (row.new ≡ first_after w n alts.now level row.old) }
{
    checked(w, n, alts, row.len())?;
    Ok(first(w, n, alts, level, row))
}
