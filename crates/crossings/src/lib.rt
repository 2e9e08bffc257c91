// Where d[5] of a column passes a level: document 02's W-206, over what is stored for the column's altitudes.

#![tactic(auto)]

ghost use Rattle.std.specs.Prelude.{◌≡◌, ◌++◌, ◌≤◌, length, drop};
ghost use Rattle.refusals.specs.Refusals.{Accepted};
ghost use Rattle.altitudes.specs.Altitudes.{altitudes_from};
ghost use Rattle.crossings.specs.Crossings.{densities_of, crossings_checked, crossings_answer, crossings_after};
ghost use Rattle.crossings.specs.Stored.{densities_stored};

use altitudes::column_answer;
use column::stored_for;
use crossings_list::{listed, rises};
use refusals::{Reason, Refusal};
use setting::Input;
use stored::row_on;

// The column's refusals, its buffer taken to be long enough; then 8.
pub fn checked(w: [i32; 24], n: Input, alts: &[f64]) -> Result<(), Refusal>
    ensures { result ≡ crossings_checked w n alts.now }
{
    column_answer(w, n, alts, 11 * alts.len())?;
    let k = rises(alts);
    if k < alts.len() {
        return Err(Reason::AltitudesFall.at(k));
    }
    Ok(())
}

// d[5] at each altitude, out of the stored numbers; sw0 and sw15 are the main effects of switches 0 and 15.
pub fn densities_at(sw0: f64, sw15: f64, numbers: &[f64], alts: &[f64], d: &mut [f64])
    requires { (length numbers.now ≡ 234) × (length alts.now ≤ length d.old) }
    ensures { d.new ≡ densities_stored sw0 sw15 numbers.now alts.now ++ drop (length alts.now) d.old }
{
    let mut row = [0.0; 11];
    for (i, z) in alts.iter().enumerate() {
        row_on(sw0, sw15, numbers, *z, &mut row);
        d[i] = row[5];
    }
}

// d[5] of a record at accepted altitudes; what does not depend on the altitude is worked out once.
pub fn densities(w: [i32; 24], n: Input, alts: &[f64], d: &mut [f64])
    requires { (length alts.now ≤ length d.old) × (altitudes_from 0 alts.now ≡ Accepted) }
    ensures { d.new ≡ densities_of w n alts.now ++ drop (length alts.now) d.old }
{
    let mut numbers = [0.0; 234];
    let sw = stored_for(w, n, alts, &mut numbers);
    densities_at(sw[0], sw[15], &numbers, alts, d);
}

// The call: refused, the list's buffer as it was; else the list at its start, the rest as it was, and the answer how long the list is.
pub fn crossings(
    w: [i32; 24],
    n: Input,
    alts: &[f64],
    level: f64,
    list: &mut [u64],
) -> Result<usize, Refusal>
    ensures { (result ≡ crossings_answer w n alts.now level (length list.old))
        × (list.new ≡ crossings_after w n alts.now level list.old) }
{
    checked(w, n, alts)?;
    let count = alts.len();
    let mut d = [0.0; 512];
    densities(w, n, alts, &mut d);
    listed(&d[0..count], level, list)
}
