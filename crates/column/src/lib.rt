// The column: one record at 0 to 512 altitudes, each altitude's eleven numbers in its own part of the lent buffer.

#![tactic(auto)]

ghost use Rattle.std.specs.Prelude.{◌≡◌, ◌++◌, ◌*◌, ◌≤◌, length, take, drop};
ghost use Rattle.refusals.specs.Refusals.{Accepted};
ghost use Rattle.views.specs.View.{view_of};
ghost use Rattle.altitudes.specs.Altitudes.{altitudes_from, column_answer};
ghost use Rattle.column.specs.Column.{column_after, column_rows};
ghost use Rattle.column.specs.Parts.{stored_for, rows_stored};

use altitudes::column_answer;
use expansion_values::record_values;
use gts7_arithmetic::site_of;
use refusals::Refusal;
use setting::Input;
use stored::{need_of, row_on, store};
use stored_parts::parts_of;
use views::day;

// Each altitude's row into its own part of the buffer, out of the stored numbers; sw0 and sw15 are the main effects of switches 0 and 15.
pub fn rows_at(sw0: f64, sw15: f64, numbers: &[f64], alts: &[f64], out: &mut [f64])
    requires { (length numbers.now ≡ 234) × (11 * length alts.now ≤ length out.old) }
    ensures { out.new ≡ rows_stored sw0 sw15 numbers.now alts.now ++ drop (11 * length alts.now) out.old }
{
    let mut i: usize = 0;
    while i < alts.len() {
        let z = alts[i];
        let lo = 11 * i;
        let hi = lo + 11;
        row_on(sw0, sw15, numbers, z, &mut out[lo..hi]);
        i += 1;
    }
}

// What rows at the altitudes read of a record, stored as a station stores it behind the first 14 numbers: the parts that the altitudes read. The
// main effects of the switches come back. The season lies where the parts are stored afterwards, so that it takes no more of the stack.
pub fn stored_for(w: [i32; 24], n: Input, alts: &[f64], numbers: &mut [f64]) -> [f64; 24]
    requires { length numbers.old ≡ 234 }
    ensures { (result ≡ (view_of w n).sw) × (numbers.new ≡ take 14 numbers.old ++ stored_for w n alts.now) }
{
    let p = parts_of(alts);
    let a = need_of(p);
    let v = record_values(w, n, a, &mut numbers[14..170]);
    let sw = v.sw;
    let doy = day(n);
    let x = site_of(sw, n.g_lat, doy, n.f107a);
    let l = v.values;
    store(p, sw, x, l, numbers);
    sw
}

// The rows of a record at accepted altitudes; what does not depend on the altitude is worked out once.
pub fn rows(w: [i32; 24], n: Input, alts: &[f64], out: &mut [f64])
    requires { (11 * length alts.now ≤ length out.old) × (altitudes_from 0 alts.now ≡ Accepted) }
    ensures { out.new ≡ column_rows w n alts.now ++ drop (11 * length alts.now) out.old }
{
    let mut numbers = [0.0; 234];
    let sw = stored_for(w, n, alts, &mut numbers);
    rows_at(sw[0], sw[15], &numbers, alts, out);
}

// The column call: refused, the buffer as it was; accepted, the rows and the rest of the buffer as it was.
pub fn gtd7_column(w: [i32; 24], n: Input, alts: &[f64], out: &mut [f64]) -> Result<(), Refusal>
    ensures { (result ≡ column_answer w n alts.now (length out.old))
        × (out.new ≡ column_after w n alts.now out.old) }
{
    column_answer(w, n, alts, out.len())?;
    rows(w, n, alts, out);
    Ok(())
}
