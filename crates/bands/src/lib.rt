// W-208: the one-altitude call at a whole metre, with the switch row that a table of bands has there.

#![tactic(auto)]

ghost use Rattle.std.specs.Prelude.{◌≡◌, length};
ghost use Rattle.bands.specs.Bands.{banded_answer, banded_after};

use acceptance::with_alt;
use atmosphere::gtd7;
use band_table::{kilometres, row_at};
use refusals::{Reason, Refusal};
use setting::Input;

// Whatever the table holds. The record's own altitude is not looked at.
pub fn gtd7_in_bands(table: &[i32], metre: i64, n: Input, out: &mut [f64]) -> Result<(), Refusal>
    ensures { (result ≡ banded_answer table.now metre n (length out.old))
        × (out.new ≡ banded_after table.now metre n out.old) }
{
    if out.len() != 11 {
        return Err(Reason::WrongLength.at(11));
    }
    let Some(w) = row_at(table, metre) else {
        return Err(Reason::OutOfRange.at(3));
    };
    let m = with_alt(n, kilometres(metre));
    gtd7(w, m, out)
}
