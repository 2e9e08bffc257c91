// The slices of the one-altitude call with nine constants: the constants out of theirs, and what the slices meet before the record.
ghost use Rattle.std.specs.Prelude.{◌≡◌, length};
ghost use Rattle.refusals.specs.Refusals.{Accepted};
ghost use Rattle.host_record.specs.Nine.{nine_of, lengths_with};

use crate::lengths;
use parameter_answer::first_unfit;
use parameters::Parameters;
use refusals::{Reason, Refusal};

// The nine in document 02's order.
pub fn nine_of(s: &[f64]) -> Parameters
    requires { length s.now ≡ 9 }
    ensures { result ≡ nine_of s.now }
{
    Parameters {
        rgas: s[0],
        xmm: s[1],
        he: s[2],
        o: s[3],
        n2: s[4],
        o2: s[5],
        ar: s[6],
        h: s[7],
        n: s[8],
    }
}

// 4 for the nine, 16 for a constant, 4 for the row, whose length is len, then 4 for the record's slices; accepted where none fits.
pub fn lengths_with(
    nine: &[f64],
    len: usize,
    fields: &[f64],
    ap_array: &[f64],
    switches: &[i32],
) -> Result<(), Refusal>
    ensures { result ≡ lengths_with nine.now len fields.now ap_array.now switches.now Accepted }
{
    if nine.len() != 9 {
        return Err(Reason::WrongLength.at(9));
    }
    if let Some(k) = first_unfit(nine_of(nine)) {
        return Err(Reason::ConstantUnfit.at(k));
    }
    if len != 11 {
        return Err(Reason::WrongLength.at(11));
    }
    lengths(fields, ap_array, switches)
}
