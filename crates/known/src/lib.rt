// The one-altitude call for a record of which only some fields are known.

#![tactic(auto)]

ghost use Rattle.std.specs.Prelude.{◌≡◌, length};
ghost use Rattle.known.specs.Known.{filled_answer_at, known_answer, known_row};

use atmosphere::row_of;
use counts::counts;
use known_record::{filled_answer, only_known};
use refusals::{Reason, Refusal};
use setting::Input;

// The answer to a record that has 0 in the fields that are not known, and a row of the length len.
pub fn answer_at(known: u32, w: [i32; 24], filled: Input, len: usize) -> Result<(), Refusal>
    ensures { result ≡ filled_answer_at known w filled len }
{
    if len != 11 {
        return Err(Reason::WrongLength.at(11));
    }
    let counted = counts(w);
    filled_answer(counted, known, w, filled)
}

// The one-altitude call for a record of which those fields are known that the bits of a number name, bit k for field k from 0 to 9; the history is
// known where it is there. A field that is not known is not looked at. Refused, the row as it was; accepted, that of the record with 0 in such fields.
pub fn gtd7_known(known: u32, w: [i32; 24], n: Input, out: &mut [f64]) -> Result<(), Refusal>
    ensures { (result ≡ known_answer known w n (length out.old)) × (out.new ≡ known_row known w n out.old) }
{
    let filled = only_known(known, n);
    answer_at(known, w, filled, out.len())?;
    row_of(w, filled, out);
    Ok(())
}
