// The second one-altitude call (W-211): gtd7 with the nine constants that are handed to it.

#![tactic(auto)]

ghost use Rattle.std.specs.Prelude.{◌≡◌, length};
ghost use Rattle.parameter_answer.specs.ParameterAnswer.{answer_with};
ghost use Rattle.varied_constants.specs.VariedConstants.{row_with};

use atmosphere::row_with;
use parameter_answer::answer_with;
use parameters::Parameters;
use refusals::Refusal;
use setting::Input;

// Refused, the row as it was; accepted, the row of eleven.
pub fn gtd7_with(c: Parameters, w: [i32; 24], n: Input, out: &mut [f64]) -> Result<(), Refusal>
    ensures { (result ≡ answer_with c w n (length out.old)) × (out.new ≡ row_with c w n out.old) }
{
    answer_with(c, w, n, out.len())?;
    row_with(c, w, n, out);
    Ok(())
}
