// What the second one-altitude call (W-211) meets before anything is worked out: refusal 16 for its nine constants, 4 for the row, 2, 1 and 3 for the
// record, then 10.

#![tactic(auto)]

ghost use Rattle.std.specs.Prelude.{◌≡◌, position};
ghost use Rattle.parameter_answer.specs.ParameterAnswer.{unfit_value, of_species, first_unfit, among_nine, unmixed_with, answer_with};

use acceptance::{judge, mixing_on};
use numbers::finite;
use parameters::Parameters;
use refusals::{Reason, Refusal};
use setting::Input;

// Whether a constant is NaN, infinite, or not above 0.
pub fn unfit_value(x: f64) -> bool
    ensures { result ≡ unfit_value x }
{
    !finite(x) | !(x > 0.0)
}

// Whether a mass is that of a species: mixed air of this mass would have dnet divide by 0.
pub fn of_species(x: f64) -> bool
    ensures { result ≡ of_species x }
{
    (x == 1.0) | (x == 4.0) | (x == 14.0) | (x == 16.0) | (x == 28.0) | (x == 32.0) | (x == 40.0)
}

// The index of the first test that is passed.
pub fn first_passed(tests: &[bool]) -> Option<usize>
    ensures { result ≡ position (λ b. b) tests.now }
{
    tests.iter().position(|passed| *passed)
}

// The position, from 1, of the first of the nine that is unfit.
pub fn first_unfit(c: Parameters) -> Option<usize>
    ensures { result ≡ among_nine (first_unfit c) }
{
    let unfit = [
        unfit_value(c.rgas),
        unfit_value(c.xmm) | of_species(c.xmm),
        unfit_value(c.he),
        unfit_value(c.o),
        unfit_value(c.n2),
        unfit_value(c.o2),
        unfit_value(c.ar),
        unfit_value(c.h),
        unfit_value(c.n),
    ];
    match first_passed(&unfit) {
        Some(i) => Some(1 + i),
        None => None,
    }
}

// Whether an altitude lies below 72.5 km and N2, which it needs, is not mixed at 72.5; on says whether switch 15 is 1.
pub fn unmixed_with(c: Parameters, on: bool, alt: f64) -> bool
    ensures { result ≡ unmixed_with c on alt }
{
    (alt < 72.5) & (!on | (c.n2 < 72.5))
}

// The answer to nine constants, a switch row, a record, and a row of so many numbers.
pub fn answer_with(c: Parameters, w: [i32; 24], n: Input, len: usize) -> Result<(), Refusal>
    ensures { result ≡ answer_with c w n len }
{
    if let Some(k) = first_unfit(c) {
        return Err(Reason::ConstantUnfit.at(k));
    }
    if len != 11 {
        return Err(Reason::WrongLength.at(11));
    }
    judge(w, n)?;
    if unmixed_with(c, mixing_on(w), n.alt) {
        return Err(Reason::NotMixed.at(3));
    }
    Ok(())
}
