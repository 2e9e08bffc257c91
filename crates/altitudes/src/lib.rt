// What a column's record, its altitudes and the length of its buffer meet.

#![tactic(auto)]

ghost use Rattle.std.specs.Prelude.{◌≡◌};
ghost use Rattle.altitudes.specs.Altitudes.{altitudes_from, unmixed_from, judged_all_of, column_answer};
ghost use Rattle.altitudes.specs.Within.{all_within};

use acceptance::{judge, mixing_on, unmixed, with_alt, within};
use numbers::finite;
use refusals::{Reason, Refusal};
use setting::Input;

// Whether all altitudes are in range. The loop has no way out, so that it is compiled to several altitudes at a time.
pub fn all_within(alts: &[f64]) -> bool
    ensures { result ≡ all_within alts.now }
{
    let mut all = true;
    for z in alts {
        all = all & within(0.0, 2500.0, *z);
    }
    all
}

// The first altitude that is refused, in order: 2, else 3. Where all are in range none is.
pub fn altitudes(alts: &[f64]) -> Result<(), Refusal>
    ensures { result ≡ altitudes_from 0 alts.now }
{
    if all_within(alts) {
        return Ok(());
    }
    for (k, z) in alts.iter().enumerate() {
        if !finite(*z) {
            return Err(Reason::NotFinite.at(17 + k));
        }
        if !within(0.0, 2500.0, *z) {
            return Err(Reason::OutOfRange.at(17 + k));
        }
    }
    Ok(())
}

// The first altitude below 72.5 km where N2 is not mixed; on says whether switch 15 is 1.
pub fn unmixed_altitude(on: bool, alts: &[f64]) -> Result<(), Refusal>
    ensures { result ≡ unmixed_from on 0 alts.now }
{
    if on {
        return Ok(());
    }
    for (k, z) in alts.iter().enumerate() {
        if unmixed(on, *z) {
            return Err(Reason::NotMixed.at(17 + k));
        }
    }
    Ok(())
}

// What a column's record and altitudes meet, its lengths apart.
pub fn judge_all(w: [i32; 24], n: Input, alts: &[f64]) -> Result<(), Refusal>
    ensures { result ≡ judged_all_of w n alts.now }
{
    judge(w, with_alt(n, 0.0))?;
    altitudes(alts)?;
    unmixed_altitude(mixing_on(w), alts)
}

// The answer to a record, its altitudes and a buffer of the length len. In line, so that its callers hold no second copy of the record and the row.
#[inline(always)]
pub fn column_answer(w: [i32; 24], n: Input, alts: &[f64], len: usize) -> Result<(), Refusal>
    ensures { result ≡ column_answer w n alts.now len }
{
    let count = alts.len();
    if 512 < count {
        return Err(Reason::TooMany.at(512));
    }
    let room = 11 * count;
    if len < room {
        return Err(Reason::WrongLength.at(room));
    }
    judge_all(w, n, alts)
}
