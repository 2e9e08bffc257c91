// The public calls globe7 and glob7s, from a switch row, a record, coefficients and a State, with their refusals.

#![tactic(auto)]

ghost use Rattle.std.specs.Prelude.{◌≡◌};
ghost use Rattle.expansion_calls.specs.ExpansionCalls.{refusal_number, refusal_place, globe7_call_of, glob7s_call_of};

use setting::ap_history::lacks_history;
use setting::{Input, Left, State};
use views::view_of;

// Why a call is refused: it needs so many coefficients, or the history that switch 9 asks for is lacking.
#[derive(Clone, Copy)]
pub enum ExpansionRefusal {
    Coefficients(usize),
    NoHistory,
}

impl ExpansionRefusal {
    // Document 01's number.
    pub fn number(self) -> usize
        ensures { result ≡ refusal_number self }
    {
        match self {
            ExpansionRefusal::Coefficients(_) => 6,
            ExpansionRefusal::NoHistory => 1,
        }
    }

    pub fn place(self) -> usize
        ensures { result ≡ refusal_place self }
    {
        match self {
            ExpansionRefusal::Coefficients(needed) => needed,
            ExpansionRefusal::NoHistory => 10,
        }
    }
}

// Both calls give the State beside the value; refused, the one that they were given beside the reason.
pub fn globe7(
    w: [i32; 24],
    n: Input,
    p: &[f64],
    s: State,
) -> Result<Left<f64>, Left<ExpansionRefusal>>
    ensures { result ≡ globe7_call_of w n p.now s }
{
    if p.len() != 150 {
        return Err(Left {
            value: ExpansionRefusal::Coefficients(150),
            state: s,
        });
    }
    if lacks_history(w, n) {
        return Err(Left {
            value: ExpansionRefusal::NoHistory,
            state: s,
        });
    }
    let v = view_of(w, n);
    let a = expansion::globe7(v, p, s);
    Ok(a)
}

pub fn glob7s(
    w: [i32; 24],
    n: Input,
    p: &[f64],
    s: State,
) -> Result<Left<f64>, Left<ExpansionRefusal>>
    ensures { result ≡ glob7s_call_of w n p.now s }
{
    if (p.len() < 100) | (150 < p.len()) {
        return Err(Left {
            value: ExpansionRefusal::Coefficients(100),
            state: s,
        });
    }
    let v = view_of(w, n);
    let a = expansion::glob7s(v, p, s);
    Ok(Left { value: a, state: s })
}
