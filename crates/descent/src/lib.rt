// A descent, orbit by orbit: document 02's W-212, over a station that is prepared once.

#![tactic(auto)]

ghost use Rattle.std.specs.Prelude.{◌≡◌, true, ◌≤◌, length};
ghost use Rattle.numbers.specs.Literals.{0·0};
ghost use Rattle.refusals.specs.Refusals.{Accepted};
ghost use Rattle.acceptance.specs.Acceptance.{judged_of, with_alt_of};
ghost use Rattle.descent_orbits.specs.DescentOrbits.{start_within, millimetres_of, descent_from};
ghost use Rattle.descent_orbits.specs.Lent.{end_of_descent, losses_after};
ghost use Rattle.descent.specs.Descent.{unit_row, density_at, descent_checked, descent_answer, descent_losses};
ghost use Rattle.descent.specs.Stored.{station_density};

use acceptance::{judge, with_alt};
use descent_orbits::{
    Descended, Ending, Orbit, kilometres, millimetres, orbit_at, put_loss, refusal,
};
use refusals::Refusal;
use setting::Input;
use station::{gtd7, prepare};

// Switch 0 taken as 1.
pub fn unit_row(w: [i32; 24]) -> [i32; 24]
    ensures { result ≡ unit_row w }
{
    let mut v = w;
    v[0] = 1;
    v
}

// How many values the history has room for; a station is told of them.
pub fn values(n: Input) -> usize
    ensures { (result ≡ 7) × (length n.ap_array ≡ 7) }
{
    let a = n.ap_array;
    a.len()
}

// d[5] of a station at an altitude in millimetres.
pub fn density(whole: &[i32], numbers: &[f64], a: u64) -> f64
    requires { a ≤ 1000000000 }
    ensures { result ≡ station_density whole.now numbers.now a }
{
    let mut row = [0.0; 11];
    let z = kilometres(a);
    let _ = gtd7(whole, numbers, z, &mut row);
    row[5]
}

// The orbits of a descent, its losses into the start of the list.
pub fn orbits(
    whole: &[i32],
    numbers: &[f64],
    start: u64,
    settings: &[i32],
    losses: &mut [i64],
) -> Descended
    requires { (200000000 ≤ start) × (start ≤ 1000000000) × (length settings.now ≤ length losses.old) }
    ensures { (result ≡ end_of_descent (descent_from (station_density whole.now numbers.now) start settings.now))
        × (losses.new ≡ losses_after (descent_from (station_density whole.now numbers.now) start settings.now) losses.old) }
{
    let mut a = start;
    for (i, setting) in settings.iter().enumerate() {
        let d = density(whole, numbers, a);
        match orbit_at(a, d, *setting) {
            Orbit::Ends(ending) => {
                return Descended {
                    ending,
                    last: a,
                    taken: i,
                };
            }
            Orbit::Loses(loss) => {
                put_loss(losses, i, loss);
                a -= loss;
            }
        }
    }
    Descended {
        ending: Ending::Spent,
        last: a,
        taken: settings.len(),
    }
}

// The descent of a record that is accepted, from a start that is.
pub fn flown(w: [i32; 24], n: Input, start: i64, settings: &[i32], losses: &mut [i64]) -> Descended
    requires { (judged_of w (with_alt_of n 0·0) ≡ Accepted) × (start_within start ≡ true) × (length settings.now ≤ length losses.old) }
    ensures { (result ≡ end_of_descent (descent_from (density_at w n) (millimetres_of start) settings.now))
        × (losses.new ≡ losses_after (descent_from (density_at w n) (millimetres_of start) settings.now) losses.old) }
{
    values(n);
    let mut whole = [0; 27];
    let mut numbers = [0.0; 259];
    let _ = prepare(w, n, &mut whole, &mut numbers);
    let a = millimetres(start);
    orbits(&whole, &numbers, a, settings, losses)
}

// The record's refusals, its altitude not looked at; then 17, 18 and 19.
pub fn checked(
    w: [i32; 24],
    n: Input,
    start: i64,
    settings: &[i32],
    room: usize,
) -> Result<(), Refusal>
    ensures { result ≡ descent_checked w n start settings.now room }
{
    judge(w, with_alt(n, 0.0))?;
    refusal(start, settings, room)
}

// The call: refused, the list as it was; else the losses at its start, the rest as it was, and the answer how the descent ended.
pub fn descent(
    w: [i32; 24],
    n: Input,
    start: i64,
    settings: &[i32],
    losses: &mut [i64],
) -> Result<Descended, Refusal>
    ensures { (result ≡ descent_answer w n start settings.now (length losses.old))
        × (losses.new ≡ descent_losses w n start settings.now losses.old) }
{
    let v = unit_row(w);
    checked(v, n, start, settings, losses.len())?;
    Ok(flown(v, n, start, settings, losses))
}
