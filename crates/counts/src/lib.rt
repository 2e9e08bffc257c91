// Which fields of a record count under a switch row: demand 3's own list, entry by entry.

#![tactic(auto)]

ghost use Rattle.std.specs.Prelude.{◌≡◌, get_or, true};
ghost use Rattle.shutoff.specs.Shut.{shut, nine_is_zero, off};
ghost use Rattle.counts.specs.Counts.{counts_of};

use setting::ap_history::asks_history;
use switch_rows::{above_zero, is_one};

// Switch 9 is 0.
pub fn nine_is_zero(w: [i32; 24]) -> bool
    ensures { result ≡ nine_is_zero w }
{
    let x = w[9];
    if x == 0 {
        return true;
    }
    false
}

// sec is shut off.
pub fn sec_shut(w: [i32; 24]) -> bool
    ensures { result ≡ get_or (shut w) 2 true }
{
    let ten = is_one(w, 10);
    let twelve = is_one(w, 12);
    let thirteen = is_one(w, 13);
    !ten | (!twelve & !thirteen)
}

// g_long is shut off.
pub fn g_long_shut(w: [i32; 24]) -> bool
    ensures { result ≡ get_or (shut w) 5 true }
{
    let ten = is_one(w, 10);
    let eleven = is_one(w, 11);
    let twelve = is_one(w, 12);
    let thirteen = is_one(w, 13);
    !ten | (!eleven & !twelve & !thirteen)
}

// lst is shut off.
pub fn lst_shut(w: [i32; 24]) -> bool
    ensures { result ≡ get_or (shut w) 6 true }
{
    let no_activity = nine_is_zero(w);
    let seven = is_one(w, 7);
    let seven_above_zero = above_zero(w, 7);
    let eight = is_one(w, 8);
    let fourteen = is_one(w, 14);
    (no_activity & !seven & !eight & !fourteen) | (!seven_above_zero & !eight & !fourteen)
}

// f107a and f107 are shut off.
pub fn fluxes_shut(w: [i32; 24]) -> bool
    ensures { result ≡ off w 1 }
{
    let one_above_zero = above_zero(w, 1);
    !one_above_zero
}

// ap is shut off.
pub fn ap_shut(w: [i32; 24]) -> bool
    ensures { result ≡ get_or (shut w) 9 true }
{
    let history = asks_history(w);
    let no_activity = nine_is_zero(w);
    let ten = is_one(w, 10);
    let thirteen = is_one(w, 13);
    history | (no_activity & (!ten | !thirteen))
}

// For each of the fields 0 to 16, whether it counts under the row.
pub fn counts(w: [i32; 24]) -> [bool; 17]
    ensures { result ≡ counts_of w }
{
    let sec = sec_shut(w);
    let g_long = g_long_shut(w);
    let lst = lst_shut(w);
    let fluxes = fluxes_shut(w);
    let ap = ap_shut(w);
    let history = !asks_history(w);
    [
        false, true, !sec, true, true, !g_long, !lst, !fluxes, !fluxes, !ap, false, !history,
        !history, !history, !history, !history, !history,
    ]
}
