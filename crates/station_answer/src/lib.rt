// What the calls of a station meet before anything is worked out, its record with a change made, and a new switch row in its whole numbers.

#![tactic(auto)]

ghost use Rattle.std.specs.Prelude.{◌≡◌, ◌<◌, pos, length, get_or};
ghost use Rattle.acceptance.specs.Acceptance.{day_within, judged_of};
ghost use Rattle.setting.specs.Switches.{is_one};
ghost use Rattle.station_record.specs.Record.{record_in};
ghost use Rattle.station_answer.specs.Answers.{change_of, station_answer, altitude_answer, row_taken};

use acceptance::{judge, unmixed, with_alt, within};
use numbers::finite;
use refusals::{Reason, Refusal};
use setting::Input;
use station_record::put_whole;

// ---- a changed record

// A change of a station's record.
#[derive(Clone, Copy)]
pub enum Change {
    Sec(f64),
    Lst(f64),
    GLong(f64),
    // f107a and f107.
    Fluxes(f64, f64),
    // sec, lst and g_long together.
    Move(f64, f64, f64),
}

// The record with a change made.
pub fn with_change(n: Input, c: Change) -> Input
    ensures { result ≡ change_of c n }
{
    let mut out = n;
    match c {
        Change::Sec(sec) => out.sec = sec,
        Change::Lst(lst) => out.lst = lst,
        Change::GLong(g_long) => out.g_long = g_long,
        Change::Fluxes(f107a, f107) => {
            out.f107a = f107a;
            out.f107 = f107;
        }
        Change::Move(sec, lst, g_long) => {
            out.sec = sec;
            out.lst = lst;
            out.g_long = g_long;
        }
    }
    out
}

// ---- what the calls meet

// Preparing: the lengths of the two slices, then what the record meets, its altitude not looked at.
pub fn station_answer(w: [i32; 24], n: Input, ints: usize, count: usize) -> Result<(), Refusal>
    ensures { result ≡ station_answer w n ints count }
{
    if ints != 27 {
        return Err(Reason::WrongLength.at(27));
    }
    if count != 259 {
        return Err(Reason::WrongLength.at(259));
    }
    judge(w, with_alt(n, 0.0))
}

// Whether a switch of the whole numbers, as given, is 1.
pub fn one_in(whole: &[i32], i: usize) -> bool
    requires { i < length whole.now }
    ensures { result ≡ is_one (get_or whole.now i (pos 0)) }
{
    let x = whole[i];
    if x == 1 {
        return true;
    }
    false
}

// Whether the doy of the whole numbers is a day of the year: in slices that were never prepared it is likely none.
pub fn day_in(whole: &[i32]) -> bool
    requires { length whole.now ≡ 27 }
    ensures { result ≡ day_within (get_or whole.now 1 (pos 0)) }
{
    let d = whole[1];
    if d < 1 {
        return false;
    }
    if d > 366 {
        return false;
    }
    true
}

// The answer to an altitude: the lengths of the row, the whole numbers and the numbers; 2, then 3 for the doy and for the altitude, then 10.
pub fn altitude_answer(len: usize, whole: &[i32], count: usize, alt: f64) -> Result<(), Refusal>
    ensures { result ≡ altitude_answer len whole.now count alt }
{
    if len != 11 {
        return Err(Reason::WrongLength.at(11));
    }
    let ints = whole.len();
    if ints != 27 {
        return Err(Reason::WrongLength.at(27));
    }
    if count != 259 {
        return Err(Reason::WrongLength.at(259));
    }
    if !finite(alt) {
        return Err(Reason::NotFinite.at(3));
    }
    if !day_in(whole) {
        return Err(Reason::OutOfRange.at(1));
    }
    if !within(0.0, 2500.0, alt) {
        return Err(Reason::OutOfRange.at(3));
    }
    let on = one_in(whole, 18);
    if unmixed(on, alt) {
        return Err(Reason::NotMixed.at(3));
    }
    Ok(())
}

// ---- a new switch row

// The record judged under the row w, which then stands in the whole numbers; refused, the old row stays. In a frame of its own, so that what it takes is off
// the stack when the station is filled.
#[inline(never)]
pub fn take_row(w: [i32; 24], n: Input, whole: &mut [i32]) -> Result<(), Refusal>
    requires { length whole.old ≡ 27 }
    ensures { (result ≡ judged_of w n) × (whole.new ≡ row_taken w n whole.old) }
{
    judge(w, n)?;
    put_whole(w, n, whole);
    Ok(())
}
