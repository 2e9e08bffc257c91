// A record of which only some fields are known: with 0 in the others, the lowest field that is lacking, and the answer; marks as numbers.

#![tactic(auto)]

ghost use Rattle.std.specs.Prelude.{◌≡◌, ◌<◌, pos, length, get_or};
ghost use Rattle.acceptance.specs.Acceptance.{field_at};
ghost use Rattle.known_record.specs.KnownRecord.{known_at, whole_known, float_known, only_known, lacking_field, filled_answer, marks_of};

use acceptance::{record_answer, unfit};
use numbers::pick;
use refusals::{Reason, Refusal};
use setting::Input;
use setting::ap_history::lacks_history;

// Whether field i is known: bit i of a number.
pub fn known_at(known: u32, i: usize) -> bool
    requires { i < 32 }
    ensures { result ≡ known_at known i }
{
    (known >> i) % 2 == 1
}

// x where field i is known, and 0 otherwise.
pub fn whole_known(known: u32, i: usize, x: i32) -> i32
    requires { i < 32 }
    ensures { result ≡ whole_known known i x }
{
    if known_at(known, i) {
        return x;
    }
    0
}

pub fn float_known(known: u32, i: usize, x: f64) -> f64
    requires { i < 32 }
    ensures { result ≡ float_known known i x }
{
    pick(known_at(known, i), x, 0.0)
}

// The record with 0 in the fields that are not known; the history as it is.
pub fn only_known(known: u32, n: Input) -> Input
    ensures { result ≡ only_known known n }
{
    let history = n.history;
    let ap_array = n.ap_array;
    Input {
        year: whole_known(known, 0, n.year),
        doy: whole_known(known, 1, n.doy),
        sec: float_known(known, 2, n.sec),
        alt: float_known(known, 3, n.alt),
        g_lat: float_known(known, 4, n.g_lat),
        g_long: float_known(known, 5, n.g_long),
        lst: float_known(known, 6, n.lst),
        f107a: float_known(known, 7, n.f107a),
        f107: float_known(known, 8, n.f107),
        ap: float_known(known, 9, n.ap),
        history: history,
        ap_array: ap_array,
    }
}

// The lowest of the fields 0 to 9 that counts and is not known, else 10 where the history is lacking.
pub fn lacking_field(counts: [bool; 17], known: u32, no_history: bool) -> Option<usize>
    ensures { result ≡ field_at (lacking_field counts known no_history) }
{
    for i in 0..10 {
        if counts[i] & !known_at(known, i) {
            return Some(i);
        }
    }
    if no_history {
        return Some(10);
    }
    None
}

// The answer to a record that has 0 in the fields that are not known; counts says which fields count under the row. Behind 2 and 1 it is the
// one-altitude call's.
pub fn filled_answer(
    counts: [bool; 17],
    known: u32,
    w: [i32; 24],
    filled: Input,
) -> Result<(), Refusal>
    ensures { result ≡ filled_answer counts known w filled }
{
    if let Some(field) = unfit(filled) {
        return Err(Reason::NotFinite.at(field));
    }
    if let Some(field) = lacking_field(counts, known, lacks_history(w, filled)) {
        return Err(Reason::HistoryLacking.at(field));
    }
    record_answer(w, filled)
}

// Mark i as a number.
pub fn mark_at(marks: [bool; 17], i: usize) -> i32
    requires { i < 17 }
    ensures { result ≡ get_or (marks_of marks) i (pos 0) }
{
    if marks[i] {
        return 1;
    }
    0
}

// 17 marks as numbers, 1 for one that is set and 0 for one that is not.
pub fn put_marks(marks: [bool; 17], out: &mut [i32])
    requires { length out.old ≡ 17 }
    ensures { out.new ≡ marks_of marks }
{
    for i in 0..17 {
        out[i] = mark_at(marks, i);
    }
}
