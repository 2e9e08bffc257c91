// A record, a switch row and nine constants out of the host's numbers and slices, and an answer as one number.

#![tactic(auto)]

pub mod nine;

ghost use Rattle.std.specs.Prelude.{◌≡◌, length};
ghost use Rattle.refusals.specs.Refusals.{Accepted};
ghost use Rattle.host_record.specs.Record.{packed_of, code_of, history_of_length, values_of, record_of, lengths_of};

use refusals::{Reason, Refusal};
use setting::{History, Input};

pub fn switch_row(s: &[i32]) -> [i32; 24]
    requires { length s.now ≡ 24 }
    ensures { result ≡ s.now }
{
    let mut w = [0; 24];
    w.copy_from_slice(s);
    w
}

pub fn history(len: usize) -> History
    ensures { result ≡ history_of_length len }
{
    if len == 7 {
        return History::Present;
    }
    History::Absent
}

pub fn values(s: &[f64]) -> [f64; 7]
    ensures { result ≡ values_of s.now }
{
    if s.len() != 7 {
        return [0.0; 7];
    }
    [s[0], s[1], s[2], s[3], s[4], s[5], s[6]]
}

pub fn record_of(year: i32, doy: i32, fields: &[f64], ap_array: &[f64]) -> Input
    requires { length fields.now ≡ 8 }
    ensures { result ≡ record_of year doy fields.now ap_array.now }
{
    let h = history(ap_array.len());
    let a = values(ap_array);
    Input {
        year: year,
        doy: doy,
        sec: fields[0],
        alt: fields[1],
        g_lat: fields[2],
        g_long: fields[3],
        lst: fields[4],
        f107a: fields[5],
        f107: fields[6],
        ap: fields[7],
        history: h,
        ap_array: a,
    }
}

// 4 for the first of the record's slices that has not its length; accepted where all have.
pub fn lengths(fields: &[f64], ap_array: &[f64], switches: &[i32]) -> Result<(), Refusal>
    ensures { result ≡ lengths_of fields.now ap_array.now switches.now Accepted }
{
    if fields.len() != 8 {
        return Err(Reason::WrongLength.at(8));
    }
    if (ap_array.len() != 0) & (ap_array.len() != 7) {
        return Err(Reason::WrongLength.at(7));
    }
    if switches.len() != 24 {
        return Err(Reason::WrongLength.at(24));
    }
    Ok(())
}

// The number times 2^32 and the place.
pub fn packed(n: usize, k: usize) -> u64
    ensures { result ≡ packed_of n k }
{
    let a = n % 4294967296;
    let b = k % 4294967296;
    (a * 4294967296 + b) as u64
}

// An answer as one number: 0, or a refusal's number and place.
pub fn code(a: Result<(), Refusal>) -> u64
    ensures { result ≡ code_of a }
{
    match a {
        Ok(()) => 0,
        Err(refusal) => packed(refusal.reason.number(), refusal.place),
    }
}
