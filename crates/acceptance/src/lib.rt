// Whether the one-altitude call accepts a record: refusals 2, 1 and 3 of document 01, then 10 of document 02, in this order, with their places.

#![tactic(auto)]

ghost use Rattle.std.specs.Prelude.{◌≡◌, cond, not, position};
ghost use Rattle.numbers.specs.Literals.{0·0, 400·0};
ghost use Rattle.numbers.specs.Tests.{finite_of};
ghost use Rattle.setting.specs.Switches.{given, is_one};
ghost use Rattle.acceptance.specs.Acceptance.{within_of, day_within, array_unfit_of, unfit_of, array_outside_of, ranges_of, outside_of, field_at, judged_of, unmixed_of, record_answer, with_alt_of};

use numbers::finite;
use refusals::{Reason, Refusal};
use setting::Input;
use setting::ap_history::{absent, lacks_history};

// lo <= x <= hi.
pub fn within(lo: f64, hi: f64, x: f64) -> bool
    ensures { result ≡ within_of lo hi x }
{
    (lo <= x) & (x <= hi)
}

// doy from 1 to 366.
pub fn day_within(n: Input) -> bool
    ensures { result ≡ day_within n.doy }
{
    let d = n.doy;
    if d < 1 {
        return false;
    }
    if d > 366 {
        return false;
    }
    true
}

// The index of the first number that is not finite.
pub fn first_unfit(xs: &[f64]) -> Option<usize>
    ensures { result ≡ position (λ x. not (finite_of x)) xs.now }
{
    xs.iter().position(|x| !finite(*x))
}

// The lowest field that is not finite, of those from sec to ap and, where it is there, the history. Like `outside` it has a frame of its own, so that its list
// is off the stack when a call works on.
#[inline(never)]
pub fn unfit(n: Input) -> Option<usize>
    ensures { result ≡ field_at (unfit_of n) }
{
    let fields = [
        n.sec, n.alt, n.g_lat, n.g_long, n.lst, n.f107a, n.f107, n.ap,
    ];
    if let Some(i) = first_unfit(&fields) {
        return Some(2 + i);
    }
    if absent(n.history) {
        return None;
    }
    match first_unfit(&n.ap_array) {
        Some(i) => Some(10 + i),
        None => None,
    }
}

// A number and the range in which it has to lie, ends included.
#[derive(Clone, Copy)]
pub struct Ranged {
    pub lo: f64,
    pub hi: f64,
    pub x: f64,
}

pub fn range_of(lo: f64, hi: f64, x: f64) -> Ranged
    ensures { result ≡ record { lo = lo; hi = hi; x = x } }
{
    Ranged { lo, hi, x }
}

// The fields from sec to ap with their ranges.
pub fn ranges(n: Input) -> [Ranged; 8]
    ensures { result ≡ ranges_of n }
{
    [
        range_of(0.0, 86400.0, n.sec),
        range_of(0.0, 2500.0, n.alt),
        range_of(-90.0, 90.0, n.g_lat),
        range_of(-1000.0, 1000.0, n.g_long),
        range_of(-24.0, 48.0, n.lst),
        range_of(0.0, 1000.0, n.f107a),
        range_of(0.0, 1000.0, n.f107),
        range_of(0.0, 400.0, n.ap),
    ]
}

// The index of the first number that lies outside its range.
pub fn first_outside(xs: &[Ranged]) -> Option<usize>
    ensures { result ≡ position (λ (r : Ranged). not (within_of r.lo r.hi r.x)) xs.now }
{
    xs.iter().position(|r| !within(r.lo, r.hi, r.x))
}

// The index of the first value of a history outside 0 to 400.
pub fn first_activity_outside(xs: &[f64]) -> Option<usize>
    ensures { result ≡ position (λ x. not (within_of 0·0 400·0 x)) xs.now }
{
    xs.iter().position(|x| !within(0.0, 400.0, *x))
}

// The lowest field out of its range, the history's values among them where it is there.
#[inline(never)]
pub fn outside(n: Input) -> Option<usize>
    ensures { result ≡ field_at (outside_of n) }
{
    if !day_within(n) {
        return Some(1);
    }
    if let Some(i) = first_outside(&ranges(n)) {
        return Some(2 + i);
    }
    if absent(n.history) {
        return None;
    }
    match first_activity_outside(&n.ap_array) {
        Some(i) => Some(10 + i),
        None => None,
    }
}

// The refusals that a record can meet, in order.
pub fn judge(w: [i32; 24], n: Input) -> Result<(), Refusal>
    ensures { result ≡ judged_of w n }
{
    if let Some(field) = unfit(n) {
        return Err(Reason::NotFinite.at(field));
    }
    if lacks_history(w, n) {
        return Err(Reason::HistoryLacking.at(10));
    }
    if let Some(field) = outside(n) {
        return Err(Reason::OutOfRange.at(field));
    }
    Ok(())
}

// Whether switch 15, as it is given, is 1.
pub fn mixing_on(w: [i32; 24]) -> bool
    ensures { result ≡ is_one (given w 15) }
{
    let x = w[15];
    if x == 1 {
        return true;
    }
    false
}

// Whether an altitude lies below 72.5 km and N2, which it needs, is not mixed; on says whether switch 15 is 1.
pub fn unmixed(on: bool, alt: f64) -> bool
    ensures { result ≡ unmixed_of on alt }
{
    !on & (alt < 72.5)
}

// The one-altitude call's answer to a record.
pub fn record_answer(w: [i32; 24], n: Input) -> Result<(), Refusal>
    ensures { result ≡ record_answer w n }
{
    judge(w, n)?;
    if unmixed(mixing_on(w), n.alt) {
        return Err(Reason::NotMixed.at(3));
    }
    Ok(())
}

// The record with another altitude.
pub fn with_alt(n: Input, alt: f64) -> Input
    ensures { result ≡ with_alt_of n alt }
{
    let mut out = n;
    out.alt = alt;
    out
}
