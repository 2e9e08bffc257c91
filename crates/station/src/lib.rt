// A prepared station: a record and a switch row with what no altitude changes, in two slices that the caller lends and keeps.

#![tactic(auto)]

ghost use Rattle.std.specs.Prelude.{◌≡◌, length};
ghost use Rattle.station_answer.specs.Answers.{station_answer, altitude_answer, change_answer, switches_answer};
ghost use Rattle.station.specs.Station.{refilled_of, filled_of, sets_of, values_put, whole_after, station_numbers_after, altitude_row, altitude_drag, changed_numbers, renewed_of, switched_whole, switched_numbers};

use acceptance::{judge, with_alt};
use drag_sum::drag_on;
use expansion_values::record_values;
use needed_sets::Need;
use refusals::{Reason, Refusal};
use setting::Input;
use setting::switches::tselec;
use station_answer::{Change, altitude_answer, station_answer, take_row, with_change};
use station_record::{mixing_in, put_whole, record_in, record_numbers, row_in, units_in};
use station_values::{expansion_numbers, expansion_values_in, globe7_sets, site_under};
use stored::{need_of, station_row_on, store};
use stored_parts::all_parts;
use switch_rows::same_expansions;

// ---- filled

// What no altitude changes, out of the expansions' values that the numbers hold. It is handed no View, so no expansion is worked out here.
pub fn refill(w: [i32; 24], n: Input, numbers: &mut [f64])
    requires { length numbers.old ≡ 259 }
    ensures { numbers.new ≡ refilled_of w n numbers.old }
{
    let f = tselec(w);
    let sw = f.sw;
    let x = site_under(sw, n);
    let l = expansion_values_in(&numbers[234..259]);
    let p = all_parts();
    store(p, sw, x, l, &mut numbers[0..234]);
}

// The expansions' values of a record under a switch row into their places: globe7's eleven, and glob7s' fourteen where a asks for their sets. In a frame of its
// own, so that the View's values are off the stack when what is made of them is stored.
#[inline(never)]
pub fn put_values(w: [i32; 24], n: Input, a: Need, numbers: &mut [f64])
    requires { length numbers.old ≡ 259 }
    ensures { numbers.new ≡ values_put w n a numbers.old }
{
    let mut season = [0.0; 156];
    let v = record_values(w, n, a, &mut season);
    let k = expansion_numbers(v.values);
    if a.nodes {
        numbers[234..259].copy_from_slice(&k);
        return;
    }
    numbers[234..245].copy_from_slice(&k[0..11]);
}

// What a record and a switch row give, into the numbers of a station: the values of the sets that a asks for, those of the others as they are.
pub fn fill(w: [i32; 24], n: Input, a: Need, numbers: &mut [f64])
    requires { length numbers.old ≡ 259 }
    ensures { numbers.new ≡ filled_of w n a numbers.old }
{
    put_values(w, n, a, numbers);
    numbers[0..14].copy_from_slice(&record_numbers(n));
    refill(w, n, numbers);
}

// ---- the calls

// Prepares a station: refused as the one-altitude call refuses the record, its altitude not looked at, and then the slices as they were.
pub fn prepare(
    w: [i32; 24],
    n: Input,
    whole: &mut [i32],
    numbers: &mut [f64],
) -> Result<(), Refusal>
    ensures { (result ≡ station_answer w n (length whole.old) (length numbers.old))
        × (whole.new ≡ whole_after w n whole.old (length numbers.old))
        × (numbers.new ≡ station_numbers_after w n (length whole.old) numbers.old) }
{
    station_answer(w, n, whole.len(), numbers.len())?;
    let m = with_alt(n, 0.0);
    put_whole(w, m, whole);
    fill(w, m, need_of(all_parts()), numbers);
    Ok(())
}

// An altitude of a station; the record was judged when it was prepared or changed. In line in the calls, whose frame is then the only one.
#[inline(always)]
pub fn gtd7(whole: &[i32], numbers: &[f64], alt: f64, out: &mut [f64]) -> Result<(), Refusal>
    ensures { (result ≡ altitude_answer (length out.old) whole.now (length numbers.now) alt)
        × (out.new ≡ altitude_row whole.now numbers.now alt out.old) }
{
    altitude_answer(out.len(), whole, numbers.len(), alt)?;
    let sw0 = units_in(whole);
    let sw15 = mixing_in(whole);
    station_row_on(sw0, sw15, &numbers[0..234], alt, out);
    Ok(())
}

// The same for drag: d[5] summed again in the row that gtd7 gave.
pub fn gtd7d(whole: &[i32], numbers: &[f64], alt: f64, out: &mut [f64]) -> Result<(), Refusal>
    ensures { (result ≡ altitude_answer (length out.old) whole.now (length numbers.now) alt)
        × (out.new ≡ altitude_drag whole.now numbers.now alt out.old) }
{
    gtd7(whole, numbers, alt, out)?;
    let units = units_in(whole);
    drag_on(units, out);
    Ok(())
}

// ---- changes

// The sets whose values a change asks for: glob7s reads no sec, and its fourteen values stay.
pub fn sets_for(c: Change) -> Need
    ensures { result ≡ sets_of c }
{
    match c {
        Change::Sec(_) => globe7_sets(),
        _ => need_of(all_parts()),
    }
}

// A change of a station's record: judged first, and written only if it is accepted.
pub fn change(whole: &[i32], numbers: &mut [f64], c: Change) -> Result<(), Refusal>
    ensures { (result ≡ change_answer c whole.now numbers.old) × (numbers.new ≡ changed_numbers c whole.now numbers.old) }
{
    if whole.len() != 27 {
        return Err(Reason::WrongLength.at(27));
    }
    if numbers.len() != 259 {
        return Err(Reason::WrongLength.at(259));
    }
    let w = row_in(whole);
    let n = with_change(record_in(whole, numbers), c);
    judge(w, n)?;
    fill(w, n, sets_for(c), numbers);
    Ok(())
}

// ---- a new switch row

// The numbers under the row w in the place of the row old; the expansions' values stay where the rows give the same.
pub fn renew(old: [i32; 24], w: [i32; 24], n: Input, numbers: &mut [f64])
    requires { length numbers.old ≡ 259 }
    ensures { numbers.new ≡ renewed_of old w n numbers.old }
{
    if same_expansions(old, w) {
        refill(w, n, numbers);
        return;
    }
    fill(w, n, need_of(all_parts()), numbers);
}

// The station's record under a new row: refused, the old row goes on.
pub fn change_switches(w: [i32; 24], whole: &mut [i32], numbers: &mut [f64]) -> Result<(), Refusal>
    ensures { (result ≡ switches_answer w whole.old numbers.old)
        × (whole.new ≡ switched_whole w whole.old numbers.old)
        × (numbers.new ≡ switched_numbers w whole.old numbers.old) }
{
    if whole.len() != 27 {
        return Err(Reason::WrongLength.at(27));
    }
    if numbers.len() != 259 {
        return Err(Reason::WrongLength.at(259));
    }
    let n = record_in(whole, numbers);
    let old = row_in(whole);
    take_row(w, n, whole)?;
    renew(old, w, n, numbers);
    Ok(())
}
