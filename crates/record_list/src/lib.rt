// Records that lie one behind the other: which one is the k-th, and whether the slices have the lengths that they need.

#![tactic(auto)]

ghost use Rattle.std.specs.Prelude.{◌≡◌, not, ◌*◌, ◌<◌, eqb, ltb, length};
ghost use Rattle.host_record.specs.Record.{packed_of, code_of};
ghost use Rattle.record_list.specs.RecordList.{Listed, record_at, lengths_answer};

use host_record::{packed, record_of};
use refusals::Reason;
use setting::Input;

// The k-th record, of the year 0, which nothing reads.
pub fn record_at(days: &[i32], fields: &[f64], ap_arrays: &[f64], k: usize) -> Input
    requires { Listed (length days.now) (length fields.now) (length ap_arrays.now) × (k < length days.now) }
    ensures { result ≡ record_at days.now fields.now ap_arrays.now k }
{
    let at = 8 * k;
    let doy = days[k];
    if ap_arrays.len() == 0 {
        return record_of(0, doy, &fields[at..at + 8], ap_arrays);
    }
    let first = 7 * k;
    record_of(0, doy, &fields[at..at + 8], &ap_arrays[first..first + 7])
}

// Whether count parts of eleven have no room, whether there are not eight for each, not seven. A count whose product has more than 64 bits is beyond every
// length; no quotient, which a processor of 32 bits would call a function for.
pub fn no_room(len: usize, count: usize) -> bool
    ensures { result ≡ ltb len (11 * count) }
{
    if count > 1676976733973595601 {
        return true;
    }
    len < 11 * count
}

pub fn not_eight(len: usize, count: usize) -> bool
    ensures { result ≡ not (eqb len (8 * count)) }
{
    if count > 2305843009213693951 {
        return true;
    }
    len != 8 * count
}

pub fn not_seven(len: usize, count: usize) -> bool
    ensures { result ≡ not (eqb len (7 * count)) }
{
    if count > 2635249153387078802 {
        return true;
    }
    len != 7 * count
}

// A slice has not the length needed.
fn length_needed(length: usize) -> u64
    ensures { result ≡ packed_of 4 length }
{
    packed(Reason::WrongLength.number(), length)
}

// 4 with the length that is needed, for the first slice that has not its length: rows, answers, fields, ap_arrays, switches; 0 where all have. A
// refusal's place has 32 bits, so that of the count no more is multiplied.
pub fn lengths_code(
    count: usize,
    fields: usize,
    ap_arrays: usize,
    switches: usize,
    answers: usize,
    rows: usize,
) -> u64
    ensures { result ≡ code_of (lengths_answer count fields ap_arrays switches answers rows) }
{
    let low = count % 4294967296;
    if no_room(rows, count) {
        return length_needed(11 * low);
    }
    if answers < count {
        return length_needed(low);
    }
    if not_eight(fields, count) {
        return length_needed(8 * low);
    }
    if (ap_arrays != 0) & not_seven(ap_arrays, count) {
        return length_needed(7 * low);
    }
    if switches != 24 {
        return length_needed(24);
    }
    0
}
