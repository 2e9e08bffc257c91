// The first altitude of a column thin enough, on the host.
ghost use Rattle.std.specs.Prelude.{◌≡◌, length};
ghost use Rattle.potirehu.specs.FirstBelow.{first_code, host_first, host_first_row};

use first_below::first_below;
use host_record::{code, lengths, packed, record_of, switch_row};
use refusals::{Reason, Refusal};

// The index, 2^32 - 1 where no altitude is thin enough, or a refusal's number times 2^32 and its place.
pub fn first_code(a: Result<Option<usize>, Refusal>) -> u64
    ensures { result ≡ first_code a }
{
    match a {
        Ok(Some(k)) => k as u64,
        Ok(None) => 4294967295,
        Err(r) => packed(r.reason.number(), r.place),
    }
}

// The first of the altitudes whose d[5] is below the level, its eleven numbers in row.
#[unsafe(no_mangle)]
pub extern "C" fn potirehu_first_below(
    year: i32,
    doy: i32,
    fields: &[f64],
    ap_array: &[f64],
    switches: &[i32],
    altitudes: &[f64],
    level: f64,
    row: &mut [f64],
) -> u64
    ensures { (result ≡ first_code (host_first year doy fields.now ap_array.now switches.now altitudes.now level (length row.old)))
        × (row.new ≡ host_first_row year doy fields.now ap_array.now switches.now altitudes.now level row.old) }
{
    if row.len() != 11 {
        return code(Err(Reason::WrongLength.at(11)));
    }
    if let Err(refusal) = lengths(fields, ap_array, switches) {
        return code(Err(refusal));
    }
    let w = switch_row(switches);
    let n = record_of(year, doy, fields, ap_array);
    let a = first_below(w, n, altitudes, level, row);
    first_code(a)
}
