// Where the density of a column passes a level, on the host.
ghost use Rattle.std.specs.Prelude.{◌≡◌, length};
ghost use Rattle.potirehu.specs.Crossings.{listing_code, host_crossings, host_list};

use crossings::crossings;
use host_record::{code, lengths, packed, record_of, switch_row};
use refusals::Refusal;

// How long the list is, or a refusal's number times 2^32 and its place.
pub fn listing_code(a: Result<usize, Refusal>) -> u64
    ensures { result ≡ listing_code a }
{
    match a {
        Ok(m) => m as u64,
        Err(r) => packed(r.reason.number(), r.place),
    }
}

// Where d[5] passes the level between altitudes that rise: the lower index of each pair at the start of list.
#[unsafe(no_mangle)]
pub extern "C" fn potirehu_crossings(
    year: i32,
    doy: i32,
    fields: &[f64],
    ap_array: &[f64],
    switches: &[i32],
    altitudes: &[f64],
    level: f64,
    list: &mut [u64],
) -> u64
    ensures { (result ≡ listing_code (host_crossings year doy fields.now ap_array.now switches.now altitudes.now level (length list.old)))
        × (list.new ≡ host_list year doy fields.now ap_array.now switches.now altitudes.now level list.old) }
{
    if let Err(refusal) = lengths(fields, ap_array, switches) {
        return code(Err(refusal));
    }
    let w = switch_row(switches);
    let n = record_of(year, doy, fields, ap_array);
    let a = crossings(w, n, altitudes, level, list);
    listing_code(a)
}
