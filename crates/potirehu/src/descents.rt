// A descent, orbit by orbit, on the host.
ghost use Rattle.std.specs.Prelude.{◌≡◌, length};
ghost use Rattle.potirehu.specs.Descents.{descended_code, end_after, EndFits, host_descent, host_losses, host_end};

use descent::descent;
use descent_orbits::{Descended, put_end};
use host_record::{code, lengths, packed, record_of, switch_row};
use refusals::{Reason, Refusal};

// An ending into its three numbers, and 0; or a refusal's number times 2^32 and its place.
pub fn put_descended(end: &mut [i64], a: Result<Descended, Refusal>) -> u64
    requires { (length end.old ≡ 3) × EndFits a }
    ensures { (result ≡ descended_code a) × (end.new ≡ end_after a end.old) }
{
    match a {
        Ok(d) => {
            put_end(end, d);
            0
        }
        Err(r) => packed(r.reason.number(), r.place),
    }
}

// Simulates a descent from start millimetres with a setting for each orbit: the losses at the start of their list, and in end how it ended.
#[unsafe(no_mangle)]
pub extern "C" fn potirehu_descent(
    year: i32,
    doy: i32,
    fields: &[f64],
    ap_array: &[f64],
    switches: &[i32],
    start: i64,
    settings: &[i32],
    losses: &mut [i64],
    end: &mut [i64],
) -> u64
    ensures { (result ≡ descended_code (host_descent year doy fields.now ap_array.now switches.now start settings.now (length losses.old) (length end.old)))
        × (losses.new ≡ host_losses year doy fields.now ap_array.now switches.now start settings.now losses.old (length end.old))
        × (end.new ≡ host_end year doy fields.now ap_array.now switches.now start settings.now (length losses.old) end.old) }
{
    if end.len() != 3 {
        return code(Err(Reason::WrongLength.at(3)));
    }
    if let Err(refusal) = lengths(fields, ap_array, switches) {
        return code(Err(refusal));
    }
    let w = switch_row(switches);
    let n = record_of(year, doy, fields, ap_array);
    let a = descent(w, n, start, settings, losses);
    put_descended(end, a)
}
