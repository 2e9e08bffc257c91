// Which fields count under a switch row, and the one-altitude call for a record of which only some fields are known, on numbers and slices.
ghost use Rattle.std.specs.Prelude.{◌≡◌, length};
ghost use Rattle.host_record.specs.Record.{code_of};
ghost use Rattle.potirehu.specs.KnownInPart.{host_counts, host_counted, host_known, host_known_row};

use counts::counts;
use host_record::{code, lengths, record_of, switch_row};
use known::gtd7_known;
use known_record::put_marks;
use refusals::Reason;

// For each of the fields 0 to 16, 1 where it counts under the row and 0 where the row shuts it off.
#[unsafe(no_mangle)]
pub extern "C" fn potirehu_counts(switches: &[i32], fields: &mut [i32]) -> u64
    ensures { (result ≡ code_of (host_counts switches.now (length fields.old))) × (fields.new ≡ host_counted switches.now fields.old) }
{
    if fields.len() != 17 {
        return code(Err(Reason::WrongLength.at(17)));
    }
    if switches.len() != 24 {
        return code(Err(Reason::WrongLength.at(24)));
    }
    let w = switch_row(switches);
    let counted = counts(w);
    put_marks(counted, fields);
    code(Ok(()))
}

// potirehu_gtd7 for a record of which those fields are known whose bits are set in known, bit k for field k; the others are not looked at.
#[unsafe(no_mangle)]
pub extern "C" fn potirehu_gtd7_known(
    known: u32,
    year: i32,
    doy: i32,
    fields: &[f64],
    ap_array: &[f64],
    switches: &[i32],
    row: &mut [f64],
) -> u64
    ensures { (result ≡ code_of (host_known known year doy fields.now ap_array.now switches.now (length row.old)))
        × (row.new ≡ host_known_row known year doy fields.now ap_array.now switches.now row.old) }
{
    if row.len() != 11 {
        return code(Err(Reason::WrongLength.at(11)));
    }
    if let Err(refusal) = lengths(fields, ap_array, switches) {
        return code(Err(refusal));
    }
    let w = switch_row(switches);
    let n = record_of(year, doy, fields, ap_array);
    let a = gtd7_known(known, w, n, row);
    code(a)
}
