// The one-altitude call with nine constants of the caller's, on numbers and slices.
ghost use Rattle.std.specs.Prelude.{◌≡◌, length};
ghost use Rattle.host_record.specs.Record.{code_of};
ghost use Rattle.potirehu.specs.Constants.{host_with, host_with_row};

use host_record::nine::{lengths_with, nine_of};
use host_record::{code, record_of, switch_row};
use varied_constants::gtd7_with;

// nine: the gas constant, the mass of mixed air, the mixing altitudes of He, O, N2, O2, Ar, H, N; all else as potirehu_gtd7 has it.
#[unsafe(no_mangle)]
pub extern "C" fn potirehu_gtd7_with(
    nine: &[f64],
    year: i32,
    doy: i32,
    fields: &[f64],
    ap_array: &[f64],
    switches: &[i32],
    row: &mut [f64],
) -> u64
    ensures { (result ≡ code_of (host_with nine.now year doy fields.now ap_array.now switches.now (length row.old)))
        × (row.new ≡ host_with_row nine.now year doy fields.now ap_array.now switches.now row.old) }
{
    if let Err(refusal) = lengths_with(nine, row.len(), fields, ap_array, switches) {
        return code(Err(refusal));
    }
    let c = nine_of(nine);
    let w = switch_row(switches);
    let n = record_of(year, doy, fields, ap_array);
    let a = gtd7_with(c, w, n, row);
    code(a)
}
