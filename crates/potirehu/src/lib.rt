// What the host links: the elementary functions, the one-altitude call, also for drag, in bands of switch rows, with nine constants and for a record known in part, which fields count,
// the column, where its density passes a level, its first altitude thin enough, the station, a descent and the boards' logs, on numbers and slices.

#![tactic(auto)]

pub mod banded;
pub mod boards;
pub mod constants;
pub mod descents;
pub mod known_in_part;
pub mod listing;
pub mod many_records;
pub mod stations;
pub mod thin;

ghost use Rattle.std.specs.Prelude.{length, ◌≡◌};
ghost use Rattle.host_record.specs.Record.{code_of};
ghost use Rattle.potirehu.specs.Potirehu.{host_answer, host_row, host_drag, host_column, host_rows};
ghost use Rattle.elementary.specs.Exp.{exp_of};
ghost use Rattle.elementary.specs.Log.{log_of};
ghost use Rattle.elementary.specs.Trig.{sin_of, cos_of};
ghost use Rattle.elementary.specs.Root.{sqrt_of};
ghost use Rattle.elementary.specs.Pow.{pow_of};

use atmosphere::gtd7;
use column::gtd7_column;
use drag::gtd7d;
use elementary::exponential::exp;
use elementary::logarithm::log;
use elementary::power::pow;
use elementary::root::sqrt;
use elementary::trigonometry::{cos, sin};
use host_record::{code, lengths, record_of, switch_row};
use refusals::Reason;

#[unsafe(no_mangle)]
pub extern "C" fn elementary_exp(x: f64) -> f64
    ensures { result ≡ exp_of x }
{
    exp(x)
}

#[unsafe(no_mangle)]
pub extern "C" fn elementary_log(x: f64) -> f64
    ensures { result ≡ log_of x }
{
    log(x)
}

#[unsafe(no_mangle)]
pub extern "C" fn elementary_sin(x: f64) -> f64
    ensures { result ≡ sin_of x }
{
    sin(x)
}

#[unsafe(no_mangle)]
pub extern "C" fn elementary_cos(x: f64) -> f64
    ensures { result ≡ cos_of x }
{
    cos(x)
}

#[unsafe(no_mangle)]
pub extern "C" fn elementary_sqrt(x: f64) -> f64
    ensures { result ≡ sqrt_of x }
{
    sqrt(x)
}

#[unsafe(no_mangle)]
pub extern "C" fn elementary_pow(b: f64, e: f64) -> f64
    ensures { result ≡ pow_of b e }
{
    pow(b, e)
}

// fields: sec, alt, g_lat, g_long, lst, f107a, f107, ap. ap_array: none or seven. 0 where the record is accepted, else the refusal's number
// times 2^32 and its place.
#[unsafe(no_mangle)]
pub extern "C" fn potirehu_gtd7(
    year: i32,
    doy: i32,
    fields: &[f64],
    ap_array: &[f64],
    switches: &[i32],
    row: &mut [f64],
) -> u64
    ensures { (result ≡ code_of (host_answer year doy fields.now ap_array.now switches.now (length row.old))) × (row.new ≡ host_row year doy fields.now ap_array.now switches.now row.old) }
{
    if row.len() != 11 {
        return code(Err(Reason::WrongLength.at(11)));
    }
    if let Err(refusal) = lengths(fields, ap_array, switches) {
        return code(Err(refusal));
    }
    let w = switch_row(switches);
    let n = record_of(year, doy, fields, ap_array);
    let a = gtd7(w, n, row);
    code(a)
}

// The same for drag: the mass density is gtd7d's.
#[unsafe(no_mangle)]
pub extern "C" fn potirehu_gtd7d(
    year: i32,
    doy: i32,
    fields: &[f64],
    ap_array: &[f64],
    switches: &[i32],
    row: &mut [f64],
) -> u64
    ensures { (result ≡ code_of (host_answer year doy fields.now ap_array.now switches.now (length row.old))) × (row.new ≡ host_drag year doy fields.now ap_array.now switches.now row.old) }
{
    if row.len() != 11 {
        return code(Err(Reason::WrongLength.at(11)));
    }
    if let Err(refusal) = lengths(fields, ap_array, switches) {
        return code(Err(refusal));
    }
    let w = switch_row(switches);
    let n = record_of(year, doy, fields, ap_array);
    let a = gtd7d(w, n, row);
    code(a)
}

// potirehu_gtd7 at 0 to 512 altitudes, the record's own altitude not looked at; each altitude's eleven numbers go into their own part of rows.
#[unsafe(no_mangle)]
pub extern "C" fn potirehu_gtd7_column(
    year: i32,
    doy: i32,
    fields: &[f64],
    ap_array: &[f64],
    switches: &[i32],
    altitudes: &[f64],
    rows: &mut [f64],
) -> u64
    ensures { (result ≡ code_of (host_column year doy fields.now ap_array.now switches.now altitudes.now (length rows.old))) × (rows.new ≡ host_rows year doy fields.now ap_array.now switches.now altitudes.now rows.old) }
{
    if let Err(refusal) = lengths(fields, ap_array, switches) {
        return code(Err(refusal));
    }
    let w = switch_row(switches);
    let n = record_of(year, doy, fields, ap_array);
    let a = gtd7_column(w, n, altitudes, rows);
    code(a)
}
