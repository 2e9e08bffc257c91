// A prepared station on the host: 27 whole numbers and 259 numbers that the caller keeps.
ghost use Rattle.std.specs.Prelude.{◌≡◌, length};
ghost use Rattle.station_answer.specs.declared.Change.TheVariants.{Fluxes, GLong, Lst, Move, Sec};
ghost use Rattle.station_answer.specs.Answers.{altitude_answer, change_answer};
ghost use Rattle.station.specs.Station.{altitude_row, altitude_drag, changed_numbers};
ghost use Rattle.host_record.specs.Record.{code_of};
ghost use Rattle.potirehu.specs.Potirehu.{host_station, host_whole, host_numbers, host_switches, host_switched_whole, host_switched_numbers};

use host_record::{code, lengths, record_of, switch_row};
use refusals::Reason;
use station::{change, change_switches, gtd7, gtd7d, prepare};
use station_answer::Change;

// Prepares a station from a record, whose altitude is not looked at, and a switch row.
#[unsafe(no_mangle)]
pub extern "C" fn potirehu_station(
    year: i32,
    doy: i32,
    fields: &[f64],
    ap_array: &[f64],
    switches: &[i32],
    whole: &mut [i32],
    numbers: &mut [f64],
) -> u64
    ensures { (result ≡ code_of (host_station year doy fields.now ap_array.now switches.now (length whole.old) (length numbers.old)))
        × (whole.new ≡ host_whole year doy fields.now ap_array.now switches.now whole.old (length numbers.old))
        × (numbers.new ≡ host_numbers year doy fields.now ap_array.now switches.now (length whole.old) numbers.old) }
{
    if whole.len() != 27 {
        return code(Err(Reason::WrongLength.at(27)));
    }
    if numbers.len() != 259 {
        return code(Err(Reason::WrongLength.at(259)));
    }
    if let Err(refusal) = lengths(fields, ap_array, switches) {
        return code(Err(refusal));
    }
    let w = switch_row(switches);
    let n = record_of(year, doy, fields, ap_array);
    let a = prepare(w, n, whole, numbers);
    code(a)
}

// The eleven numbers at an altitude of a station.
#[unsafe(no_mangle)]
pub extern "C" fn potirehu_station_gtd7(
    whole: &[i32],
    numbers: &[f64],
    alt: f64,
    row: &mut [f64],
) -> u64
    ensures { (result ≡ code_of (altitude_answer (length row.old) whole.now (length numbers.now) alt))
        × (row.new ≡ altitude_row whole.now numbers.now alt row.old) }
{
    let a = gtd7(whole, numbers, alt, row);
    code(a)
}

// The same for drag: the mass density is gtd7d's.
#[unsafe(no_mangle)]
pub extern "C" fn potirehu_station_gtd7d(
    whole: &[i32],
    numbers: &[f64],
    alt: f64,
    row: &mut [f64],
) -> u64
    ensures { (result ≡ code_of (altitude_answer (length row.old) whole.now (length numbers.now) alt))
        × (row.new ≡ altitude_drag whole.now numbers.now alt row.old) }
{
    let a = gtd7d(whole, numbers, alt, row);
    code(a)
}

// Changes of one field of the record, or of both fluxes.
#[unsafe(no_mangle)]
pub extern "C" fn potirehu_station_sec(whole: &[i32], numbers: &mut [f64], sec: f64) -> u64
    ensures { (result ≡ code_of (change_answer (Sec sec) whole.now numbers.old)) × (numbers.new ≡ changed_numbers (Sec sec) whole.now numbers.old) }
{
    let a = change(whole, numbers, Change::Sec(sec));
    code(a)
}

#[unsafe(no_mangle)]
pub extern "C" fn potirehu_station_lst(whole: &[i32], numbers: &mut [f64], lst: f64) -> u64
    ensures { (result ≡ code_of (change_answer (Lst lst) whole.now numbers.old)) × (numbers.new ≡ changed_numbers (Lst lst) whole.now numbers.old) }
{
    let a = change(whole, numbers, Change::Lst(lst));
    code(a)
}

#[unsafe(no_mangle)]
pub extern "C" fn potirehu_station_g_long(whole: &[i32], numbers: &mut [f64], g_long: f64) -> u64
    ensures { (result ≡ code_of (change_answer (GLong g_long) whole.now numbers.old)) × (numbers.new ≡ changed_numbers (GLong g_long) whole.now numbers.old) }
{
    let a = change(whole, numbers, Change::GLong(g_long));
    code(a)
}

#[unsafe(no_mangle)]
pub extern "C" fn potirehu_station_fluxes(
    whole: &[i32],
    numbers: &mut [f64],
    f107a: f64,
    f107: f64,
) -> u64
    ensures { (result ≡ code_of (change_answer (Fluxes f107a f107) whole.now numbers.old)) × (numbers.new ≡ changed_numbers (Fluxes f107a f107) whole.now numbers.old) }
{
    let a = change(whole, numbers, Change::Fluxes(f107a, f107));
    code(a)
}

// A move: sec, lst and g_long in one change.
#[unsafe(no_mangle)]
pub extern "C" fn potirehu_station_move(
    whole: &[i32],
    numbers: &mut [f64],
    sec: f64,
    lst: f64,
    g_long: f64,
) -> u64
    ensures { (result ≡ code_of (change_answer (Move sec lst g_long) whole.now numbers.old)) × (numbers.new ≡ changed_numbers (Move sec lst g_long) whole.now numbers.old) }
{
    let a = change(whole, numbers, Change::Move(sec, lst, g_long));
    code(a)
}

// A new switch row.
#[unsafe(no_mangle)]
pub extern "C" fn potirehu_station_switches(
    whole: &mut [i32],
    numbers: &mut [f64],
    switches: &[i32],
) -> u64
    ensures { (result ≡ code_of (host_switches switches.now whole.old numbers.old))
        × (whole.new ≡ host_switched_whole switches.now whole.old numbers.old)
        × (numbers.new ≡ host_switched_numbers switches.now whole.old numbers.old) }
{
    if whole.len() != 27 {
        return code(Err(Reason::WrongLength.at(27)));
    }
    if numbers.len() != 259 {
        return code(Err(Reason::WrongLength.at(259)));
    }
    if switches.len() != 24 {
        return code(Err(Reason::WrongLength.at(24)));
    }
    let w = switch_row(switches);
    let a = change_switches(w, whole, numbers);
    code(a)
}
