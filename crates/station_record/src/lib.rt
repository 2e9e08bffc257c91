// The record and the switch row of a station in its two slices.

#![tactic(auto)]

ghost use Rattle.std.specs.Prelude.{◌≡◌, ◌<◌, pos, length, drop, get_or};
ghost use Rattle.setting.specs.Switches.{is_one, on_off};
ghost use Rattle.station_record.specs.Record.{mark_of, history_in, station_whole, record_numbers, record_in, units_in, mixing_in};

use setting::ap_history::absent;
use setting::{History, Input};

// A number of a slice of whole numbers.
pub fn whole_number(s: &[i32], i: usize) -> i32
    requires { i < length s.now }
    ensures { result ≡ get_or s.now i (pos 0) }
{
    s[i]
}

// 1 where the history is there.
pub fn mark(h: History) -> i32
    ensures { result ≡ mark_of h }
{
    if absent(h) {
        return 0;
    }
    1
}

// The whole numbers of a station: year, doy, the mark of the history, the 24 switches.
pub fn put_whole(w: [i32; 24], n: Input, whole: &mut [i32])
    requires { length whole.old ≡ 27 }
    ensures { whole.new ≡ station_whole w n }
{
    whole[0] = n.year;
    whole[1] = n.doy;
    whole[2] = mark(n.history);
    whole[3..].copy_from_slice(&w);
}

// The switch row.
pub fn row_in(whole: &[i32]) -> [i32; 24]
    requires { length whole.now ≡ 27 }
    ensures { result ≡ drop 3 whole.now }
{
    let mut w = [0; 24];
    w.copy_from_slice(&whole[3..]);
    w
}

// The main effect of an entry that is not 9.
pub fn main_in(whole: &[i32], i: usize) -> f64
    requires { i < length whole.now }
    ensures { result ≡ on_off (is_one (get_or whole.now i (pos 0))) }
{
    let x = whole[i];
    if x == 1 {
        return 1.0;
    }
    0.0
}

// The main effects of switch 0, which asks for m and kg, and of switch 15, which mixes.
pub fn units_in(whole: &[i32]) -> f64
    requires { length whole.now ≡ 27 }
    ensures { result ≡ units_in whole.now }
{
    main_in(whole, 3)
}

pub fn mixing_in(whole: &[i32]) -> f64
    requires { length whole.now ≡ 27 }
    ensures { result ≡ mixing_in whole.now }
{
    main_in(whole, 18)
}

pub fn history_in(whole: &[i32]) -> History
    requires { length whole.now ≡ 27 }
    ensures { result ≡ history_in (get_or whole.now 2 (pos 0)) }
{
    let x = whole[2];
    if x == 1 {
        return History::Present;
    }
    History::Absent
}

// The record's numbers, its altitude not among them.
pub fn record_numbers(n: Input) -> [f64; 14]
    ensures { result ≡ record_numbers n }
{
    let a = n.ap_array;
    [
        n.sec, n.g_lat, n.g_long, n.lst, n.f107a, n.f107, n.ap, a[0], a[1], a[2], a[3], a[4], a[5],
        a[6],
    ]
}

// The record that a station holds, at altitude 0.
pub fn record_in(whole: &[i32], numbers: &[f64]) -> Input
    requires { (length whole.now ≡ 27) × (length numbers.now ≡ 259) }
    ensures { result ≡ record_in whole.now numbers.now }
{
    let year = whole_number(whole, 0);
    let doy = whole_number(whole, 1);
    let h = history_in(whole);
    Input {
        year: year,
        doy: doy,
        sec: numbers[0],
        alt: 0.0,
        g_lat: numbers[1],
        g_long: numbers[2],
        lst: numbers[3],
        f107a: numbers[4],
        f107: numbers[5],
        ap: numbers[6],
        history: h,
        ap_array: [
            numbers[7],
            numbers[8],
            numbers[9],
            numbers[10],
            numbers[11],
            numbers[12],
            numbers[13],
        ],
    }
}
