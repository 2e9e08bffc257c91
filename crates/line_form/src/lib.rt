// A line's bytes read as one of document 01's forms.

#![tactic(auto)]

ghost use Rattle.std.specs.Prelude.{◌≡◌, ◌+◌, ◌≤◌, ◌<◌, IfSome, pos, length, set, get_or, true};
ghost use Rattle.line_form.specs.Grammar.{here_of, starts_of, digit_of, more_of, with_sign, positive_of, read_number, stopped_of, read_numbers, field_of, closed_of, start_of, dnet_form_of, ccor_form_of, date_fields, place_fields, activity_fields, later_of, last_fields, run_form_of, switches_of, thousandths_at, history_when, array_of, input_of};

use setting::{History, Input};

// Digits read: their number, and the index after them.
#[derive(Clone, Copy)]
pub struct Digits {
    pub size: u32,
    pub next: usize,
}

// A whole number read, and the index after it.
#[derive(Clone, Copy)]
pub struct WholeNumber {
    pub value: i32,
    pub next: usize,
}

// A form being read: whether it is one so far, the index reached, and its numbers.
#[derive(Clone, Copy)]
pub struct Reading {
    pub ok: bool,
    pub next: usize,
    pub values: [i32; 41],
}

// A run form: whether the array is there, and the numbers: the fields 0 to 9, the array's values from 10, the switches from 17.
#[derive(Clone, Copy)]
pub struct Run {
    pub array: bool,
    pub reading: Reading,
}

pub fn here(s: &[u8], k: usize, c: u8) -> bool
    ensures { result ≡ here_of s.now k c }
{
    if k < s.len() {
        return s[k] == c;
    }
    false
}

pub fn starts(s: &[u8], k: usize, text: &[u8]) -> bool
    requires { k ≤ length s.now }
    ensures { result ≡ starts_of s.now k text.now }
{
    s[k..].starts_with(text)
}

pub fn digit(s: &[u8], k: usize) -> Option<u32>
    ensures value { result ≡ digit_of s.now k }
    ensures bound { IfSome result (λ d. (d < 10) × (k < length s.now)) }
{
    if k >= s.len() {
        return None;
    }
    let b = s[k];
    if b < b'0' {
        return None;
    }
    if b > b'9' {
        return None;
    }
    Some((b - b'0') as u32)
}

pub fn more(s: &[u8], at: usize, first: u32) -> Digits
    requires at_in_bounds { at ≤ length s.now }
    requires first_bound { first < 10 }
    ensures { (result ≡ more_of 8 s.now at first) × (result.size < 1000000000) × (result.next ≤ length s.now) }
{
    let mut v = first;
    for i in 0..8 {
        let k = at + i;
        let Some(d) = digit(s, k) else {
            return Digits { size: v, next: k };
        };
        v = 10 * v + d;
    }
    Digits {
        size: v,
        next: at + 8,
    }
}

// A u32 below 10^9 as an i32.
pub fn to_i32(size: u32) -> i32
    requires { size < 1000000000 }
    ensures { result ≡ pos size }
{
    size as i32
}

pub fn signed(minus: bool, size: u32) -> i32
    requires { size < 1000000000 }
    ensures { result ≡ with_sign minus size }
{
    let z = to_i32(size);
    if minus {
        return -z;
    }
    z
}

pub fn positive(minus: bool, s: &[u8], k: usize) -> Option<WholeNumber>
    requires { k ≤ length s.now }
    ensures value { result ≡ positive_of minus s.now k }
    ensures bound { IfSome result (λ n. n.next ≤ length s.now) }
{
    let d = digit(s, k)?;
    if d == 0 {
        return None;
    }
    let w = more(s, k + 1, d);
    let z = signed(minus, w.size);
    Some(WholeNumber {
        value: z,
        next: w.next,
    })
}

pub fn number(s: &[u8], k: usize) -> Option<WholeNumber>
    requires { k ≤ length s.now }
    ensures value { result ≡ read_number s.now k }
    ensures bound { IfSome result (λ n. n.next ≤ length s.now) }
{
    if here(s, k, b'0') {
        return Some(WholeNumber {
            value: 0,
            next: k + 1,
        });
    }
    if here(s, k, b'-') {
        return positive(true, s, k + 1);
    }
    positive(false, s, k)
}

pub fn stopped(r: Reading) -> Reading
    ensures { result ≡ stopped_of r }
{
    let mut q = r;
    q.ok = false;
    q
}

// One more number, put at i.
pub fn with_number(r: Reading, i: usize, n: WholeNumber) -> Reading
    requires { i < 41 }
    ensures { result ≡ record { ok = true; next = n.next; values = set r.values i n.value } }
{
    let mut q = r;
    let z = n.value;
    q.ok = true;
    q.next = n.next;
    q.values[i] = z;
    q
}

pub fn numbers(s: &[u8], i: usize, m: usize, r: Reading) -> Reading
    requires m_bound { i + m ≤ 41 }
    requires next_in_bounds { r.next ≤ length s.now }
    ensures { (result ≡ read_numbers m s.now i r) × (result.next ≤ length s.now) }
{
    let mut q = r;
    for j in i..i + m {
        let at = q.next;
        if !here(s, at, b' ') {
            return stopped(q);
        }
        let Some(n) = number(s, at + 1) else {
            return stopped(q);
        };
        q = with_number(q, j, n);
    }
    q
}

// The index after a text.
pub fn passed(r: Reading, length: usize) -> Reading
    requires { r.next + length < 18446744073709551616 }
    ensures { result ≡ record { ok = true; next = r.next + length; values = r.values } }
{
    let mut q = r;
    let k = r.next;
    q.ok = true;
    q.next = k + length;
    q
}

pub fn field(s: &[u8], text: &[u8], i: usize, m: usize, r: Reading) -> Reading
    requires m_bound { i + m ≤ 41 }
    requires next_in_bounds { r.next ≤ length s.now }
    ensures { (result ≡ field_of s.now text.now i m r) × (result.next ≤ length s.now) }
{
    if !r.ok {
        return r;
    }
    let k = r.next;
    if !starts(s, k, text) {
        return stopped(r);
    }
    let q = passed(r, text.len());
    numbers(s, i, m, q)
}

// A text that ends the line.
pub fn closed(s: &[u8], text: &[u8], r: Reading) -> Reading
    requires { r.next ≤ length s.now }
    ensures { result ≡ closed_of s.now text.now r }
{
    let k = r.next;
    let ok = r.ok;
    let there = starts(s, k, text);
    let mut q = r;
    q.ok = (s.len() < 512) & (ok & (there & (k + text.len() == s.len())));
    q
}

pub fn start() -> Reading
    ensures { result ≡ start_of }
{
    Reading {
        ok: true,
        next: 0,
        values: [0; 41],
    }
}

pub fn dnet_form(s: &[u8]) -> Reading
    ensures { result ≡ dnet_form_of s.now }
{
    let r = start();
    let q = field(s, b"(dnet", 0, 5, r);
    closed(s, b")", q)
}

pub fn ccor_form(s: &[u8]) -> Reading
    ensures { result ≡ ccor_form_of s.now }
{
    let r = start();
    let q = field(s, b"(ccor", 0, 4, r);
    closed(s, b")", q)
}

pub fn date(s: &[u8]) -> Reading
    ensures { (result ≡ date_fields s.now) × (result.next ≤ length s.now) }
{
    let a = start();
    let b = field(s, b"(run (year", 0, 1, a);
    let c = field(s, b") (doy", 1, 1, b);
    let d = field(s, b") (sec", 2, 1, c);
    field(s, b") (alt", 3, 1, d)
}

pub fn place(s: &[u8], r: Reading) -> Reading
    requires { r.next ≤ length s.now }
    ensures { (result ≡ place_fields s.now r) × (result.next ≤ length s.now) }
{
    let a = field(s, b") (g_lat", 4, 1, r);
    let b = field(s, b") (g_long", 5, 1, a);
    field(s, b") (lst", 6, 1, b)
}

pub fn activity(s: &[u8], r: Reading) -> Reading
    requires { r.next ≤ length s.now }
    ensures { (result ≡ activity_fields s.now r) × (result.next ≤ length s.now) }
{
    let a = field(s, b") (f107a", 7, 1, r);
    let b = field(s, b") (f107", 8, 1, a);
    field(s, b") (ap", 9, 1, b)
}

pub fn later(a: Reading, r: Reading) -> Reading
    ensures { result ≡ later_of a r }
{
    if a.ok {
        return a;
    }
    r
}

pub fn rest(s: &[u8], r: Reading) -> Reading
    requires { r.next ≤ length s.now }
    ensures { result ≡ last_fields s.now r }
{
    let a = field(s, b") (ap_array", 10, 7, r);
    let b = later(a, r);
    let c = field(s, b") (switches", 17, 24, b);
    closed(s, b"))", c)
}

pub fn run_form(s: &[u8]) -> Run
    ensures { result ≡ run_form_of s.now }
{
    let a = date(s);
    let b = place(s, a);
    let c = activity(s, b);
    let array = starts(s, c.next, b") (ap_array");
    let reading = rest(s, c);
    Run {
        array: array,
        reading: reading,
    }
}

pub fn switches_of(r: Reading) -> [i32; 24]
    ensures { result ≡ switches_of r }
{
    let mut w: [i32; 24] = [0; 24];
    w.copy_from_slice(&r.values[17..41]);
    w
}

pub fn thousandths_at(r: Reading, i: usize) -> f64
    requires { i < 41 }
    ensures { result ≡ thousandths_at r i }
{
    let v = r.values;
    let z = v[i];
    z as f64 / 1000.0
}

pub fn history_of(array: bool) -> History
    ensures { result ≡ history_when array }
{
    if array {
        return History::Present;
    }
    History::Absent
}

pub fn array_of(r: Reading) -> [f64; 7]
    ensures { result ≡ array_of r }
{
    [
        thousandths_at(r, 10),
        thousandths_at(r, 11),
        thousandths_at(r, 12),
        thousandths_at(r, 13),
        thousandths_at(r, 14),
        thousandths_at(r, 15),
        thousandths_at(r, 16),
    ]
}

pub fn input_of(f: Run) -> Input
    ensures { result ≡ input_of f }
{
    let r = f.reading;
    let v = r.values;
    Input {
        year: v[0],
        doy: v[1],
        sec: thousandths_at(r, 2),
        alt: thousandths_at(r, 3),
        g_lat: thousandths_at(r, 4),
        g_long: thousandths_at(r, 5),
        lst: thousandths_at(r, 6),
        f107a: thousandths_at(r, 7),
        f107: thousandths_at(r, 8),
        ap: thousandths_at(r, 9),
        history: history_of(f.array),
        ap_array: array_of(r),
    }
}
