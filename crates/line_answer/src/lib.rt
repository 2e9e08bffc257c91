// The answers to the lines of the line program, and the input cut into its lines.

#![tactic(auto)]

ghost use Rattle.std.specs.Prelude.{◌≡◌, ◌+◌, ◌*◌, ◌≤◌, length, take};
ghost use Rattle.line_text.specs.Text.{Writes};
ghost use Rattle.line_answer.specs.Answer.{dnet_value, ccor_value, outcome_text, run_answer, answer_text};
ghost use Rattle.line_answer.specs.Lines.{progress_of, step_of, fed_of, len_after, line_step, line_after, KeptBehind, last_printed, begin};

use atmosphere::gtd7;
use line_cut::{keep, next_number};
use line_form::{
    Reading, Run, ccor_form, dnet_form, input_of, run_form, switches_of, thousandths_at,
};
use line_text::{refused, row, value};
use mixing::{ccor, dnet};
use refusals::Refusal;

// How far the input is read: how many bytes of the line begun are kept, its number, and how many bytes of answers wait.
#[derive(Clone, Copy)]
pub struct Place {
    pub len: usize,
    pub number: u64,
    pub used: usize,
}

pub fn dnet_value(r: Reading) -> f64
    ensures { result ≡ dnet_value r }
{
    let dd = thousandths_at(r, 0);
    let dm = thousandths_at(r, 1);
    let zhm = thousandths_at(r, 2);
    let xmm = thousandths_at(r, 3);
    let xm = thousandths_at(r, 4);
    dnet(dd, dm, zhm, xmm, xm)
}

pub fn ccor_value(r: Reading) -> f64
    ensures { result ≡ ccor_value r }
{
    let alt = thousandths_at(r, 0);
    let rate = thousandths_at(r, 1);
    let h1 = thousandths_at(r, 2);
    let zh = thousandths_at(r, 3);
    ccor(alt, rate, h1, zh)
}

// The row where the record is accepted, else the refusal.
pub fn outcome(out: &mut [u8], at: usize, a: Result<(), Refusal>, eleven: [f64; 11]) -> usize
    requires { at + 193 ≤ length out.old }
    ensures { Writes out.old at (outcome_text a eleven) out.new result × (length (outcome_text a eleven) ≤ 193) }
{
    match a {
        Ok(()) => row(out, at, eleven),
        Err(r) => refused(out, at, r.reason.number() as u64, r.place as u64),
    }
}

pub fn run(out: &mut [u8], at: usize, f: Run) -> usize
    requires { at + 193 ≤ length out.old }
    ensures { Writes out.old at (run_answer f) out.new result × (length (run_answer f) ≤ 193) }
{
    let n = input_of(f);
    let q = f.reading;
    let w = switches_of(q);
    let mut eleven: [f64; 11] = [0.0; 11];
    let a = gtd7(w, n, &mut eleven);
    outcome(out, at, a, eleven)
}

// One line without its newline.
pub fn answer(out: &mut [u8], at: usize, s: &[u8], number: u64) -> usize
    requires { at + 193 ≤ length out.old }
    ensures { Writes out.old at (answer_text s.now number) out.new result
        × (length (answer_text s.now number) ≤ 193) }
{
    let a = dnet_form(s);
    if a.ok {
        return value(out, at, dnet_value(a));
    }
    let b = ccor_form(s);
    if b.ok {
        return value(out, at, ccor_value(b));
    }
    let c = run_form(s);
    let q = c.reading;
    if q.ok {
        return run(out, at, c);
    }
    refused(out, at, 7, number)
}

// One byte of the input.
pub fn take_byte(b: u8, line: &mut [u8], out: &mut [u8], p: Place) -> Place
    requires { (length line.old ≡ 512) × (p.len ≤ 512) × (p.used + 193 ≤ length out.old) }
    ensures result_after { (progress_of line.new out.new result ≡ step_of b (progress_of line.old out.old p))
        × (result.len ≤ 512) × (p.used ≤ result.used) × (result.used ≤ p.used + 193) }
    ensures len_value { (result.len ≡ len_after b p.len) × (line.new ≡ line_step b p.len line.old)
        × KeptBehind out.old out.new result.used }
{
    let len = p.len;
    let number = p.number;
    let used = p.used;
    if b == 10 {
        let end = answer(out, used, &line[..len], number);
        return Place {
            len: 0,
            number: next_number(number),
            used: end,
        };
    }
    Place {
        len: keep(b, line, len),
        number: number,
        used: used,
    }
}

// Before the input.
pub fn start() -> Place
    ensures { (result.len ≡ 0) × (result.number ≡ 1) × (result.used ≡ 0) }
{
    Place {
        len: 0,
        number: 1,
        used: 0,
    }
}

// A chunk of the input, and the answers to the lines that end in it, for which the buffer has room.
pub fn feed(chunk: &[u8], line: &mut [u8], out: &mut [u8], p: Place) -> Place
    requires { (length line.old ≡ 512) × (p.len ≤ 512) × (193 * length chunk.now ≤ length out.old) }
    ensures result_after { (progress_of line.new out.new result ≡ fed_of chunk.now (begin (take p.len line.old) p.number))
        × (result.len ≤ 512) × (result.used ≤ length out.old) }
    ensures line_after { (line.new ≡ line_after chunk.now p.len line.old)
        × KeptBehind out.old out.new result.used }
{
    let mut q = Place {
        len: p.len,
        number: p.number,
        used: 0,
    };
    for b in chunk {
        q = take_byte(*b, line, out, q);
    }
    q
}

// The end of the input, and the answer to a last line without newline.
pub fn finish(line: &[u8], out: &mut [u8], p: Place) -> usize
    requires { (p.len ≤ length line.now) × (193 ≤ length out.old) }
    ensures { (take result out.new ≡ last_printed (begin (take p.len line.now) p.number))
        × (result ≤ length out.old) × KeptBehind out.old out.new result }
{
    let len = p.len;
    let number = p.number;
    if len == 0 {
        return 0;
    }
    answer(out, 0, &line[..len], number)
}
