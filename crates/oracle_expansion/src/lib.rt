// For comparison on the host: the public globe7 and glob7s on numbers and slices. A call writes its value and the 79 numbers of the State
// after it into a lent slice and answers 0, or the refusal's number times 2^32 and its place, the slice as lent.

#![tactic(auto)]

ghost use Rattle.std.specs.Prelude.{◌≡◌, None, length};
ghost use Rattle.oracle_expansion.specs.OracleExpansion.{legendre_read, state_with, state_of, misfit_of, host_globe7, host_glob7s, told_of, entry_of, expanded_numbers, expanded_after, expanded_code};

use expansion_calls::{ExpansionRefusal, glob7s, globe7};
use host_record::{packed, record_of, switch_row};
use oracle_state::number;
use setting::{Left, State};

// The Legendre values of the 79 numbers, 31 to 66.
pub fn legendre(x: &[f64]) -> [f64; 36]
    requires { length x.now ≡ 79 }
    ensures { result ≡ legendre_read x.now }
{
    let mut g = [0.0; 36];
    g.copy_from_slice(&x[31..67]);
    g
}

// State from its 79 numbers in the order of its fields, the Legendre values from g; dm28 was set where the last is 1.
pub fn state_with(x: &[f64], g: [f64; 36]) -> State
    requires { length x.now ≡ 79 }
    ensures { result ≡ state_with x.now g }
{
    State {
        gsurf: x[0],
        re: x[1],
        dd: x[2],
        dm04: x[3],
        dm16: x[4],
        dm28: x[5],
        dm28_set: x[78] == 1.0,
        dm32: x[6],
        dm40: x[7],
        dm01: x[8],
        dm14: x[9],
        meso_tn1: [x[10], x[11], x[12], x[13], x[14]],
        meso_tn2: [x[15], x[16], x[17], x[18]],
        meso_tn3: [x[19], x[20], x[21], x[22], x[23]],
        meso_tgn1: [x[24], x[25]],
        meso_tgn2: [x[26], x[27]],
        meso_tgn3: [x[28], x[29]],
        dfa: x[30],
        plg: g,
        ctloc: x[67],
        stloc: x[68],
        c2tloc: x[69],
        s2tloc: x[70],
        s3tloc: x[71],
        c3tloc: x[72],
        apdf: x[73],
        apt: [x[74], x[75], x[76], x[77]],
    }
}

pub fn state_of(x: &[f64]) -> State
    requires { length x.now ≡ 79 }
    ensures { result ≡ state_of x.now }
{
    let g = legendre(x);
    state_with(x, g)
}

// The length that the first slice without its length needs; none where all have theirs.
pub fn misfit(
    numbers: usize,
    fields: usize,
    ap_array: usize,
    switches: usize,
    state: usize,
) -> Option<usize>
    ensures value { result ≡ misfit_of numbers fields ap_array switches state }
    ensures numbers_value { result ≡ None → (numbers ≡ 80) × (fields ≡ 8) × (switches ≡ 24) × (state ≡ 79) }
{
    if numbers != 80 {
        return Some(80);
    }
    if fields != 8 {
        return Some(8);
    }
    if (ap_array != 0) & (ap_array != 7) {
        return Some(7);
    }
    if switches != 24 {
        return Some(24);
    }
    if state != 79 {
        return Some(79);
    }
    None
}

// The value at 0, then the State's numbers.
pub fn entry(e: Left<f64>, k: usize) -> f64
    ensures { result ≡ entry_of e k }
{
    if k == 0 {
        return e.value;
    }
    let s = e.state;
    number(s, k - 1)
}

pub fn put(e: Left<f64>, numbers: &mut [f64])
    requires { length numbers.old ≡ 80 }
    ensures { numbers.new ≡ expanded_numbers e }
{
    for i in 0..80 {
        numbers[i] = entry(e, i);
    }
}

// A call's answer: 0 and the numbers, or the refusal as one number and the slice as lent.
pub fn tell(a: Result<Left<f64>, Left<ExpansionRefusal>>, numbers: &mut [f64]) -> u64
    requires { length numbers.old ≡ 80 }
    ensures { (result ≡ expanded_code (told_of a)) × (numbers.new ≡ expanded_after (told_of a) numbers.old) }
{
    match a {
        Ok(e) => {
            put(e, numbers);
            0
        }
        Err(r) => packed(r.value.number(), r.value.place()),
    }
}

// globe7: fields and ap_array as potirehu_gtd7 has them, p the coefficients, state the 79 numbers of State.
#[unsafe(no_mangle)]
pub extern "C" fn expansion_globe7(
    year: i32,
    doy: i32,
    fields: &[f64],
    ap_array: &[f64],
    switches: &[i32],
    p: &[f64],
    state: &[f64],
    numbers: &mut [f64],
) -> u64
    ensures value { result ≡ expanded_code (host_globe7 year doy fields.now ap_array.now switches.now p.now state.now (length numbers.old)) }
    ensures numbers_after { numbers.new ≡ expanded_after (host_globe7 year doy fields.now ap_array.now switches.now p.now state.now (length numbers.old)) numbers.old }
{
    let k = misfit(
        numbers.len(),
        fields.len(),
        ap_array.len(),
        switches.len(),
        state.len(),
    );
    if let Some(needed) = k {
        return packed(4, needed);
    }
    let w = switch_row(switches);
    let n = record_of(year, doy, fields, ap_array);
    let s = state_of(state);
    let a = globe7(w, n, p, s);
    tell(a, numbers)
}

// glob7s: fields and ap_array as potirehu_gtd7 has them, p the coefficients, state the 79 numbers of State.
#[unsafe(no_mangle)]
pub extern "C" fn expansion_glob7s(
    year: i32,
    doy: i32,
    fields: &[f64],
    ap_array: &[f64],
    switches: &[i32],
    p: &[f64],
    state: &[f64],
    numbers: &mut [f64],
) -> u64
    ensures value { result ≡ expanded_code (host_glob7s year doy fields.now ap_array.now switches.now p.now state.now (length numbers.old)) }
    ensures numbers_after { numbers.new ≡ expanded_after (host_glob7s year doy fields.now ap_array.now switches.now p.now state.now (length numbers.old)) numbers.old }
{
    let k = misfit(
        numbers.len(),
        fields.len(),
        ap_array.len(),
        switches.len(),
        state.len(),
    );
    if let Some(needed) = k {
        return packed(4, needed);
    }
    let w = switch_row(switches);
    let n = record_of(year, doy, fields, ap_array);
    let s = state_of(state);
    let a = glob7s(w, n, p, s);
    tell(a, numbers)
}
