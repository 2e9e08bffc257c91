// For comparison on the host: the 79 numbers of the State that gtd7 leaves, the last of them 1 or 0 for the mark beside dm28.

#![tactic(auto)]

ghost use Rattle.std.specs.Prelude.{◌≡◌, length};
ghost use Rattle.host_record.specs.Record.{code_of};
ghost use Rattle.atmosphere.specs.Atmosphere.{left_of};
ghost use Rattle.oracle_state.specs.OracleState.{node_numbers, last_numbers, state_number, numbers_of_state, state_answer, state_numbers};

use gts7_arithmetic::site_of;
use host_record::{code, lengths, record_of, switch_row};
use model_state::gtd7_from_fresh;
use numbers::pick;
use refusals::Reason;
use setting::{Input, State};
use views::view_of;

// The first thirty numbers of State: ten fields, then the nodes.
pub fn nodes(s: State) -> [f64; 30]
    ensures { result ≡ node_numbers s }
{
    [
        s.gsurf,
        s.re,
        s.dd,
        s.dm04,
        s.dm16,
        s.dm28,
        s.dm32,
        s.dm40,
        s.dm01,
        s.dm14,
        s.meso_tn1[0],
        s.meso_tn1[1],
        s.meso_tn1[2],
        s.meso_tn1[3],
        s.meso_tn1[4],
        s.meso_tn2[0],
        s.meso_tn2[1],
        s.meso_tn2[2],
        s.meso_tn2[3],
        s.meso_tn3[0],
        s.meso_tn3[1],
        s.meso_tn3[2],
        s.meso_tn3[3],
        s.meso_tn3[4],
        s.meso_tgn1[0],
        s.meso_tgn1[1],
        s.meso_tgn2[0],
        s.meso_tgn2[1],
        s.meso_tgn3[0],
        s.meso_tgn3[1],
    ]
}

// The last eleven, behind dfa and the 36 Legendre values.
pub fn last(s: State) -> [f64; 11]
    ensures { result ≡ last_numbers s }
{
    [
        s.ctloc, s.stloc, s.c2tloc, s.s2tloc, s.s3tloc, s.c3tloc, s.apdf, s.apt[0], s.apt[1],
        s.apt[2], s.apt[3],
    ]
}

// Number k of State in the order of its fields, the mark behind them; 0 beyond its 79.
pub fn number(s: State, k: usize) -> f64
    ensures { result ≡ state_number s k }
{
    let a = nodes(s);
    if k < 30 {
        return a[k];
    }
    if k == 30 {
        return s.dfa;
    }
    let g = s.plg;
    if k < 67 {
        return g[k - 31];
    }
    let c = last(s);
    if k < 78 {
        return c[k - 67];
    }
    pick((k == 78) & s.dm28_set, 1.0, 0.0)
}

// All 79 into a slice of 79.
pub fn put_state(s: State, out: &mut [f64])
    requires { length out.old ≡ 79 }
    ensures { out.new ≡ numbers_of_state s }
{
    for i in 0..79 {
        out[i] = number(s, i);
    }
}

// The State after gtd7 from a fresh one.
pub fn left(w: [i32; 24], n: Input) -> State
    ensures { result ≡ left_of w n }
{
    let v = view_of(w, n);
    let sw = v.sw;
    let x = site_of(sw, n.g_lat, v.doy, n.f107a);
    let r = gtd7_from_fresh(v, x, n.alt);
    r.state
}

// The State after gtd7 into a slice of 79 numbers, with no check of the record beyond its slices' lengths: 0, or 4 and the length needed, and
// then the slice as it was.
pub fn state_after_gtd7(
    year: i32,
    doy: i32,
    fields: &[f64],
    ap_array: &[f64],
    switches: &[i32],
    numbers: &mut [f64],
) -> u64
    ensures { (result ≡ code_of (state_answer fields.now ap_array.now switches.now (length numbers.old)))
        × (numbers.new ≡ state_numbers year doy fields.now ap_array.now switches.now numbers.old) }
{
    if numbers.len() != 79 {
        return code(Err(Reason::WrongLength.at(79)));
    }
    if let Err(refusal) = lengths(fields, ap_array, switches) {
        return code(Err(refusal));
    }
    let w = switch_row(switches);
    let n = record_of(year, doy, fields, ap_array);
    let s = left(w, n);
    put_state(s, numbers);
    code(Ok(()))
}
