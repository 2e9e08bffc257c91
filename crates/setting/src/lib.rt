// The switch row as numbers, the record, the State, and the fields of the View that every expansion reads.

#![tactic(auto)]

ghost use Rattle.std.specs.Prelude.{◌≡◌};
ghost use Rattle.setting.specs.State.{fresh_of};

pub mod ap_history;
pub mod switches;

// The switch row as numbers: main effects and cross effects.
#[derive(Clone, Copy)]
pub struct Flags {
    pub sw: [f64; 24],
    pub swc: [f64; 24],
}

// What globe7, gts7 and gtd7 carry: the Rust's State, its Legendre values flat, four rows of nine; dm28_set says whether dm28 was set.
#[derive(Clone, Copy)]
pub struct State {
    pub gsurf: f64,
    pub re: f64,
    pub dd: f64,
    pub dm04: f64,
    pub dm16: f64,
    pub dm28: f64,
    pub dm28_set: bool,
    pub dm32: f64,
    pub dm40: f64,
    pub dm01: f64,
    pub dm14: f64,
    pub meso_tn1: [f64; 5],
    pub meso_tn2: [f64; 4],
    pub meso_tn3: [f64; 5],
    pub meso_tgn1: [f64; 2],
    pub meso_tgn2: [f64; 2],
    pub meso_tgn3: [f64; 2],
    pub dfa: f64,
    pub plg: [f64; 36],
    pub ctloc: f64,
    pub stloc: f64,
    pub c2tloc: f64,
    pub s2tloc: f64,
    pub s3tloc: f64,
    pub c3tloc: f64,
    pub apdf: f64,
    pub apt: [f64; 4],
}

// A value, and the State that is left.
#[derive(Clone, Copy)]
pub struct Left<T> {
    pub value: T,
    pub state: State,
}

// Whether a record has its magnetic history.
#[derive(Clone, Copy)]
pub enum History {
    Absent,
    Present,
}

// The record of one call: the Rust's NrlmsiseInput, its Option a mark beside the array.
#[derive(Clone, Copy)]
pub struct Input {
    pub year: i32,
    pub doy: i32,
    pub sec: f64,
    pub alt: f64,
    pub g_lat: f64,
    pub g_long: f64,
    pub lst: f64,
    pub f107a: f64,
    pub f107: f64,
    pub ap: f64,
    pub history: History,
    pub ap_array: [f64; 7],
}

// What the expansions read of row and record, with the sines and cosines that do not depend on the coefficients; the last six are those
// of the phase 0, which many coefficient sets have.
#[derive(Clone, Copy)]
pub struct View {
    pub sw: [f64; 24],
    pub swc: [f64; 24],
    pub doy: f64,
    pub sec: f64,
    pub g_lat: f64,
    pub g_long: f64,
    pub lst: f64,
    pub ap: f64,
    pub ap_array: [f64; 7],
    pub df: f64,
    pub dfa: f64,
    pub dfa2: f64,
    pub slat: f64,
    pub clat: f64,
    pub slong: f64,
    pub clong: f64,
    pub st: f64,
    pub ct: f64,
    pub s2t: f64,
    pub c2t: f64,
    pub s3t: f64,
    pub c3t: f64,
    pub cos_year: f64,
    pub cos_half_year: f64,
    pub cos_local: f64,
    pub cos_ut: f64,
    pub cos_ut_long: f64,
    pub cos_long: f64,
}

// State::new.
pub fn fresh() -> State
    ensures { result ≡ fresh_of }
{
    State {
        gsurf: 0.0,
        re: 0.0,
        dd: 0.0,
        dm04: 0.0,
        dm16: 0.0,
        dm28: 0.0,
        dm28_set: false,
        dm32: 0.0,
        dm40: 0.0,
        dm01: 0.0,
        dm14: 0.0,
        meso_tn1: [0.0; 5],
        meso_tn2: [0.0; 4],
        meso_tn3: [0.0; 5],
        meso_tgn1: [0.0; 2],
        meso_tgn2: [0.0; 2],
        meso_tgn3: [0.0; 2],
        dfa: 0.0,
        plg: [0.0; 36],
        ctloc: 0.0,
        stloc: 0.0,
        c2tloc: 0.0,
        s2tloc: 0.0,
        s3tloc: 0.0,
        c3tloc: 0.0,
        apdf: 0.0,
        apt: [0.0; 4],
    }
}
