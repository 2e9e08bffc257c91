// State with the fields set that gts7 and gtd7 set: it goes in by value and comes back by value.

#![tactic(auto)]

ghost use Rattle.std.specs.Prelude.{◌≡◌};
ghost use Rattle.plan.specs.Fields.{fields_of, with_fields, set_when, set_gravity, set_dd, set_dm04, set_dm16, set_dm28, set_dm32, set_dm40, set_dm01, set_dm14, set_nodes1, set_tn2, set_tn3, set_top3};

use setting::State;

// glatf's two.
pub fn set_gravity(s: State, gsurf: f64, re: f64) -> State
    ensures { result ≡ with_fields s (set_gravity gsurf re (fields_of s)) }
{
    State { gsurf, re, ..s }
}

// gtd7's temperature at altitude.
pub fn set_dd(s: State, x: f64) -> State
    ensures { result ≡ with_fields s (set_dd x (fields_of s)) }
{
    State { dd: x, ..s }
}

// N2, where it is mixed, with the mark that its density was set.
pub fn set_dm28(s: State, on: bool, x: f64) -> State
    ensures { result ≡ with_fields s (set_when on (set_dm28 x) (fields_of s)) }
{
    if on {
        return State {
            dm28: x,
            dm28_set: true,
            ..s
        };
    }
    s
}

// Helium, where it is mixed.
pub fn set_dm04(s: State, on: bool, x: f64) -> State
    ensures { result ≡ with_fields s (set_when on (set_dm04 x) (fields_of s)) }
{
    if on {
        return State { dm04: x, ..s };
    }
    s
}

// Atomic oxygen, where it is mixed.
pub fn set_dm16(s: State, on: bool, x: f64) -> State
    ensures { result ≡ with_fields s (set_when on (set_dm16 x) (fields_of s)) }
{
    if on {
        return State { dm16: x, ..s };
    }
    s
}

// Molecular oxygen, where it is mixed.
pub fn set_dm32(s: State, on: bool, x: f64) -> State
    ensures { result ≡ with_fields s (set_when on (set_dm32 x) (fields_of s)) }
{
    if on {
        return State { dm32: x, ..s };
    }
    s
}

// Argon, where it is mixed.
pub fn set_dm40(s: State, on: bool, x: f64) -> State
    ensures { result ≡ with_fields s (set_when on (set_dm40 x) (fields_of s)) }
{
    if on {
        return State { dm40: x, ..s };
    }
    s
}

// Hydrogen, where it is mixed.
pub fn set_dm01(s: State, on: bool, x: f64) -> State
    ensures { result ≡ with_fields s (set_when on (set_dm01 x) (fields_of s)) }
{
    if on {
        return State { dm01: x, ..s };
    }
    s
}

// Atomic nitrogen, where it is mixed.
pub fn set_dm14(s: State, on: bool, x: f64) -> State
    ensures { result ≡ with_fields s (set_when on (set_dm14 x) (fields_of s)) }
{
    if on {
        return State { dm14: x, ..s };
    }
    s
}

// The nodes of the lower thermosphere; element 0 is densu's.
pub fn set_nodes1(s: State, t: [f64; 5], g: [f64; 2]) -> State
    ensures { result ≡ with_fields s (set_nodes1 t g (fields_of s)) }
{
    let mut tn1 = s.meso_tn1;
    tn1[1] = t[1];
    tn1[2] = t[2];
    tn1[3] = t[3];
    tn1[4] = t[4];
    let mut tgn1 = s.meso_tgn1;
    tgn1[1] = g[1];
    State {
        meso_tn1: tn1,
        meso_tgn1: tgn1,
        ..s
    }
}

// The nodes from 72.5 to 32.5 km.
pub fn set_tn2(s: State, t: [f64; 4], g: [f64; 2]) -> State
    ensures { result ≡ with_fields s (set_tn2 t g (fields_of s)) }
{
    State {
        meso_tn2: t,
        meso_tgn2: g,
        ..s
    }
}

// The first node from 32.5 km down.
pub fn set_top3(s: State, x: f64) -> State
    ensures { result ≡ with_fields s (set_top3 x (fields_of s)) }
{
    let mut tn3 = s.meso_tn3;
    tn3[0] = x;
    State { meso_tn3: tn3, ..s }
}

// All nodes from 32.5 km down.
pub fn set_tn3(s: State, t: [f64; 5], g: [f64; 2]) -> State
    ensures { result ≡ with_fields s (set_tn3 t g (fields_of s)) }
{
    State {
        meso_tn3: t,
        meso_tgn3: g,
        ..s
    }
}
