// Whether two switch rows give one and the same expansions, which read the entries 1 to 14 alone.

#![tactic(auto)]

ghost use Rattle.std.specs.Prelude.{◌≡◌, ◌<◌};
ghost use Rattle.setting.specs.Switches.{given, is_one, above_zero};
ghost use Rattle.switch_rows.specs.Rows.{alike, same_number, same_at, same_expansions};

// Switch i as given is 1.
pub fn is_one(w: [i32; 24], i: usize) -> bool
    requires { i < 24 }
    ensures { result ≡ is_one (given w i) }
{
    let x = w[i];
    if x == 1 {
        return true;
    }
    false
}

// Switch i as given is above 0.
pub fn above_zero(w: [i32; 24], i: usize) -> bool
    requires { i < 24 }
    ensures { result ≡ above_zero (given w i) }
{
    let x = w[i];
    if x > 0 {
        return true;
    }
    false
}

pub fn same_number(a: [i32; 24], b: [i32; 24], i: usize) -> bool
    requires { i < 24 }
    ensures { result ≡ same_number (given a i) (given b i) }
{
    let x = a[i];
    let y = b[i];
    if x == y {
        return true;
    }
    false
}

// Both or neither.
pub fn both_or_neither(a: bool, b: bool) -> bool
    ensures { result ≡ alike a b }
{
    (a & b) | (!a & !b)
}

// Switch i has one main effect and one cross effect in both rows; entry 9 counts as a number.
pub fn same_at(a: [i32; 24], b: [i32; 24], i: usize) -> bool
    requires { i < 24 }
    ensures { result ≡ same_at a b i }
{
    if i == 9 {
        return same_number(a, b, i);
    }
    let p = is_one(a, i);
    let q = is_one(b, i);
    let r = above_zero(a, i);
    let s = above_zero(b, i);
    let main = both_or_neither(p, q);
    let cross = both_or_neither(r, s);
    main & cross
}

// The entries 1 to 14 have the same effects.
pub fn same_expansions(a: [i32; 24], b: [i32; 24]) -> bool
    ensures { result ≡ same_expansions a b }
{
    for i in 1..15 {
        if !same_at(a, b, i) {
            return false;
        }
    }
    true
}
