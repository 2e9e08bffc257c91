// The switch row as numbers: the Rust's tselec.
ghost use Rattle.std.specs.Prelude.{◌≡◌};
ghost use Rattle.std.specs.Float.{binary64};
ghost use Rattle.std.specs.Float.Ieee.{of_int};
ghost use Rattle.setting.specs.Switches.{given, is_one, above_zero, on_off, flags_of};

use super::Flags;

// The main effect of an entry other than 9: on only for the value 1.
pub fn main_of(x: i32) -> f64
    ensures { result ≡ on_off (is_one x) }
{
    if x == 1 {
        return 1.0;
    }
    0.0
}

// The cross effect of an entry other than 9: on for any value above 0.
pub fn cross_of(x: i32) -> f64
    ensures { result ≡ on_off (above_zero x) }
{
    if x > 0 {
        return 1.0;
    }
    0.0
}

// Entry 9, whose number goes to both as it is.
pub fn nine_of(w: [i32; 24]) -> f64
    ensures { result ≡ of_int binary64 (given w 9) }
{
    let x = w[9];
    x as f64
}

// The row as the main effects and the cross effects. The loop has no test on the entry, so that it runs on several entries at once.
pub fn tselec(w: [i32; 24]) -> Flags
    ensures { result ≡ flags_of w }
{
    let mut sw = [0.0; 24];
    let mut swc = [0.0; 24];
    for i in 0..24 {
        let x = w[i];
        sw[i] = main_of(x);
        swc[i] = cross_of(x);
    }
    let nine = nine_of(w);
    sw[9] = nine;
    swc[9] = nine;
    Flags { sw: sw, swc: swc }
}
