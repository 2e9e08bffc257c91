// gtd7d: the one-altitude call with the mass density for drag.

#![tactic(auto)]

ghost use Rattle.std.specs.Prelude.{◌≡◌, length};
ghost use Rattle.setting.specs.Switches.{given, is_one, on_off};
ghost use Rattle.atmosphere.specs.Atmosphere.{answer_of};
ghost use Rattle.drag.specs.Drag.{drag_after};

use atmosphere::gtd7;
use drag_sum::drag_on;
use refusals::Refusal;
use setting::Input;
use setting::switches::main_of;

// The main effect of entry 0.
pub fn zero_in(w: [i32; 24]) -> f64
    ensures { result ≡ on_off (is_one (given w 0)) }
{
    main_of(w[0])
}

// Refused as gtd7 refuses, the row as it was; accepted, gtd7's row with d[5] summed again.
pub fn gtd7d(w: [i32; 24], n: Input, out: &mut [f64]) -> Result<(), Refusal>
    ensures { (result ≡ answer_of w n (length out.old)) × (out.new ≡ drag_after w n out.old) }
{
    gtd7(w, n, out)?;
    let sw0 = zero_in(w);
    drag_on(sw0, out);
    Ok(())
}
