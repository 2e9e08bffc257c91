// gtd7d's own arithmetic: d[5] of a row of eleven summed again, with anomalous oxygen.

#![tactic(auto)]

ghost use Rattle.std.specs.Prelude.{◌≡◌, length};
ghost use Rattle.drag_sum.specs.DragSum.{drag_sum_of, drag_mass_of, dragged_of};

use numbers::pick;

// The mass of the seven species and of anomalous oxygen, over the numbers as they stand in the row.
pub fn drag_sum(d: &[f64]) -> f64
    requires { length d.now ≡ 11 }
    ensures { result ≡ drag_sum_of d.now }
{
    1.66E-24
        * (4.0 * d[0]
            + 16.0 * d[1]
            + 28.0 * d[2]
            + 32.0 * d[3]
            + 40.0 * d[4]
            + d[6]
            + 14.0 * d[7]
            + 16.0 * d[8])
}

// The same in kg where switch 0 is on.
pub fn drag_mass(sw0: f64, d: &[f64]) -> f64
    requires { length d.now ≡ 11 }
    ensures { result ≡ drag_mass_of sw0 d.now }
{
    let all = drag_sum(d);
    pick(sw0 != 0.0, all / 1000.0, all)
}

// gtd7's row in a lent row becomes gtd7d's.
pub fn drag_on(sw0: f64, out: &mut [f64])
    requires { length out.old ≡ 11 }
    ensures { out.new ≡ dragged_of sw0 out.old }
{
    let all = drag_mass(sw0, out);
    out[5] = all;
}
