// The first of a column's rows whose d[5] is below a level (document 02, W-214, without the model).

#![tactic(auto)]

ghost use Rattle.std.specs.Prelude.{◌≡◌, cond, length};
ghost use Rattle.first_below_list.specs.FirstBelowList.{is_below};

// An altitude's eleven numbers into the lent row where their d[5] is below the level, else the row as it was; whether it is.
pub fn taken(level: f64, numbers: &[f64], row: &mut [f64]) -> bool
    requires { (length numbers.now ≡ 11) × (length row.old ≡ 11) }
    ensures { (result ≡ is_below level numbers.now)
        × (row.new ≡ cond (is_below level numbers.now) numbers.now row.old) }
{
    let thin = numbers[5] < level;
    if thin {
        row.copy_from_slice(numbers);
    }
    thin
}
