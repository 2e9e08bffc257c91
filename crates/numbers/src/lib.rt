// Operations on numbers that every part of the model uses, and the constants of atmosphere.rs.

#![tactic(auto)]

ghost use Rattle.std.specs.Prelude.{◌≡◌, true, cond, length};
ghost use Rattle.numbers.specs.Literals.{0·0};
ghost use Rattle.numbers.specs.Tests.{abs_of, finite_of};

// Radians in a degree.
pub const DGTR: f64 = 1.74533E-2;
// Radians in a day, the year a full turn.
pub const DR: f64 = 1.72142E-2;
// Radians in an hour, the day a full turn.
pub const HR: f64 = 0.2618;
// Radians in a second, the day a full turn.
pub const SR: f64 = 7.2722E-5;
// The gas constant.
pub const RGAS: f64 = 831.4;

// x where t holds, and y otherwise.
pub fn pick(t: bool, x: f64, y: f64) -> f64
    ensures { result ≡ cond t x y }
{
    if t { x } else { y }
}

// |x|. The zeros need a case of their own: -0 is not below 0.
pub fn abs(x: f64) -> f64
    ensures { result ≡ abs_of x }
{
    if x < 0.0 {
        return -x;
    }
    if x == 0.0 {
        return 0.0;
    }
    x
}

// Whether x is neither NaN nor an infinity.
pub fn finite(x: f64) -> bool
    ensures { result ≡ finite_of x }
{
    let infinity = f64::from_bits(9218868437227405312);
    (x < infinity) & (-infinity < x)
}

// True for +0, and for it alone.
pub fn plus_zero(x: f64) -> bool
    ensures { (result ≡ true → x ≡ 0·0) × (x ≡ 0·0 → result ≡ true) }
{
    if !(x == x) {
        return false;
    }
    f64::to_bits(x) == 0
}

// True only where x and y are the same number, its sign with it.
pub fn same(x: f64, y: f64) -> bool
    ensures { result ≡ true → x ≡ y }
{
    if !(x == x) {
        return false;
    }
    if !(y == y) {
        return false;
    }
    f64::to_bits(x) == f64::to_bits(y)
}

// Eleven numbers into a lent row of eleven.
pub fn put_row(out: &mut [f64], row: [f64; 11])
    requires { length out.old ≡ 11 }
    ensures { out.new ≡ row }
{
    out.copy_from_slice(&row);
}
