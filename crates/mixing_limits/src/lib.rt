// Which species are mixed at an altitude: switch 15 is on, and the altitude does not lie above the one at which the species' mixing ends (altl of gts7).

#![tactic(auto)]

ghost use Rattle.std.specs.Prelude.{◌≡◌};
ghost use Rattle.mixing_limits.specs.Limits.{mixed_at, oxygens_mixed, some_mixed};

use parameters::Parameters;

// The species that are mixed.
#[derive(Clone, Copy)]
pub struct Mixed {
    pub he: bool,
    pub o: bool,
    pub n2: bool,
    pub o2: bool,
    pub ar: bool,
    pub h: bool,
    pub n: bool,
}

// Helium strictly below its altitude, the others at or below theirs.
pub fn mixed_at(c: Parameters, sw15: f64, z: f64) -> Mixed
    ensures { result ≡ mixed_at c sw15 z }
{
    let on = sw15 != 0.0;
    Mixed {
        he: on & (z < c.he),
        o: on & (z <= c.o),
        n2: on & (z <= c.n2),
        o2: on & (z <= c.o2),
        ar: on & (z <= c.ar),
        h: on & (z <= c.h),
        n: on & (z <= c.n),
    }
}

// Whether O, O2, argon or N is mixed, whose turbopauses are one altitude.
pub fn oxygens_mixed(m: Mixed) -> bool
    ensures { result ≡ oxygens_mixed m }
{
    m.o | (m.o2 | (m.ar | m.n))
}

// Whether any of the seven is.
pub fn some_mixed(m: Mixed) -> bool
    ensures { result ≡ some_mixed m }
{
    let four = oxygens_mixed(m);
    m.he | (m.n2 | (m.h | four))
}
