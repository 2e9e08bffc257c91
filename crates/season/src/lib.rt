// The season: what the day of the year gives to the expansions, the cosines over the year and half the year with the phases of every set.

#![tactic(auto)]

ghost use Rattle.std.specs.Prelude.{◌<◌, ◌≤◌, ◌-◌, ◌≡◌, length};
ghost use Rattle.numbers.specs.Literals.{0·0};
ghost use Rattle.setting.specs.Switches.{filled};
ghost use Rattle.views.specs.Phases.{annual_cos_of, semiannual_cos_of};
ghost use Rattle.season.specs.Season.{seasons_at, longitude_seasons_at, place_cosine, globe7_season, copied_places, first_set, filled_sets, glob7s_season, season_into};

use elementary::trigonometry::cos;
use expansion_parts::{LongitudeSeasons, Seasons};
use needed_sets::{Need, glob7s_end};
use numbers::{DR, pick, plus_zero};
use season_phases::season_phase;
use views::phases::{annual_cos, semiannual_cos};

// The four cosines of a set, from the place i on.
pub fn seasons_at(s: &[f64], i: usize) -> Seasons
    requires { (length s.now ≡ 156) × (i < 153) }
    ensures { result ≡ seasons_at s.now i }
{
    Seasons {
        cd32: s[i],
        cd18: s[i + 1],
        cd14: s[i + 2],
        cd39: s[i + 3],
    }
}

// The four of the longitude's term.
pub fn longitude_seasons_at(s: &[f64], i: usize) -> LongitudeSeasons
    requires { (length s.now ≡ 156) × (i < 153) }
    ensures { result ≡ longitude_seasons_at s.now i }
{
    LongitudeSeasons {
        cd82: s[i],
        cd87: s[i + 1],
        cd85: s[i + 2],
        cd89: s[i + 3],
    }
}

// The cosine of a place; year and half are those of the phase 0.
pub fn place_cosine(i: usize, doy: f64, year: f64, half: f64) -> f64
    requires { (i < 156) × (year ≡ annual_cos_of doy 0·0) × (half ≡ semiannual_cos_of doy 0·0) }
    ensures { result ≡ place_cosine doy i }
{
    let x = season_phase(i);
    if plus_zero(x) {
        return pick(i % 2 == 0, year, half);
    }
    cos(pick(i % 2 == 0, DR, 2.0 * DR) * (doy - x))
}

// The places from first up to end.
pub fn fill_places(first: usize, end: usize, doy: f64, year: f64, half: f64, s: &mut [f64])
    requires { (length s.old ≡ 156) × (first ≤ end) × (end ≤ 156) × (year ≡ annual_cos_of doy 0·0) × (half ≡ semiannual_cos_of doy 0·0) }
    ensures { s.new ≡ filled (end - first) (place_cosine doy) first s.old }
{
    for i in first..end {
        s[i] = place_cosine(i, doy, year, half);
    }
}

// The places of globe7's sets that are needed, and PT's third, which zhf reads.
pub fn globe7_season(n: Need, doy: f64, year: f64, half: f64, s: &mut [f64])
    requires { (length s.old ≡ 156) × (year ≡ annual_cos_of doy 0·0) × (half ≡ semiannual_cos_of doy 0·0) }
    ensures { s.new ≡ globe7_season doy n s.old }
{
    if n.pt {
        fill_places(0, 44, doy, year, half, s);
        return;
    }
    fill_places(2, 3, doy, year, half, s);
    if n.high | n.ps {
        fill_places(4, 44, doy, year, half, s);
        return;
    }
    fill_places(4, 8, doy, year, half, s);
    fill_places(12, 28, doy, year, half, s);
}

// The phase of PD[8] is PT's, that of PD[3] and of PS is PD[2]'s.
pub fn copy_places(s: &mut [f64])
    requires { length s.old ≡ 156 }
    ensures { s.new ≡ copied_places s.old }
{
    let a = s[2];
    let b = s[14];
    s[18] = b;
    s[38] = a;
    s[42] = b;
}

// The first set of glob7s that is needed, if one is.
pub fn first_set(n: Need) -> usize
    ensures { result ≡ first_set n }
{
    if n.nodes {
        return 0;
    }
    5
}

// The places of glob7s' sets from first up to end, in the block that begins at start.
pub fn fill_sets(
    start: usize,
    first: usize,
    end: usize,
    doy: f64,
    year: f64,
    half: f64,
    s: &mut [f64],
)
    requires { (length s.old ≡ 156) × (start ≤ 100) × (first ≤ end) × (end ≤ 14) × (year ≡ annual_cos_of doy 0·0) × (half ≡ semiannual_cos_of doy 0·0) }
    ensures { s.new ≡ filled_sets doy start first end s.old }
{
    fill_places(start + 4 * first, start + 4 * end, doy, year, half, s);
}

// The places of glob7s' sets that are needed; long: those of the longitude's term too.
pub fn glob7s_season(n: Need, long: bool, doy: f64, year: f64, half: f64, s: &mut [f64])
    requires { (length s.old ≡ 156) × (year ≡ annual_cos_of doy 0·0) × (half ≡ semiannual_cos_of doy 0·0) }
    ensures { s.new ≡ glob7s_season doy n long s.old }
{
    let end = glob7s_end(n);
    if end == 0 {
        return;
    }
    let first = first_set(n);
    fill_sets(44, first, end, doy, year, half, s);
    if long {
        fill_sets(100, first, end, doy, year, half, s);
    }
}

// The season of a day, as far as the sets that n names read it; long: switches 10 and 11 are on. The other places stay.
pub fn season_into(doy: f64, n: Need, long: bool, s: &mut [f64])
    requires { length s.old ≡ 156 }
    ensures { s.new ≡ season_into doy n long s.old }
{
    let year = annual_cos(doy, 0.0);
    let half = semiannual_cos(doy, 0.0);
    globe7_season(n, doy, year, half, s);
    copy_places(s);
    glob7s_season(n, long, doy, year, half, s);
}
