// A descent orbit by orbit (document 02, W-212), without the model: an orbit from its density, the refusals of its own, and the lent memory.

#![tactic(auto)]

ghost use Rattle.std.specs.Prelude.{◌≡◌, true, false, ◌≤◌, ◌<◌, pos, length, set};
ghost use Rattle.refusals.specs.Refusals.{index_below};
ghost use Rattle.descent_orbits.specs.DescentOrbits.{whole_part, density_by_setting, no_density_of, orbit_of, kilometres_of_millimetres, start_within, millimetres_of, setting_within, unfit_setting, descent_refusal};
ghost use Rattle.descent_orbits.specs.Lent.{ending_number, end_numbers};

use fixed_point::scaled;
use refusals::{Reason, Refusal};

// How a descent ends, with its number in the C call.
#[derive(Clone, Copy, Debug, PartialEq, Eq)]
pub enum Ending {
    NoDensity = 1,
    Reached = 2,
    Spent = 3,
}

// What an orbit does: it ends the descent, or it takes its loss in millimetres.
#[derive(Clone, Copy)]
pub enum Orbit {
    Ends(Ending),
    Loses(u64),
}

// How a descent ended, its last altitude in millimetres and how many losses it took.
#[derive(Clone, Copy)]
pub struct Descended {
    pub ending: Ending,
    pub last: u64,
    pub taken: usize,
}

// ---- an orbit

// Millimetres as an altitude in km: one division.
pub fn kilometres(a: u64) -> f64
    requires { a ≤ 1000000000 }
    ensures { result ≡ kilometres_of_millimetres a }
{
    a as f64 / 1.0E6
}

pub fn product(d: f64, s: i32) -> f64
    ensures { result ≡ density_by_setting d s }
{
    (d * 1.0E15) * (s as f64)
}

pub fn no_density(x: f64) -> bool
    ensures { result ≡ no_density_of x }
{
    ((x < 0.0) | (x != x)) | (1.0E9 < x)
}

// The whole part of a product that is a density's.
pub fn whole_part(x: f64) -> u64
    requires { no_density_of x ≡ false }
    ensures { (result ≡ whole_part x) × (result ≤ 1000000000) }
{
    scaled(x, 0)
}

// The orbit at an altitude of a millimetres, from d[5] there and its setting.
pub fn orbit_at(a: u64, d: f64, s: i32) -> Orbit
    ensures { result ≡ orbit_of a (density_by_setting d s) }
{
    let x = product(d, s);
    if no_density(x) {
        return Orbit::Ends(Ending::NoDensity);
    }
    let loss = whole_part(x);
    if a < 200000000 + loss {
        return Orbit::Ends(Ending::Reached);
    }
    Orbit::Loses(loss)
}

// ---- the refusals

// A start from 200 to 1,000 km.
pub fn start_within(start: i64) -> bool
    ensures { result ≡ start_within start }
{
    if start < 200000000 {
        return false;
    }
    if start > 1000000000 {
        return false;
    }
    true
}

// The millimetres of such a start.
pub fn millimetres(start: i64) -> u64
    requires { start_within start ≡ true }
    ensures { result ≡ millimetres_of start }
{
    start as u64
}

// A setting from 1 to 4.
pub fn setting_within(s: i32) -> bool
    ensures { result ≡ setting_within s }
{
    if s < 1 {
        return false;
    }
    if s > 4 {
        return false;
    }
    true
}

// The index of the first setting outside 1 to 4.
pub fn unfit(settings: &[i32]) -> Option<usize>
    ensures { result ≡ index_below (unfit_setting settings.now) (length settings.now) }
{
    for (i, s) in settings.iter().enumerate() {
        if !setting_within(*s) {
            return Some(i);
        }
    }
    None
}

// 17, then 18, then 19.
pub fn refusal(start: i64, settings: &[i32], room: usize) -> Result<(), Refusal>
    ensures { result ≡ descent_refusal start settings.now room }
{
    if !start_within(start) {
        return Err(Reason::StartOutside.at(0));
    }
    if let Some(i) = unfit(settings) {
        return Err(Reason::SettingOutside.at(i + 1));
    }
    let count = settings.len();
    if 10000 < count {
        return Err(Reason::ListOfLosses.at(10000));
    }
    if room < count {
        return Err(Reason::ListOfLosses.at(count));
    }
    Ok(())
}

// ---- the lent memory

// A loss into its place of the list.
pub fn put_loss(losses: &mut [i64], i: usize, loss: u64)
    requires { (i < length losses.old) × (loss ≤ 1000000000) }
    ensures { losses.new ≡ set losses.old i (pos loss) }
{
    losses[i] = loss as i64;
}

// An ending's number in the C call.
pub fn ending_number(e: Ending) -> i64
    ensures { result ≡ pos (ending_number e) }
{
    e as i64
}

// The ending, the last altitude and the count as three numbers, for the C call.
pub fn put_end(end: &mut [i64], d: Descended)
    requires { (length end.old ≡ 3) × (d.last ≤ 1000000000) × (d.taken ≤ 10000) }
    ensures { end.new ≡ end_numbers d.ending d.last d.taken }
{
    end[0] = ending_number(d.ending);
    end[1] = d.last as i64;
    end[2] = d.taken as i64;
}
