// Whether a call needs the magnetic history, and lacks it.
ghost use Rattle.std.specs.Prelude.{◌≡◌};
ghost use Rattle.setting.specs.ApHistory.{asks_history_of, absent_of, lacks_history_of};

use super::{History, Input};

pub fn asks_history(w: [i32; 24]) -> bool
    ensures { result ≡ asks_history_of w }
{
    let x = w[9];
    if x == -1 {
        return true;
    }
    false
}

pub fn absent(h: History) -> bool
    ensures { result ≡ absent_of h }
{
    match h {
        History::Absent => true,
        History::Present => false,
    }
}

pub fn lacks_history(w: [i32; 24], n: Input) -> bool
    ensures { result ≡ lacks_history_of w n }
{
    let h = n.history;
    let a = asks_history(w);
    let b = absent(h);
    a & b
}
