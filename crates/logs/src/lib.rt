// The two boards' logs held against each other (document 02, W-209).

#![tactic(auto)]

ghost use Rattle.std.specs.Prelude.{◌≡◌, ◌||◌, ◌≤◌, ltb, length, drop};
ghost use Rattle.logs.specs.Logs.{apart, refusal_number, refusal_place, entries_of, finding_numbers, unfit_log, seconds_rise, accepted_logs, refusal, report_of};
ghost use Rattle.logs.specs.Lent.{lent_answer, lent_after};
ghost use Rattle.logs.specs.Steps.{kind_number, meet_of, front_of, taken1, taken2};

// Why two logs are not held against each other: a board's log over 256 entries, or whose seconds and densities differ in number; the first
// second that is not above the one before it, at its index in board 1, or at 256 plus that in board 2; the length that the report needs.
#[derive(Clone, Copy)]
pub enum LogsRefusal {
    Unfit(usize),
    NotRising(usize),
    ReportLength(usize),
}

impl LogsRefusal {
    pub fn number(self) -> usize
        ensures { result ≡ refusal_number self }
    {
        match self {
            LogsRefusal::Unfit(_) => 14,
            LogsRefusal::NotRising(_) => 15,
            LogsRefusal::ReportLength(_) => 4,
        }
    }

    pub fn place(self) -> usize
        ensures { result ≡ refusal_place self }
    {
        match self {
            LogsRefusal::Unfit(board) => board,
            LogsRefusal::NotRising(index) => index,
            LogsRefusal::ReportLength(length) => length,
        }
    }
}

// What two front entries are found to be: a pair whose density bits agree, a pair whose bits don't, a single of board 1, of board 2.
#[derive(Clone, Copy)]
pub enum FindingKind {
    EqualPair,
    UnequalPair,
    Single1,
    Single2,
}

impl FindingKind {
    // Its number in the table.
    pub fn number(self) -> u32
        ensures { result ≡ kind_number self }
    {
        match self {
            FindingKind::EqualPair => 1,
            FindingKind::UnequalPair => 2,
            FindingKind::Single1 => 3,
            FindingKind::Single2 => 4,
        }
    }
}

// How many findings there are, and the table of their numbers, 0 past the count.
#[derive(Clone, Copy)]
pub struct Report {
    pub answer: Result<usize, LogsRefusal>,
    pub table: [u32; 512],
}

// How far apart two seconds are.
pub fn distance(a: u64, b: u64) -> u64
    ensures { result ≡ apart a b }
{
    if b < a {
        return a - b;
    }
    b - a
}

// What two front entries give, from their seconds a, b and the bits of their densities x, y.
pub fn meet(tolerance: u64, a: u64, x: u64, b: u64, y: u64) -> FindingKind
    ensures { result ≡ meet_of tolerance a x b y }
{
    if distance(a, b) <= tolerance {
        if x == y {
            return FindingKind::EqualPair;
        }
        return FindingKind::UnequalPair;
    }
    if a < b {
        return FindingKind::Single1;
    }
    FindingKind::Single2
}

// What the entries from i on of board 1 and from j on of board 2 give first: board 1's alone where nothing is left of board 2, and the other way.
pub fn front(
    s1: &[u64],
    b1: &[u64],
    s2: &[u64],
    b2: &[u64],
    tolerance: u64,
    i: usize,
    j: usize,
) -> FindingKind
    requires { (length s1.now ≡ length b1.now) × (length s2.now ≡ length b2.now) }
    ensures { result ≡ front_of tolerance (drop i (entries_of s1.now b1.now)) (drop j (entries_of s2.now b2.now)) }
{
    if s2.len() <= j {
        return FindingKind::Single1;
    }
    if s1.len() <= i {
        return FindingKind::Single2;
    }
    meet(tolerance, s1[i], b1[i], s2[j], b2[j])
}

// How many entries of board 1 a finding takes.
pub fn of_first(k: FindingKind) -> usize
    ensures { (result ≡ taken1 k) × (result ≤ 1) }
{
    match k {
        FindingKind::Single2 => 0,
        _ => 1,
    }
}

// How many entries of board 2 a finding takes.
pub fn of_second(k: FindingKind) -> usize
    ensures { (result ≡ taken2 k) × (result ≤ 1) }
{
    match k {
        FindingKind::Single1 => 0,
        _ => 1,
    }
}

// Whether an entry is left from i on of n, or from j on of m.
pub fn left(i: usize, n: usize, j: usize, m: usize) -> bool
    ensures { result ≡ (ltb i n || ltb j m) }
{
    (i < n) | (j < m)
}

// The findings of two logs that are fit.
pub fn found(s1: &[u64], b1: &[u64], s2: &[u64], b2: &[u64], tolerance: u64) -> Report
    requires { (length s1.now ≡ length b1.now) × (length s2.now ≡ length b2.now) × (length s1.now ≤ 256) × (length s2.now ≤ 256) }
    ensures { result ≡ accepted_logs (finding_numbers tolerance (entries_of s1.now b1.now) (entries_of s2.now b2.now)) }
{
    let mut table = [0u32; 512];
    let mut n: usize = 0;
    let mut i: usize = 0;
    let mut j: usize = 0;
    // A turn takes an entry of one log or of both, so nothing before counts the turns.
    while left(i, s1.len(), j, s2.len()) {
        let k = front(s1, b1, s2, b2, tolerance, i, j);
        table[n] = k.number();
        n += 1;
        i += of_first(k);
        j += of_second(k);
    }
    Report {
        answer: Ok(n),
        table: table,
    }
}

// Whether a log is over 256 entries, or its seconds and densities differ in number.
pub fn unfit(seconds: &[u64], bits: &[u64]) -> bool
    ensures { result ≡ unfit_log seconds.now bits.now }
{
    (256 < seconds.len()) | (seconds.len() != bits.len())
}

// The index of the first second that is not above the one before it, or how many there are.
pub fn rises(seconds: &[u64]) -> usize
    ensures { result ≡ seconds_rise seconds.now }
{
    if seconds.is_empty() {
        return 0;
    }
    for i in 1..seconds.len() {
        if seconds[i] <= seconds[i - 1] {
            return i;
        }
    }
    seconds.len()
}

pub fn refused(e: LogsRefusal) -> Report
    ensures { result ≡ refusal e }
{
    Report {
        answer: Err(e),
        table: [0; 512],
    }
}

// Both logs held against each other: 14 and 15 first, in document 02's order.
pub fn held(s1: &[u64], b1: &[u64], s2: &[u64], b2: &[u64], tolerance: u64) -> Report
    ensures { result ≡ report_of s1.now b1.now s2.now b2.now tolerance }
{
    if unfit(s1, b1) {
        return refused(LogsRefusal::Unfit(1));
    }
    if unfit(s2, b2) {
        return refused(LogsRefusal::Unfit(2));
    }
    let p = rises(s1);
    if p < s1.len() {
        return refused(LogsRefusal::NotRising(p));
    }
    let q = rises(s2);
    if q < s2.len() {
        return refused(LogsRefusal::NotRising(256 + q));
    }
    found(s1, b1, s2, b2, tolerance)
}

// The same with the table in a lent slice: refused, the slice is as it was.
pub fn held_in(
    s1: &[u64],
    b1: &[u64],
    s2: &[u64],
    b2: &[u64],
    tolerance: u64,
    out: &mut [u32],
) -> Result<usize, LogsRefusal>
    ensures { (result ≡ lent_answer s1.now b1.now s2.now b2.now tolerance (length out.old))
        × (out.new ≡ lent_after s1.now b1.now s2.now b2.now tolerance out.old) }
{
    if out.len() != 512 {
        return Err(LogsRefusal::ReportLength(512));
    }
    let r = held(s1, b1, s2, b2, tolerance);
    let n = r.answer?;
    out.copy_from_slice(&r.table);
    Ok(n)
}
