// Why a call is refused and where: one type for every call, and the numbers that C has for it.
#![tactic(auto)]

ghost use Rattle.std.specs.Prelude.{◌≡◌};
ghost use Rattle.refusals.specs.Refusals.{number_of, refusal_at};

// What refuses a call, each with its number in the C calls.
#[derive(Clone, Copy, Debug, PartialEq, Eq)]
pub enum Reason {
    HistoryLacking = 1,
    NotFinite = 2,
    OutOfRange = 3,
    WrongLength = 4,
    TooMany = 5,
    CoefficientCount = 6,
    NoForm = 7,
    AltitudesFall = 8,
    ListTooShort = 9,
    NotMixed = 10,
    NoBand = 11,
    BandsOverlap = 12,
    BandsGap = 13,
    LogUnfit = 14,
    SecondsFall = 15,
    ConstantUnfit = 16,
    StartOutside = 17,
    SettingOutside = 18,
    ListOfLosses = 19,
}

impl Reason {
    // This reason at a place.
    pub fn at(self, place: usize) -> Refusal
        ensures { result ≡ refusal_at self place }
    {
        Refusal {
            reason: self,
            place,
        }
    }

    // Its number.
    pub fn number(self) -> usize
        ensures { result ≡ number_of self }
    {
        self as usize
    }
}

// Why and where; what a place is depends on the reason.
#[derive(Clone, Copy, Debug, PartialEq, Eq)]
pub struct Refusal {
    pub reason: Reason,
    pub place: usize,
}
