// The refusals of document 01's table, each by what it is given for.
ghost use Rattle.std.specs.Prelude.{◌≡◌};
ghost use Rattle.refusals.specs.Numbers.{number_of};

// Why a call is refused. A refusal carries its number and nothing else.
#[derive(Clone, Copy, Debug, PartialEq, Eq)]
pub enum Refusal {
    BadPath,
    BadLists,
    RulesLong,
    RulesHoldZero,
    LineLong,
    BadName,
    TooLong,
    HoldsZero,
    FlagsHigh,
}

// Its number in the table.
impl From<Refusal> for u8 {
    ghost from_gives = { λ refusal number. number ≡ number_of refusal };

    fn from(refusal: Refusal) -> u8 {
        match refusal {
            Refusal::BadPath => 1,
            Refusal::BadLists => 2,
            Refusal::RulesLong => 3,
            Refusal::RulesHoldZero => 4,
            Refusal::LineLong => 5,
            Refusal::BadName => 6,
            Refusal::TooLong => 7,
            Refusal::HoldsZero => 8,
            Refusal::FlagsHigh => 9,
        }
    }
}
