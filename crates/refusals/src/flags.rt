// Refusal 9, and the two flags in a flags number.
ghost use Rattle.std.specs.Prelude.{◌≡◌, ◌↔◌, ◌||◌, true, eqb};
ghost use Rattle.refusals.specs.Flags.{sum_of, flag_one, flag_two};
ghost use Rattle.refusals.specs.Refusals.{FlagsHigh};

const FLAGS_LIMIT: u64 = 3;

// Whether the flags number is above the highest.
pub fn flags_high(flags: u64) -> bool
    ensures { (result ≡ true) ↔ FlagsHigh flags }
{
    FLAGS_LIMIT < flags
}

// Whether a flag is in a flags number; 3 has both flags, and a number above it none.
fn has_flag<const FLAG: u64>(flags: u64) -> bool
    ensures { result ≡ (eqb flags FLAG || eqb flags (sum_of true true)) }
{
    flags == FLAG || flags == 3
}

// Whether the flag 1 is in a flags number.
#[tactic(auto, unfolding(crate::specs::Flags::flag_one))]
pub fn flag_one(flags: u64) -> bool
    ensures { result ≡ flag_one flags }
{
    has_flag::<1>(flags)
}

// Whether the flag 2 is in it.
#[tactic(auto, unfolding(crate::specs::Flags::flag_two))]
pub fn flag_two(flags: u64) -> bool
    ensures { result ≡ flag_two flags }
{
    has_flag::<2>(flags)
}
