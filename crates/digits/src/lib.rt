// Sets of lexicons as numbers of 64 bits: binary digit x is lexicon x.

#![tactic(auto)]

ghost use Rattle.std.specs.Prelude.{◌≡◌, ◌-◌, ◌<◌, ◌^◌, T};
ghost use Rattle.model.specs.Lists.{bit};
ghost use Rattle.digits.specs.Ways.{Lowest};

// The lowest member of a set that has one.
pub fn lowest(bits: u64) -> usize
    requires { 0 < bits }
    ensures { Lowest bits result × (result < 64) }
{
    bits.trailing_zeros() as usize
}

// A set without one of its members.
pub fn without(bits: u64, x: usize) -> u64
    requires { T (bit bits x) × (x < 64) }
    ensures { result ≡ bits - 2 ^ x }
{
    bits - (1u64 << x)
}
