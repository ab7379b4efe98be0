// Sets of numbers below 16 as numbers of 16 bits, built, joined and tested by shifts and masks: bit i stands for i.
#![tactic(auto)]

ghost use Rattle.std.specs.Prelude.{◌≡◌, ◌-◌, ◌<◌};
ghost use Rattle.std.specs.Int.Bits.{bit_and};
ghost use Rattle.std.specs.Int.Count.{count_trailing_zeros};
ghost use Rattle.laws.specs.Bounded.{sum_below};
ghost use Rattle.laws.specs.Bits.{bit, has, with};

// Whether q is a member.
pub fn contains(s: u16, q: u32) -> bool
    requires { q < 16 }
    ensures { result ≡ has s q }
{
    (s >> q) & 1 == 1
}

// The set with q.
pub fn insert(s: u16, q: u32) -> u16
    requires { q < 16 }
    ensures { result ≡ with s q }
{
    s | (1 << q)
}

// How many members there are.
pub fn count(s: u16) -> u32
    ensures { result ≡ sum_below 16 (bit s) }
{
    u16::count_ones(s)
}

// The lowest member, 16 where there is none.
pub fn lowest(s: u16) -> u32
    ensures { result ≡ count_trailing_zeros 16 s }
{
    u16::trailing_zeros(s)
}

// The set without its lowest member.
pub fn without_lowest(s: u16) -> u16
    requires { 0 < s }
    ensures { result ≡ bit_and s (s - 1) }
{
    s & (s - 1)
}
