// The classes past a point, as the class rows hold them: the lowest states, and their count.
#![tactic(auto)]

ghost use Rattle.std.specs.Prelude.{◌≡◌, cond, ◌<◌, ◌≤◌};
ghost use Rattle.laws.specs.Bounded.{sum_below};
ghost use Rattle.buffer.specs.Layout.{Lent};
ghost use Rattle.classes.specs.Backwards.{is_lowest, lowest_states};

use classrows::class_row;
use sets::count;

// The states of node n that are lowest in their class.
pub fn lowest_states(work: &[u8], n: usize, states: usize) -> u16
    requires { (Lent work.now) × ((n < 512) × (states ≤ 16)) }
    ensures { result ≡ lowest_states work.now n states }
{
    let mut out = 0;
    let mut apart = 65535;
    for q in 0..states {
        out |= apart & (1 << q);
        apart &= class_row(work, n, q);
    }
    out
}

// The number of classes past node n.
pub fn class_count(work: &[u8], n: usize, states: usize) -> u32
    requires { (Lent work.now) × ((n < 512) × (states ≤ 16)) }
    ensures { result ≡ sum_below states (λ q. cond (is_lowest work.now n q) 1 0) }
{
    count(lowest_states(work, n, states))
}
