// The plan with every shadow enabled, and how many there are.
#![tactic(auto)]

ghost use Rattle.std.specs.Prelude.{◌≤◌};
ghost use Rattle.buffer.specs.Layout.{Lent};
ghost use Rattle.passes.specs.Passes.{AllEnabled};

use buffer::PLAN;
use nodereads::is_shadow;

// Enables every shadow, and returns how many there are.
pub fn enable_all(work: &mut [u8], nodes: usize) -> usize
    requires { (Lent work.old) × (nodes ≤ 512) }
    ensures { AllEnabled work.old work.new nodes result }
{
    let mut count = 0;
    for n in 0..nodes {
        let shadow = is_shadow(work, n);
        work[PLAN + n] = u8::from(shadow);
        count += usize::from(shadow);
    }
    count
}
