// A plan to be checked or priced: refusal 12; and its place in the work buffer, for the check.
#![tactic(auto)]

ghost use Rattle.std.specs.Prelude.{◌≡◌, ◌<◌, ◌≤◌, length, get_or};
ghost use Rattle.laws.specs.Bounded.{all_below};
ghost use Rattle.buffer.specs.Layout.{Lent};
ghost use Rattle.buffer.specs.Views.{node_in};
ghost use Rattle.checking.specs.Inner.{PlanStored};
ghost use Rattle.checking.specs.Checking.{good_mark};

use buffer::PLAN;
use nodereads::is_shadow;

// Whether node n may have the plan byte: 0, or 1 at a shadow.
fn is_mark(work: &[u8], n: usize, mark: u8) -> bool
    requires { (Lent work.now) × (n < 512) }
    ensures { result ≡ good_mark (node_in work.now n).kind mark }
{
    if is_shadow(work, n) {
        return mark <= 1;
    }
    mark == 0
}

// Whether every node may have its plan byte: refusal 12 is that one may not.
pub fn is_plan(plan: &[u8], work: &[u8], nodes: usize) -> bool
    requires { (Lent work.now) × ((nodes ≤ 512) × (nodes ≤ length plan.now)) }
    ensures { result ≡ all_below nodes (λ n. good_mark (node_in work.now n).kind (get_or plan.now n 0)) }
{
    for (n, mark) in plan[..nodes].iter().enumerate() {
        if !is_mark(work, n, *mark) {
            return false;
        }
    }
    true
}

// Stores the plan in the work buffer.
pub fn store_plan(plan: &[u8], work: &mut [u8], nodes: usize)
    requires { (Lent work.old) × ((nodes ≤ 512) × (nodes ≤ length plan.now)) }
    ensures { PlanStored plan.now work.old work.new nodes }
{
    for n in 0..nodes {
        work[PLAN + n] = plan[n];
    }
}
