// The plan of the nodes, copied from the work buffer to the plan buffer.
#![tactic(auto)]

ghost use Rattle.std.specs.Prelude.{◌≡◌, ◌≤◌, length};
ghost use Rattle.std.proofs.lemmas.List.Edits.{sets};
ghost use Rattle.buffer.specs.Layout.{Lent};
ghost use Rattle.buffer.specs.Views.{plan_in};

use buffer::PLAN;

// Copies the plan of the nodes to the plan buffer.
pub fn copy_plan(work: &[u8], plan: &mut [u8], nodes: usize)
    requires { (Lent work.now) × ((nodes ≤ 512) × (512 ≤ length plan.old)) }
    ensures { plan.new ≡ sets plan.old 0 (plan_in work.now nodes) }
{
    for n in 0..nodes {
        plan[n] = work[PLAN + n];
    }
}
