// The nodes, edges and plan that the work buffer holds.
#![tactic(auto)]

ghost use Rattle.std.specs.Prelude.{◌≡◌, ◌+◌, ◌*◌, ◌≤◌, ◌<◌};
ghost use Rattle.buffer.specs.Layout.{Lent};
ghost use Rattle.buffer.specs.Views.{start_in, target_in, enabled_in};

use buffer::{PLAN, STARTS, TARGETS};
use loads::read16;

// The index of the first edge of node n; at the number of nodes, the number of edges.
pub fn start_at(work: &[u8], n: usize) -> usize
    requires { (Lent work.now) × (n ≤ 512) }
    ensures { result ≡ start_in work.now n }
{
    read16(work, STARTS + n * 2) as usize
}

// The end of edge i.
pub fn target_at(work: &[u8], i: usize) -> usize
    requires { (Lent work.now) × (i < 2048) }
    ensures { result ≡ target_in work.now i }
{
    read16(work, TARGETS + i * 2) as usize
}

// Whether node n is enabled in the plan.
pub fn is_enabled(work: &[u8], n: usize) -> bool
    requires { (Lent work.now) × (n < 512) }
    ensures { result ≡ enabled_in work.now n }
{
    work[PLAN + n] == 1
}
