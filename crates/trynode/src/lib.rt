// One try: a node goes where the plan without it is faithful.
#![tactic(auto)]

ghost use Rattle.std.specs.Prelude.{◌<◌};
ghost use Rattle.tables.specs.Held.{Usable};
ghost use Rattle.passes.specs.Passes.{Carried, TriedAt};

use buffer::PLAN;
use graphreads::is_enabled;
use search::search::is_faithful;

// Tries node n: the watched total that is left, one less where the node goes.
pub fn try_node(
    work: &mut [u8],
    table: &[[u8; 16]; 16],
    finals: u16,
    states: usize,
    nodes: usize,
    n: usize,
    total: usize,
) -> usize
    requires { (n < nodes) × (Usable work.old table.now states nodes × Carried work.old nodes total) }
    ensures { TriedAt table.now finals states nodes n work.old work.new total result }
{
    if !is_enabled(work, n) {
        return total;
    }
    let left = total - 1;
    work[PLAN + n] = 0;
    if is_faithful(work, table, finals, states, nodes) {
        return left;
    }
    work[PLAN + n] = 1;
    total
}
