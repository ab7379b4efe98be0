// The arrivals index beside the edges, made afresh in lent lists.
#![tactic(auto)]

ghost use Rattle.std.specs.Prelude.{◌≡◌};
ghost use Rattle.refusal.specs.Refusal.{said};
ghost use Rattle.arrivals.specs.Arrivals.{lists, edited, indexed};

use heldtest::is_fitting;
use indexbuild::build_index;
use indextest::is_ascending;
use refusal::Refusal;

// Makes the index of the edges afresh and answers their count. A refusal leaves the lists.
pub fn index_edges(
    edges: &[u16],
    predecessors: &mut [u16],
    starts: &mut [u16],
    nodes: u64,
    count: u64,
) -> Result<u64, Refusal>
    ensures { edited (said result) edges.now predecessors.new starts.new
        ≡ indexed nodes count (lists edges.now predecessors.old starts.old) }
{
    if !is_fitting(edges, predecessors, starts, nodes, count) {
        return Err(Refusal::WrongEdges);
    }
    let n = nodes as usize;
    let k = count as usize;
    if !is_ascending(edges, n, k) {
        return Err(Refusal::WrongEdges);
    }
    build_index(edges, predecessors, starts, n, k);
    Ok(count)
}
