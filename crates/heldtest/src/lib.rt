// The test that lent lists hold edges with their fresh index, for numbers of any size.
#![tactic(auto)]

ghost use Rattle.std.specs.Prelude.{◌≡◌};
ghost use Rattle.arrivals.specs.Arrivals.{lists, fits, is_held};

use indextest::{is_ascending, is_fresh};

// Whether N is 1 to 512, the count at most 2,048, and no list shorter than those that they name.
#[tactic(auto, unfolding(arrivals::specs::Arrivals::fits))]
pub fn is_fitting(
    edges: &[u16],
    predecessors: &[u16],
    starts: &[u16],
    nodes: u64,
    count: u64,
) -> bool
    ensures { result ≡ fits nodes count (lists edges.now predecessors.now starts.now) }
{
    1 <= nodes
        && nodes <= 512
        && count <= 2048
        && 2 * count <= edges.len() as u64
        && count <= predecessors.len() as u64
        && nodes < starts.len() as u64
}

// Whether the lists hold the edges with their index.
#[tactic(auto, unfolding(arrivals::specs::Arrivals::is_held))]
pub fn is_held(edges: &[u16], predecessors: &[u16], starts: &[u16], nodes: u64, count: u64) -> bool
    ensures { result ≡ is_held nodes count (lists edges.now predecessors.now starts.now) }
{
    is_fitting(edges, predecessors, starts, nodes, count)
        && is_ascending(edges, nodes as usize, count as usize)
        && is_fresh(edges, predecessors, starts, nodes as usize, count as usize)
}
