// An edge put into lists that are held, and taken out of them, at its place among the edges: one shift of each list, and no rebuild.
#![tactic(auto)]

ghost use Rattle.std.specs.Prelude.{◌≡◌};
ghost use Rattle.job.specs.Job.{edge};
ghost use Rattle.arrivals.specs.Arrivals.{edges_in, with_edge, without_edge, lists, relisted};
ghost use Rattle.edgeput.specs.Ready.{PutReady, TakeReady};

use edgeplace::number_place;
use edgeshift::{close_at, lower_starts, open_at, raise_starts};

// Puts an edge in at its place.
pub fn put_edge(
    edges: &mut [u16],
    predecessors: &mut [u16],
    starts: &mut [u16],
    nodes: usize,
    count: usize,
    place: usize,
    from: u16,
    to: u16,
)
    requires { PutReady nodes count place from to (lists edges.old predecessors.old starts.old) }
    ensures { lists edges.new predecessors.new starts.new
        ≡ relisted nodes count (with_edge (edge from to) (edges_in count edges.old)) (lists edges.old predecessors.old starts.old) }
{
    let node = to as usize;
    let first = starts[node] as usize;
    let last = starts[node + 1] as usize;
    let at = number_place(predecessors, first, last, from);
    open_at(edges, 2 * place, 2 * count, &[from, to]);
    open_at(predecessors, at, count, &[from]);
    raise_starts(starts, node, nodes);
}

// Takes the edge at a place out.
pub fn take_edge(
    edges: &mut [u16],
    predecessors: &mut [u16],
    starts: &mut [u16],
    nodes: usize,
    count: usize,
    place: usize,
    from: u16,
    to: u16,
)
    requires { TakeReady nodes count place from to (lists edges.old predecessors.old starts.old) }
    ensures { lists edges.new predecessors.new starts.new
        ≡ relisted nodes count (without_edge (edge from to) (edges_in count edges.old)) (lists edges.old predecessors.old starts.old) }
{
    let node = to as usize;
    let first = starts[node] as usize;
    let last = starts[node + 1] as usize;
    let at = number_place(predecessors, first, last, from);
    close_at(edges, 2 * place, 2 * count, 2);
    close_at(predecessors, at, count, 1);
    lower_starts(starts, node, nodes);
}
