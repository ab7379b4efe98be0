// The arrivals index beside the edges: an edge added to three lent lists, and dropped.
#![tactic(auto)]

ghost use Rattle.std.specs.Prelude.{◌≡◌, ◌*◌, ◌≤◌, length};
ghost use Rattle.refusal.specs.Refusal.{said};
ghost use Rattle.arrivals.specs.Arrivals.{lists, edited, added, dropped};
ghost use Rattle.edgecall.specs.Standing.{ends_below, stands_at};

use edgeplace::edge_place;
use edgeput::{put_edge, take_edge};
use heldtest::is_held;
use refusal::Refusal;

// Whether both ends are nodes.
fn are_nodes(nodes: u64, from: u64, to: u64) -> bool
    ensures { result ≡ ends_below nodes from to }
{
    from < nodes && to < nodes
}

// Whether the edge stands at a place among the edges.
fn is_at(edges: &[u16], count: usize, place: usize, from: u16, to: u16) -> bool
    requires { 2 * count ≤ length edges.now }
    ensures { result ≡ stands_at edges.now count place from to }
{
    place < count && edges[2 * place] == from && edges[2 * place + 1] == to
}

// Adds an edge and answers the new count. A refusal leaves the lists.
pub fn add_edge(
    edges: &mut [u16],
    predecessors: &mut [u16],
    starts: &mut [u16],
    nodes: u64,
    count: u64,
    from: u64,
    to: u64,
) -> Result<u64, Refusal>
    ensures { edited (said result) edges.new predecessors.new starts.new
        ≡ added nodes count from to (lists edges.old predecessors.old starts.old) }
{
    if !is_held(edges, predecessors, starts, nodes, count) {
        return Err(Refusal::WrongEdges);
    }
    if !are_nodes(nodes, from, to) {
        return Err(Refusal::WrongEdges);
    }
    if 2048 <= count {
        return Err(Refusal::WrongEdges);
    }
    let k = count as usize;
    if edges.len() < 2 * k + 2 {
        return Err(Refusal::WrongEdges);
    }
    if predecessors.len() <= k {
        return Err(Refusal::WrongEdges);
    }
    let a = from as u16;
    let b = to as u16;
    let place = edge_place(edges, k, a, b);
    if is_at(edges, k, place, a, b) {
        return Err(Refusal::WrongEdges);
    }
    put_edge(edges, predecessors, starts, nodes as usize, k, place, a, b);
    Ok(count + 1)
}

// Drops an edge and answers the new count. A refusal leaves the lists.
pub fn drop_edge(
    edges: &mut [u16],
    predecessors: &mut [u16],
    starts: &mut [u16],
    nodes: u64,
    count: u64,
    from: u64,
    to: u64,
) -> Result<u64, Refusal>
    ensures { edited (said result) edges.new predecessors.new starts.new
        ≡ dropped nodes count from to (lists edges.old predecessors.old starts.old) }
{
    if !is_held(edges, predecessors, starts, nodes, count) {
        return Err(Refusal::WrongEdges);
    }
    if !are_nodes(nodes, from, to) {
        return Err(Refusal::WrongEdges);
    }
    let k = count as usize;
    let a = from as u16;
    let b = to as u16;
    let place = edge_place(edges, k, a, b);
    if !is_at(edges, k, place, a, b) {
        return Err(Refusal::WrongEdges);
    }
    take_edge(edges, predecessors, starts, nodes as usize, k, place, a, b);
    Ok(count - 1)
}
