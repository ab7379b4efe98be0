// The test of lent lists: edges that ascend between nodes below N, with their fresh index.
#![tactic(auto)]

ghost use Rattle.std.specs.Prelude.{◌≡◌, true, ◌+◌, ◌*◌, ◌≤◌, length};
ghost use Rattle.arrivals.specs.Arrivals.{lists, fits, ascend_below, is_fresh};
ghost use Rattle.arrivals.specs.Placed.{Walkable, Arrived, Copied, meets};

// The edges ascend strictly, between nodes below N.
pub fn is_ascending(edges: &[u16], nodes: usize, count: usize) -> bool
    requires { 2 * count ≤ length edges.now }
    ensures { result ≡ ascend_below nodes count edges.now }
{
    let (pairs, _) = edges.as_chunks::<2>();
    let mut least: u64 = 0;
    for [from, to] in &pairs[..count] {
        if nodes <= *from as usize || nodes <= *to as usize {
            return false;
        }
        let key = *from as u64 * 65536 + *to as u64;
        if key < least {
            return false;
        }
        least = key + 1;
    }
    true
}

// A cursor for each node, at the start of its predecessors.
fn copy_starts(starts: &[u16], next: &mut [u16], nodes: usize)
    requires { (nodes ≤ length starts.now) × (nodes ≤ length next.old) }
    ensures { Copied nodes starts.now next.new }
{
    next[..nodes].copy_from_slice(&starts[..nodes]);
}

// Each edge's from stands at the cursor of its to, which moves past it.
fn arrive_all(edges: &[u16], predecessors: &[u16], next: &mut [u16], count: usize) -> bool
    requires { (Walkable edges.now next.old count) × (count ≤ length predecessors.now) }
    ensures { Arrived edges.now predecessors.now next.old next.new count result }
{
    let (pairs, _) = edges.as_chunks::<2>();
    for [from, to] in &pairs[..count] {
        let node = *to as usize;
        let at = next[node];
        if count <= at as usize || predecessors[at as usize] != *from {
            return false;
        }
        next[node] = at + 1;
    }
    true
}

// The first start is 0, and each cursor stands at the start of the next node.
fn all_met(starts: &[u16], next: &[u16], nodes: usize) -> bool
    requires { (nodes + 1 ≤ length starts.now) × (nodes ≤ length next.now) }
    ensures { result ≡ meets nodes starts.now next.now }
{
    starts[0] == 0 && next[..nodes] == starts[1..=nodes]
}

// The index is that of the edges.
pub fn is_fresh(
    edges: &[u16],
    predecessors: &[u16],
    starts: &[u16],
    nodes: usize,
    count: usize,
) -> bool
    requires { (fits nodes count (lists edges.now predecessors.now starts.now) ≡ true) × (ascend_below nodes count edges.now ≡ true) }
    ensures { result ≡ is_fresh nodes count (lists edges.now predecessors.now starts.now) }
{
    let mut next = [0u16; 512];
    copy_starts(starts, &mut next, nodes);
    arrive_all(edges, predecessors, &mut next, count) && all_met(starts, &next, nodes)
}
