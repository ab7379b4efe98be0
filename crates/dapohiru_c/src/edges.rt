// The arrivals index beside the edges, in lent lists of 16-bit numbers: the edges as from, to; the predecessors; N + 1 starts.
ghost use Rattle.std.specs.Prelude.{◌≡◌};
ghost use Rattle.arrivals.specs.Arrivals.{lists, added, dropped, indexed, edge_number};

// Adds an edge and returns 2^48 plus the new count, or the refusal's number, which leaves the lists.
#[unsafe(no_mangle)]
pub extern "C" fn dapohiru_add_edge(
    edges: &mut [u16],
    predecessors: &mut [u16],
    starts: &mut [u16],
    nodes: u64,
    count: u64,
    from: u64,
    to: u64,
) -> u64
    ensures { (result ≡ edge_number (added nodes count from to (lists edges.old predecessors.old starts.old)).answer)
        × (lists edges.new predecessors.new starts.new
        ≡ (added nodes count from to (lists edges.old predecessors.old starts.old)).left) }
{
    dapohiru::edges::dapohiru_add_edge(edges, predecessors, starts, nodes, count, from, to)
}

// Drops an edge and returns 2^48 plus the new count, or the refusal's number, which leaves the lists.
#[unsafe(no_mangle)]
pub extern "C" fn dapohiru_drop_edge(
    edges: &mut [u16],
    predecessors: &mut [u16],
    starts: &mut [u16],
    nodes: u64,
    count: u64,
    from: u64,
    to: u64,
) -> u64
    ensures { (result ≡ edge_number (dropped nodes count from to (lists edges.old predecessors.old starts.old)).answer)
        × (lists edges.new predecessors.new starts.new
        ≡ (dropped nodes count from to (lists edges.old predecessors.old starts.old)).left) }
{
    dapohiru::edges::dapohiru_drop_edge(edges, predecessors, starts, nodes, count, from, to)
}

// Makes the index of the edges afresh and returns 2^48 plus their count, or the refusal's number, which leaves the lists.
#[unsafe(no_mangle)]
pub extern "C" fn dapohiru_index_edges(
    edges: &[u16],
    predecessors: &mut [u16],
    starts: &mut [u16],
    nodes: u64,
    count: u64,
) -> u64
    ensures { (result ≡ edge_number (indexed nodes count (lists edges.now predecessors.old starts.old)).answer)
        × (lists edges.now predecessors.new starts.new
        ≡ (indexed nodes count (lists edges.now predecessors.old starts.old)).left) }
{
    dapohiru::edges::dapohiru_index_edges(edges, predecessors, starts, nodes, count)
}
