// Large jobs, written line by line. Each has a counter for its rule: one symbol, which leads from every state to the next and from the
// last to the first; the last is final. Node 0 reports the symbol and is entered in state 0; the others are plain.
// Edge e leads from node e / 32 to node e % 32, so that the edges ascend.
#![tactic(auto)]

ghost use Rattle.std.specs.Prelude.{◌+◌, ◌<◌, ◌≤◌, length};

use counterlines::{write_edge, write_head, write_node, write_rule};

// The length of a J line, and of the R, P and F lines of these jobs.
pub const HEAD: usize = 26;

const RULE: usize = 20;

const NODE: usize = 38;

const EDGE: usize = 14;

// Writes line k past the J line: first come the R lines, then the P lines, then the F lines.
fn write_rest_line(out: &mut [u8], k: usize, states: usize, nodes: usize)
    requires { (49914 ≤ length out.old) × (states ≤ 17) × (nodes ≤ 65) × (k < states + nodes + 2049) }
{
    let nodes_at = HEAD + states * RULE;
    let edges_at = nodes_at + nodes * NODE;
    if k < states {
        write_rule(out, HEAD + k * RULE, k, states);
        return;
    }
    let n = k - states;
    if n < nodes {
        write_node(out, nodes_at + n * NODE, n);
        return;
    }
    let e = n - nodes;
    write_edge(out, edges_at + e * EDGE, e);
}

// Writes the lines past the J line.
fn write_rest(out: &mut [u8], states: usize, nodes: usize, edges: usize)
    requires { (49914 ≤ length out.old) × (states ≤ 17) × (nodes ≤ 65) × (edges ≤ 2049) }
{
    for k in 0..states + nodes + edges {
        write_rest_line(out, k, states, nodes);
    }
}

// Writes the job with so many states, nodes and edges: its length.
pub fn write_counter(out: &mut [u8], states: usize, nodes: usize, edges: usize) -> usize
    requires { (49914 ≤ length out.old) × (states ≤ 17) × (nodes ≤ 65) × (edges ≤ 2049) }
    ensures { (26 ≤ result) × (result ≤ length out.new) }
{
    write_head(out, states, nodes, edges);
    write_rest(out, states, nodes, edges);
    HEAD + states * RULE + nodes * NODE + edges * EDGE
}
