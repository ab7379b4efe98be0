// The lines of large jobs, each written at its place.
#![tactic(auto)]

ghost use Rattle.std.specs.Prelude.{◌+◌, ◌<◌, ◌≤◌, length};

use linewriter::write_line;

// The state after q.
fn next(q: usize, states: usize) -> u64
    requires { q < 17 }
    ensures { result ≤ 17 }
{
    if q + 1 == states { 0 } else { q as u64 + 1 }
}

// Writes the J line.
pub fn write_head(out: &mut [u8], states: usize, nodes: usize, edges: usize)
    requires { (26 ≤ length out.old) × (states ≤ 17) × (nodes ≤ 65) × (edges ≤ 2049) }
{
    let numbers = [states as u64, 1, nodes as u64, edges as u64];
    write_line(out, 0, b'J', &numbers);
}

// Writes the R line of state q from `at` on.
pub fn write_rule(out: &mut [u8], at: usize, q: usize, states: usize)
    requires { (at + 20 ≤ length out.old) × (q < 17) }
{
    let numbers = [q as u64, u64::from(q + 1 == states), next(q, states)];
    write_line(out, at, b'R', &numbers);
}

// Writes the P line of node n from `at` on.
pub fn write_node(out: &mut [u8], at: usize, n: usize)
    requires { (at + 38 ≤ length out.old) × (n < 65) }
{
    let first = u64::from(n == 0);
    let numbers = [n as u64, first, 0, first, 0, 0];
    write_line(out, at, b'P', &numbers);
}

// Writes the F line of edge e from `at` on.
pub fn write_edge(out: &mut [u8], at: usize, e: usize)
    requires { (at + 14 ≤ length out.old) × (e < 2049) }
{
    let numbers = [e as u64 / 32, e as u64 % 32];
    write_line(out, at, b'F', &numbers);
}
