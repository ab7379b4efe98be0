// The starts of a search in the rows of pairs.
#![tactic(auto)]

ghost use Rattle.std.specs.Prelude.{◌≤◌, ◌<◌};
ghost use Rattle.buffer.specs.Layout.{Lent};
ghost use Rattle.starts.specs.Started.{StartedNode, Started};

use clearing::{clear_marks, clear_pairs};
use nodereads::entry_set;
use rows::join_pairs;
use sets::{insert, lowest, without_lowest};

// Joins the pairs of the admitted states of node n with themselves.
fn start_node(work: &mut [u8], n: usize)
    requires { (Lent work.old) × (n < 512) }
    ensures { StartedNode work.old work.new n }
{
    let mut rest = entry_set(work, n);
    while rest != 0 {
        let q = lowest(rest);
        join_pairs(work, n, q as usize, insert(0, q));
        rest = without_lowest(rest);
    }
}

// The rows of pairs hold the starts of all nodes and nothing else.
pub fn start(work: &mut [u8], nodes: usize)
    requires { (Lent work.old) × (nodes ≤ 512) }
    ensures { Started work.old work.new nodes }
{
    clear_pairs(work);
    clear_marks(work);
    for n in 0..nodes {
        start_node(work, n);
    }
}
