// Sixteen rows of pairs joined at a node, and at the successors of a node.
#![tactic(auto)]

ghost use Rattle.std.specs.Prelude.{◌<◌};
ghost use Rattle.buffer.specs.Layout.{Lent};
ghost use Rattle.tables.specs.Held.{EdgesWithin};
ghost use Rattle.successors.specs.Joined.{RowsJoined, JoinedPast};

use graphreads::{start_at, target_at};
use rows::join_pairs;

// Joins sixteen rows into those of node n.
#[inline(always)]
pub fn join_rows(work: &mut [u8], n: usize, rows: &[u16; 16])
    requires { (Lent work.old) × (n < 512) }
    ensures { RowsJoined work.old work.new n rows.now }
{
    for p in 0..16 {
        join_pairs(work, n, p, rows[p]);
    }
}

// Joins sixteen rows into those of every successor of node n.
pub fn join_successors(work: &mut [u8], n: usize, rows: &[u16; 16])
    requires { (Lent work.old) × ((n < 512) × EdgesWithin work.old n) }
    ensures { JoinedPast work.old work.new n rows.now }
{
    let end = start_at(work, n + 1);
    for i in start_at(work, n)..end {
        let m = target_at(work, i);
        join_rows(work, m, rows);
    }
}
