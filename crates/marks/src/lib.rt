// The marks of the rows of pairs that may have grown.
#![tactic(auto)]

ghost use Rattle.std.specs.Prelude.{◌<◌, ◌≤◌};
ghost use Rattle.buffer.specs.Layout.{Lent};
ghost use Rattle.tables.specs.Tables.{NextMarked, MarksTaken};

use buffer::MARKS;
use loads::read16;
use stores::write16;

// The first node from n on that has marks; `nodes` where none has.
pub fn next_marked(work: &[u8], n: usize, nodes: usize) -> usize
    requires { (Lent work.now) × ((n ≤ nodes) × (nodes ≤ 512)) }
    ensures { NextMarked work.now n nodes result }
{
    for next in n..nodes {
        if read16(work, MARKS + next * 2) != 0 {
            return next;
        }
    }
    nodes
}

// Takes down the marks of node n: the rows that were marked.
pub fn take_marks(work: &mut [u8], n: usize) -> u16
    requires { (Lent work.old) × (n < 512) }
    ensures { MarksTaken work.old work.new n result }
{
    let at = MARKS + n * 2;
    let due = read16(work, at);
    write16(work, at, 0);
    due
}
