// The rows of pairs in the work buffer. A row that grows is marked.
#![tactic(auto)]

ghost use Rattle.std.specs.Prelude.{◌≡◌, ◌<◌};
ghost use Rattle.buffer.specs.Layout.{Lent};
ghost use Rattle.buffer.specs.Views.{pair_row_in};
ghost use Rattle.tables.specs.Tables.{PairsJoined};

use buffer::{MARKS, PAIRS};
use loads::read16;
use sets::insert;
use stores::write16;

// Row p of the pairs of node n.
pub fn pair_row(work: &[u8], n: usize, p: usize) -> u16
    requires { (Lent work.now) × ((n < 512) × (p < 16)) }
    ensures { result ≡ pair_row_in work.now n p }
{
    read16(work, PAIRS + (n * 16 + p) * 2)
}

// Joins a set into row p of node n, and marks the row where it grows.
pub fn join_pairs(work: &mut [u8], n: usize, p: usize, s: u16)
    requires { (Lent work.old) × ((n < 512) × (p < 16)) }
    ensures { PairsJoined work.old work.new n p s }
{
    let at = PAIRS + (n * 16 + p) * 2;
    let old = read16(work, at);
    let joined = old | s;
    if joined == old {
        return;
    }
    let marks = MARKS + n * 2;
    let due = read16(work, marks);
    write16(work, at, joined);
    write16(work, marks, insert(due, p as u32));
}
