// What comes back in, settled once when no row of pairs is marked: returns from the words after exits, and entries after the calls' words.
#![tactic(auto)]

ghost use Rattle.tables.specs.Held.{Usable};
ghost use Rattle.returns.specs.CameBack.{NoMarks, CameBackAt};

use exitrows::exit_rows;
use marks::next_marked;
use nodereads::any_reentrant;
use reentry::{entering_rows, join_entries, join_reentrants};

// Joins what comes back in at the calls and at the entries; true where a row has grown, so that it is marked.
pub fn come_back(
    work: &mut [u8],
    table: &[[u8; 16]; 16],
    finals: u16,
    states: usize,
    nodes: usize,
) -> bool
    requires { (Usable work.old table.now states nodes) × NoMarks work.old nodes }
    ensures { CameBackAt table.now finals states nodes work.old work.new result }
{
    if !any_reentrant(work, nodes) {
        return false;
    }
    let back = exit_rows(work, table, finals, nodes);
    join_reentrants(work, nodes, &back);
    let again = entering_rows(work, nodes);
    join_entries(work, nodes, &again);
    next_marked(work, 0, nodes) < nodes
}
