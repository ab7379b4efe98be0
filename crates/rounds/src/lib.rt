// A round over the marked rows of all nodes.
#![tactic(auto)]

ghost use Rattle.tables.specs.Held.{Usable};
ghost use Rattle.rounds.specs.Rounds.{RoundedAt};

use look::look;
use marks::{next_marked, take_marks};
use sets::{lowest, without_lowest};
use successors::join_successors;

// What a round has seen.
#[derive(Drop)]
pub enum Seen {
    // No row is marked.
    Nothing,
    // Marked rows, whose pairs alarm alike.
    Rows,
    // A pair that alarms differently.
    Difference,
}

// Looks at all marked rows in turn, and is left at the first difference.
pub fn round(
    work: &mut [u8],
    table: &[[u8; 16]; 16],
    finals: u16,
    states: usize,
    nodes: usize,
) -> Seen
    requires { Usable work.old table.now states nodes }
    ensures { RoundedAt table.now finals states nodes work.old work.new result }
{
    let mut seen = Seen::Nothing;
    let mut n = next_marked(work, 0, nodes);
    'search: while n < nodes {
        seen = Seen::Rows;
        let mut rest = take_marks(work, n);
        let mut rows: [u16; 16] = [0; 16];
        while rest != 0 {
            let p = lowest(rest) as usize;
            let past = look(work, table, finals, n, p);
            if past.differs {
                seen = Seen::Difference;
                break 'search;
            }
            let state = past.state;
            rows[state] |= past.set;
            rest = without_lowest(rest);
        }
        join_successors(work, n, &rows);
        n = next_marked(work, n + 1, nodes);
    }
    seen
}
