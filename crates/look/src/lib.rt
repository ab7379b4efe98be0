// Looking at one row of pairs in the work buffer: what its call word leads to is joined, and a difference is told.
#![tactic(auto)]

ghost use Rattle.std.specs.Prelude.{◌<◌};
ghost use Rattle.buffer.specs.Layout.{Lent};
ghost use Rattle.tables.specs.Rows.{CellsBelow};
ghost use Rattle.look.specs.Looking.{LookedAt};

use classrows::class_row;
use graphreads::is_enabled;
use moves::{Past, past_row};
use nodereads::{call_set, is_shadow, symbol_at};
use rows::pair_row;
use spread::spread;

// Looks at row p of node n: the row past the node, and whether some pair alarms differently at an event that may come next.
pub fn look(work: &mut [u8], table: &[[u8; 16]; 16], finals: u16, n: usize, p: usize) -> Past
    requires { (Lent work.old) × ((n < 512) × ((p < 16) × CellsBelow table.now)) }
    ensures { LookedAt table.now finals work.old work.new n p result }
{
    let s = pair_row(work, n, p);
    if s == 0 {
        return Past {
            state: p,
            set: 0,
            differs: false,
        };
    }
    let set = call_set(work, n);
    if spread(work, table, finals, n, p, s, set) {
        return Past {
            state: p,
            set: 0,
            differs: true,
        };
    }
    let moved = past_row(
        table,
        finals,
        is_shadow(work, n),
        symbol_at(work, n),
        is_enabled(work, n),
        p,
        s,
    );
    if moved.differs {
        return Past {
            state: p,
            set: 0,
            differs: true,
        };
    }
    let state = moved.state;
    let left = moved.set;
    Past {
        state: state,
        set: left,
        differs: class_row(work, n, state) & left != 0,
    }
}
