// A row of pairs moved by the symbols of a call word.
#![tactic(auto)]

ghost use Rattle.std.specs.Prelude.{◌<◌};
ghost use Rattle.buffer.specs.Layout.{Lent};
ghost use Rattle.tables.specs.Rows.{CellsBelow};
ghost use Rattle.spread.specs.Spreading.{Spread};

use images::{image_under, next_state, unlike_states};
use rows::join_pairs;
use sets::{lowest, without_lowest};

// Moves a row by each symbol of a call set and joins it at its own node; true where a symbol alarms differently.
pub fn spread(
    work: &mut [u8],
    table: &[[u8; 16]; 16],
    finals: u16,
    n: usize,
    p: usize,
    s: u16,
    set: u16,
) -> bool
    requires { (Lent work.old) × ((n < 512) × ((p < 16) × CellsBelow table.now)) }
    ensures { Spread table.now finals work.old work.new n p s set result }
{
    let mut rest = set;
    while rest != 0 {
        let a = lowest(rest) as usize;
        let state = next_state(table, p, a);
        let moved = image_under(table, a, s);
        if moved & unlike_states(finals, state) != 0 {
            return true;
        }
        join_pairs(work, n, state, moved);
        rest = without_lowest(rest);
    }
    false
}
