// The moves of one row of pairs, on values: a state of the full monitor and a set of states of the residual one.
#![tactic(auto)]

ghost use Rattle.std.specs.Prelude.{◌≡◌, ◌<◌};
ghost use Rattle.tables.specs.Rows.{CellsBelow};
ghost use Rattle.moves.specs.Past.{past_row};

use images::{image_under, next_state, unlike_states};
use sets::contains;

// A row past a node: its state, its set, and whether some pair of it alarms differently there.
#[derive(Drop)]
pub struct Past {
    pub state: usize,
    pub set: u16,
    pub differs: bool,
}

// A row past a node: at a shadow the full monitor moves, and the residual one where the shadow is enabled.
pub fn past_row(
    table: &[[u8; 16]; 16],
    finals: u16,
    shadow: bool,
    a: usize,
    enabled: bool,
    p: usize,
    s: u16,
) -> Past
    requires { (p < 16) × ((a < 16) × CellsBelow table.now) }
    ensures { result ≡ past_row table.now finals shadow a enabled p s }
{
    if !shadow {
        return Past {
            state: p,
            set: s,
            differs: false,
        };
    }
    let state = next_state(table, p, a);
    if enabled {
        let moved = image_under(table, a, s);
        return Past {
            state: state,
            set: moved,
            differs: moved & unlike_states(finals, state) != 0,
        };
    }
    Past {
        state: state,
        set: s,
        differs: contains(finals, state as u32),
    }
}
