// Whether a rule is one: the test of refusal 13.
#![tactic(auto)]

ghost use Rattle.std.specs.Prelude.{◌≡◌};
ghost use Rattle.automaton.specs.Automaton.{automaton_of, well_formed};

use cellsbelow::are_cells_below;

// Whether the four are a rule: refusal 13 is that they are not.
pub fn is_well_formed(table: [[u8; 16]; 16], states: u64, symbols: u64, finals: u64) -> bool
    ensures { result ≡ well_formed (automaton_of table states symbols finals) }
{
    if states < 1 {
        return false;
    }
    if 16 < states {
        return false;
    }
    if symbols < 1 {
        return false;
    }
    if 16 < symbols {
        return false;
    }
    if finals >> states != 0 {
        return false;
    }
    are_cells_below(&table, states, symbols)
}
