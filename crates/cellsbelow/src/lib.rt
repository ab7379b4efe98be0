// Whether the cells of a table that a rule uses are states of it.
#![tactic(auto)]

ghost use Rattle.std.specs.Prelude.{◌≡◌, ◌≤◌};
ghost use Rattle.automaton.specs.Automaton.{cells_below};

// Whether every next state in the S by A part of the table is below S.
pub fn are_cells_below(table: &[[u8; 16]; 16], states: u64, symbols: u64) -> bool
    requires { (states ≤ 16) × (symbols ≤ 16) }
    ensures { result ≡ cells_below table.now states symbols }
{
    let rows = states as usize;
    let columns = symbols as usize;
    for q in 0..rows {
        for a in 0..columns {
            if states <= u64::from(table[q][a]) {
                return false;
            }
        }
    }
    true
}
