// The next state, and the final states.
ghost use Rattle.std.specs.Prelude.{◌≡◌, ◌<◌};
ghost use Rattle.laws.specs.Bits.{has};
ghost use Rattle.automaton.specs.Automaton.{cell};

// The next state of a state on a symbol.
pub fn next(table: &[[u8; 16]; 16], state: u64, symbol: u64) -> u64
    requires { (state < 16) × (symbol < 16) }
    ensures { result ≡ cell table.now state symbol }
{
    let q = state as usize;
    let a = symbol as usize;
    u64::from(table[q][a])
}

// Whether a state is final.
pub fn is_final(finals: u64, state: u64) -> bool
    requires { state < 64 }
    ensures { result ≡ has finals state }
{
    (finals >> state) & 1 == 1
}
