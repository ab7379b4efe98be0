// The limits of a rule's numbers, for rules that are made: S, A and the final set.
#![tactic(auto)]

ghost use Rattle.std.specs.Prelude.{◌≡◌};
ghost use Rattle.automaton.specs.Automaton.{numbers_fit};

// Whether S and A are 1 to 16, and no final state is S or more.
pub fn do_numbers_fit(states: u64, symbols: u64, finals: u64) -> bool
    ensures { result ≡ numbers_fit states symbols finals }
{
    1 <= states && states <= 16 && 1 <= symbols && symbols <= 16 && finals >> states == 0
}
