// The numbers of a P line: whether they are those of a node.
#![tactic(auto)]

ghost use Rattle.std.specs.Prelude.{◌≡◌, [], ◌≤◌};
ghost use Rattle.jobfile.specs.File.{good_value, good_node};

// Whether a value is 0, a symbol or a set of symbols, as its kind wants.
fn is_value(symbols: u64, kind: u64, value: u64) -> bool
    requires { symbols ≤ 16 }
    ensures { result ≡ good_value symbols kind value }
{
    if kind == 0 {
        return value == 0;
    }
    if kind == 1 {
        return value < symbols;
    }
    if kind < 4 {
        return value >> symbols == 0;
    }
    false
}

// Whether the numbers of a P line are those of a node: refusal 7 is that they are not.
pub fn is_node(states: u64, symbols: u64, place: u64, numbers: &[u64; 6]) -> bool
    requires { (states ≤ 16) × (symbols ≤ 16) }
    ensures { result ≡ good_node states symbols place [] numbers.now }
{
    let entries = numbers[3];
    let exits = numbers[4];
    let after = numbers[5];
    if numbers[0] != place {
        return false;
    }
    let fits = is_value(symbols, numbers[1], numbers[2]);
    if fits {
        if entries >> states != 0 {
            return false;
        }
        if 1 < exits {
            return false;
        }
        if after >> symbols != 0 {
            return false;
        }
        if exits == 1 {
            return true;
        }
        return after == 0;
    }
    false
}
