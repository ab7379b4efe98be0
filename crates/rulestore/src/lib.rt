// The rule's rows in the work buffer, and what an R line's next states may be.
#![tactic(auto)]

ghost use Rattle.std.specs.Prelude.{◌≡◌, ℕ, ◌+◌, ◌<◌, ◌≤◌, ltb, get_or};
ghost use Rattle.laws.specs.Bounded.{all_below};
ghost use Rattle.buffer.specs.Layout.{Lent};
ghost use Rattle.jobhead.specs.Stored.{RowStored, RuleCleared};

use buffer::RULE;

// Whether the next states among a line's numbers are below S.
pub fn are_below(numbers: &[u64; 18], states: u64, symbols: usize) -> bool
    requires { symbols ≤ 16 }
    ensures { result ≡ all_below symbols (λ c. ltb (get_or numbers.now (c + 2) 0) states) }
{
    for c in 0..symbols {
        if states <= numbers[c + 2] {
            return false;
        }
    }
    true
}

// Makes the rule's part zero.
pub fn clear_rule(work: &mut [u8])
    requires { Lent work.old }
    ensures { RuleCleared work.old work.new }
{
    for k in 0..256 {
        work[RULE + k] = 0;
    }
}

// Stores the row of state q.
pub fn store_row(work: &mut [u8], q: usize, numbers: &[u64; 18])
    requires { (q < 16) × ((Lent work.old) × ((c : ℕ) → c < 16 → get_or numbers.now (c + 2) 0 < 256)) }
    ensures { RowStored work.old work.new q numbers.now }
{
    for c in 0..16 {
        work[RULE + q * 16 + c] = numbers[c + 2] as u8;
    }
}
