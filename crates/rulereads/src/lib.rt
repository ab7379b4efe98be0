// The rule's table out of the work buffer.
#![tactic(auto)]

ghost use Rattle.std.specs.Prelude.{◌≡◌};
ghost use Rattle.buffer.specs.Layout.{Lent};
ghost use Rattle.buffer.specs.Views.{rule_rows_in};

use buffer::{MARKS, RULE};

// The sixteen rows of sixteen next states that the buffer holds.
pub fn table_in(work: &[u8]) -> [[u8; 16]; 16]
    requires { Lent work.now }
    ensures { result ≡ rule_rows_in work.now }
{
    ruletable::table_of(&work[RULE..MARKS])
}
