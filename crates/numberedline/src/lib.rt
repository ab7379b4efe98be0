// One numbered line: its place, and a number up to a limit.
#![tactic(auto)]

ghost use Rattle.std.specs.Prelude.{◌≡◌, ◌≤◌, length, drop};
ghost use Rattle.lines.specs.Line.{line_of};
ghost use Rattle.pricing.specs.Inner.{number_due};

use duelines::due_line;

// The number of the line with this letter that is due at `at`, if it is there, names its place and is within the limit.
pub fn numbered_line(file: &[u8], at: usize, letter: u8, place: u64, limit: u64) -> Option<u64>
    requires { at ≤ length file.now }
    ensures { result ≡ number_due limit place (line_of letter 2 (drop at file.now)) }
{
    let mut numbers = [0u64; 2];
    due_line(file, at, letter, 2, &mut numbers).ok()?;
    if numbers[0] != place {
        return None;
    }
    if limit < numbers[1] {
        return None;
    }
    Some(numbers[1])
}
