// The line that is due, read into lent numbers.
#![tactic(auto)]

ghost use Rattle.std.specs.Prelude.{◌+◌, ◌*◌, ◌≤◌, length, drop};
ghost use Rattle.lines.specs.Inner.{DueRead};
ghost use Rattle.lines.specs.Line.{found_in, fields_of, line_of};
ghost use Rattle.refusal.specs.Refusal.{status_in};

use fields::field_in;
use frames::framed;
use framing::line_at;
use refusal::Refusal;

// Reads a line's fields, after its letter: `WrongLine`, or their numbers are stored.
fn fields_in(line: &[u8], count: usize, numbers: &mut [u64]) -> Result<(), Refusal>
    requires { (count * 6 + 1 ≤ length line.now) × (count ≤ length numbers.old) }
    ensures { DueRead (found_in (fields_of count (drop 1 line.now))) count numbers.old numbers.new (status_in result) }
{
    for k in 0..count {
        let Some(n) = field_in(line, k * 6 + 1) else {
            return Err(Refusal::WrongLine);
        };
        numbers[k] = n;
    }
    Ok(())
}

// Reads the line with this letter and so many fields that is due at `at`: `FileEnds`, `WrongLine`, or its numbers are stored.
pub fn due_line(
    file: &[u8],
    at: usize,
    letter: u8,
    count: usize,
    numbers: &mut [u64],
) -> Result<(), Refusal>
    requires { (at ≤ length file.now) × ((count ≤ 18) × (count ≤ length numbers.old)) }
    ensures { DueRead (line_of letter count (drop at file.now)) count numbers.old numbers.new (status_in result) }
{
    framed(file, at, letter, count)?;
    fields_in(line_at(file, at, count * 6 + 2), count, numbers)
}
