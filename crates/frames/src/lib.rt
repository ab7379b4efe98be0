// A line's frame: its letter, its length and its end.
#![tactic(auto)]

ghost use Rattle.std.specs.Prelude.{◌+◌, ◌≤◌, length, drop};
ghost use Rattle.lines.specs.Inner.{Framed};
ghost use Rattle.refusal.specs.Refusal.{status_in};

use framing::line_at;
use refusal::Refusal;

// Whether a line with this letter and so many fields stands at `at`, its fields aside: `FileEnds` or `WrongLine` where it does not.
pub fn framed(file: &[u8], at: usize, letter: u8, count: usize) -> Result<(), Refusal>
    requires { (at ≤ length file.now) × (count ≤ 18) }
    ensures { Framed letter count (drop at file.now) (status_in result) }
{
    let left = file.len() - at;
    if left == 0 {
        return Err(Refusal::FileEnds);
    }
    let len = count * 6 + 2;
    if left < len {
        return Err(Refusal::WrongLine);
    }
    let line = line_at(file, at, len);
    if line[0] != letter {
        return Err(Refusal::WrongLine);
    }
    if line[len - 1] != 10 {
        return Err(Refusal::WrongLine);
    }
    Ok(())
}
