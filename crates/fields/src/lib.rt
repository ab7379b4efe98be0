// Reading a field: six columns with a decimal number, right-justified: spaces, then zeros, then its digits.
#![tactic(auto)]

ghost use Rattle.std.specs.Prelude.{◌≡◌, ◌+◌, ◌%◌, ◌<◌, ◌≤◌, length, take, drop};
ghost use Rattle.std.proofs.Math.Seq.{slice};
ghost use Rattle.lines.specs.Line.{digits_of, field_of};
ghost use Rattle.lines.specs.Field.{PastSpaces};

// How many of the six columns from `at` on are spaces before any other byte.
fn past_spaces(line: &[u8], at: usize) -> usize
    requires { at + 6 ≤ length line.now }
    ensures { PastSpaces line.now at result }
{
    for i in 0..6 {
        if line[at + i] != 32 {
            return i;
        }
    }
    6
}

// What a digit counts, and more than 9 for any other byte.
fn digit(b: u8) -> u32
    ensures { ((result + 48) % 256 ≡ b) × (result < 256) }
{
    u32::from(b.wrapping_sub(48))
}

// The number whose digits are the columns from `from` on, of the six from `at` on.
fn digits_in(line: &[u8], at: usize, from: usize) -> Option<u64>
    requires { (from ≤ 6) × (at + 6 ≤ length line.now) }
    ensures { result ≡ digits_of 0 (slice (at + from) (at + 6) line.now) }
{
    let mut v: u32 = 0;
    for i in from..6 {
        let d = digit(line[at + i]);
        if 9 < d {
            return None;
        }
        v = v * 10 + d;
    }
    Some(u64::from(v))
}

// What the six columns from `at` on hold.
pub fn field_in(line: &[u8], at: usize) -> Option<u64>
    requires { at + 6 ≤ length line.now }
    ensures { result ≡ field_of (take 6 (drop at line.now)) }
{
    let spaces = past_spaces(line, at);
    if spaces == 6 {
        return None;
    }
    digits_in(line, at, spaces)
}
