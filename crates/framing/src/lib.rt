// Where a line stands: its letter, its length and its end byte.
#![tactic(auto)]

ghost use Rattle.std.specs.Prelude.{◌≡◌, ◌+◌, ◌≤◌, length, take, drop};

// The part of the file that holds the `len` bytes from `at` on.
pub fn line_at(file: &[u8], at: usize, len: usize) -> &[u8]
    requires { at + len ≤ length file.now }
    ensures { result.now ≡ take len (drop at file.now) }
{
    &file[at..at + len]
}
