// Numbers written to lent bytes, lowest byte first.
#![tactic(auto)]

ghost use Rattle.std.specs.Prelude.{◌≡◌, ◌+◌, ◌≤◌, length};
ghost use Rattle.laws.specs.Bytes.{put_number};

// Writes the number of 16 bits to the two bytes from `at` on.
pub fn write16(s: &mut [u8], at: usize, v: u16)
    requires { at + 2 ≤ length s.old }
    ensures { s.new ≡ put_number 2 s.old at v }
{
    s[at..at + 2].copy_from_slice(&v.to_le_bytes());
}

// Writes the number of 64 bits to the eight bytes from `at` on.
pub fn write64(s: &mut [u8], at: usize, v: u64)
    requires { at + 8 ≤ length s.old }
    ensures { s.new ≡ put_number 8 s.old at v }
{
    s[at..at + 8].copy_from_slice(&v.to_le_bytes());
}
