// The rule's table from bytes in row order.
#![tactic(auto)]

ghost use Rattle.std.specs.Prelude.{◌≡◌, ◌+◌, ◌≤◌, length};
ghost use Rattle.automaton.specs.Table.{row_of, table_of};

// The sixteen bytes of one row.
fn row_of(bytes: &[u8], start: usize) -> [u8; 16]
    requires { start + 16 ≤ length bytes.now }
    ensures { result ≡ row_of bytes.now start }
{
    let mut row = [0u8; 16];
    row.copy_from_slice(&bytes[start..start + 16]);
    row
}

// The table of 256 bytes, row after row.
pub fn table_of(bytes: &[u8]) -> [[u8; 16]; 16]
    requires { 256 ≤ length bytes.now }
    ensures { result ≡ table_of bytes.now }
{
    let mut table = [[0u8; 16]; 16];
    for q in 0..16 {
        table[q] = row_of(bytes, q * 16);
    }
    table
}
