// The jobs of the trials, as files.

// PAIR: seal, seal, write in a row, the last an exit; symbols 0, 1, 2 are seal, reopen, write, also below.
pub const PAIR: [u8; 264] = *b"J     3     3     3     2
R     0     0     1     0     0
R     1     0     1     0     2
R     2     1     1     0     2
P     0     1     0     1     0     0
P     1     1     0     0     0     0
P     2     1     2     0     1     0
F     0     1
F     1     2
";

// LOOP: two events in a ring.
pub const LOOP: [u8; 260] = *b"J     5     2     2     2
R     0     0     1     3
R     1     0     1     2
R     2     0     2     2
R     3     0     2     4
R     4     1     4     4
P     0     1     0     1     0     0
P     1     1     1     0     0     0
F     0     1
F     1     0
";

// TURN: three events in a row, entered in two states.
pub const TURN: [u8; 246] = *b"J     3     2     3     2
R     0     0     1     0
R     1     0     0     2
R     2     1     0     2
P     0     1     0     3     0     0
P     1     1     0     0     0     0
P     2     1     1     0     0     0
F     0     1
F     1     2
";

// One exit node seal, and any writes after it.
pub const SEAL_THEN_WRITES: [u8; 160] = *b"J     3     3     1     0
R     0     0     1     0     0
R     1     0     1     0     2
R     2     1     1     0     2
P     0     1     0     1     1     4
";

// One exit node seal, and nothing after it.
pub const SEAL_THEN_NOTHING: [u8; 160] = *b"J     3     3     1     0
R     0     0     1     0     0
R     1     0     1     0     2
R     2     1     1     0     2
P     0     1     0     1     1     0
";

// Seal, write, write in a row.
pub const WRITE_TWICE: [u8; 264] = *b"J     3     3     3     2
R     0     0     1     0     0
R     1     0     1     0     2
R     2     1     1     0     2
P     0     1     0     1     0     0
P     1     1     2     0     0     0
P     2     1     2     0     0     0
F     0     1
F     1     2
";

// Seal, reopen, write in a row.
pub const REOPENED: [u8; 264] = *b"J     3     3     3     2
R     0     0     1     0     0
R     1     0     1     0     2
R     2     1     1     0     2
P     0     1     0     1     0     0
P     1     1     1     0     0     0
P     2     1     2     0     0     0
F     0     1
F     1     2
";

// A J line cut after two fields.
pub const CUT: [u8; 13] = *b"J     3     3";

// PAIR with its first edge twice.
pub const EDGE_TWICE: [u8; 264] = *b"J     3     3     3     2
R     0     0     1     0     0
R     1     0     1     0     2
R     2     1     1     0     2
P     0     1     0     1     0     0
P     1     1     0     0     0     0
P     2     1     2     0     1     0
F     0     1
F     0     1
";
