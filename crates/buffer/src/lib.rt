// The work buffer: the bytes that a call may use, and where each of its parts begins, as the part before it and that part's size.
#![tactic(auto)]

// The nodes: eight bytes each.
pub const NODES: usize = 0;

// The index of each node's first edge, and after the last node the number of edges: two bytes each.
pub const STARTS: usize = NODES + 512 * 8;

// The ends of the edges, by source: two bytes each.
pub const TARGETS: usize = STARTS + 513 * 2;

// The rows of pairs: sixteen for each node, two bytes each.
pub const PAIRS: usize = TARGETS + 2048 * 2;

// The rows of states told apart past each node: sixteen for each node, two bytes each.
pub const CLASSES: usize = PAIRS + 512 * 32;

// What was found at each point: four bytes a node.
pub const FOUND: usize = CLASSES + 512 * 32;

// The plan: a byte a node.
pub const PLAN: usize = FOUND + 512 * 4;

// The rule's rows: sixteen bytes each.
pub const RULE: usize = PLAN + 512;

// The marks of the rows of pairs that may have grown: two bytes a node.
pub const MARKS: usize = RULE + 256;

// The first byte past them.
pub const MARKS_END: usize = MARKS + 512 * 2;

// The bytes that a call may use.
pub const WORK: usize = 65536;
