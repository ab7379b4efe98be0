// The verdict of the plan check.
use std::fmt;

// Whether no walk tells the plan from all points watched.
#[derive(Clone, Copy, Debug, PartialEq, Eq)]
pub enum Verdict {
    Faithful,
    Different,
}

impl fmt::Display for Verdict {
    fn fmt<W: fmt::Write>(&self, f: &mut fmt::Formatter<W>) -> fmt::Result {
        f.write_str(match self {
            Verdict::Faithful => "faithful",
            Verdict::Different => "different",
        })
    }
}
