// The lines past the J line, read into the work buffer.
#![tactic(auto)]

ghost use Rattle.std.specs.Prelude.{[], ◌∷◌, ◌≤◌, length, drop};
ghost use Rattle.lines.specs.Line.{line_length};
ghost use Rattle.jobfile.specs.File.{read_rest};
ghost use Rattle.buffer.specs.Layout.{Lent};
ghost use Rattle.jobhead.specs.Numbers.{numbers_in};
ghost use Rattle.jobhead.specs.Reading.{JobRead};

use edgelines::edge_lines;
use jobhead::head::Head;
use nodelines::node_lines;
use refusal::Refusal;
use rulelines::rule_lines;

// Reads the lines past the J line, whose numbers are given: the first refusal of a line, `BytesFollow` or `NoEntry`, or the
// job's numbers, and the job is stored.
pub fn read_rest(file: &[u8], work: &mut [u8], head: Head) -> Result<Head, Refusal>
    requires { (line_length 4 ≤ length file.now) × ((Lent work.old) × ((head.states ≤ 16) × ((head.symbols ≤ 16) × ((head.nodes ≤ 512) × (head.edges ≤ 2048))))) }
    ensures { JobRead (read_rest (head.states ∷ head.symbols ∷ head.nodes ∷ head.edges ∷ []) (drop (line_length 4) file.now)) work.old work.new (numbers_in result) }
{
    let states = head.states;
    let symbols = head.symbols;
    let a = symbols as usize;
    let n = head.nodes as usize;
    let e = head.edges as usize;
    let finals = rule_lines(file, 26, work, states, a)?;
    let second = 26 + (states as usize) * ((a + 2) * 6 + 2);
    let entries = node_lines(file, second, work, states, symbols, n)?;
    let third = second + n * 38;
    edge_lines(file, third, work, n, e)?;
    if third + e * 14 < file.len() {
        return Err(Refusal::BytesFollow);
    }
    if entries == 0 {
        return Err(Refusal::NoEntry);
    }
    Ok(Head { finals, ..head })
}
