// The J line, and the numbers that reading a job returns.
ghost use Rattle.std.specs.Prelude.{◌≡◌, [], ◌∷◌};
ghost use Rattle.jobfile.specs.File.{good_head};
ghost use Rattle.jobhead.specs.Numbers.{numbers_in};
ghost use Rattle.jobhead.specs.ReadLines.{HeadRead};

use duelines::due_line;
use refusal::Refusal;

// A job's numbers of states and symbols, its final states, and its numbers of nodes and edges.
#[derive(Clone, Copy)]
pub struct Head {
    pub states: u64,
    pub symbols: u64,
    pub finals: u64,
    pub nodes: u64,
    pub edges: u64,
}

// Whether the numbers of a J line are within their limits.
fn is_head(states: u64, symbols: u64, nodes: u64, edges: u64) -> bool
    ensures { result ≡ good_head 0 [] (states ∷ symbols ∷ nodes ∷ edges ∷ []) }
{
    1 <= states
        && states <= 16
        && 1 <= symbols
        && symbols <= 16
        && 1 <= nodes
        && nodes <= 512
        && edges <= 2048
}

// Reads the J line: `FileEnds`, `WrongLine` or `WrongHead`, or its numbers.
pub fn head_line(file: &[u8]) -> Result<Head, Refusal>
    ensures { HeadRead file.now (numbers_in result) }
{
    let mut numbers = [0u64; 4];
    due_line(file, 0, 74, 4, &mut numbers)?;
    if !is_head(numbers[0], numbers[1], numbers[2], numbers[3]) {
        return Err(Refusal::WrongHead);
    }
    Ok(Head {
        states: numbers[0],
        symbols: numbers[1],
        finals: 0,
        nodes: numbers[2],
        edges: numbers[3],
    })
}
