// What stands at a position of the text.
ghost use Rattle.std.specs.Prelude.{◌≡◌, ◌≤◌, get_or};
ghost use Rattle.expression.specs.Grammar.{IsLetter, At};
ghost use Rattle.expression.specs.Stops.{Begins};
ghost use Rattle.expressionparts.specs.Reading.{Tells};

// The character at a position, 0 past the end.
fn char_at(text: &[u8], i: usize) -> u8
    ensures { result ≡ get_or text.now i 0 }
{
    text.get(i).copied().unwrap_or(0)
}

// Whether one of the first letters stands at a position.
pub fn is_letter(text: &[u8], letters: u8, i: usize) -> bool
    requires { letters ≤ 16 }
    ensures { Tells result (IsLetter letters text.now i) }
{
    let c = char_at(text, i);
    97 <= c && c < 97 + letters
}

// Whether a character stands at a position.
pub fn is_at(text: &[u8], i: usize, c: u8) -> bool
    ensures { Tells result (At text.now i c) }
{
    char_at(text, i) == c
}

// Whether a piece begins at a position.
pub fn begins(text: &[u8], letters: u8, i: usize) -> bool
    requires { letters ≤ 16 }
    ensures { Tells result (Begins letters text.now i) }
{
    is_at(text, i, 40) || is_letter(text, letters, i)
}
