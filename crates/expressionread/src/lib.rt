// The reader of an expression: three functions, one for each level of the grammar, that recurse on what is left of the text.
#![tactic(auto)]

ghost use Rattle.expression.specs.Grammar.{piece, row, choice};
ghost use Rattle.expressionparts.specs.Reading.{Answer, Ready, TextAnswer};

use expressionparts::chars::{begins, is_at, is_letter};
use expressionparts::links::{link, with_stars};
use expressionparts::part::{Part, choose, follow_on, letter_part, up_to};

// The longest choice from a position on.
#[cycle(read_choice_read_piece_read_row)]
fn read_choice(text: &[u8], letters: u8, at: usize, follow: &mut [u64]) -> Option<Part>
    requires { Ready letters text.now follow.old }
    ensures { Answer letters text.now choice at follow.old follow.new result }
{
    let d = read_row(text, letters, at, follow)?;
    if !is_at(text, d.end, 124) {
        return Some(d);
    }
    let e = read_choice(text, letters, d.end + 1, follow)?; // a bar with nothing after it is no choice
    Some(choose(d, e))
}

// The longest row from a position on.
#[cycle(read_choice_read_piece_read_row)]
fn read_row(text: &[u8], letters: u8, at: usize, follow: &mut [u64]) -> Option<Part>
    requires { Ready letters text.now follow.old }
    ensures { Answer letters text.now row at follow.old follow.new result }
{
    let d = read_piece(text, letters, at, follow)?;
    if !begins(text, letters, d.end) {
        return Some(d);
    }
    let e = read_row(text, letters, d.end, follow)?;
    link(follow, d.last, e.first);
    Some(follow_on(d, e))
}

// The longest piece from a position on.
#[cycle(read_choice_read_piece_read_row)]
fn read_piece(text: &[u8], letters: u8, at: usize, follow: &mut [u64]) -> Option<Part>
    requires { Ready letters text.now follow.old }
    ensures { Answer letters text.now piece at follow.old follow.new result }
{
    if is_letter(text, letters, at) {
        follow[at] = 0;
        let letter = letter_part(at);
        return Some(with_stars(text, letter, follow));
    }
    if !is_at(text, at, 40) {
        return None;
    }
    let d = read_choice(text, letters, at + 1, follow)?;
    if !is_at(text, d.end, 41) {
        return None;
    }
    let whole = up_to(d, d.end + 1, d.nullable);
    Some(with_stars(text, whole, follow))
}

// The expression that a whole text is.
pub fn read_text(text: &[u8], letters: u8, follow: &mut [u64]) -> Option<Part>
    requires { Ready letters text.now follow.old }
    ensures { TextAnswer letters text.now follow.old follow.new result }
{
    let d = read_choice(text, letters, 0, follow)?;
    if d.end != text.len() {
        return None;
    }
    Some(d)
}
