// A part of the text that was read, and how parts are put together.
ghost use Rattle.std.specs.Prelude.{◌≡◌, ◌<◌};
ghost use Rattle.expression.specs.Masks.{when};
ghost use Rattle.expressionparts.specs.Reading.{letter_part, followed, either_part, up_to};

// A part that was read: the position after it, whether the empty word is one of its words, and the positions that words begin and end with.
#[derive(Clone, Copy)]
pub struct Part {
    pub end: usize,
    pub nullable: bool,
    pub first: u64,
    pub last: u64,
}

// A set, or none.
pub fn set_when(b: bool, s: u64) -> u64
    ensures { result ≡ when b s }
{
    if b { s } else { 0 }
}

// The part of a letter.
pub fn letter_part(i: usize) -> Part
    requires { i < 64 }
    ensures { result ≡ letter_part i }
{
    let position = 1u64 << i;
    Part {
        end: i + 1,
        nullable: false,
        first: position,
        last: position,
    }
}

// One part after another.
pub fn follow_on(d: Part, e: Part) -> Part
    ensures { result ≡ followed d e }
{
    Part {
        end: e.end,
        nullable: d.nullable && e.nullable,
        first: d.first | set_when(d.nullable, e.first),
        last: e.last | set_when(e.nullable, d.last),
    }
}

// One part or another.
pub fn choose(d: Part, e: Part) -> Part
    ensures { result ≡ either_part d e }
{
    Part {
        end: e.end,
        nullable: d.nullable || e.nullable,
        first: d.first | e.first,
        last: d.last | e.last,
    }
}

// A part with another end, and the empty word or not.
pub fn up_to(d: Part, end: usize, nullable: bool) -> Part
    ensures { result ≡ up_to d end nullable }
{
    Part {
        end,
        nullable,
        first: d.first,
        last: d.last,
    }
}
