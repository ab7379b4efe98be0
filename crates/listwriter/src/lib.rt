// Writing the lines of a listing into lent bytes.
#![tactic(auto)]

ghost use Rattle.std.specs.Prelude.{◌≡◌, [], ◌∷◌, ◌+◌, ◌<◌, ◌≤◌, length};
ghost use Rattle.std.proofs.lemmas.List.Edits.{sets};
ghost use Rattle.lines.specs.Line.{line};

use linewriter::write_line;

// Writes the W line of a shadow from `at` on.
pub fn write_shadow_line(
    out: &mut [u8],
    at: usize,
    node: u64,
    symbol: u64,
    before: u64,
    classes: u64,
    nop: u64,
    enabled: u64,
)
    requires { (at + 38 ≤ length out.old) × (node < 1000000) × (symbol < 1000000) × (before < 1000000)
        × (classes < 1000000) × (nop < 1000000) × (enabled < 1000000) }
    ensures { out.new ≡ sets out.old at (line 87 (node ∷ symbol ∷ before ∷ classes ∷ nop ∷ enabled ∷ [])) }
{
    let numbers = [node, symbol, before, classes, nop, enabled];
    write_line(out, at, 87, &numbers);
}

// Writes the T line of a listing from `at` on.
pub fn write_total_line(out: &mut [u8], at: usize, shadows: u64, enabled: u64, passes: u64)
    requires { (at + 20 ≤ length out.old) × (shadows < 1000000) × (enabled < 1000000) × (passes < 1000000) }
    ensures { out.new ≡ sets out.old at (line 84 (shadows ∷ enabled ∷ passes ∷ [])) }
{
    let numbers = [shadows, enabled, passes];
    write_line(out, at, 84, &numbers);
}

// Writes the X line of a refusal from `at` on.
pub fn write_refusal_line(out: &mut [u8], at: usize, number: u64)
    requires { (at + 8 ≤ length out.old) × (number < 1000000) }
    ensures { out.new ≡ sets out.old at (line 88 (number ∷ [])) }
{
    let numbers = [number];
    write_line(out, at, 88, &numbers);
}
