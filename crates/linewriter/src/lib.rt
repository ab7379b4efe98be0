// Writing fields and lines into lent bytes.
#![tactic(auto)]

ghost use Rattle.std.specs.Prelude.{◌≡◌, ◌+◌, ◌*◌, ◌%◌, ◌<◌, ◌≤◌, length};
ghost use Rattle.std.proofs.lemmas.List.Edits.{sets};
ghost use Rattle.lines.specs.Line.{field, fields, line};
ghost use Rattle.lines.specs.Field.{column_of, EachFits};

// The last digit of a number.
fn digit(n: u64) -> u8
    ensures { result ≡ 48 + n % 10 }
{
    (48 + n % 10) as u8
}

// The last digit of a number, or a space where there is none left.
fn column(n: u64) -> u8
    ensures { result ≡ column_of n }
{
    if n == 0 {
        return 32;
    }
    digit(n)
}

// Writes the field of a number from `at` on: five columns, from the last to the first, and its last digit after them.
pub fn write_field(out: &mut [u8], at: usize, value: u64)
    requires { (at + 6 ≤ length out.old) × (value < 1000000) }
    ensures { out.new ≡ sets out.old at (field value) }
{
    let mut rest = value / 10;
    for k in (0..5).rev() {
        out[at + k] = column(rest);
        rest /= 10;
    }
    out[at + 5] = digit(value);
}

// Writes the fields of some numbers from `at` on.
fn write_fields(out: &mut [u8], at: usize, numbers: &[u64])
    requires { (at + length numbers.now * 6 ≤ length out.old) × EachFits numbers.now }
    ensures { out.new ≡ sets out.old at (fields numbers.now) }
{
    for (k, number) in numbers.iter().enumerate() {
        write_field(out, at + k * 6, *number);
    }
}

// Writes a line from `at` on: its letter, its fields and its end byte.
pub fn write_line(out: &mut [u8], at: usize, letter: u8, numbers: &[u64])
    requires { (at + (length numbers.now * 6 + 2) ≤ length out.old) × EachFits numbers.now }
    ensures { out.new ≡ sets out.old at (line letter numbers.now) }
{
    out[at] = letter;
    write_fields(out, at + 1, numbers);
    out[at + (numbers.len() * 6 + 1)] = 10;
}
