// The listing of standard input, on standard output.
#![tactic(auto)]

ghost use Rattle.std.specs.Prelude.{◌≤◌, length, IfOk};

use buffer::WORK;
use jobreader::LONGEST;
use listcall::ROOM;
use listprint::print_job;
use std::io;
use std::io::{Input, Print, Read, Write};

// Reads until the buffer is full or the input ends: how many bytes stand at its start.
fn read_full<R: Read>(reader: &mut R, file: &mut [u8]) -> io::Result<usize>
    ensures { IfOk result (λ n. n ≤ length file.new) }
{
    let mut n = 0;
    while n < file.len() {
        let more = reader.read(&mut file[n..])?;
        if more == 0 {
            break;
        }
        n += more;
    }
    Ok(n)
}

// Prints the listing of the job file on standard input, or the X line of its refusal.
pub fn list_input(rt: &(impl Input + Print)) -> io::Result<()> {
    // one byte more than the longest file, so that a longer one is refused and not cut
    let mut file = [0u8; LONGEST + 1];
    let mut work = [0u8; WORK];
    let mut out = [0u8; ROOM];
    let mut input = rt.reader();
    let n = read_full(&mut input, &mut file)?;
    let length = print_job(&file[..n], &mut work, &mut out);
    io::writer(rt).write_all(&out[0..length])
}
