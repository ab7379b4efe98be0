// The listing program: a job file on standard input; its listing, or the X line of its refusal, on standard output.
#![tactic(auto)]

use std::io;

fn main(rt: HostRuntime) -> io::Result<()> {
    listrun::list_input(&rt)
}
