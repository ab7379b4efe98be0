// Runs every trial of document 01 ("One listing in full" and "Trial jobs"), starred or not, and its three slips.
// A trial is its title, its job, an empty line, and the answer. Trials are parted by an empty line.
// A job that is cut within a line has that line's end in place of the first empty line.
#![tactic(auto)]

mod jobs; // jobs.rt: the jobs, as files

ghost use Rattle.std.specs.Prelude.{◌≤◌};

use buffer::WORK;
use checkcall::check_plan;
use counterjob::{HEAD, write_counter};
use jobreader::LONGEST;
use jobs::{
    CUT, EDGE_TWICE, LOOP, PAIR, REOPENED, SEAL_THEN_NOTHING, SEAL_THEN_WRITES, TURN, WRITE_TWICE,
};
use listcall::ROOM;
use listprint::print_job;
use std::io;
use std::io::Print;
use trialprint::{print, print_job_under, print_marks, print_verdict};

// Prints the listing of a job, or the X line of its refusal.
fn print_listing(rt: &impl Print, job: &[u8]) -> io::Result<()> {
    let mut work = [0u8; WORK];
    let mut out = [0u8; ROOM];
    let length = print_job(job, &mut work, &mut out);
    print(rt, &out[0..length])?;
    print(rt, b"\n")
}

// Lists a job.
fn list(rt: &impl Print, title: &[u8], job: &[u8]) -> io::Result<()> {
    print_job_under(rt, title, job)?;
    print_listing(rt, job)
}

// Lists a large job, of which only the J line is printed.
fn list_counter(
    rt: &impl Print,
    title: &[u8],
    states: usize,
    nodes: usize,
    edges: usize,
) -> io::Result<()>
    requires { (states ≤ 17) × (nodes ≤ 65) × (edges ≤ 2049) }
{
    let mut file = [0u8; LONGEST];
    let length = write_counter(&mut file, states, nodes, edges);
    print_job_under(rt, title, &file[0..HEAD])?;
    print_listing(rt, &file[0..length])
}

// Checks a plan of a job.
fn check(rt: &impl Print, title: &[u8], job: &[u8], plan: &[u8]) -> io::Result<()> {
    let mut work = [0u8; WORK];
    print_job_under(rt, title, job)?;
    print(rt, b"plan")?;
    print_marks(rt, plan)?;
    print(rt, b": ")?;
    print_verdict(rt, check_plan(job, plan, &mut work))
}

// The trials that document 01 marks with a star.
fn run_starred(rt: &impl Print) -> io::Result<()> {
    list(rt, b"PAIR", &PAIR)?;
    check(rt, b"PAIR, the first seal may go", &PAIR, &[0, 1, 1])?;
    check(rt, b"PAIR, the second seal may go", &PAIR, &[1, 0, 1])?;
    check(rt, b"PAIR, not both seals", &PAIR, &[0, 0, 1])?;
    list(rt, b"LOOP", &LOOP)?;
    check(rt, b"LOOP, node 0 with nop mark 1 alone", &LOOP, &[0, 1])?;
    list(rt, b"TURN", &TURN)?;
    check(rt, b"TURN, without both first points", &TURN, &[0, 0, 1])?;
    check(rt, b"TURN, without the first point", &TURN, &[0, 1, 1])?;
    list(rt, b"seal at an exit, after set 4", &SEAL_THEN_WRITES)?;
    list(rt, b"seal at an exit, after set 0", &SEAL_THEN_NOTHING)?;
    list(rt, b"seal, write, write", &WRITE_TWICE)
}

// The trials without a star.
fn run_limits(rt: &impl Print) -> io::Result<()> {
    list_counter(rt, b"S of 16", 16, 1, 1)?;
    list_counter(rt, b"S of 17", 17, 1, 1)?;
    list_counter(rt, b"E of 2,048", 2, 65, 2048)?;
    list_counter(rt, b"E of 2,049", 2, 65, 2049)?;
    list(rt, b"empty file", b"")?;
    list(rt, b"cut line", &CUT)?;
    list(rt, b"the same edge twice", &EDGE_TWICE)
}

// The slips, each as a plan that it would take for faithful.
fn run_slips(rt: &impl Print) -> io::Result<()> {
    check(
        rt,
        b"slip: all points with nop mark 1 go together",
        &PAIR,
        &[0, 0, 1],
    )?;
    check(rt, b"slip: a reopen goes", &REOPENED, &[1, 0, 1])?;
    check(
        rt,
        b"slip: more points watched than in the faithful plan 0 0 1",
        &TURN,
        &[0, 1, 1],
    )
}

fn main(rt: HostRuntime) -> io::Result<()> {
    run_starred(&rt)?;
    run_limits(&rt)?;
    run_slips(&rt)
}
