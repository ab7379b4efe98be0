// What the trials print: titles and jobs, plans and verdicts.
#![tactic(auto)]

use checking::check::Verdict;
use std::io::{Print, Write};
use std::{fmt, io};

// Writes to standard output.
pub fn print(rt: &impl Print, bytes: &[u8]) -> io::Result<()> {
    io::writer(rt).write_all(bytes)
}

// Prints the title, and the job or the start of it.
pub fn print_job_under(rt: &impl Print, title: &[u8], job: &[u8]) -> io::Result<()> {
    print(rt, title)?;
    print(rt, b"\n")?;
    print(rt, job)?;
    print(rt, b"\n")
}

// Prints the bytes of a plan.
pub fn print_marks(rt: &impl Print, plan: &[u8]) -> io::Result<()> {
    for mark in plan {
        print!(rt; " {mark}")?;
    }
    Ok(())
}

// Prints the answer of the plan check.
pub fn print_verdict<E: fmt::Display + Drop>(
    rt: &impl Print,
    answer: Result<Verdict, E>,
) -> io::Result<()> {
    match answer {
        Ok(verdict) => print!(rt; "{verdict}\n\n"),
        Err(refusal) => print!(rt; "X {refusal}\n\n"),
    }
}
