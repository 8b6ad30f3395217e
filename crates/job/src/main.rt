//! The job program: a job file on standard input, its hits and their traces on standard output.
#![tactic(auto)]

mod job_file;
mod report;
mod run;
#[cfg(test)]
mod tests;

use job_file::LARGEST;
use run::run_job;
use std::io;
use std::io::Read;

/// One byte more than a job file may have.
const ENOUGH: u64 = LARGEST as u64 + 1;

fn main(rt: HostRuntime) -> io::Result<()> {
    let mut file = Vec::new(rt.alloc());
    rt.stdin().take(ENOUGH).read_to_end(&mut file)?;
    let text = run_job(rt.alloc(), file.as_slice())?;
    print!(rt; "{text}")
}
