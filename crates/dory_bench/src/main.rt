//! The program `dory_bench`: does each piece of the crates' work and prints its checksum, or times it.
#![tactic(auto)]

mod checking;
mod checksum;
mod coding;
mod fault;
mod frames;
mod hashing;
mod known;
mod line;
mod names;
mod perform;
mod report;
mod run;
mod scanning;
mod sealing;
mod searching;
mod stepping;
mod table;
mod texts;
mod tree;
mod versions;
mod work;

use crate::fault::Fault;
use crate::line::{Line, read_line};
use crate::report::{check, time};
use dory_kernel::{RowKernel, lane_parity};
use std::alloc::Global;
use std::env;
use std::process::ExitCode;
use std::rt::{Clock, Env};

/// What `--help` writes.
const HELP: &str = "dory_bench: the work of the crates, checked and timed

usage: dory_bench check [NAME..]
       dory_bench time [NAME..]

check      does each piece of work a few times at a small size and prints its
           checksum, below two values that others have published or fixed
time       does each piece of work at its full size, in rounds in which all
           take turns, and prints the least time of an operation
NAME       a name in the first column; without one, all pieces of work

--help     writes this text
--version  writes the version
";

/// What `--version` writes.
const VERSION: &str = "dory_bench 0.1.0\n";

/// The words after the program's name.
fn typed_words<R: Env + AllocGlobal>(rt: &R) -> Result<Vec<String>, Fault> {
    let mut words = Vec::new(rt.alloc());
    let Ok(all) = env::args(rt) else {
        return Err(Fault::Words);
    };
    for word in all.skip(1) {
        words.push(word)?;
    }
    Ok(words)
}

/// Writes a text.
fn put<R: Print>(rt: &R, text: &str) -> Result<(), Fault> {
    print!(rt; "{text}").map_err(|_| Fault::Output)
}

/// Does what the words ask for.
fn obey<R: Env + AllocGlobal + Clock + Print>(rt: &R, kernel: &RowKernel) -> Result<(), Fault> {
    let alloc: Global = rt.alloc();
    let words = typed_words(rt)?;
    match read_line(alloc, &words)? {
        Line::Help => put(rt, HELP),
        Line::Version => put(rt, VERSION),
        Line::Check(rows) => check(rt, alloc, kernel, &rows),
        Line::Time(rows) => time(rt, alloc, kernel, &rows),
    }
}

fn main(rt: HostRuntime) -> ExitCode {
    match obey(&rt, &RowKernel::new(lane_parity)) {
        Ok(()) => ExitCode::from(0),
        Err(fault) => {
            let _ = eprintln!(rt; "dory_bench: {fault}");
            ExitCode::from(fault.status())
        }
    }
}
