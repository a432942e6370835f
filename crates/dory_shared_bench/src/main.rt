//! The program `dory_shared_bench`: does the work of a shared domain and prints what came of it, or times it.
#![tactic(auto)]

mod asking;
mod fault;
mod folder;
mod full;
mod line;
mod long;
mod plain;
mod report;
mod seats;
mod timed;

use crate::fault::Fault;
use crate::line::{Line, read_line};
use crate::report::{check, time_full, time_history, time_replaced};
use dory_kernel::{RowKernel, lane_parity};
use std::alloc::Global;
use std::env;
use std::process::ExitCode;
use std::rt::{Clock, Env};
use std::sync::Wait;
use std::thread::Threads;

/// What `--help` writes.
const HELP: &str =
    "dory_shared_bench: the work of a domain that several callers use at once, checked and timed

usage: dory_shared_bench
       dory_shared_bench time
       dory_shared_bench time history
       dory_shared_bench time replaced
       dory_shared_bench time few

(no word)      does all of it at a small size, and prints what came of it
time           times searches and updates of a full folder, with a caller
               beside and without
time history   times 1,048,576 updates, as many as a history may have
time replaced  times 100,000 updates of 64 documents
time few       times 1,000 of them

--help     writes this text
--version  writes the version
";

/// What `--version` writes.
const VERSION: &str = "dory_shared_bench 0.1.0\n";

/// The words after the program's name.
fn typed_words<R: Env + AllocGlobal>(rt: &R) -> Result<Vec<String>, Fault> {
    let mut words = Vec::new(rt.alloc());
    let Ok(all) = env::args(rt) else {
        return Err(Fault::Words);
    };
    for word in all.skip(1) {
        words.push(word)?;
    }
    Ok(words)
}

/// Writes a text.
fn put<R: Print>(rt: &R, text: &str) -> Result<(), Fault> {
    print!(rt; "{text}").map_err(|_| Fault::Output)
}

/// Does what the words ask for.
fn obey<R: Threads + Wait + Env + AllocGlobal + Clock + Print + Sync>(
    rt: &R,
    kernel: &RowKernel,
) -> Result<(), Fault> {
    let alloc: Global = rt.alloc();
    let words = typed_words(rt)?;
    match read_line(&words)? {
        Line::Help => put(rt, HELP),
        Line::Version => put(rt, VERSION),
        Line::Check => check(rt, alloc, kernel),
        Line::Full => time_full(rt, alloc, kernel),
        Line::History => time_history(rt, alloc, kernel),
        Line::Replaced => time_replaced(rt, alloc, kernel, false),
        Line::Few => time_replaced(rt, alloc, kernel, true),
    }
}

fn main(rt: HostRuntime) -> ExitCode {
    match obey(&rt, &RowKernel::new(lane_parity)) {
        Ok(()) => ExitCode::from(0),
        Err(fault) => {
            let _ = eprintln!(rt; "dory_shared_bench: {fault}");
            ExitCode::from(fault.status())
        }
    }
}
