//! The program `dory_server`: one domain's server, which serves as many connections at once as it has seats.
#![tactic(auto)]

mod end;
mod faulty;
mod help;
mod line;
mod opening;
mod serving;
#[cfg(test)]
mod tests;

use crate::end::ServerEnd;
use crate::faulty::{word_fault, wrong_word};
use crate::help::{HELP, VERSION};
use crate::serving::serve_seats;
use dory_files::occupied;
use dory_io::write_all;
use dory_kernel::{RowKernel, lane_parity};
use dory_lanes::SystemThreads;
use dory_net::{StdSink, TcpBinder, typed_words};
use dory_shelf::Places;
use std::io;
use std::io::{ErrorKind, Write};
use std::net::{Net, TcpListener, TcpStream};
use std::process::ExitCode;
use std::sync::Wait;
use std::thread::Threads;

/// The text that a lone `--help` or `--version` asks for.
fn asked_text(words: &[String]) -> Option<&'static str> {
    match words {
        [word] if word.as_str() == "--help" => Some(HELP),
        [word] if word.as_str() == "--version" => Some(VERSION),
        _ => None,
    }
}

/// How a server ends that has no words: one isn't text, or memory ran out.
fn words_end(error: &io::Error) -> ServerEnd {
    if error.kind() == ErrorKind::OutOfMemory {
        ServerEnd::NoMemory
    } else {
        ServerEnd::Usage { at: 0 }
    }
}

/// The end of the whole program.
fn end_of<R, W>(rt: &R, words: &[String], kernel: RowKernel, stdout: W) -> ServerEnd
where
    R: AllocGlobal + Threads + Wait + Sync + Net<Listener = TcpListener, Stream = TcpStream>,
    W: Write + Drop,
{
    let alloc = rt.alloc();
    let mut out = StdSink::new(alloc, stdout);
    if let Some(text) = asked_text(words) {
        return match write_all(&mut out, text.as_bytes()) {
            Ok(()) => ServerEnd::Sessions,
            Err(_) => ServerEnd::OutputFault,
        };
    }
    let mut places = Places::new();
    let mut threads = SystemThreads::new();
    let mut binder = TcpBinder::new(rt, alloc);
    serve_seats(
        rt,
        alloc,
        words,
        kernel,
        &mut places,
        &mut threads,
        &mut binder,
        &mut out,
        None,
    )
}

/// Tells an end other than `Sessions`, and what is wrong with which word where the words are to blame.
fn tell(rt: &HostRuntime, words: &[String], end: &ServerEnd) {
    if *end != ServerEnd::Sessions {
        let _ = eprintln!(rt; "dory_server: {end}");
    }
    if let Some(fault) = word_fault(words, end) {
        let name = fault.name();
        let _ = match wrong_word(words, end) {
            Some(word) => eprintln!(rt; "dory_server: {name} {word}: {fault}"),
            None => eprintln!(rt; "dory_server: no {name}: {fault}"),
        };
    }
}

fn main(rt: HostRuntime) -> ExitCode {
    let _standard = occupied(&rt);
    let end = match typed_words(&rt) {
        Ok(words) => {
            let end = end_of(&rt, &words, RowKernel::new(lane_parity), rt.stdout());
            tell(&rt, &words, &end);
            end
        }
        Err(error) => {
            let end = words_end(&error);
            let _ = eprintln!(rt; "dory_server: {end}");
            end
        }
    };
    ExitCode::from(end.status())
}
