//! The program `dory`: a member of a shared folder, whose two domains are asked over TCP.
#![tactic(auto)]

mod command;
mod end;
mod go;
mod help;
mod input;
mod run;
mod said;
mod start;
#[cfg(test)]
mod tests;

use crate::end::{ClientEnd, client_text};
use crate::help::{HELP, VERSION};
use crate::run::client_run;
use dory_base::NoMemory;
use dory_cli::UsageFault;
use dory_files::{FileKeeper, occupied};
use dory_io::write_all;
use dory_net::{StdSink, StdSource, TcpLink, typed_words};
use std::alloc::Global;
use std::fs::File;
use std::io::{ErrorKind, IsTerminal, Read, Write};
use std::net::{Net, TcpStream};
use std::process::ExitCode;
use std::rt::Files;
use std::{fs, io};

/// The status where no seed could be read.
const NO_SEED: u8 = 13;

/// The text that a lone `--help` or `--version` asks for.
fn asked_text(words: &[String]) -> Option<&'static str> {
    match words {
        [word] if word.as_str() == "--help" => Some(HELP),
        [word] if word.as_str() == "--version" => Some(VERSION),
        _ => None,
    }
}

/// The addresses of the two servers are typed alike: whoever is there would be believed alone.
fn is_one_server(words: &[String]) -> bool {
    words.len() >= 3 && words[1] == words[2]
}

/// Thirty-two bytes of the system's random source, from which a command draws its keys.
fn seed<R: Files>(rt: &R) -> io::Result<[u8; 32]> {
    let mut seed = [0; 32];
    fs::open(rt, "/dev/urandom")?.read_exact(&mut seed)?;
    Ok(seed)
}

/// The word at a place, taken out of the words.
fn taken(words: &mut Vec<String>) -> Option<String> {
    if words.is_empty() {
        None
    } else {
        Some(words.remove(0))
    }
}

/// What is typed: where the state is kept, where the two servers are, and the command's words.
#[derive(Drop)]
struct Typed {
    state: String,
    lead: String,
    follow: String,
    command: Vec<String>,
}

/// The words in their parts; where there are fewer than three, no command.
fn parted(alloc: Global, mut words: Vec<String>) -> Typed {
    let state = taken(&mut words);
    let lead = taken(&mut words);
    match (state, lead, taken(&mut words)) {
        (Some(state), Some(lead), Some(follow)) => Typed {
            state,
            lead,
            follow,
            command: words,
        },
        _ => Typed {
            state: String::new(alloc),
            lead: String::new(alloc),
            follow: String::new(alloc),
            command: Vec::new(alloc),
        },
    }
}

/// The top call over a file and two servers.
fn over_servers<R, I, O>(
    rt: &R,
    words: Vec<String>,
    seed: [u8; 32],
    stdin: I,
    stdout: O,
) -> ClientEnd
where
    R: AllocGlobal + Files<File = File> + Net<Stream = TcpStream>,
    I: Read + Drop,
    O: Write + Drop,
{
    let alloc = rt.alloc();
    let Typed {
        state,
        lead,
        follow,
        command,
    } = parted(alloc, words);
    client_run(
        alloc,
        &command,
        seed,
        &mut TcpLink::new(rt, alloc, lead),
        &mut TcpLink::new(rt, alloc, follow),
        &mut FileKeeper::new(rt, alloc, state),
        &mut StdSource::new(alloc, stdin),
        &mut StdSink::new(alloc, stdout),
    )
}

/// Writes a text that was asked for.
fn written<O: Write + Drop>(alloc: Global, text: &str, stdout: O) -> ClientEnd {
    match write_all(&mut StdSink::new(alloc, stdout), text.as_bytes()) {
        Ok(()) => ClientEnd::Done,
        Err(_) => ClientEnd::OutputFault,
    }
}

/// Tells an end other than `Done`, and answers the status. Who typed no command at a terminal is told of `--help`.
fn told(rt: &HostRuntime, end: &ClientEnd) -> u8 {
    if *end != ClientEnd::Done {
        match client_text(rt.alloc(), end) {
            Ok(text) => {
                let _ = eprintln!(rt; "dory: {text}");
            }
            Err(NoMemory) => {
                let _ = eprintln!(rt; "dory: nomemory");
            }
        }
    }
    if *end == ClientEnd::Usage(UsageFault::NoCommand) && rt.stderr().is_terminal() {
        let _ = eprintln!(rt; "dory: `dory --help` says what to type");
    }
    end.status()
}

/// How a call ends that has no words: one isn't text, or memory ran out.
fn words_end(error: &io::Error) -> ClientEnd {
    if error.kind() == ErrorKind::OutOfMemory {
        ClientEnd::NoMemory
    } else {
        ClientEnd::Usage(UsageFault::Words)
    }
}

fn main(rt: HostRuntime) -> ExitCode {
    let _standard = occupied(&rt);
    let words = match typed_words(&rt) {
        Ok(words) => words,
        Err(error) => return ExitCode::from(told(&rt, &words_end(&error))),
    };
    if let Some(text) = asked_text(&words) {
        return ExitCode::from(told(&rt, &written(rt.alloc(), text, rt.stdout())));
    }
    let Ok(seed) = seed(&rt) else {
        let _ = eprintln!(rt; "dory: seed");
        return ExitCode::from(NO_SEED);
    };
    if is_one_server(&words) {
        let _ = eprintln!(rt;
            "dory: LEAD and FOLLOW are one address, so one domain alone would be believed"
        );
    }
    let end = over_servers(&rt, words, seed, rt.stdin(), rt.stdout());
    ExitCode::from(told(&rt, &end))
}
