//! The words of `init`, read by clap.
ghost use Rattle.std.specs.Prelude.{◌≡◌, ◌≢◌, ◌⊎◌, [], IfOk, false, map, string_bytes, unwrap_or};
ghost use Rattle.clap.specs.Words.{app_of, first_value, found_of, kind_of, rule_of};
ghost use Rattle.dory_cli.specs.Rules.{init_app, plain_option, bare_app};
ghost use Rattle.dory_cli.specs.Commands.{AreTexts, GivesBy, init_texts_of, view};

use crate::fault::UsageFault;
use clap::error::ErrorKind;
use clap::{Arg, ArgMatches, Command, Error};
use std::alloc::{AllocError, Global};

/// The texts behind the options of `init`.
#[derive(Clone, Copy)]
pub struct InitTexts<'a> {
    pub folder: &'a str,
    pub member: &'a str,
    pub depth: &'a str,
    pub probes: &'a str,
    pub master: &'a str,
    pub serial: Option<&'a str>,
}

/// An option with one value.
fn option<'a>(alloc: Global, name: &'a str, required: bool) -> Arg<'a>
    ensures rule { rule_of result ≡ plain_option name.entry.now required }
    ensures local { result.global ≡ false }
{
    Arg::new(alloc, name).long(name).required(required)
}

/// A command whose words are all its own.
pub(crate) fn bare<'a>(alloc: Global, name: &'a str) -> Command<'a>
    ensures { app_of result ≡ bare_app name.entry.now }
{
    Command::new(alloc, name)
        .no_binary_name(true)
        .disable_help_flag(true)
}

/// `init` and its options.
fn init_command<'a>(alloc: Global) -> Result<Command<'a>, AllocError>
    ensures { IfOk result (λ c. app_of c ≡ init_app) }
{
    bare(alloc, "init")
        .arg(option(alloc, "folder", true))?
        .arg(option(alloc, "member", true))?
        .arg(option(alloc, "depth", true))?
        .arg(option(alloc, "probes", true))?
        .arg(option(alloc, "master", true))?
        .arg(option(alloc, "serial", false))
}

/// Why clap refused.
pub(crate) fn refusal(error: &Error) -> UsageFault
    ensures { (result ≡ UsageFault.NoMemory)
        ⊎ ((result ≡ UsageFault.Words) × (kind_of error.now ≢ ErrorKind.OutOfMemory)) }
{
    if error.kind() == ErrorKind::OutOfMemory {
        UsageFault::NoMemory
    } else {
        UsageFault::Words
    }
}

/// What was given under a name.
pub(crate) fn text<'a>(matches: &ArgMatches<'a>, name: &str) -> &'a str
    ensures { result.now ≡ unwrap_or (first_value (found_of matches.now) name.now) [] }
{
    match matches.get_str(name) {
        Some(text) => text,
        None => "",
    }
}

/// What the words give for the options of `init`.
pub fn init_texts<'a>(alloc: Global, words: &'a [String]) -> Result<InitTexts<'a>, UsageFault>
    requires { AreTexts (map string_bytes words.now) }
    ensures { GivesBy (λ t texts. view t ≡ texts) result (init_texts_of (map string_bytes words.entry.now)) }
{
    let command = init_command(alloc)?;
    match command.try_get_matches_from(words) {
        Ok(matches) => Ok(InitTexts {
            folder: text(&matches, "folder"),
            member: text(&matches, "member"),
            depth: text(&matches, "depth"),
            probes: text(&matches, "probes"),
            master: text(&matches, "master"),
            serial: matches.get_str("serial"),
        }),
        Err(error) => Err(refusal(&error)),
    }
}
