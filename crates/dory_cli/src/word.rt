//! Commands with one word, and with none.
ghost use Rattle.std.specs.Prelude.{◌≡◌, IfOk, ⊤, codes, map, string_bytes};
ghost use Rattle.clap.specs.Words.{app_of};
ghost use Rattle.dory_cli.specs.Rules.{word_app};
ghost use Rattle.dory_cli.specs.Commands.{AreTexts, GivesBy, nothing_of, word_of};

use crate::fault::UsageFault;
use crate::init::{bare, refusal, text};
use clap::{Arg, Command};
use std::alloc::{AllocError, Global};

/// That there are no words.
pub fn no_words<'a>(alloc: Global, command: &'a str, words: &'a [String]) -> Result<(), UsageFault>
    requires { AreTexts (map string_bytes words.now) }
    ensures { GivesBy (λ _ o. ⊤) result (nothing_of (map string_bytes words.entry.now)) }
{
    let command = bare(alloc, command);
    match command.try_get_matches_from(words) {
        Ok(matches) => {
            drop(matches);
            Ok(())
        }
        Err(error) => Err(refusal(&error)),
    }
}

/// A command that has one word.
fn word_command<'a>(alloc: Global, command: &'a str) -> Result<Command<'a>, AllocError>
    ensures { IfOk result (λ c. app_of c ≡ word_app command.entry.now (codes "word")) }
{
    bare(alloc, command).arg(Arg::new(alloc, "word").required(true))
}

/// The one word.
pub fn one_word<'a>(
    alloc: Global,
    command: &'a str,
    words: &'a [String],
) -> Result<&'a str, UsageFault>
    requires { AreTexts (map string_bytes words.now) }
    ensures { GivesBy (λ t w. t.now ≡ w) result (word_of (map string_bytes words.entry.now)) }
{
    let command = word_command(alloc, command)?;
    match command.try_get_matches_from(words) {
        Ok(matches) => Ok(text(&matches, "word")),
        Err(error) => Err(refusal(&error)),
    }
}
