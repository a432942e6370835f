//! Cutting a text into its words, in one pass over its bytes.
ghost use Rattle.std.specs.Prelude.{◌≡◌, ◌++◌, ℕ, List, IfOk, OnOk};
ghost use Rattle.std.specs.List.{AllPass};
ghost use Rattle.dory_base.specs.Words.{is_word_byte};
ghost use Rattle.dory_words.specs.Division.{AreWords};
ghost use Rattle.dory_words.specs.WordsIn.{words_in};

use dory_base::{NoMemory, Word};
use std::alloc::Global;

/// The words of a text in its order, each as often as it stands there.
pub fn words_of(alloc: Global, text: &[u8]) -> Result<Vec<Word>, NoMemory>
    ensures value { IfOk result (λ words. words.items ≡ words_in text.now) }
    ensures divided { IfOk result (λ words. AreWords text.now words.items) }
    ensures only { IfOk result (λ words. (others : List (List ℕ)) → AreWords text.now others → others ≡ words.items) }
{
    let mut words = Vec::new(alloc);
    let mut start = 0;
    for (at, byte) in text.iter().enumerate() {
        if !Word::has_byte(*byte) {
            push_run(&mut words, &text[start..at])?;
            start = at + 1;
        }
    }
    push_run(&mut words, &text[start..])?;
    Ok(words)
}

/// Adds the word of a run, where the run isn't empty.
fn push_run(words: &mut Vec<Word>, run: &[u8]) -> Result<(), NoMemory>
    requires { AllPass is_word_byte run.now }
    ensures { OnOk result (words.new.items ≡ words.old.items ++ words_in run.now) }
{
    if !run.is_empty() {
        words.push(Word::of_run(run))?;
    }
    Ok(())
}
