//! Words that no command takes, wherever they stand.
ghost use Rattle.std.specs.Prelude.{◌≡◌, map, string_bytes};
ghost use Rattle.std.specs.Bool.{OnFalse};
ghost use Rattle.std.specs.List.{list_any};
ghost use Rattle.dory_cli.specs.Commands.{AreTexts};
ghost use Rattle.dory_cli.specs.Barred.{is_barred as barred_test};

/// Whether the word is `-`, or begins with `--` and ends with `=`.
fn is_barred(word: &str) -> bool
    ensures { result ≡ barred_test word.now }
{
    let bytes = word.as_bytes();
    word == "-" || (bytes.starts_with(b"--") && bytes.ends_with(b"="))
}

/// Whether one of the words is barred.
pub fn has_barred(words: &[String]) -> bool
    ensures value { result ≡ list_any barred_test (map string_bytes words.now) }
    ensures texts { OnFalse result (AreTexts (map string_bytes words.now)) }
{
    for word in words {
        let text = word.as_str();
        if is_barred(text) {
            return true;
        }
    }
    false
}
