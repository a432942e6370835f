//! Worked texts, what bytes are read as, and a text of 8 MiB.

use crate::words_of;
use dory_base::{Word, WordFault};
use std::test::Fail;

fn are(words: &[Word], expected: &[&str]) -> bool {
    words.len() == expected.len()
        && words
            .iter()
            .zip(expected)
            .all(|(word, text)| word.bytes() == text.as_bytes())
}

#[test]
fn words_are_lowered_and_keep_their_order(rt: HostRuntime) -> Result<(), Fail> {
    let rows: [(&str, &[&str]); 5] = [
        ("Re: invoice-12, Café", &["re", "invoice", "12", "café"]),
        ("to be or not to be", &["to", "be", "or", "not", "to", "be"]),
        ("--A--", &["a"]),
        ("  \n", &[]),
        ("", &[]),
    ];
    for (text, expected) in rows {
        let words = words_of(rt.alloc(), text.as_bytes())?;
        assert!(rt; are(&words, expected), "{text}");
    }
    Ok(())
}

#[test]
fn a_long_run_is_its_first_64_bytes(rt: HostRuntime) -> Result<(), Fail> {
    let words = words_of(rt.alloc(), &[b'X'; 70])?;
    assert_eq!(rt; words.len(), 1);
    assert!(rt; words[0].bytes() == [b'x'; 64].as_slice());
    Ok(())
}

#[test]
fn a_word_is_read_or_the_first_separator_named(rt: HostRuntime) {
    assert!(rt; matches!(Word::read(b""), Err(WordFault::Empty)));
    assert!(rt; matches!(Word::read(b" a"), Err(WordFault::NotOneWord { at: 0 })));
    assert!(rt;
        matches!(
            Word::read(b"two words, here"),
            Err(WordFault::NotOneWord { at: 3 })
        )
    );
    assert!(rt; Word::read(&[b'x'; 70]).is_ok_and(|word| word.bytes() == [b'x'; 64].as_slice()));
    assert!(rt; Word::read("CAFé".as_bytes()).is_ok_and(|word| word.bytes() == "café".as_bytes()));
}

/// 64 bytes, with 15 words.
const SENTENCE: &[u8; 64] = b"It was the best of times, it was the worst of times; it was it. ";

#[test]
fn a_text_of_8_mib_has_its_words(rt: HostRuntime) -> Result<(), Fail> {
    let mut text = vec![in rt.alloc(); 0; 8 << 20]?;
    for (at, byte) in text.iter_mut().enumerate() {
        *byte = SENTENCE[at % 64];
    }
    let words = words_of(rt.alloc(), &text)?;
    assert_eq!(rt; words.len(), 15 << 17);
    assert!(rt;
        words
            .last()
            .is_some_and(|word| word.bytes() == b"it".as_slice())
    );
    Ok(())
}
