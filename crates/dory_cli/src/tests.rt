//! Command lines word by word: what is read of each command, and the first fault of each wrong one.

use crate::{Line, NumberField, UsageFault, read_line};
use dory_base::{DocId, FolderId, MemberId};
use std::alloc::{AllocError, Global};
use std::test::*;

/// The words of a text, with a bar between them.
fn words_of(alloc: Global, text: &str) -> Result<Vec<String>, AllocError> {
    let mut words = Vec::new(alloc);
    for word in text.split('|') {
        words.push(String::from_str(alloc, word)?)?;
    }
    Ok(words)
}

fn read(alloc: Global, text: &str) -> Result<Line, UsageFault> {
    let words = words_of(alloc, text)?;
    read_line(alloc, &words)
}

/// The 64 digits of the bytes 0x00, 0x11, .. 0xff, twice.
const MASTER: &str = "00112233445566778899aabbccddeeff00112233445566778899AABBCCDDEEFF";

#[test]
fn a_command_line_without_words_has_no_command(rt: HostRuntime) -> Result<(), Fail> {
    let words: Vec<String> = Vec::new(rt.alloc());
    assert!(rt; matches!(read_line(rt.alloc(), &words), Err(UsageFault::NoCommand)));
    Ok(())
}

#[test]
fn each_command_is_read(rt: HostRuntime) -> Result<(), Fail> {
    let alloc = rt.alloc();
    assert!(rt; matches!(read(alloc, "post|7")?, Line::Post { doc: DocId(7) }));
    assert!(rt;
        matches!(
            read(alloc, "post|--|4294967295")?,
            Line::Post {
                doc: DocId(4294967295)
            }
        )
    );
    assert!(rt; matches!(read(alloc, "remove|0")?, Line::Remove { doc: DocId(0) }));
    assert!(rt; matches!(read(alloc, "resume")?, Line::Resume));
    assert!(rt; matches!(read(alloc, "latest|--")?, Line::Latest));
    assert!(rt; matches!(read(alloc, "rotate")?, Line::Rotate));
    for (text, word) in [
        ("search|alpha", "alpha"),
        ("search|AlPHa9", "alpha9"),
        ("search|--|caf\u{c9}", "caf\u{c9}"),
    ] {
        match read(alloc, text)? {
            Line::Search { word: found } => assert!(rt; found.bytes() == word.as_bytes(), "{text}"),
            _ => panic!(rt; "{text}"),
        }
    }
    Ok(())
}

#[test]
fn options_of_init_stand_in_any_order_and_in_two_forms(rt: HostRuntime) -> Result<(), Fail> {
    let alloc = rt.alloc();
    for (options, want) in [
        ("--folder|1|--member|0|--depth|8|--probes|2|--master", 1),
        (
            "--serial|72057594037927936|--probes=2|--depth|8|--member=0|--folder=1|--master",
            72057594037927936,
        ),
        (
            "--depth=8|--folder|1|--serial=18446744073709551615|--member|0|--probes|2|--master",
            18446744073709551615,
        ),
    ] {
        for join in ["|", "="] {
            let text = format!(in alloc; "init|{options}{join}{MASTER}|--")?;
            let Line::Init {
                folder,
                member,
                shape,
                master,
                serial,
            } = read(alloc, &text)?
            else {
                panic!(rt; "{text}")
            };
            assert_eq!(rt; folder, FolderId(1));
            assert_eq!(rt; member, MemberId(0));
            assert_eq!(rt; (shape.depth(), shape.probes()), (8, 2));
            assert_eq!(rt; serial, want);
            for (i, byte) in master.iter().enumerate() {
                assert_eq!(rt; *byte as usize, i % 16 * 17);
            }
        }
    }
    Ok(())
}

#[test]
fn the_first_wrong_word_is_told(rt: HostRuntime) -> Result<(), Fail> {
    let doc = UsageFault::Number {
        field: NumberField::Doc,
    };
    for (text, want) in [
        ("", UsageFault::Unknown),
        ("Init", UsageFault::Unknown),
        ("--help", UsageFault::Unknown),
        ("unknown|-", UsageFault::Unknown),
        ("post", UsageFault::Words),
        ("post|7|8", UsageFault::Words),
        ("post|--help", UsageFault::Words),
        ("post|-h", UsageFault::Words),
        ("post|-7", UsageFault::Words),
        ("post|-", UsageFault::Words),
        ("post|07|-", UsageFault::Words),
        ("post|--|-", UsageFault::Words),
        ("post|07|--x=", UsageFault::Words),
        ("post|--|--x=", UsageFault::Words),
        ("post|--|--=", UsageFault::Words),
        ("post|", doc),
        ("post|07", doc),
        ("post|00", doc),
        ("post|+7", doc),
        ("post|4294967296", doc),
        ("post|--|-7", doc),
        ("remove|7a", doc),
        ("search", UsageFault::Words),
        ("search|alpha|beta", UsageFault::Words),
        ("search|a b", UsageFault::Word),
        ("search|", UsageFault::Word),
        ("search|--|--", UsageFault::Word),
        ("search|--|--x=y", UsageFault::Word),
        ("resume|7", UsageFault::Words),
        ("latest|--|--", UsageFault::Words),
        ("latest|", UsageFault::Words),
        ("rotate|--epoch=1", UsageFault::Words),
    ] {
        match read(rt.alloc(), text) {
            Ok(_) => panic!(rt; "{text}"),
            Err(fault) => assert!(rt; fault == want, "{text}: {fault}"),
        }
    }
    Ok(())
}

#[test]
fn words_that_init_does_not_take_are_told(rt: HostRuntime) -> Result<(), Fail> {
    let alloc = rt.alloc();
    for words in [
        "--folder|1|--member|0|--depth|8|--master|M",
        "--folder|1|--member|0|--depth|8|--probes|2",
        "--folder|1|--member|0|--depth|8|--probes|2|--master",
        "--folder|1|--member|0|--depth|8|--probes|2|--master|M|--folder|1",
        "--folder|1|--member|0|--depth|8|--probes|2|--master|M|--serial",
        "--folder|1|--member|0|--depth|8|--probes|2|--master|M|1",
        "--folder|1|--member|0|--depth|8|--probes|2|--master|M|--|--serial|1",
        "--folder|1|--member|0|--depth|8|--probe|2|--master|M",
        "--folder|1|--member|0|--depth|8|-p|2|--master|M",
        "--folder|1|--member|-1|--depth|8|--probes|2|--master|M",
        "--folder|1|--member|--|0|--depth|8|--probes|2|--master|M",
        "--folder=|--member|0|--depth|8|--probes|2|--master|M",
        "--folder|1|--member|0|--depth|8|--probes|2|--master|M|--help",
    ] {
        let text = format!(in alloc; "init|{words}")?;
        assert!(rt;
            matches!(read(alloc, &text), Err(UsageFault::Words)),
            "{words}"
        );
    }
    Ok(())
}

#[test]
fn the_first_wrong_value_of_init_is_told(rt: HostRuntime) -> Result<(), Fail> {
    let alloc = rt.alloc();
    let number = |field| UsageFault::Number { field };
    let short = "0011223344556677";
    let letter = "g0112233445566778899aabbccddeeff00112233445566778899aabbccddeeff";
    for (folder, member, depth, probes, master, serial, want) in [
        (
            "4294967296",
            "64",
            "12",
            "9",
            short,
            "0",
            number(NumberField::Folder),
        ),
        (
            "4294967295",
            "64",
            "12",
            "9",
            short,
            "0",
            number(NumberField::Member),
        ),
        ("0", "63", "12", "9", short, "0", number(NumberField::Depth)),
        ("0", "0", "11", "9", short, "0", number(NumberField::Probes)),
        ("0", "0", "8", "8", short, "0", UsageFault::Master),
        ("0", "0", "8", "1", letter, "0", UsageFault::Master),
        ("0", "0", "8", "1", MASTER, "0", number(NumberField::Serial)),
        (
            "0",
            "0",
            "8",
            "1",
            MASTER,
            "01",
            number(NumberField::Serial),
        ),
        (
            "0",
            "0",
            "8",
            "1",
            MASTER,
            "18446744073709551616",
            number(NumberField::Serial),
        ),
        ("0", "0", "8", "0", MASTER, "1", number(NumberField::Probes)),
        ("0", "0", "7", "1", MASTER, "1", number(NumberField::Depth)),
        ("", "0", "8", "1", MASTER, "1", number(NumberField::Folder)),
        (
            "1 ",
            "0",
            "8",
            "1",
            MASTER,
            "1",
            number(NumberField::Folder),
        ),
    ] {
        let text = format!(in alloc;
            "init|--serial|{serial}|--master|{master}|--folder|{folder}|--member|{member}|--depth|{depth}|--probes|{probes}"
        )?;
        match read(alloc, &text) {
            Ok(_) => panic!(rt; "{text}"),
            Err(fault) => assert!(rt; fault == want, "{text}: {fault}"),
        }
    }
    Ok(())
}

#[test]
fn each_fault_has_its_text(rt: HostRuntime) -> Result<(), Fail> {
    for (fault, text) in [
        (UsageFault::NoCommand, "usage nocommand"),
        (UsageFault::Unknown, "usage unknown"),
        (UsageFault::Words, "usage words"),
        (
            UsageFault::Number {
                field: NumberField::Folder,
            },
            "usage number folder",
        ),
        (
            UsageFault::Number {
                field: NumberField::Member,
            },
            "usage number member",
        ),
        (
            UsageFault::Number {
                field: NumberField::Depth,
            },
            "usage number depth",
        ),
        (
            UsageFault::Number {
                field: NumberField::Probes,
            },
            "usage number probes",
        ),
        (
            UsageFault::Number {
                field: NumberField::Serial,
            },
            "usage number serial",
        ),
        (
            UsageFault::Number {
                field: NumberField::Doc,
            },
            "usage number doc",
        ),
        (UsageFault::Master, "usage master"),
        (UsageFault::Word, "usage word"),
        (UsageFault::NoMemory, "nomemory"),
    ] {
        let printed = format!(in rt.alloc(); "{fault}")?;
        assert_eq!(rt; printed.as_str(), text);
    }
    Ok(())
}
