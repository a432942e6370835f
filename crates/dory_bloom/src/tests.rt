//! Positions and rows, against values of another implementation of HMAC-SHA-256.

use crate::{plain_row, positions};
use dory_base::{Shape, Word};
use dory_hmac::FolderKeys;
use std::test::Fail;

const MASTER: [u8; 32] = [7; 32];

#[test]
fn positions_are_the_leading_numbers_of_the_tag(rt: HostRuntime) -> Result<(), Fail> {
    let keys = FolderKeys::derive(&MASTER, 1);
    let rows: [(u8, u8, &str, [u16; 8]); 4] = [
        (8, 2, "alpha", [2, 186, 0, 0, 0, 0, 0, 0]),
        (11, 8, "alpha", [258, 1722, 1640, 609, 1255, 21, 788, 441]),
        (8, 2, "Café", [133, 26, 0, 0, 0, 0, 0, 0]),
        (11, 8, "12", [939, 525, 1152, 1532, 363, 661, 1533, 449]),
    ];
    for (depth, probes, text, expected) in rows {
        let shape = Shape::new(depth, probes).ok_or("shape")?;
        let word = Word::read(text.as_bytes())?;
        let mut columns = [9; 8];
        positions(&keys, shape, &word, &mut columns);
        assert!(rt; columns == expected, "{text}");
    }
    Ok(())
}

#[test]
fn a_row_has_the_positions_of_each_word(rt: HostRuntime) -> Result<(), Fail> {
    let keys = FolderKeys::derive(&MASTER, 1);
    let words = [Word::read(b"alpha")?, Word::read("café".as_bytes())?];
    let small = Shape::new(8, 2).ok_or("shape")?;
    let row = plain_row(rt.alloc(), &keys, small, &words)?;
    assert_eq!(rt; row.len(), 256);
    for column in 0..256usize {
        let expected = matches!(column, 2 | 26 | 133 | 186);
        assert!(rt; row.get(column) == expected, "{column}");
    }
    let none = plain_row(rt.alloc(), &keys, small, &[])?;
    assert_eq!(rt; none.len(), 256);
    for column in 0..256usize {
        assert!(rt; !none.get(column), "{column}");
    }
    Ok(())
}

#[test]
fn repeats_in_a_long_list_set_nothing_more(rt: HostRuntime) -> Result<(), Fail> {
    let keys = FolderKeys::derive(&MASTER, 1);
    let shape = Shape::new(11, 8).ok_or("shape")?;
    // "bread" and "lily" have the same slot among the recent words.
    let once = [
        Word::read(b"bread")?,
        Word::read(b"lily")?,
        Word::read(b"alpha")?,
    ];
    let mut often = Vec::new(rt.alloc());
    for k in 0..300usize {
        often.push(once[k % 3])?;
    }
    let short = plain_row(rt.alloc(), &keys, shape, &once)?;
    let long = plain_row(rt.alloc(), &keys, shape, &often)?;
    assert_eq!(rt; short.len(), 2048);
    assert_eq!(rt; long.len(), 2048);
    for column in 0..2048usize {
        assert!(rt; long.get(column) == short.get(column), "{column}");
    }
    Ok(())
}
