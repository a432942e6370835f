//! Texts that come in pieces, and the row of a text.

use crate::input::{InputEnd, read_text, text_row};
use dory_base::Shape;
use dory_hmac::FolderKeys;
use dory_io::VecSource;
use std::test::Fail;

#[test]
fn a_text_is_read_to_its_end(rt: HostRuntime) -> Result<(), Fail> {
    let alloc = rt.alloc();
    for len in [0, 5, 4096, 10_000usize] {
        let mut bytes = vec![in alloc; 7; len]?;
        if let Some(last) = bytes.last_mut() {
            *last = 9;
        }
        let mut input = VecSource::new(bytes.as_slice().to_vec(alloc)?, Vec::new(alloc));
        let read = read_text(alloc, &mut input);
        assert!(rt;
            read.is_ok_and(|text| text.as_slice() == bytes.as_slice()),
            "{len}"
        );
    }
    Ok(())
}

#[test]
fn a_failed_read_is_told(rt: HostRuntime) -> Result<(), Fail> {
    let alloc = rt.alloc();
    let mut fails = Vec::new(alloc);
    fails.push(2)?;
    let mut input = VecSource::new(vec![in alloc; 7; 5000]?, fails);
    assert!(rt; matches!(read_text(alloc, &mut input), Err(InputEnd::Fault)));
    Ok(())
}

#[test]
fn a_row_has_the_positions_of_the_words(rt: HostRuntime) -> Result<(), Fail> {
    let keys = FolderKeys::derive(&[7; 32], 1);
    let shape = Shape::new(8, 2).ok_or("shape")?;
    let row = text_row(rt.alloc(), &keys, shape, b"alpha beta")?;
    assert_eq!(rt; row.len(), 256);
    for column in 0..256usize {
        let expected = matches!(column, 2 | 76 | 182 | 186);
        assert!(rt; row.get(column) == expected, "{column}");
    }
    Ok(())
}
