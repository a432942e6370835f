//! Fields of given bytes, both ways.
use super::*;
use std::test::*;

#[test]
fn fields_are_read_from_left_to_right(rt: HostRuntime) -> Result<(), Fail> {
    let bytes = [
        7, 1, 2, 0, 0, 1, 0, 0, 0, 0, 0, 0, 0, 2, 0, 5, 11, 12, 0, 0, 0, 9, 0, 0, 0, 0, 0, 0, 0, 8,
        6,
    ];
    let mut reader = Reader::new(&bytes);
    assert_eq!(rt; reader.u8_in(7, 8), Ok(7));
    assert_eq!(rt; reader.u16(), Ok(258));
    assert_eq!(rt; reader.u32(), Ok(256));
    assert_eq!(rt; reader.u64(), Ok(512));
    assert_eq!(rt; reader.u8_in(0, 255), Ok(5));
    assert_eq!(rt; reader.array(), Ok([11u8, 12]));
    assert_eq!(rt; reader.u32_in(9, 9), Ok(9));
    assert_eq!(rt; reader.u64_in(8, 8), Ok(8));
    assert_eq!(rt; reader.place(), 30);
    assert!(rt; !reader.is_empty());
    assert_eq!(rt; reader.slice(1), Ok([6u8].as_slice()));
    assert!(rt; reader.is_empty());
    Ok(())
}

#[test]
fn a_fault_names_the_first_byte_of_its_field(rt: HostRuntime) {
    let mut reader = Reader::new(&[0, 1, 2]);
    assert_eq!(rt; reader.u16_in(2, 3), Err(FieldFault::OutOfRange { at: 0 }));
    assert_eq!(rt; reader.u16_in(0, 1), Ok(1));
    assert_eq!(rt; reader.u16(), Err(FieldFault::CutShort { at: 2 }));
    assert_eq!(rt; reader.u8_in(0, 1), Err(FieldFault::OutOfRange { at: 2 }));
    assert_eq!(rt; reader.u8_in(0, 2), Ok(2));
    assert_eq!(rt; reader.u8_in(0, 2), Err(FieldFault::CutShort { at: 3 }));
}

#[test]
fn bits_lie_in_bytes_lowest_first(rt: HostRuntime) -> Result<(), Fail> {
    let alloc = rt.alloc();
    let packed = [1, 0, 0, 0, 0, 0, 0, 0x80, 0x21];
    let bits = Reader::new(&packed).bits(alloc, 70).ok().ok_or("bits")?;
    assert_eq!(rt; bits.words(), [0x8000_0000_0000_0001, 0x21].as_slice());
    let mut out = Vec::new(alloc);
    put_bits(&mut out, &bits).ok().ok_or("memory")?;
    assert_eq!(rt; out.as_slice(), packed.as_slice());
    assert_eq!(rt;
        Reader::new(&packed).bits(alloc, 69).err(),
        Some(FieldFault::OutOfRange { at: 0 })
    );
    Ok(())
}

#[test]
fn numbers_are_written_highest_byte_first(rt: HostRuntime) -> Result<(), Fail> {
    let mut out = Vec::new(rt.alloc());
    put_u16(&mut out, 0x0102).ok().ok_or("memory")?;
    put_u32(&mut out, 0x0304_0506).ok().ok_or("memory")?;
    put_u64(&mut out, 0x0708_090a_0b0c_0d0e)
        .ok()
        .ok_or("memory")?;
    assert_eq!(rt;
        out.as_slice(),
        [1, 2, 3, 4, 5, 6, 7, 8, 9, 10, 11, 12, 13, 14].as_slice()
    );
    Ok(())
}
