//! Bits, tags, shapes and copies at values worked by hand.
use super::*;
use std::test::*;

#[test]
fn bits_are_put_read_xored_and_copied(rt: HostRuntime) -> Result<(), Fail> {
    let alloc = rt.alloc();
    let mut bits = Bits::zero(alloc, 70).ok().ok_or("memory")?;
    bits.put(0, true);
    bits.put(3, true);
    bits.put(69, true);
    bits.put(3, false);
    for (place, bit) in [
        (0usize, true),
        (3, false),
        (63, false),
        (64, false),
        (69, true),
    ] {
        if place < bits.len() {
            assert_eq!(rt; bits.get(place), bit);
        }
    }
    assert_eq!(rt; bits.words(), [1, 32].as_slice());
    let mut other = bits.copy(alloc).ok().ok_or("memory")?;
    if other.len() == bits.len() {
        assert_eq!(rt; other.words(), [1, 32].as_slice());
        other.put(0, false);
        bits.xor_with(&other);
        assert_eq!(rt; bits.words(), [1, 0].as_slice());
    }
    Ok(())
}

#[test]
fn words_are_taken_as_bits(rt: HostRuntime) -> Result<(), Fail> {
    let bits = Bits::of_words(Vec::new(rt.alloc()), 0);
    assert_eq!(rt; bits.len(), 0);
    Ok(())
}

#[test]
fn tags_xor_byte_by_byte(rt: HostRuntime) {
    let a = Tag::of([0, 1, 2, 3, 4, 5, 6, 7, 8, 9, 10, 11, 12, 13, 14, 15]);
    let b = Tag::of([1; 16]);
    let both = a.xor(&b);
    assert_eq!(rt;
        both.bytes(),
        [1, 0, 3, 2, 5, 4, 7, 6, 9, 8, 11, 10, 13, 12, 15, 14]
    );
    assert!(rt; a.xor(&a).same(&Tag::zero()));
    assert!(rt; !a.same(&b));
}

#[test]
fn shapes_have_depths_8_to_11_and_1_to_8_probes(rt: HostRuntime) {
    for (depth, probes, columns) in [
        (8, 1, Some(256)),
        (9, 4, Some(512)),
        (10, 2, Some(1024)),
        (11, 8, Some(2048)),
        (7, 1, None),
        (12, 1, None),
        (8, 0, None),
        (8, 9, None),
    ] {
        assert_eq!(rt;
            Shape::new(depth, probes).map(|shape| shape.columns()),
            columns
        );
    }
}

#[test]
fn a_copied_update_is_equal(rt: HostRuntime) -> Result<(), Fail> {
    let alloc = rt.alloc();
    let tags = vec![in alloc; Tag::zero(); 256].ok().ok_or("memory")?;
    let entry = Entry {
        id: UpdateId {
            member: MemberId(3),
            serial: 9,
        },
        doc: DocId(7),
        change: Change::Post {
            shape: Shape::new(8, 1).ok_or("a shape")?,
            row: Bits::zero(alloc, 256).ok().ok_or("memory")?,
            tags: Tags::of(tags),
        },
    };
    let copy = entry.copy(alloc).ok().ok_or("memory")?;
    assert_eq!(rt; copy.id, entry.id);
    assert_eq!(rt; copy.doc, entry.doc);
    match &copy.change {
        Change::Post { shape, row, tags } => {
            assert_eq!(rt; shape.depth(), 8);
            assert_eq!(rt; row.len(), 256);
            assert_eq!(rt; tags.items().len(), 256);
        }
        Change::Remove => return Err("a post is no removal".into()),
    }
    Ok(())
}

#[test]
fn lists_are_equal_only_whole(rt: HostRuntime) -> Result<(), Fail> {
    let alloc = rt.alloc();
    let zeros = Bits::zero(alloc, 70).ok().ok_or("memory")?;
    let mut bits = Bits::zero(alloc, 70).ok().ok_or("memory")?;
    assert!(rt; bits.same(&zeros));
    bits.put(69, true);
    assert!(rt; !bits.same(&zeros));
    let one = Tags::of(vec![in alloc; Tag([1; 16]); 2].ok().ok_or("memory")?);
    let two = Tags::of(vec![in alloc; Tag([1; 16]); 3].ok().ok_or("memory")?);
    assert!(rt; one.same(&one));
    assert!(rt; !one.same(&two));
    Ok(())
}

#[test]
fn updates_are_the_same_by_document_and_change(rt: HostRuntime) {
    for (serial, doc, same) in [(1, 7, true), (2, 7, true), (1, 8, false)] {
        let id = UpdateId {
            member: MemberId(0),
            serial,
        };
        let first = Entry {
            id,
            doc: DocId(7),
            change: Change::Remove,
        };
        let other = Entry {
            id,
            doc: DocId(doc),
            change: Change::Remove,
        };
        assert_eq!(rt; first.same_update(&other), same, "document {doc}");
    }
}
