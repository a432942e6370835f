//! Masks, tags and sealed entries, against values of another implementation of HMAC-SHA-256.

ghost use Rattle.std.specs.Prelude.{◌≡◌};
ghost use Rattle.std.specs.List.{All};
ghost use Rattle.dory_seal.specs.Epoch.{epoch_of};

use crate::{
    BadCell, Block, Cell, EpochKeys, cell_tag, check_sealed, epoch_of, mask_bit, seal_post,
    seal_remove,
};
use dory_base::{Bits, Change, DocId, Entry, MemberId, Shape, Tag, Tags, UpdateId};
use dory_hmac::{FolderKeys, mac};
use std::test::Fail;

const MASTER: [u8; 32] = [7; 32];

fn update(member: u32, serial: u64) -> UpdateId {
    UpdateId {
        member: MemberId(member),
        serial,
    }
}

#[test]
fn masks_and_tags_are_those_of_another_program(rt: HostRuntime) {
    let keys = FolderKeys::derive(&MASTER, 1);
    // document, member, serial, column, mask bit, tag of 0, tag of 1
    let rows: [(u32, u32, u64, u16, bool, u128, u128); 12] = [
        (
            0x7,
            3,
            0x5,
            0,
            false,
            0xe3d5496a0dab21d47e0cd3cb80d34b6f,
            0x6c0ac967b4ca90deff86a194e9341074,
        ),
        (
            0x7,
            3,
            0x5,
            255,
            true,
            0x8b10f91f45c174e0447fa3059b65645b,
            0x9f61cd6a050a625cbc07d2768a656792,
        ),
        (
            0x7,
            3,
            0x5,
            256,
            true,
            0xd48c33ee4ed68205b6328f3a572e8c30,
            0x910a987fa6d70c9406cd3a0685a64eca,
        ),
        (
            0x7,
            3,
            0x5,
            2047,
            false,
            0x3e74a2adbb6831ce0f8605340bacbb47,
            0xfc646078a4dfea54dcffc1b329a048d7,
        ),
        (
            0x1020304,
            63,
            0x100000000000009,
            0,
            true,
            0x30dac9e218b9e99721f92cb3a1de980e,
            0xd7bb6258a452ef11ad743529eb8b5f11,
        ),
        (
            0x1020304,
            63,
            0x100000000000009,
            255,
            true,
            0x7af11daea35f5611e0084d77e8a22420,
            0x6aa392ed56001b79092a3782c5372ac4,
        ),
        (
            0x1020304,
            63,
            0x100000000000009,
            256,
            false,
            0xbc9d36e15259ac9d39419b5b1eeec800,
            0x871de16408e52de46441ddd17ba89cd0,
        ),
        (
            0x1020304,
            63,
            0x100000000000009,
            2047,
            true,
            0x66c8852e117f222238854869fe68422a,
            0x8ada3e849e4e4a23c7ead23ef1f57c0d,
        ),
        (
            0x7,
            3,
            0xff00000000000102,
            0,
            false,
            0x124629cc56b678633ccd0fc485aa5452,
            0x02b9e9dcd72f692b2e0e091ca389f4b5,
        ),
        (
            0x7,
            3,
            0xff00000000000102,
            255,
            false,
            0xe1b360b07d9d063bc72a899a2cd0c56e,
            0xdfb6841d7b37ff945c206709ea2804dd,
        ),
        (
            0x7,
            3,
            0xff00000000000102,
            256,
            false,
            0x38c3eb6b2cce4e9a788575bae36cec01,
            0x97bbdb98318e1cc43f3d7a2d2ae4cb05,
        ),
        (
            0x7,
            3,
            0xff00000000000102,
            2047,
            true,
            0x302aaebb9d826601967fe02272086263,
            0xf755e94e58ddab3aa3031d175baf90de,
        ),
    ];
    for (doc, member, serial, column, mask, clear, set) in rows {
        let doc = DocId(doc);
        let id = update(member, serial);
        assert!(rt;
            mask_bit(&keys, doc, id, column) == mask,
            "mask {serial} {column}"
        );
        assert!(rt;
            cell_tag(&keys, doc, id, column, false).bytes() == clear.to_be_bytes(),
            "0 {serial} {column}"
        );
        assert!(rt;
            cell_tag(&keys, doc, id, column, true).bytes() == set.to_be_bytes(),
            "1 {serial} {column}"
        );
        let epoch_keys = EpochKeys::new(&keys, epoch_of(id));
        let block = epoch_keys.mask_block(doc, id, column as u32 / 256);
        assert!(rt; block.bit(column) == mask, "block {serial} {column}");
        assert!(rt;
            epoch_keys.cell_tag(doc, id, column, true).bytes() == set.to_be_bytes(),
            "kept {serial} {column}"
        );
    }
}

#[test]
fn a_key_and_a_message_are_laid_out_as_said(rt: HostRuntime) {
    let keys = FolderKeys::derive(&MASTER, 1);
    let doc = DocId(0x0102_0304);
    let id = update(63, 0x0100_0000_0000_0009);
    let tag_key = mac(&keys.tag, b"dory epoch\x01");
    let digest = mac(
        &tag_key,
        b"\x01\x02\x03\x04\0\0\0\x3f\x01\0\0\0\0\0\0\x09\0\0\x01\0\x01",
    );
    assert!(rt; cell_tag(&keys, doc, id, 256, true).bytes().as_slice() == &digest[..16]);
    let mask_key = mac(&keys.mask, b"dory epoch\x01");
    let block = mac(
        &mask_key,
        b"\x01\x02\x03\x04\0\0\0\x3f\x01\0\0\0\0\0\0\x09\0\0\0\x07",
    );
    assert!(rt; mask_bit(&keys, doc, id, 2047) == (block[31] >= 0x80));
    assert!(rt; mask_bit(&keys, doc, id, 1792) == (block[0] % 2 == 1));
    let early = update(63, 9);
    let digest = mac(
        &keys.tag,
        b"\x01\x02\x03\x04\0\0\0\x3f\0\0\0\0\0\0\0\x09\0\0\x01\0\0",
    );
    assert!(rt; cell_tag(&keys, doc, early, 256, false).bytes().as_slice() == &digest[..16]);
}

fn cells_of(id: UpdateId) -> [Cell; 70]
    ensures { All (λ cell. epoch_of cell.id ≡ epoch_of id) result }
{
    let mut cells = [Cell {
        doc: DocId(0),
        id,
        column: 0,
        cell: false,
    }; 70];
    for i in 0..70u16 {
        cells[i as usize] = Cell {
            doc: DocId(i as u32 / 9),
            id,
            column: 29 * i,
            cell: i % 3 == 0,
        };
    }
    cells
}

#[test]
fn tags_of_many_cells_are_those_one_by_one(rt: HostRuntime) {
    let keys = FolderKeys::derive(&MASTER, 1);
    let id = update(3, 0x0200_0000_0000_0009);
    let epoch_keys = EpochKeys::new(&keys, epoch_of(id));
    assert_eq!(rt; epoch_keys.epoch(), 2);
    let cells = cells_of(id);
    let mut tags = [Tag::zero(); 70];
    epoch_keys.cell_tags(&cells, &mut tags);
    let tags = &tags[..];
    for i in 0..70usize {
        let cell = cells[i];
        let tag = cell_tag(&keys, cell.doc, id, cell.column, cell.cell);
        assert!(rt; tags[i].same(&tag), "{i}");
    }
}

fn blocks_of(id: UpdateId) -> [Block; 66]
    ensures { All (λ block. epoch_of block.id ≡ epoch_of id) result }
{
    let mut blocks = [Block {
        doc: DocId(0),
        id,
        block: 0,
    }; 66];
    for i in 0..66u32 {
        blocks[i as usize] = Block {
            doc: DocId(i / 9),
            id,
            block: i % 8,
        };
    }
    blocks
}

#[test]
fn masks_of_many_blocks_are_those_one_by_one(rt: HostRuntime) {
    let keys = FolderKeys::derive(&MASTER, 1);
    let id = update(3, 0x0200_0000_0000_0009);
    let epoch_keys = EpochKeys::new(&keys, epoch_of(id));
    let blocks = blocks_of(id);
    let mut masks = [epoch_keys.mask_block(DocId(9), id, 9); 66];
    epoch_keys.mask_blocks(&blocks, &mut masks);
    let masks = &masks[..];
    for i in 0..66usize {
        let place = blocks[i];
        for column in [0u16, 7, 8, 255] {
            let whole = 256 * (i % 8) as u16 + column;
            assert!(rt;
                masks[i].bit(whole) == mask_bit(&keys, place.doc, id, whole),
                "{i} {column}"
            );
        }
    }
}

#[test]
fn a_sealed_row_is_checked_cell_by_cell(rt: HostRuntime) -> Result<(), Fail> {
    let keys = FolderKeys::derive(&MASTER, 1);
    let doc = DocId(7);
    let id = update(3, 0xff00_0000_0000_0102);
    let shape = Shape::new(9, 2).ok_or("shape")?;
    let mut plain = Bits::zero(rt.alloc(), 512)?;
    plain.put(0, true);
    plain.put(255, true);
    plain.put(511, true);
    let entry = seal_post(rt.alloc(), &keys, shape, id, doc, &plain)?;
    assert!(rt; check_sealed(&keys, &entry) == Ok(()));
    let Change::Post { row, tags, .. } = entry.change else {
        return Err("a removal".into());
    };
    for column in 0..512u16 {
        let cell = row.get(column as usize);
        assert!(rt;
            cell == (plain.get(column as usize) != mask_bit(&keys, doc, id, column)),
            "{column}"
        );
        assert!(rt;
            tags.items()[column as usize].same(&cell_tag(&keys, doc, id, column, cell)),
            "{column}"
        );
    }
    for bad in [0u16, 63, 64, 511] {
        let mut others = tags.items().to_vec(rt.alloc())?;
        others[bad as usize] = others[bad as usize].xor(&others[100]);
        others[511] = Tag::zero();
        let entry = Entry {
            id,
            doc,
            change: Change::Post {
                shape,
                row: row.copy(rt.alloc())?,
                tags: Tags::of(others),
            },
        };
        assert!(rt;
            check_sealed(&keys, &entry) == Err(BadCell { column: bad }),
            "{bad}"
        );
    }
    Ok(())
}

#[test]
fn a_removal_is_sealed(rt: HostRuntime) {
    let keys = FolderKeys::derive(&MASTER, 1);
    let entry = seal_remove(update(3, 6), DocId(7));
    assert!(rt; entry.doc == DocId(7));
    assert!(rt; entry.id == update(3, 6));
    assert!(rt; matches!(entry.change, Change::Remove));
    assert!(rt; check_sealed(&keys, &entry) == Ok(()));
}
