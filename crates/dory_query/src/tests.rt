//! The keys of a search, against words of another implementation of ChaCha20.

use crate::Query;
use dory_base::{AskId, MemberId, Shape, Word};
use dory_dpf::eval_at;
use dory_hmac::FolderKeys;
use std::test::Fail;

const MASTER: [u8; 32] = [7; 32];

// The seeds of the first two probes, the lead's before the follower's, out of the words of SEED and the stream below.
const DRAWN: [[u8; 16]; 4] = [
    [
        0x15, 0x46, 0xa1, 0x66, 0x76, 0x84, 0xb1, 0x72, 0x6a, 0xe6, 0xeb, 0xeb, 0xd4, 0x9a, 0xf7,
        0xc3,
    ],
    [
        0x8e, 0xba, 0x79, 0x96, 0xca, 0x85, 0xf9, 0xe2, 0xb6, 0x19, 0x3e, 0xcc, 0xad, 0x16, 0xbc,
        0xb5,
    ],
    [
        0x64, 0x6c, 0x32, 0x57, 0xd0, 0x6d, 0x1e, 0x42, 0xb5, 0x9c, 0x8f, 0x2e, 0x87, 0xc6, 0x42,
        0xaf,
    ],
    [
        0xb7, 0xc4, 0xd5, 0x20, 0x65, 0xc4, 0x6d, 0xe9, 0xd4, 0xa5, 0xda, 0xfe, 0x7e, 0x8f, 0xb9,
        0xcc,
    ],
];

const SEED: [u8; 32] = [
    0, 1, 2, 3, 4, 5, 6, 7, 8, 9, 10, 11, 12, 13, 14, 15, 16, 17, 18, 19, 20, 21, 22, 23, 24, 25,
    26, 27, 28, 29, 30, 31,
];

fn ask(serial: u64, step: u32) -> AskId {
    AskId {
        member: MemberId(3),
        serial,
        step,
    }
}

#[test]
fn a_search_has_a_pair_of_keys_for_each_position(rt: HostRuntime) -> Result<(), Fail> {
    let keys = FolderKeys::derive(&MASTER, 1);
    let shape = Shape::new(8, 2).ok_or("shape")?;
    let word = Word::read(b"alpha")?;
    let asks = [ask(0x0102_0304_0506_0708, 2), ask(9, 3)];
    let query = Query::make(rt.alloc(), &keys, shape, &word, 6, asks, &SEED)
        .ok()
        .ok_or("memory")?;
    assert_eq!(rt; query.word_columns, [2, 186, 0, 0, 0, 0, 0, 0]);
    assert_eq!(rt; query.version, 6);
    assert!(rt; query.asks == asks && query.shape == shape);
    let lead = query.lead_keys.items();
    let follow = query.follow_keys.items();
    assert!(rt; lead.len() == 2 && follow.len() == 2);
    for (probe, column) in [(0usize, 2u16), (1, 186)] {
        let l = lead.get(probe).ok_or("a key")?;
        let f = follow.get(probe).ok_or("a key")?;
        assert!(rt; l.party() == 0 && f.party() == 1 && l.form() == 2 && f.form() == 2);
        assert!(rt; DRAWN.get(2 * probe) == Some(l.seed()), "{probe}");
        assert!(rt; DRAWN.get(2 * probe + 1) == Some(f.seed()), "{probe}");
        for place in 0..256u16 {
            assert!(rt;
                (eval_at(l, place) != eval_at(f, place)) == (place == column),
                "{place}"
            );
        }
    }
    Ok(())
}
