//! The tag of a sum: the XOR of the tags of the columns that a selector selects.
ghost use Rattle.std.specs.Prelude.{◌≡◌, ◌^◌, ◌<◌, length};
ghost use Rattle.std.specs.List.{flat_map};
ghost use Rattle.dory_base.specs.Sum.{tags_of, selected, xor_all};
ghost use Rattle.dory_base.specs.Table.{live_of};

use dory_base::{Bits, SlotTable, Tag};

/// The XOR of the selected columns' tags.
pub fn selected_tag<T: SlotTable>(table: &T, selector: &Bits) -> Tag
    requires { length selector.now ≡ 2 ^ (T.meaning table.now).shape.depth }
    ensures value { result ≡ xor_all (flat_map (λ l. selected selector.now (tags_of l.entry.change)) (live_of (T.meaning table.now).slots)) }
    ensures few { result < 2 ^ 128 }
{
    let mut tag = Tag::zero();
    for column in 0..selector.len() {
        if selector.get(column) {
            tag = tag.xor(&table.column_tag(column));
        }
    }
    Tag::of(tag.bytes())
}
