//! A folder's documents at one version, whatever keeps them: the plain table and shared versions meet the same trait.
ghost use Rattle.std.specs.Prelude.{◌≡◌, ℕ, ◌<◌, ◌++◌, ◌^◌, ◌∷◌, List, [], Option, Some, None, slice_index_or, IfOk, IfSome, IfNone};
ghost use Rattle.dory_base.specs.declared.entry.Entry.{Entry};
ghost use Rattle.dory_base.specs.History.{IsChangeOf};
ghost use Rattle.dory_base.specs.Sum.{row_of};
ghost use Rattle.dory_base.specs.Table.{manifest_of};
ghost use Rattle.dory_base.specs.TableMeaning.{Kept, IsKept, StandsFor, empty_of, next_of, column_tag_of, Shows};

use crate::{Entry, Manifest, NoMemory, Shape, Tag};
use std::alloc::Global;

/// A table of at most 4,096 slots, each empty or with a post of the table's shape.
pub trait SlotTable: Sized {
    ghost meaning: { Self → Kept };

    /// The table of a folder with no update.
    fn empty(alloc: Global, shape: Shape) -> Result<Self, NoMemory>
        ensures value { IfOk result (λ t. meaning t ≡ empty_of shape) }
        ensures stands { IfOk result (λ t. StandsFor (meaning t) []) };

    /// The table after one more update. This one stays as it is.
    fn next_version(&self, alloc: Global, entry: &Entry) -> Result<Self, NoMemory>
        requires room { (meaning self.now).number < 1048576 }
        requires change { IsChangeOf (meaning self.now).shape entry.now.change }
        ensures value { IfOk result (λ t. meaning t ≡ next_of (meaning self.now) entry.now) }
        ensures stands { IfOk result (λ t. (entries : List Entry) → StandsFor (meaning self.now) entries → StandsFor (meaning t) (entries ++ entry.now ∷ [])) };

    /// How many updates it has had.
    fn number(&self) -> u32
        ensures value { result ≡ (meaning self.now).number }
        ensures kept { IsKept (meaning self.now) };

    /// The live slots in order.
    fn manifest(&self, alloc: Global) -> Result<Manifest, NoMemory>
        ensures value { IfOk result (λ m. m ≡ manifest_of (meaning self.now).slots) }
        ensures kept { IsKept (meaning self.now) };

    /// The XOR of a column's tags over the live slots.
    fn column_tag(&self, column: usize) -> Tag
        requires { column < 2 ^ (meaning self.now).shape.depth }
        ensures value { result ≡ column_tag_of (meaning self.now).slots column }
        ensures kept { IsKept (meaning self.now) };

    /// The sealed cells of a live slot, 64 in a word: cell j is bit j mod 64 of word j div 64.
    fn row(&self, slot: usize) -> Option<&[u64]>
        ensures live { IfSome result (λ words. (e : Entry) × (slice_index_or (meaning self.now).slots slot None ≡ Some e) × Shows words.now (row_of e.change)) }
        ensures empty { IfNone result (slice_index_or (meaning self.now).slots slot None ≡ None) }
        ensures kept { IsKept (meaning self.now) };
}
