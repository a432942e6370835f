//! The laws of verification, for any selectors that are point pairs.
ghost use Rattle.std.specs.Prelude.{◌≡◌, ◌⊎◌, ◌↔◌, ◌≤◌, ℕ, List, Bool, Ok, Some, length, map};
ghost use Rattle.std.specs.List.{AllZip, AllByRecursion};
ghost use Rattle.dory_base.specs.declared.found.Place.{Place};
ghost use Rattle.dory_base.specs.declared.found.Sum.{Sum};
ghost use Rattle.dory_base.specs.Dims.{Dims};
ghost use Rattle.dory_base.specs.declared.entry.Entry.{Entry};
ghost use Rattle.dory_base.specs.declared.found.Found.{Found};
ghost use Rattle.dory_base.specs.declared.ids.AskId.{AskId};
ghost use Rattle.dory_base.specs.History.{version_of};
ghost use Rattle.dory_base.specs.Table.{Slots, live_of, table_of};
ghost use Rattle.dory_hmac.specs.declared.folder_keys.FolderKeys.{FolderKeys};
ghost use Rattle.dory_fields.specs.Bytes.{IsBytes};
ghost use Rattle.dory_wire.specs.declared.message.What.TheVariants.{Found as Finds};
ghost use Rattle.dory_wire.specs.Reading.{reply_in};
ghost use Rattle.dory_verify.specs.declared.answer.Answer.{Answer};
ghost use Rattle.dory_verify.specs.Answer.{IsAnswer};
ghost use Rattle.dory_verify.specs.Checks.{both_found, first_fault_of, of_one_version};
ghost use Rattle.dory_verify.specs.Forgery.{IsForgery};
ghost use Rattle.dory_verify.specs.Honest.{reply, IsFoundIn, found_by, IsSearch};
ghost use Rattle.dory_verify.specs.Listing.{Lists};
ghost use Rattle.dory_verify.specs.Forgery.{IsForgeryOf, IsHonest, IsShifted, probes_of};
ghost use Rattle.dory_verify.specs.Tags.{line_tag};
ghost use Rattle.dory_verify.specs.SideBySide.{Both, other_of, IsTagged, HasPointPair, IsChecked, IsShown};

/// Beside an honest domain, sums whose tags add up at every probe are what an honest domain would have answered, so that
/// the two show the cells; or they are the forgery.
pub fn verified()
    ensures { (tag : ℕ → Place → Bool → ℕ) (m : ℕ) (slots : Slots) (bs : List Both) (sums : List Sum) → AllByRecursion (IsTagged tag m) (live_of slots) → AllByRecursion (HasPointPair m) bs → AllZip (IsChecked tag slots) bs sums
        → IsForgeryOf tag slots (map other_of bs) sums ⊎ (AllZip (IsHonest slots) (map other_of bs) sums × AllZip (IsShown slots) bs sums) }
{}

/// Where one of two replies is an honest domain's to a search of sealed entries, a pair without a fault is answered
/// right and the other reply is an honest domain's too, or it is the forgery.
pub fn right_beside_an_honest_domain()
    ensures lead { (keys : FolderKeys) (shape : Dims) (history : List Entry) (version seen : ℕ) (first second : AskId) (word columns : List ℕ) (mine other : List (List Bool)) (lead follow : List ℕ) (l f : Found) (answer : Answer)
        → IsSearch keys shape history version word columns mine other → IsBytes lead → IsBytes follow → IsFoundIn lead (found_by history version mine)
        → first_fault_of keys columns version seen first second lead follow ≡ Ok (l, f) → Lists keys columns version l f answer
        → (IsAnswer keys shape history version word answer.docs × (f ≡ found_by history version other)) ⊎ IsForgery keys history version columns other f.sums }
    ensures follow { (keys : FolderKeys) (shape : Dims) (history : List Entry) (version seen : ℕ) (first second : AskId) (word columns : List ℕ) (other mine : List (List Bool)) (lead follow : List ℕ) (l f : Found) (answer : Answer)
        → IsSearch keys shape history version word columns other mine → IsBytes lead → IsBytes follow → IsFoundIn follow (found_by history version mine)
        → first_fault_of keys columns version seen first second lead follow ≡ Ok (l, f) → Lists keys columns version l f answer
        → (IsAnswer keys shape history version word answer.docs × (l ≡ found_by history version other)) ⊎ IsForgery keys history version columns other l.sums }
{}

/// The replies of two honest domains to a search of one sealed version pass every check.
pub fn both_honest_pass()
    ensures { (keys : FolderKeys) (shape : Dims) (history other_history : List Entry) (version seen : ℕ) (first second : AskId) (word columns : List ℕ) (mine other : List (List Bool)) (lead follow : List ℕ)
        → IsSearch keys shape history version word columns mine other → version_of version other_history ≡ version_of version history → seen ≤ version
        → reply_in lead ≡ Some (reply first (Finds (found_by history version mine))) → reply_in follow ≡ Some (reply second (Finds (found_by other_history version other)))
        → first_fault_of keys columns version seen first second lead follow ≡ Ok (found_by history version mine, found_by other_history version other) }
{}

/// What an honest domain finds for its shares is never the forgery.
pub fn honest_is_no_forgery()
    ensures { (keys : FolderKeys) (history : List Entry) (version : ℕ) (columns : List ℕ) (shares : List (List Bool)) → ¬ IsForgery keys history version columns shares (found_by history version shares).sums }
{}

/// Where one of two replies is an honest domain's to a search of sealed entries, and the two pass every check before the
/// tags, the pair has no fault exactly where at every probe the other's tag is shifted by both cell tags of each line that
/// it flips: a lying domain has no other way in.
pub fn tags_decide()
    ensures lead { (keys : FolderKeys) (shape : Dims) (history : List Entry) (version seen : ℕ) (first second : AskId) (word columns : List ℕ) (mine other : List (List Bool)) (lead follow : List ℕ) (f : Found)
        → IsSearch keys shape history version word columns mine other → IsBytes lead → IsBytes follow
        → both_found first second lead follow ≡ Ok (found_by history version mine, f) → of_one_version (length columns) version seen (found_by history version mine) f ≡ Ok tt
        → (first_fault_of keys columns version seen first second lead follow ≡ Ok (found_by history version mine, f))
        ↔ AllZip (IsShifted (line_tag keys) (table_of (version_of version history))) (probes_of columns other) f.sums }
    ensures follow { (keys : FolderKeys) (shape : Dims) (history : List Entry) (version seen : ℕ) (first second : AskId) (word columns : List ℕ) (other mine : List (List Bool)) (lead follow : List ℕ) (l : Found)
        → IsSearch keys shape history version word columns other mine → IsBytes lead → IsBytes follow
        → both_found first second lead follow ≡ Ok (l, found_by history version mine) → of_one_version (length columns) version seen l (found_by history version mine) ≡ Ok tt
        → (first_fault_of keys columns version seen first second lead follow ≡ Ok (l, found_by history version mine))
        ↔ AllZip (IsShifted (line_tag keys) (table_of (version_of version history))) (probes_of columns other) l.sums }
{}
