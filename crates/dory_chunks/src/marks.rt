//! Which document and which update a slot has: short lists, so that nothing that looks for a slot goes over entries.
ghost use Rattle.std.specs.Prelude.{◌≡◌, position};
ghost use Rattle.std.specs.Option.{option_copied};
ghost use Rattle.dory_chunks.specs.Marks.{is_marked, is_mark_of, mark_of};
ghost use Rattle.dory_chunks.specs.Target.{place_for};

use dory_base::{DocId, Entry, UpdateId};

/// The document and the update in a slot.
#[derive(Clone, Copy, Debug)]
pub struct Mark {
    pub doc: DocId,
    pub id: UpdateId,
}

fn names(mark: &Option<Mark>, doc: DocId) -> bool
    ensures { result ≡ is_marked doc mark.now }
{
    match mark {
        None => false,
        Some(mark) => mark.doc == doc,
    }
}

/// Whether the mark is of this document, or there is none where none is named.
fn is_of(mark: &Option<Mark>, doc: Option<DocId>) -> bool
    ensures { result ≡ is_mark_of doc mark.now }
{
    match doc {
        None => mark.is_none(),
        Some(doc) => names(mark, doc),
    }
}

/// The first mark of this document, or the first empty one where none is named.
pub fn first_marked(marks: &[Option<Mark>], doc: Option<DocId>) -> Option<usize>
    ensures { result ≡ position (is_mark_of doc) marks.now }
{
    marks.iter().position(|mark| is_of(mark, doc))
}

/// The slot for a post whose document has this slot, where this one is the lowest empty one and there are so many.
pub fn slot_for(own: Option<usize>, empty: Option<usize>, count: usize) -> Option<usize>
    ensures { result ≡ place_for own empty count }
{
    match (own, empty) {
        (Some(at), _) => Some(at),
        (None, Some(at)) => Some(at),
        (None, None) => { if count < 4096 { Some(count) } else { None } }
    }
}

/// The mark of what a slot has.
pub fn marked(slot: Option<&Entry>) -> Option<Mark>
    ensures { result ≡ mark_of (option_copied slot.entry) }
{
    match slot {
        None => None,
        Some(entry) => Some(Mark {
            doc: entry.doc,
            id: entry.id,
        }),
    }
}
