//! What a folder finds when it is asked to stage or to commit an update.

/// An update that may be staged: it is new, or was staged before, or was committed at this number.
#[derive(Clone, Copy, Debug, PartialEq, Eq)]
pub enum StagePlan {
    New,
    Same,
    Done { number: u32 },
}

/// An update that may be committed at this number: it was already, or it comes next.
#[derive(Clone, Copy, Debug, PartialEq, Eq)]
pub enum Plan {
    Again { number: u32 },
    Fresh { number: u32 },
}
