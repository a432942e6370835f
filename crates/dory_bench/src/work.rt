//! The pieces of work, and what the table says of each.

/// The depth of a row: 256 columns, or 2,048.
#[derive(Clone, Copy)]
pub enum Depth {
    Eight,
    Eleven,
}

/// The form of a point key.
#[derive(Clone, Copy)]
pub enum Form {
    Long,
    Short,
}

/// A message whose bytes are written or read.
#[derive(Clone, Copy)]
pub enum Message {
    Stage,
    Found,
}

/// How many selectors a scan is for.
#[derive(Clone, Copy)]
pub enum Selectors {
    One,
    Eight,
}

/// A request that a domain answers.
#[derive(Clone, Copy)]
pub enum Asked {
    Latest,
    Search,
    Which,
    Stage,
    Order,
    Follow,
}

/// How many documents a domain's folder has.
#[derive(Clone, Copy)]
pub enum Filling {
    /// 64.
    Part,
    /// 4,096 where time is taken, and 192 else.
    Whole,
}

/// What is done over and over.
#[derive(Clone, Copy)]
pub enum Work {
    Mac,
    Tag,
    Tags,
    MaskBlock,
    MaskBlocks,
    Seal(Depth),
    Check(Depth),
    Double,
    /// The same through the toolchain's generator, for comparison.
    DoubleByGenerator,
    Gen(Form, Depth),
    Expand(Form, Depth),
    Words,
    Row,
    Encode(Message),
    Decode(Message),
    /// An update on a version that shares its chunks.
    NextVersion,
    /// Parities of rows and selectors, by a kernel alone.
    Parity,
    Scan(Selectors),
    Verify,
    Step(Asked, Filling),
    /// A search end to end.
    Search,
}
