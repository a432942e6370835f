//! The names of a domain's folders.
use std::marker::Brand;

/// The names of the folders of a domain, in the order of their places. A program picks them in a call to which the folders are handed.
pub trait Names {
    ghost use Rattle.std.specs.Prelude.{List};
    ghost use Rattle.dory_shared.specs.Seen.{Named};

    ghost names: { List Named };
}

impl Names for Brand {
    ghost use Rattle.std.specs.Prelude.{[]};

    ghost names = { [] };
}
