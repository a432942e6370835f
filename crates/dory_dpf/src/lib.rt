//! Point function keys: two keys that together select one column of a row, though neither shows which,
//! over a tree of seeds that ChaCha20 blocks double.
#![tactic(auto)]

mod block;
mod evaluation;
mod generation;
mod generator;
mod key;
mod key_fault;
mod keys;
mod path;
mod reading;
mod rounds;
mod sixteen;
mod spelling;
mod stream;
#[cfg(test)]
mod tests;
mod tree;

pub use evaluation::eval_at;
pub use generation::{gen_long, gen_short};
pub use generator::{Doubled, double};
pub use key::Key;
pub use key_fault::KeyFault;
pub use keys::Keys;
pub use stream::stream_words;
pub use tree::{Correction, Node};
