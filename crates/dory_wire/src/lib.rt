//! Messages between a member and a domain: what they are, their one spelling in bytes, and the reading of any bytes.
#![tactic(auto)]

mod answered;
mod asked;
mod decode;
mod encode;
mod fault;
mod field;
mod frame;
mod framer;
mod message;
mod probe_keys;
mod refused;
mod spell;
mod staged;

pub use decode::{decode_reply, decode_request};
pub use encode::{encode_ask, encode_reply, encode_request};
pub use fault::WireFault;
pub use frame::whole_message;
pub use framer::{FrameFault, Framer};
pub use message::{Reply, Request, Want, WantRef, What};

#[cfg(test)]
mod framer_tests;
#[cfg(test)]
mod tests;
