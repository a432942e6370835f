//! A member's calls over two domains in memory, the worked examples among them; what fails in turn; a domain that lies;
//! and two servers on loopback.

mod archive;
mod commands;
mod epochs;
mod failing;
mod folder;
mod lies;
mod loopback;
mod refusals;
mod texts;
