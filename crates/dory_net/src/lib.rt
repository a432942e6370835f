//! The system's streams and sockets as what the other crates speak to, each counting its failures; the words of a command
//! line; and a domain that serves the connections of a port.
#![tactic(auto)]

mod patience;
mod serving;
mod streams;
mod tcp_binder;
mod tcp_link;
mod tcp_port;
#[cfg(test)]
mod tests;
mod typed;

pub use serving::{ServeEnd, serve_port};
pub use streams::{StdSink, StdSource, StreamSink, StreamSource, TcpSink, TcpSource};
pub use tcp_binder::TcpBinder;
pub use tcp_link::TcpLink;
pub use tcp_port::TcpPort;
pub use typed::typed_words;
