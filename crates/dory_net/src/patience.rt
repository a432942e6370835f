//! How long a peer may keep the other end waiting.

use std::io;
use std::net::TcpStream;
use std::time::Duration;

/// So many seconds may pass before a connection stands, or its next bytes come or go.
const SECONDS: u64 = 30;

/// How long that is.
pub fn patience() -> Duration {
    Duration::from_secs(SECONDS)
}

/// Ends a read or a write that waits longer for the peer, and sends small frames at once.
pub fn be_patient(stream: &TcpStream) -> io::Result<()> {
    let wait = Some(patience());
    stream.set_read_timeout(wait)?;
    stream.set_write_timeout(wait)?;
    stream.set_nodelay(true)
}
