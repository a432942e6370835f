//! Connections of a port, served one after another by one domain.
ghost use Rattle.std.specs.Prelude.{◌≡◌, List, IsErr};
ghost use Rattle.dory_io.specs.Causes.{HasCause};
ghost use Rattle.dory_io.specs.Given.{GaveOne};
ghost use Rattle.dory_net.specs.Serving.{Connection, Telling, IsServing, IsNextServed};

use dory_io::{Failed, Port};
use dory_session::{Answers, serve_session};
use std::alloc::Global;
use std::sync::Wait;

/// Why no more connections are served.
#[derive(Clone, Copy, Debug, PartialEq, Eq)]
pub enum ServeEnd {
    /// As many were served as were asked for.
    Sessions,
    /// The port gave no further one.
    AcceptFault,
}

/// Serves the next connection to its end, whatever end that is.
fn serve_next<D: Answers, P: Port>(
    alloc: Global,
    domain: &mut D,
    port: &mut P,
) -> Result<(), Failed>
    ensures served { IsNextServed D.steps (record { left = λ s. P.From.left s; given = λ s. P.From.given s; written = λ o. P.To.written o }) (D.seen domain.old) (D.seen domain.new) result }
    ensures given { GaveOne (P.given port.old) (P.given port.new) result }
    ensures cause { HasCause (P.faults port.old) (P.faults port.new) (IsErr result) }
{
    let (mut input, mut out) = port.accept()?;
    serve_session(alloc, domain, &mut input, &mut out);
    Ok(())
}

/// Serves one connection after another, as many as are asked for, or for good.
pub fn serve_port<R: Wait, D: Answers, P: Port>(
    rt: &R,
    alloc: Global,
    domain: &mut D,
    port: &mut P,
    sessions: Option<u32>,
) -> ServeEnd
    // Each connection that the port gave was served from what was seen after the one before it, and their number says the end.
    ensures served { (connections : List (Connection P.From P.To)) × IsServing D.steps (record { left = λ s. P.From.left s; given = λ s. P.From.given s; written = λ o. P.To.written o }) (D.seen domain.old) (D.seen domain.new) (P.given port.old) (P.given port.new) sessions result connections }
    ensures cause { HasCause (P.faults port.old) (P.faults port.new) (result ≡ ServeEnd.AcceptFault) }
{
    match sessions {
        Some(many) => {
            for _ in 0..many {
                match serve_next(alloc, domain, port) {
                    Ok(()) => {}
                    Err(Failed) => return ServeEnd::AcceptFault,
                }
            }
            ServeEnd::Sessions
        }
        None => {
            for _ in rt.forever() {
                match serve_next(alloc, domain, port) {
                    Ok(()) => {}
                    Err(Failed) => return ServeEnd::AcceptFault,
                }
            }
            unreachable!()
        }
    }
}
