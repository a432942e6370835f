//! A lane: a port, and what answers its connections.
ghost use Rattle.std.specs.Prelude.{◌≡◌};
ghost use Rattle.dory_lanes.specs.Lanes.{IsLaneServed, is_faulty};

use dory_io::Port;
use dory_net::{ServeEnd, serve_port};
use dory_session::Answers;
use std::alloc::Global;
use std::sync::Wait;

/// A port, what answers its connections, and how its last serving ended.
#[derive(Drop)]
pub struct Lane<D, P> {
    pub answers: D,
    pub port: P,
    pub end: ServeEnd,
}

impl<D, P> Lane<D, P> {
    /// A lane that has served nothing.
    pub fn new(answers: D, port: P) -> Lane<D, P>
        ensures { result ≡ record { answers = answers; port = port; end = ServeEnd.Sessions } }
    {
        Lane {
            answers,
            port,
            end: ServeEnd::Sessions,
        }
    }

    /// Whether its port gave no further connection.
    pub fn is_faulty(&self) -> bool
        ensures { result ≡ is_faulty self.now }
    {
        match self.end {
            ServeEnd::Sessions => false,
            ServeEnd::AcceptFault => true,
        }
    }
}

/// Serves one connection of the lane's port after another, as many as are asked for, or for good.
pub fn serve_lane<R: Wait, D: Answers, P: Port>(
    rt: &R,
    alloc: Global,
    lane: &mut Lane<D, P>,
    sessions: Option<u32>,
)
    ensures { IsLaneServed D.steps (record { seen = λ a. D.seen a; left = λ s. P.From.left s; given = λ s. P.From.given s; written = λ o. P.To.written o; handed = λ p. P.given p; faults = λ p. P.faults p }) sessions lane.old lane.new }
{
    lane.end = serve_port(rt, alloc, &mut lane.answers, &mut lane.port, sessions);
}
