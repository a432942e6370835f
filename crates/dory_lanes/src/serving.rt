//! All lanes at once.
ghost use Rattle.std.specs.Prelude.{◌≡◌, ◌<◌, ℕ, length, slice_index_or};
ghost use Rattle.std.specs.List.{list_any};
ghost use Rattle.dory_lanes.specs.Lanes.{IsLaneServed, end_of, is_faulty};
ghost use Rattle.dory_lanes.specs.declared.lane.Lane.{Lane as OneLane};

use crate::lane::{Lane, serve_lane};
use dory_io::Port;
use dory_net::ServeEnd;
use dory_session::Answers;
use std::alloc::Global;
use std::sync::Wait;
use std::thread;
use std::thread::Threads;

/// Whether the port of one of these gave no further connection.
fn some_faulty<D, P>(lanes: &[Lane<D, P>]) -> bool
    ensures { result ≡ list_any is_faulty lanes.now }
{
    lanes.iter().any(|lane| lane.is_faulty())
}

/// How all of these ended: by a fault, where one did.
fn end_of_all<D, P>(lanes: &[Lane<D, P>]) -> ServeEnd
    ensures { result ≡ end_of lanes.now }
{
    if some_faulty(lanes) {
        ServeEnd::AcceptFault
    } else {
        ServeEnd::Sessions
    }
}

/// Serves at all lanes at once, each in a thread of its own: one connection after another, as many at each lane as are asked
/// for, or for good. A fault of one lane's port ends that lane alone.
pub fn serve_lanes<R: Threads + Wait + Sync, D: Answers + Send, P: Port>(
    rt: &R,
    alloc: Global,
    lanes: &mut [Lane<D, P>],
    sessions: Option<u32>,
) -> ServeEnd
    // Of each lane: each connection that its port gave was served from what was seen after the one before it.
    ensures served { (i : ℕ) (d : OneLane D P) → i < length lanes.old → IsLaneServed D.steps (record { seen = λ a. D.seen a; left = λ s. P.From.left s; given = λ s. P.From.given s; written = λ o. P.To.written o; handed = λ p. P.given p; faults = λ p. P.faults p }) sessions (slice_index_or lanes.old i d) (slice_index_or lanes.new i d) }
    ensures same { length lanes.new ≡ length lanes.old }
    // A lane's fault is told at the end, and nothing else is.
    ensures ended { result ≡ end_of lanes.new }
{
    let threads = lanes.len().max(1);
    thread::for_each_mut(
        rt,
        lanes,
        threads,
        &|_, lane: &mut Lane<D, P>|
            ensures { IsLaneServed D.steps (record { seen = λ a. D.seen a; left = λ s. P.From.left s; given = λ s. P.From.given s; written = λ o. P.To.written o; handed = λ p. P.given p; faults = λ p. P.faults p }) sessions lane.old lane.new }
        { serve_lane(rt, alloc, lane, sessions) },
    );
    end_of_all(lanes)
}
