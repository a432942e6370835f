//! How a call ends.
ghost use Rattle.std.specs.Prelude.{◌≡◌, Some, IfOk, string_bytes};
ghost use Rattle.dory_client.specs.Text.{end_text, status_of};

use dory_base::{NoMemory, Side, UpdateId};
use dory_cli::UsageFault;
use dory_member::Mark;
use dory_state::StateFault;
use dory_verify::CheckFault;
use std::alloc::Global;
use std::fmt;

/// The end of a call: what was asked is done, or the first thing that stood in its way.
#[derive(Clone, Copy, Debug, PartialEq, Eq)]
pub enum ClientEnd {
    Done,
    /// The words are no command line.
    Usage(UsageFault),
    /// Nothing is kept, and the command isn't `init`.
    NoState,
    /// The kept bytes are no state.
    StateForm(StateFault),
    /// Something is kept, and the command is `init`.
    HasState,
    KeeperFault,
    LinkFault {
        side: Side,
    },
    InputFault,
    /// A post's text has more than 8,388,608 bytes.
    InputLong,
    OutputFault,
    /// The first check that the replies fail.
    Check(CheckFault),
    /// A reply confirms another update, or another number, than the one that was asked.
    Unconfirmed {
        side: Side,
        want: Mark,
        got: Mark,
    },
    /// The two domains have different updates at one number.
    Diverged {
        number: u32,
        lead_id: UpdateId,
        follow_id: UpdateId,
    },
    /// This update has to be finished first, by `resume`.
    Unfinished {
        id: UpdateId,
    },
    /// No serial is left.
    SerialEnd,
    /// No epoch is left.
    EpochEnd,
    NoMemory,
}

impl ClientEnd {
    /// The program's exit status.
    pub fn status(&self) -> u8
        ensures { result ≡ status_of self.now }
    {
        match self {
            ClientEnd::Done => 0,
            ClientEnd::Usage(_) => 2,
            ClientEnd::NoState => 3,
            ClientEnd::StateForm(_) => 3,
            ClientEnd::HasState => 3,
            ClientEnd::KeeperFault => 4,
            ClientEnd::LinkFault { .. } => 5,
            ClientEnd::InputFault => 6,
            ClientEnd::InputLong => 6,
            ClientEnd::OutputFault => 7,
            ClientEnd::Check(_) => 8,
            ClientEnd::Unconfirmed { .. } => 9,
            ClientEnd::Diverged { .. } => 9,
            ClientEnd::Unfinished { .. } => 10,
            ClientEnd::SerialEnd => 11,
            ClientEnd::NoMemory => 12,
            ClientEnd::EpochEnd => 16,
        }
    }
}

impl fmt::Display for ClientEnd {
    ghost output = { λ end. Some (end_text end) };

    fn fmt<W: fmt::Write>(&self, f: &mut fmt::Formatter<W>) -> fmt::Result {
        match self {
            ClientEnd::Done => write!(f, "done"),
            ClientEnd::Usage(fault) => write!(f, "{fault}"),
            ClientEnd::NoState => write!(f, "nostate"),
            ClientEnd::StateForm(fault) => write!(f, "stateform {fault}"),
            ClientEnd::HasState => write!(f, "hasstate"),
            ClientEnd::KeeperFault => write!(f, "keeperfault"),
            ClientEnd::LinkFault { side } => write!(f, "linkfault {side}"),
            ClientEnd::InputFault => write!(f, "inputfault"),
            ClientEnd::InputLong => write!(f, "inputlong"),
            ClientEnd::OutputFault => write!(f, "outputfault"),
            ClientEnd::Check(fault) => write!(f, "{fault}"),
            ClientEnd::Unconfirmed { side, want, got } => {
                write!(f, "unconfirmed {side} {want} {got}")
            }
            ClientEnd::Diverged {
                number,
                lead_id,
                follow_id,
            } => write!(f, "diverged {number} {lead_id} {follow_id}"),
            ClientEnd::Unfinished { id } => write!(f, "unfinished {id}"),
            ClientEnd::SerialEnd => write!(f, "serialend"),
            ClientEnd::EpochEnd => write!(f, "epochend"),
            ClientEnd::NoMemory => write!(f, "nomemory"),
        }
    }
}

/// The text of an end that isn't `Done`, without a line end.
pub fn client_text(alloc: Global, end: &ClientEnd) -> Result<String, NoMemory>
    ensures { IfOk result (λ text. string_bytes text ≡ end_text end.now) }
{
    let end = *end;
    Ok(format!(in alloc; "{end}")?)
}
