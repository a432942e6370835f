//! How a server ends.
ghost use Rattle.std.specs.Prelude.{◌≡◌, Some};
ghost use Rattle.dory_server.specs.End.{server_end_text, server_status_of};

use dory_domain::ConfigFault;
use std::fmt;

/// The end of a server: as many connections were served at each seat as were asked for, or the first thing that stood in the way.
#[derive(Clone, Copy, Debug, PartialEq, Eq)]
pub enum ServerEnd {
    /// The word at this place, counted from 0, is the first that is absent or not of its form.
    Usage { at: usize },
    BadConfig(ConfigFault),
    /// A seat got no place at a folder.
    PlaceRefused,
    /// As many threads as seats can't be made.
    NoThreads,
    BindFault,
    OutputFault,
    /// As many connections were served at each seat as were asked for.
    Sessions,
    /// The port of a seat gave no further connection.
    AcceptFault,
    NoMemory,
}

impl ServerEnd {
    /// The program's exit status.
    pub fn status(&self) -> u8
        ensures { result ≡ server_status_of self.now }
    {
        match self {
            ServerEnd::Usage { .. } => 2,
            ServerEnd::BadConfig(_) => 3,
            ServerEnd::BindFault | ServerEnd::AcceptFault => 4,
            ServerEnd::OutputFault => 9,
            ServerEnd::Sessions => 0,
            ServerEnd::PlaceRefused => 5,
            ServerEnd::NoMemory | ServerEnd::NoThreads => 12,
        }
    }
}

impl fmt::Display for ServerEnd {
    ghost output = { λ end. Some (server_end_text end) };

    fn fmt<W: fmt::Write>(&self, f: &mut fmt::Formatter<W>) -> fmt::Result {
        match self {
            ServerEnd::Usage { at } => write!(f, "usage {at}"),
            ServerEnd::BadConfig(fault) => write!(f, "badconfig {fault}"),
            ServerEnd::PlaceRefused => write!(f, "placerefused"),
            ServerEnd::NoThreads => write!(f, "nothreads"),
            ServerEnd::BindFault => write!(f, "bindfault"),
            ServerEnd::OutputFault => write!(f, "outputfault"),
            ServerEnd::Sessions => write!(f, "sessions"),
            ServerEnd::AcceptFault => write!(f, "acceptfault"),
            ServerEnd::NoMemory => write!(f, "nomemory"),
        }
    }
}
