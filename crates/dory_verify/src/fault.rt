//! Why a pair of replies isn't believed.

use dory_base::{AskId, NoMemory, Refusal, Side, Tag};
use std::fmt;

/// The first check that fails, with the values that show it.
#[derive(Clone, Copy, Debug, PartialEq, Eq)]
pub enum CheckFault {
    /// The bytes are no frame of a reply that the ask allows: the first fault, counted in the frame.
    Form {
        side: Side,
        at: usize,
    },
    /// The reply is one to another ask.
    Echo {
        side: Side,
        asked: AskId,
        got: AskId,
    },
    Refused {
        side: Side,
        code: Refusal,
    },
    /// What was found is of another version than the one asked.
    Version {
        side: Side,
        asked: u32,
        got: u32,
    },
    /// A length or a version is older than what was seen.
    Stale {
        side: Side,
        latest: u32,
        seen: u32,
    },
    /// The first line at which the two manifests differ or one has ended.
    Manifest {
        place: usize,
    },
    /// There are more or fewer sums than probes.
    Count {
        side: Side,
        got: usize,
        want: usize,
    },
    /// The first probe at which the XOR of the two tags isn't that of the cell tags.
    TagSum {
        probe: usize,
        got: Tag,
        want: Tag,
    },
}

#[derive(Clone, Copy, Debug, PartialEq, Eq)]
pub enum VerifyError {
    Check(CheckFault),
    NoMemory,
}

impl From<NoMemory> for VerifyError {
    ghost use Rattle.std.specs.Prelude.{◌≡◌};
    ghost use Rattle.dory_verify.specs.declared.fault.VerifyError.TheVariants as errors;

    ghost from_gives = { λ _ e. e ≡ errors.NoMemory };

    fn from(_error: NoMemory) -> VerifyError {
        VerifyError::NoMemory
    }
}

impl From<CheckFault> for VerifyError {
    ghost use Rattle.std.specs.Prelude.{◌≡◌};
    ghost use Rattle.dory_verify.specs.declared.fault.VerifyError.TheVariants as errors;

    ghost from_gives = { λ fault e. e ≡ errors.Check fault };

    fn from(fault: CheckFault) -> VerifyError {
        VerifyError::Check(fault)
    }
}

impl fmt::Display for CheckFault {
    ghost use Rattle.std.specs.Prelude.{Some};
    ghost use Rattle.dory_verify.specs.Texts.{check_text};

    ghost output = { λ fault. Some (check_text fault) };

    fn fmt<W: fmt::Write>(&self, f: &mut fmt::Formatter<W>) -> fmt::Result {
        match self {
            CheckFault::Form { side, at } => write!(f, "form {side} {at}"),
            CheckFault::Echo { side, asked, got } => write!(f, "echo {side} {asked} {got}"),
            CheckFault::Refused { side, code } => write!(f, "refused {side} {code}"),
            CheckFault::Version { side, asked, got } => write!(f, "version {side} {asked} {got}"),
            CheckFault::Stale { side, latest, seen } => write!(f, "stale {side} {latest} {seen}"),
            CheckFault::Manifest { place } => write!(f, "manifest {place}"),
            CheckFault::Count { side, got, want } => write!(f, "count {side} {got} {want}"),
            CheckFault::TagSum { probe, got, want } => write!(f, "tagsum {probe} {got} {want}"),
        }
    }
}
