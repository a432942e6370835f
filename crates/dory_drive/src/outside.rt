//! All that a conversation meets, as one value.
ghost use Rattle.std.specs.Prelude.{◌≡◌, ◌∷◌, List, [], ℕ, IfOk, IsErr, IsErrOf, OnOk, OnErr, option_map};
ghost use Rattle.std.specs.Io.KnownBytes.{Appends};
ghost use Rattle.dory_io.specs.Bytes.{Saves, Stays, Tells};
ghost use Rattle.dory_io.specs.Causes.{HasCause};
ghost use Rattle.dory_io.specs.Output.{AppendsLess};
ghost use Rattle.dory_link.specs.Told.{IsAsked, frames};
ghost use Rattle.dory_drive.specs.Scene.{Scene, OnlyKeeper, OnlyLink, OnlyOutput, heard_at, link_faults};

use dory_base::Side;
use dory_io::{Failed, KeepError, Keeper, Sink, write_all};
use dory_link::{Link, LinkError};
use std::alloc::Global;

/// The two domains, what is kept and what is written, whatever stands behind them.
pub trait Outside {
    ghost use Rattle.dory_drive.specs.Scene.{Scene};

    type Lent;

    /// What all of it tells, and how often each part has failed.
    ghost scene: { Self → Scene };

    /// Which objects it is made of.
    ghost lent: { Self → Self.Lent };

    /// Carries a frame to the domain of a side, and gives one frame as it came.
    fn ask(&mut self, alloc: Global, side: Side, frame: &[u8]) -> Result<Vec<u8>, LinkError>
        ensures lent { lent self.new ≡ lent self.old }
        ensures only { OnlyLink side (scene self.old) (scene self.new) }
        ensures asked { IsAsked (heard_at side (scene self.old)) (heard_at side (scene self.new)) frame.now (frames result) }
        ensures cause { HasCause (link_faults side (scene self.old)) (link_faults side (scene self.new)) (IsErrOf result LinkError.Failed) };

    /// What is kept, if anything is.
    fn load(&mut self, alloc: Global) -> Result<Option<Vec<u8>>, KeepError>
        ensures lent { lent self.new ≡ lent self.old }
        ensures only { OnlyKeeper (scene self.old) (scene self.new) }
        ensures bytes { IfOk result (λ loaded. Tells (scene self.old).kept (option_map (λ bytes. bytes.items) loaded)) }
        ensures same { Stays (scene self.old).kept (scene self.new).kept }
        ensures cause { HasCause (scene self.old).faults.keeper (scene self.new).faults.keeper (IsErrOf result KeepError.Failed) };

    /// Keeps these bytes.
    fn save(&mut self, alloc: Global, bytes: &[u8]) -> Result<(), KeepError>
        ensures lent { lent self.new ≡ lent self.old }
        ensures only { OnlyKeeper (scene self.old) (scene self.new) }
        ensures bytes { Saves (scene self.old).kept (scene self.new).kept bytes.now result }
        ensures cause { HasCause (scene self.old).faults.keeper (scene self.new).faults.keeper (IsErrOf result KeepError.Failed) };

    /// Writes all these bytes, or fails where the output does.
    fn write(&mut self, bytes: &[u8]) -> Result<(), Failed>
        ensures lent { lent self.new ≡ lent self.old }
        ensures only { OnlyOutput (scene self.old) (scene self.new) }
        ensures ok { OnOk result (Appends (scene self.old).written (scene self.new).written bytes.now) }
        ensures less { OnErr result (AppendsLess (scene self.old).written (scene self.new).written bytes.now) }
        ensures cause { HasCause (scene self.old).faults.output (scene self.new).faults.output (IsErr result) };
}

/// An outside that is made of four borrowed objects.
#[derive(Drop)]
pub struct Borrowed<'a, 'b, 'c, 'd, L0, L1, K, O> {
    pub lead: &'a mut L0,
    pub follow: &'b mut L1,
    pub keeper: &'c mut K,
    pub out: &'d mut O,
}

impl<'a, 'b, 'c, 'd, L0: Link, L1: Link, K: Keeper, O: Sink> Outside
    for Borrowed<'a, 'b, 'c, 'd, L0, L1, K, O> {
    ghost use Rattle.dory_drive.specs.Scene.{faults, scene};

    type Lent = [u64; 0];

    ghost scene = { λ o. scene (K.kept o.keeper.now) (L0.heard o.lead.now) (L1.heard o.follow.now) (O.written o.out.now)
        (faults (K.faults o.keeper.now) (L0.faults o.lead.now) (L1.faults o.follow.now) (O.faults o.out.now)) };

    ghost lent = { λ o. o.lead.ghost_name ∷ o.follow.ghost_name ∷ o.keeper.ghost_name ∷ o.out.ghost_name ∷ [] };

    fn ask(&mut self, alloc: Global, side: Side, frame: &[u8]) -> Result<Vec<u8>, LinkError> {
        match side {
            Side::Lead => self.lead.ask(alloc, frame),
            Side::Follow => self.follow.ask(alloc, frame),
        }
    }

    fn load(&mut self, alloc: Global) -> Result<Option<Vec<u8>>, KeepError> {
        self.keeper.load(alloc)
    }

    fn save(&mut self, alloc: Global, bytes: &[u8]) -> Result<(), KeepError> {
        self.keeper.save(alloc, bytes)
    }

    fn write(&mut self, bytes: &[u8]) -> Result<(), Failed> {
        write_all(self.out, bytes)
    }
}
