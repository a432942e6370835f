//! Keeping a state.
ghost use Rattle.std.specs.Prelude.{◌≡◌, true, false, OnOk, OnErr, IfErr, IsErrOf};
ghost use Rattle.dory_io.specs.Causes.{HasCause};
ghost use Rattle.dory_state.specs.Spelling.{IsKeptState};
ghost use Rattle.dory_drive.specs.Ends.{IsSaveEnd};
ghost use Rattle.dory_drive.specs.Kept.{KeepsIf, KeepsNow, OldOrNew};
ghost use Rattle.dory_drive.specs.Scene.{OnlyKeeper};

use crate::broken::Broken;
use crate::conversation::Conversation;
use crate::outside::Outside;
use dory_io::KeepError;
use dory_member::Next;
use dory_state::{KeptState, write_state};
use std::alloc::Global;

/// Keeps a state.
pub fn keep<W: Outside>(alloc: Global, state: &KeptState, outside: &mut W) -> Result<(), Broken>
    requires { IsKeptState state.now }
    ensures lent { W.lent outside.new ≡ W.lent outside.old }
    ensures only { OnlyKeeper (W.scene outside.old) (W.scene outside.new) }
    ensures kept { OnOk result (KeepsNow (W.scene outside.old).kept (W.scene outside.new).kept state.now) }
    ensures unkept { OnErr result (OldOrNew (W.scene outside.old).kept (W.scene outside.new).kept state.now) }
    ensures cause { HasCause (W.scene outside.old).faults.keeper (W.scene outside.new).faults.keeper (IsErrOf result Broken.KeeperFault) }
    ensures ends { IfErr result IsSaveEnd }
{
    let Ok(bytes) = write_state(alloc, state) else {
        return Err(Broken::NoMemory);
    };
    match outside.save(alloc, &bytes) {
        Ok(()) => Ok(()),
        Err(KeepError::Failed) => Err(Broken::KeeperFault),
        Err(KeepError::NoMemory) => Err(Broken::NoMemory),
    }
}

/// Keeps the state of a conversation that waits for it.
pub fn save<C: Conversation, W: Outside>(
    alloc: Global,
    conversation: &mut C,
    outside: &mut W,
) -> Result<(), Broken>
    ensures lent { W.lent outside.new ≡ W.lent outside.old }
    ensures only { OnlyKeeper (W.scene outside.old) (W.scene outside.new) }
    ensures run { C.run conversation.new ≡ C.run conversation.old }
    ensures saved { OnOk result (C.unsaved conversation.new ≡ false) }
    ensures kept { OnOk result (KeepsIf (C.unsaved conversation.old) (W.scene outside.old).kept (W.scene outside.new).kept
        (C.course.kept (C.run conversation.old))) }
    ensures unkept { OnErr result (OldOrNew (W.scene outside.old).kept (W.scene outside.new).kept
        (C.course.kept (C.run conversation.old))) }
    ensures due { OnErr result (C.unsaved conversation.old ≡ true) }
    ensures cause { HasCause (W.scene outside.old).faults.keeper (W.scene outside.new).faults.keeper (IsErrOf result Broken.KeeperFault) }
    ensures ends { IfErr result IsSaveEnd }
{
    let Next::Save = conversation.next() else {
        return Ok(());
    };
    keep(alloc, conversation.state(), outside)?;
    conversation.saved();
    Ok(())
}
