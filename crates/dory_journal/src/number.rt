//! The number of an id, by what staging an update of it would come to.
ghost use Rattle.std.specs.Prelude.{◌≡◌};
ghost use Rattle.dory_base.specs.Log.{number_of};
ghost use Rattle.dory_journal.specs.Made.{done_number as done_number_of};

use dory_base::{Change, DocId, Entry, Refusal, UpdateId};
use dory_log::{FolderLog, StagePlan};

/// The number at which a look finds an update committed.
fn done_number(plan: Result<StagePlan, Refusal>) -> Option<u32>
    ensures { result ≡ done_number_of plan }
{
    match plan {
        Ok(StagePlan::Done { number }) => Some(number),
        _ => None,
    }
}

/// The number of an id in a log, where its update is committed.
pub fn number_in(log: &FolderLog, id: UpdateId) -> Option<u32>
    ensures { result ≡ number_of log.now.log.ids id }
{
    if log.length() == 0 {
        return None;
    }
    // Whatever it would do to its document, an update that is committed is found so.
    let entry = Entry {
        id,
        doc: DocId(0),
        change: Change::Remove,
    };
    done_number(log.look_stage(&entry))
}
