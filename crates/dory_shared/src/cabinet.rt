//! A folder of a domain as it lies under its lock: the writer of its shelf, and its update log.
ghost use Rattle.std.specs.Prelude.{◌≡◌, ◌≤◌, length, IfOk, IsErr, OnOk, OnErr};
ghost use Rattle.std.specs.Arc.{arc_value};
ghost use Rattle.dory_base.specs.declared.plan.StagePlan.TheVariants.{New};
ghost use Rattle.dory_base.specs.declared.event.Event.TheVariants.{Staged, Appended};
ghost use Rattle.dory_base.specs.declared.refusal.Refusal.TheVariants.{NoMemory as OutOfMemory};
ghost use Rattle.dory_base.specs.Log.{look_stage, look_order, look_follow, which};
ghost use Rattle.dory_base.specs.Step.{log_of};
ghost use Rattle.dory_base.specs.TableMeaning.{kept_of};
ghost use Rattle.dory_io.specs.Causes.{HasCause};
ghost use Rattle.dory_log.specs.Spared.{MayCommit};
ghost use Rattle.dory_wire.specs.declared.message.What.TheVariants.{Refused};
ghost use Rattle.dory_wire.specs.StepReply.{stage_answer, commit_answer, which_answer};
ghost use Rattle.dory_wire.specs.Spelling.{IsEntry, IsId, IsNumber, IsWant, IsWhat};
ghost use Rattle.dory_domain.specs.Held.{opened};
ghost use Rattle.dory_shelf.specs.Published.{IsLawful, history_of, with_event};
ghost use Rattle.dory_shared.specs.Seen.{folder_as, held_of, knowing};
ghost use Rattle.dory_shared.specs.Answering.{AnswersAt};
ghost use Rattle.dory_shared.specs.Reading.{IsWriting};

use crate::place::Place;
use dory_base::{Entry, Failed, FolderId, NoMemory, Refusal, Side, UpdateId};
use dory_chunks::Version;
use dory_domain::FolderConfig;
use dory_log::{FolderLog, Plan, StagePlan};
use dory_shelf::{PlaceMaker, ShelfOp, ShelfWriter, Told, open_shelf};
use dory_wire::{Want, What};
use std::alloc::Global;
use std::marker::Model;
use std::sync::{Arc, Wait};

/// A folder's writer, and the update log that stands for what is published. Contracts see what it has published.
#[derive(Drop)]
pub struct Cabinet<'a, R: Wait> {
    folder: FolderId,
    role: Side,
    writer: ShelfWriter<'a, R>,
    log: FolderLog,
}

impl<'a, R: Wait> Model for Cabinet<'a, R> {
    ghost use Rattle.std.specs.Prelude.{◌≡◌, None};
    ghost use Rattle.dory_base.specs.Step.{log_of};
    ghost use Rattle.dory_shared.specs.Seen.{Seen, IsKept, folder_as};

    ghost Value = { Seen };

    ghost view = { λ c. record { number = c.folder.0; role = c.role; known = c.writer.known } };

    ghost invariant = { λ c. (c.writer.pending ≡ None) × IsKept c.writer.known × (c.log.log ≡ log_of (folder_as c.role c.writer.known)) };
}

/// Memory ran out.
pub(crate) fn no_memory() -> What
    ensures { result ≡ Refused OutOfMemory }
{
    What::Refused {
        code: Refusal::NoMemory,
    }
}

impl<'a, R: Wait> Cabinet<'a, R> {
    /// A folder with no update, with room for so many readers.
    pub fn new(
        rt: &'a R,
        alloc: Global,
        role: Side,
        config: FolderConfig,
        places: u32,
    ) -> Result<Cabinet<'a, R>, NoMemory>
        requires some { (1 ≤ config.retained) × (config.retained ≤ 256) }
        requires places { 1 ≤ places }
        ensures { IfOk result (λ c. held_of c ≡ opened role config) }
    {
        let log = FolderLog::new(alloc, role, config.shape)?;
        let _columns = config.shape.columns();
        let writer = open_shelf(rt, alloc, config.shape, config.retained, places)?;
        Ok(Cabinet {
            folder: config.folder,
            role,
            writer,
            log,
        })
    }

    /// One more place at the folder, whose reader has seen what is published.
    pub fn place<P: PlaceMaker>(&mut self, places: &mut P) -> Result<Place, Failed>
        ensures same { self.new ≡ self.old }
        ensures place { IfOk result (λ p. p ≡ self.old) }
        ensures cause { HasCause (P.faults places.old) (P.faults places.new) (IsErr result) }
    {
        let reader = places.place(&mut self.writer)?;
        Ok(Place::of(self.folder, self.role, reader))
    }

    /// Tells what is published.
    pub fn tell(&self) -> Told
        ensures value { result ≡ self.now.known }
    {
        self.writer.tell()
    }

    /// How many operations are published.
    pub fn operations(&self) -> u64
        ensures value { result ≡ length self.now.known.events }
        ensures lawful { IsLawful self.now.known }
    {
        self.writer.operations()
    }

    /// The answer to an update, or to the question which one has a number, and the operation that is published with it.
    pub fn step(&mut self, alloc: Global, want: &Want) -> What
        requires range { IsWant want.now }
        requires writing { IsWriting want.now }
        ensures answers { AnswersAt self.old.role self.old.known want.now result self.new.known }
        ensures same { self.new ≡ knowing self.new.known self.old }
        ensures range { IsWhat result }
    {
        let _published = self.operations();
        match want {
            Want::Latest => unreachable!(),
            Want::Search { .. } => unreachable!(),
            Want::Which { number } => self.which(*number),
            Want::Stage { entry } => self.stage(alloc, entry),
            Want::Order { id } => self.order(alloc, *id),
            Want::Follow { number, id } => self.follow(alloc, *number, *id),
        }
    }

    /// What staging an update comes to.
    fn stage_plan(&self, entry: &Entry) -> Result<StagePlan, Refusal>
        requires lawful { IsLawful self.now.known }
        requires id { IsId entry.now.id }
        ensures value { result ≡ look_stage (log_of (folder_as self.now.role self.now.known)) entry.now }
        ensures range { IsWhat (stage_answer entry.now.id result) }
    {
        self.log.look_stage(entry)
    }

    /// What ordering an update comes to.
    fn order_plan(&self, id: UpdateId) -> Result<Plan, Refusal>
        requires lawful { IsLawful self.now.known }
        requires id { IsId id }
        ensures value { result ≡ look_order (log_of (folder_as self.now.role self.now.known)) id }
        ensures range { IsWhat (commit_answer id result) }
    {
        self.log.look_order(id)
    }

    /// What following an update at a number comes to.
    fn follow_plan(&self, number: u32, id: UpdateId) -> Result<Plan, Refusal>
        requires lawful { IsLawful self.now.known }
        requires number { IsNumber number }
        requires id { IsId id }
        ensures value { result ≡ look_follow (log_of (folder_as self.now.role self.now.known)) number id }
        ensures range { IsWhat (commit_answer id result) }
    {
        self.log.look_follow(number, id)
    }

    /// The update of a number.
    fn id_of(&self, number: u32) -> Result<UpdateId, Refusal>
        requires lawful { IsLawful self.now.known }
        requires number { IsNumber number }
        ensures value { result ≡ which (log_of (folder_as self.now.role self.now.known)) number }
        ensures range { IsWhat (which_answer number result) }
    {
        self.log.which(number)
    }

    /// Which update has a number.
    fn which(&self, number: u32) -> What
        requires lawful { IsLawful self.now.known }
        requires number { IsNumber number }
        ensures answers { AnswersAt self.now.role self.now.known (Want.Which number) result self.now.known }
        ensures range { IsWhat result }
    {
        match self.id_of(number) {
            Ok(id) => What::Id { number, id },
            Err(code) => What::Refused { code },
        }
    }

    /// Stages an update, or finds that it was staged or committed before.
    fn stage(&mut self, alloc: Global, entry: &Entry) -> What
        requires lawful { IsLawful self.old.known }
        requires range { IsEntry entry.now }
        ensures answers { AnswersAt self.old.role self.old.known (Want.Stage entry.now) result self.new.known }
        ensures same { self.new ≡ knowing self.new.known self.old }
        ensures range { IsWhat result }
    {
        let id = entry.id;
        match self.stage_plan(entry) {
            Ok(StagePlan::New) => match self.keep(alloc, entry) {
                Ok(()) => What::Staged { id },
                Err(NoMemory) => no_memory(),
            },
            Ok(StagePlan::Same) => What::Staged { id },
            Ok(StagePlan::Done { number }) => What::Committed { number, id },
            Err(code) => What::Refused { code },
        }
    }

    /// Publishes that a new update is staged. All memory is taken before.
    fn keep(&mut self, alloc: Global, entry: &Entry) -> Result<(), NoMemory>
        requires range { IsEntry entry.now }
        requires fresh { look_stage (log_of (folder_as self.old.role self.old.known)) entry.now ≡ Ok New }
        ensures done { OnOk result (self.new ≡ knowing (with_event self.old.known (Staged entry.now)) self.old) }
        ensures unchanged { OnErr result (self.new ≡ self.old) }
    {
        let copy = Arc::new(alloc, entry.copy(alloc)?)?;
        let shared = Arc::try_clone(&copy)?;
        self.log.reserve(alloc)?;
        self.writer.append(alloc, ShelfOp::Staged(shared))?;
        self.writer.publish();
        self.log.put_staged(copy);
        Ok(())
    }

    /// Gives a staged update the next number, or finds the number that it has.
    fn order(&mut self, alloc: Global, id: UpdateId) -> What
        requires lawful { IsLawful self.old.known }
        requires id { IsId id }
        ensures answers { AnswersAt self.old.role self.old.known (Want.Order id) result self.new.known }
        ensures same { self.new ≡ knowing self.new.known self.old }
        ensures range { IsWhat result }
    {
        match self.order_plan(id) {
            Ok(Plan::Fresh { number }) => match self.append(alloc, number, id) {
                Ok(()) => What::Committed { number, id },
                Err(NoMemory) => no_memory(),
            },
            Ok(Plan::Again { number }) => What::Committed { number, id },
            Err(code) => What::Refused { code },
        }
    }

    /// Gives a staged update this number, or finds that it has it.
    fn follow(&mut self, alloc: Global, number: u32, id: UpdateId) -> What
        requires lawful { IsLawful self.old.known }
        requires number { IsNumber number }
        requires id { IsId id }
        ensures answers { AnswersAt self.old.role self.old.known (Want.Follow number id) result self.new.known }
        ensures same { self.new ≡ knowing self.new.known self.old }
        ensures range { IsWhat result }
    {
        match self.follow_plan(number, id) {
            Ok(Plan::Fresh { number }) => match self.append(alloc, number, id) {
                Ok(()) => What::Committed { number, id },
                Err(NoMemory) => no_memory(),
            },
            Ok(Plan::Again { number }) => What::Committed { number, id },
            Err(code) => What::Refused { code },
        }
    }

    /// The newest version.
    fn newest(&self) -> Result<Arc<Version>, NoMemory>
        ensures { IfOk result (λ v. arc_value v ≡ kept_of self.now.known.shelf.shape (history_of self.now.known)) }
    {
        match self.writer.version(self.writer.length()) {
            Ok(version) => Ok(version),
            Err(Refusal::NoMemory) => Err(NoMemory),
            Err(_) => unreachable!(),
        }
    }

    /// The version that a staged update makes.
    fn next(&self, alloc: Global, number: u32, id: UpdateId) -> Result<Arc<Version>, NoMemory>
        requires lawful { IsLawful self.now.known }
        requires fresh { MayCommit (log_of (folder_as self.now.role self.now.known)) number id }
        ensures { IfOk result (λ v. arc_value v ≡ kept_of self.now.known.shelf.shape (history_of (with_event self.now.known (Appended id)))) }
    {
        let Some(staged) = self.log.staged(id) else {
            unreachable!()
        };
        let update = Arc::try_clone(staged)?;
        let newest = self.newest()?;
        let next = newest.next_uncounted(alloc, update)?;
        let version = Arc::new(alloc, next)?;
        Ok(version)
    }

    /// Publishes that a staged update joins the history. All memory is taken before.
    fn append(&mut self, alloc: Global, number: u32, id: UpdateId) -> Result<(), NoMemory>
        requires lawful { IsLawful self.old.known }
        requires fresh { MayCommit (log_of (folder_as self.old.role self.old.known)) number id }
        ensures done { OnOk result (self.new ≡ knowing (with_event self.old.known (Appended id)) self.old) }
        ensures unchanged { OnErr result (self.new ≡ self.old) }
    {
        let version = self.next(alloc, number, id)?;
        self.log.reserve(alloc)?;
        self.writer.append(alloc, ShelfOp::Appended(id, version))?;
        self.writer.publish();
        self.log.put_commit(number, id);
        Ok(())
    }
}
