//! One folder of a domain: its updates in order, what is staged, and its answer to each request.
ghost use Rattle.std.specs.Prelude.{◌≡◌, ◌<◌, ◌≤◌, ◌==◌, length, take, IfOk, OnOk, OnErr};
ghost use Rattle.dory_base.specs.declared.entry.Entry.{Entry as Update};
ghost use Rattle.dory_base.specs.declared.plan.StagePlan.TheVariants.{New};
ghost use Rattle.dory_base.specs.declared.plan.Plan.TheVariants.{Fresh};
ghost use Rattle.dory_base.specs.History.{version_of};
ghost use Rattle.dory_base.specs.Log.{look_stage, look_order, look_follow};
ghost use Rattle.dory_base.specs.Step.{State, log_of, after};
ghost use Rattle.dory_base.specs.declared.event.Event.TheVariants.{Staged, Appended};
ghost use Rattle.dory_base.specs.TableMeaning.{StandsFor};
ghost use Rattle.dory_base.specs.declared.refusal.Refusal.TheVariants.{NoMemory as OutOfMemory};
ghost use Rattle.dory_wire.specs.declared.message.What.TheVariants.{Refused};
ghost use Rattle.dory_wire.specs.Read.{found_of, search_of, IsReadAs};
ghost use Rattle.dory_wire.specs.Spelling.{AreKeys, IsEntry, IsId, IsNumber, IsWant, IsWhat, IsFound};
ghost use Rattle.dory_wire.specs.StepReply.{Steps};
ghost use Rattle.dory_domain.specs.Held.{IsHeld, opened, in_state};
ghost use Rattle.dory_log.specs.Spared.{MayCommit};

use crate::config::FolderConfig;
use crate::probes::selectors;
use crate::updates::Updates;
use crate::versions::LastVersions;
use dory_base::{Entry, FolderId, Found, NoMemory, Refusal, Shape, Side, UpdateId};
use dory_chunks::Version;
use dory_dpf::Keys;
use dory_kernel::RowKernel;
use dory_log::{FolderLog, Plan, StagePlan};
use dory_scan::scan;
use dory_wire::{Want, What};
use std::alloc::Global;
use std::marker::Model;
use std::sync::Arc;

/// A folder's log, its history, and the last versions, whose table shares its entries with the history.
#[derive(Drop)]
pub struct Folder {
    folder: FolderId,
    log: FolderLog,
    history: Updates,
    versions: LastVersions,
}

impl Model for Folder {
    ghost use Rattle.std.specs.Prelude.{◌≡◌};
    ghost use Rattle.dory_base.specs.Step.{State, log_of};
    ghost use Rattle.dory_domain.specs.Held.{Held, IsHeld};
    ghost use Rattle.dory_domain.specs.Versions.{AreLast};

    ghost Value = { Held };

    ghost view = { λ f. record {
      number = f.folder.0;
      state = record { role = f.log.log.role; shape = f.versions.shape; retained = f.versions.retained; history = f.history; staged = f.log.log.staged };
    } };

    ghost invariant = { λ f. let held : Held = record {
      number = f.folder.0;
      state = record { role = f.log.log.role; shape = f.versions.shape; retained = f.versions.retained; history = f.history; staged = f.log.log.staged };
    } in IsHeld held × (f.log.log ≡ log_of held.state) × AreLast f.history f.versions };
}

/// Memory ran out.
fn no_memory() -> What
    ensures { result ≡ Refused OutOfMemory }
{
    What::Refused {
        code: Refusal::NoMemory,
    }
}

impl Folder {
    /// A folder with no update.
    pub fn new(alloc: Global, role: Side, config: FolderConfig) -> Result<Folder, NoMemory>
        requires some { 1 ≤ config.retained }
        requires few { config.retained ≤ 256 }
        ensures { IfOk result (λ f. f ≡ opened role config) }
    {
        let _columns = config.shape.columns();
        let log = FolderLog::new(alloc, role, config.shape)?;
        let versions = LastVersions::new(alloc, config.shape, config.retained)?;
        Ok(Folder {
            folder: config.folder,
            log,
            history: Updates::new(alloc),
            versions,
        })
    }

    /// Whether it is the folder of this number.
    pub fn is(&self, folder: FolderId) -> bool
        ensures { result ≡ (self.now.number == folder.0) }
    {
        self.folder == folder
    }

    /// How many updates it has had.
    pub fn length(&self) -> u32
        ensures value { result ≡ length self.now.state.history }
        ensures held { IsHeld self.now }
    {
        self.log.length()
    }

    /// One step at a request: the answer, and what the folder then is. A refusal changes nothing.
    pub fn step(&mut self, alloc: Global, want: &Want, kernel: &RowKernel) -> What
        requires { IsWant want.now }
        ensures steps { Steps self.old.state want.now result self.new.state }
        ensures number { self.new.number ≡ self.old.number }
        ensures held { IsHeld self.old }
        ensures range { IsWhat result }
    {
        let length = self.length();
        match want {
            Want::Latest => What::At { length },
            Want::Search {
                version,
                shape,
                keys,
            } => self.search(alloc, *version, *shape, keys, kernel),
            Want::Which { number } => self.which(*number),
            Want::Stage { entry } => self.stage(alloc, entry),
            Want::Order { id } => self.order(alloc, *id),
            Want::Follow { number, id } => self.follow(alloc, *number, *id),
        }
    }

    /// The answer to a search.
    fn search(
        &self,
        alloc: Global,
        version: u32,
        asked: Shape,
        keys: &Keys,
        kernel: &RowKernel,
    ) -> What
        requires { AreKeys asked keys.now }
        ensures value { IsReadAs (search_of self.now.state.shape self.now.state.retained self.now.state.history version asked keys.now) result }
        ensures range { IsWhat result }
    {
        let shape = self.versions.shape();
        let depth = shape.depth();
        let probes = shape.probes();
        if asked.depth() != depth || asked.probes() != probes {
            let code = Refusal::ShapeWrong { depth, probes };
            return What::Refused { code };
        }
        match self.versions.get(version) {
            Ok(table) => match self.found(alloc, table, keys, kernel) {
                Ok(found) => What::Found { found },
                Err(NoMemory) => no_memory(),
            },
            Err(code) => What::Refused { code },
        }
    }

    /// What a version of it holds, with a sum for each key.
    fn found(
        &self,
        alloc: Global,
        table: &Version,
        keys: &Keys,
        kernel: &RowKernel,
    ) -> Result<Found, NoMemory>
        requires shape { table.now.shape ≡ self.now.state.shape }
        requires newest { table.now.number ≤ length self.now.state.history }
        requires stands { StandsFor table.now (version_of table.now.number self.now.state.history) }
        requires keys { AreKeys self.now.state.shape keys.now }
        ensures value { IfOk result (λ f. f ≡ found_of self.now.state.history table.now.number keys.now) }
        ensures range { IfOk result IsFound }
    {
        let selectors = selectors(alloc, self.versions.shape(), keys)?;
        let found = scan(alloc, table, &selectors, kernel)?;
        Ok(found)
    }

    /// Which update has a number.
    fn which(&self, number: u32) -> What
        requires { IsNumber number }
        ensures steps { Steps self.now.state (Want.Which number) result self.now.state }
        ensures range { IsWhat result }
    {
        match self.log.which(number) {
            Ok(id) => What::Id { number, id },
            Err(code) => What::Refused { code },
        }
    }

    /// Stages an update, or finds that it was staged or committed before.
    fn stage(&mut self, alloc: Global, entry: &Entry) -> What
        requires { IsEntry entry.now }
        ensures steps { Steps self.old.state (Want.Stage entry.now) result self.new.state }
        ensures number { self.new.number ≡ self.old.number }
        ensures range { IsWhat result }
    {
        let id = entry.id;
        match self.log.look_stage(entry) {
            Ok(StagePlan::New) => match self.keep(alloc, entry) {
                Ok(()) => What::Staged { id },
                Err(NoMemory) => no_memory(),
            },
            Ok(StagePlan::Same) => What::Staged { id },
            Ok(StagePlan::Done { number }) => What::Committed { number, id },
            Err(code) => What::Refused { code },
        }
    }

    /// Keeps a new update until it is ordered.
    fn keep(&mut self, alloc: Global, entry: &Entry) -> Result<(), NoMemory>
        requires range { IsEntry entry.now }
        requires fresh { look_stage (log_of self.old.state) entry.now ≡ Ok New }
        ensures done { OnOk result (self.new ≡ in_state (after self.old.state (Staged entry.now)) self.old) }
        ensures unchanged { OnErr result (self.new ≡ self.old) }
    {
        let copy = Arc::new(alloc, entry.copy(alloc)?)?;
        self.log.reserve(alloc)?;
        self.log.put_staged(copy);
        Ok(())
    }

    /// Gives a staged update the next number, or finds the number that it has.
    fn order(&mut self, alloc: Global, id: UpdateId) -> What
        requires { IsId id }
        ensures steps { Steps self.old.state (Want.Order id) result self.new.state }
        ensures number { self.new.number ≡ self.old.number }
        ensures range { IsWhat result }
    {
        match self.log.look_order(id) {
            Ok(Plan::Fresh { number }) => match self.append(alloc, number, id) {
                Ok(()) => What::Committed { number, id },
                Err(NoMemory) => no_memory(),
            },
            Ok(Plan::Again { number }) => What::Committed { number, id },
            Err(code) => What::Refused { code },
        }
    }

    /// Gives a staged update this number, or finds that it has it.
    fn follow(&mut self, alloc: Global, number: u32, id: UpdateId) -> What
        requires number { IsNumber number }
        requires id { IsId id }
        ensures steps { Steps self.old.state (Want.Follow number id) result self.new.state }
        ensures number { self.new.number ≡ self.old.number }
        ensures range { IsWhat result }
    {
        match self.log.look_follow(number, id) {
            Ok(Plan::Fresh { number }) => match self.append(alloc, number, id) {
                Ok(()) => What::Committed { number, id },
                Err(NoMemory) => no_memory(),
            },
            Ok(Plan::Again { number }) => What::Committed { number, id },
            Err(code) => What::Refused { code },
        }
    }

    /// Moves a staged update to the end of the history.
    fn append(&mut self, alloc: Global, number: u32, id: UpdateId) -> Result<(), NoMemory>
        requires fresh { MayCommit (log_of self.old.state) number id }
        ensures done { OnOk result (self.new ≡ in_state (after self.old.state (Appended id)) self.old) }
        ensures unchanged { OnErr result (self.new ≡ self.old) }
    {
        let Some(staged) = self.log.staged(id) else {
            unreachable!()
        };
        let update = Arc::try_clone(staged)?;
        let shared = Arc::try_clone(&update)?;
        let next = self.versions.newest().next_uncounted(alloc, shared)?;
        self.log.reserve(alloc)?;
        self.history.push(update)?;
        self.versions.push(next);
        self.log.put_commit(number, id);
        Ok(())
    }
}
