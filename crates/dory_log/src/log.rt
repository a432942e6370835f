//! The log of a folder: what it decides, and how it changes.
ghost use Rattle.std.specs.Prelude.{◌≡◌, ◌≤◌, ◌-◌, length as length_of, slice_get, IfOk, OnOk, OnErr, Some, Ok};
ghost use Rattle.std.specs.Option.{option_map, option_copied};
ghost use Rattle.std.specs.Arc.{arc_value};
ghost use Rattle.dory_base.specs.declared.plan.StagePlan.TheVariants as stage_plan;
ghost use Rattle.dory_base.specs.Log.{empty_log, same_id, staged_as as staged_in, stage_beside, look_stage as look_stage_of, look_order as look_order_of, look_follow as look_follow_of, which as which_of, has_shape, number_of, follow_known, follow_again};
ghost use Rattle.dory_base.specs.declared.event.Event.TheVariants.{Staged, Appended};
ghost use Rattle.dory_base.specs.Step.{log_after, IsSerial, IsLog};
ghost use Rattle.dory_log.specs.Spared.{MayCommit};

use crate::numbers::Numbers;
use crate::places::Places;
use dory_base::{Change, Entry, NoMemory, Plan, Refusal, Shape, Side, StagePlan, UpdateId};
use std::alloc::Global;
use std::marker::Model;
use std::sync::Arc;

/// The most updates that a folder takes.
const LONGEST: u32 = 1_048_576;

/// Whether the two are one id.
fn same(a: UpdateId, b: UpdateId) -> bool
    ensures { result ≡ same_id a b }
{
    a == b
}

/// Whether a folder of this shape takes the change.
fn fits(shape: Shape, change: &Change) -> bool
    ensures { result ≡ has_shape shape change.now }
{
    match change {
        Change::Post { shape: posted, .. } => posted.same(shape),
        Change::Remove => true,
    }
}

/// What staging an update comes to where its member has another or the same staged.
fn beside(staged: &Entry, entry: &Entry) -> Result<StagePlan, Refusal>
    ensures { result ≡ stage_beside (Some staged.now) 0 entry.now }
{
    let id = entry.id;
    if same(staged.id, id) {
        if staged.same_update(entry) {
            Ok(StagePlan::Same)
        } else {
            Err(Refusal::Clash { id })
        }
    } else if id.serial < staged.id.serial {
        Err(Refusal::Past {
            last: staged.id.serial,
        })
    } else {
        Err(Refusal::Unfinished { id: staged.id })
    }
}

/// A folder's ids by number, and at most one staged update for each member.
#[derive(Drop)]
pub struct FolderLog {
    role: Side,
    shape: Shape,
    numbers: Numbers,
    places: Places,
}

impl Model for FolderLog {
    ghost use Rattle.dory_base.specs.Step.{IsLog};
    ghost use Rattle.dory_log.specs.Spared.{Spared};

    ghost Value = { Spared };

    ghost view = { λ a. record { log = record { role = a.role; shape = a.shape; ids = a.numbers.ids; staged = a.places }; spare = a.numbers.spare } };

    ghost invariant = { λ a. IsLog (record { role = a.role; shape = a.shape; ids = a.numbers.ids; staged = a.places }) };
}

impl FolderLog {
    /// A log with no update, and no room.
    pub fn new(alloc: Global, role: Side, shape: Shape) -> Result<FolderLog, NoMemory>
        ensures { IfOk result (λ l. l ≡ record { log = empty_log role shape; spare = 0 }) }
    {
        let numbers = Numbers::new(alloc)?;
        let places = Places::new(alloc)?;
        Ok(FolderLog {
            role,
            shape,
            numbers,
            places,
        })
    }

    /// How many updates are committed.
    pub fn length(&self) -> u32
        ensures value { result ≡ length_of self.now.log.ids }
        ensures log { IsLog self.now.log }
    {
        self.numbers.length()
    }

    /// How many commits there is room for.
    pub fn spare(&self) -> usize
        ensures { result ≡ self.now.spare }
    {
        self.numbers.spare()
    }

    /// The staged update of an id.
    pub fn staged(&self, id: UpdateId) -> Option<&Arc<Entry>>
        ensures { option_map arc_value (option_copied result) ≡ staged_in self.now.log.staged id }
    {
        match self.places.of(id.member.0) {
            None => None,
            Some(entry) => {
                if same(entry.id, id) {
                    Some(entry)
                } else {
                    None
                }
            }
        }
    }

    /// What staging an update comes to.
    pub fn look_stage(&self, entry: &Entry) -> Result<StagePlan, Refusal>
        ensures { result ≡ look_stage_of self.now.log entry.now }
    {
        let id = entry.id;
        if id.member.0 > 63 {
            return Err(Refusal::BadMember { member: id.member });
        }
        if !fits(self.shape, &entry.change) {
            return Err(Refusal::ShapeWrong {
                depth: self.shape.depth(),
                probes: self.shape.probes(),
            });
        }
        if let Some(number) = self.numbers.number_of(id) {
            return Ok(StagePlan::Done { number });
        }
        match self.places.of(id.member.0) {
            Some(staged) => beside(staged, entry),
            None => {
                let last = self.numbers.last_of(id.member.0);
                if id.serial < last {
                    Err(Refusal::Past { last })
                } else {
                    Ok(StagePlan::New)
                }
            }
        }
    }

    /// What ordering an update comes to. Only a lead takes orders.
    pub fn look_order(&self, id: UpdateId) -> Result<Plan, Refusal>
        ensures { result ≡ look_order_of self.now.log id }
    {
        if let Side::Follow = self.role {
            return Err(Refusal::WrongRole { role: Side::Follow });
        }
        if let Some(number) = self.numbers.number_of(id) {
            return Ok(Plan::Again { number });
        }
        match self.staged(id) {
            None => Err(Refusal::Unstaged { id }),
            Some(_) => {
                let length = self.numbers.length();
                if length < LONGEST {
                    Ok(Plan::Fresh { number: length + 1 })
                } else {
                    Err(Refusal::HistoryFull)
                }
            }
        }
    }

    /// What committing an update at a number comes to. Only a follower follows.
    pub fn look_follow(&self, number: u32, id: UpdateId) -> Result<Plan, Refusal>
        requires { 1 ≤ number }
        ensures { result ≡ look_follow_of self.now.log number id }
    {
        if let Side::Lead = self.role {
            return Err(Refusal::WrongRole { role: Side::Lead });
        }
        let length = self.numbers.length();
        if length < number {
            self.follow_beyond(length, number, id)
        } else {
            self.follow_within(number, id)
        }
    }

    /// The number is beyond the history, which has this length.
    fn follow_beyond(&self, length: u32, number: u32, id: UpdateId) -> Result<Plan, Refusal>
        requires { length ≡ length_of self.now.log.ids }
        ensures { result ≡ follow_known (number_of self.now.log.ids id) self.now.log number id }
    {
        if let Some(own) = self.numbers.number_of(id) {
            return Err(Refusal::Taken { number: own, id });
        }
        if length + 1 < number {
            return Err(Refusal::Gap { length });
        }
        match self.staged(id) {
            None => Err(Refusal::Unstaged { id }),
            Some(_) => Ok(Plan::Fresh { number }),
        }
    }

    /// The number is within the history.
    fn follow_within(&self, number: u32, id: UpdateId) -> Result<Plan, Refusal>
        requires { 1 ≤ number }
        ensures { result ≡ follow_again (slice_get self.now.log.ids (number - 1)) number id }
    {
        match self.numbers.at(number) {
            None => Ok(Plan::Again { number }),
            Some(other) => {
                if same(other, id) {
                    Ok(Plan::Again { number })
                } else {
                    Err(Refusal::Taken { number, id: other })
                }
            }
        }
    }

    /// The id of a number.
    pub fn which(&self, number: u32) -> Result<UpdateId, Refusal>
        requires { 1 ≤ number }
        ensures { result ≡ which_of self.now.log number }
    {
        match self.numbers.at(number) {
            None => Err(Refusal::NoEntry {
                length: self.numbers.length(),
            }),
            Some(id) => Ok(id),
        }
    }

    /// Makes room for one staging and one commit. Where memory runs out, all stays as it was.
    pub fn reserve(&mut self, _alloc: Global) -> Result<(), NoMemory>
        ensures log { self.new.log ≡ self.old.log }
        ensures more { self.old.spare ≤ self.new.spare }
        ensures done { OnOk result (1 ≤ self.new.spare) }
        ensures unchanged { OnErr result (self.new ≡ self.old) }
    {
        self.numbers.reserve()
    }

    /// A new update is staged. Room is there for every member, so no spare is used up.
    pub fn put_staged(&mut self, entry: Arc<Entry>)
        requires new { look_stage_of self.old.log (arc_value entry) ≡ Ok stage_plan.New }
        requires serial { IsSerial (arc_value entry).id.serial }
        requires spare { 1 ≤ self.old.spare }
        ensures { self.new ≡ record { log = log_after self.old.log (Staged (arc_value entry)); spare = self.old.spare } }
    {
        self.places.put(entry.id.member.0, entry);
    }

    /// The staged update of an id is committed at the number that a look gave.
    pub fn put_commit(&mut self, number: u32, id: UpdateId)
        requires fresh { MayCommit self.old.log number id }
        requires spare { 1 ≤ self.old.spare }
        ensures { self.new ≡ record { log = log_after self.old.log (Appended id); spare = self.old.spare - 1 } }
    {
        self.places.clear(id.member.0);
        self.numbers.push(number, id);
    }
}
