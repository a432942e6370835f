//! A disk in memory, which remembers each call that changed it, and so what a crash at any moment might have left.
ghost use Rattle.std.specs.Prelude.{◌≡◌, ◌≤◌, ◌<◌, ◌+◌, ◌*◌, ◌^◌, ◌↔◌, [], ◌∷◌, ◌++◌, true, false, Some, List, ℕ, length, take, drop, vec_len, vec_capacity, IfOk, OnOk, IsErr, IsTrue};
ghost use Rattle.dory_io.specs.Causes.{HasCause};
ghost use Rattle.dory_disk.specs.Disk.{overwritten, Torn, WritesAt, Follows, Within, IsOnDisk, Elapses};
ghost use Rattle.dory_disk.specs.Remembered.{new_disk, replay, sizes, all_begin_within, MayLeave, LeftSince, is_refused, counted};
ghost use Rattle.dory_disk.specs.RememberedLaws.{few_told, left_now, only_left, reads_left};

use crate::disk::Disk;
use dory_base::{Failed, NoMemory};
use dory_io::Fails;
use std::alloc::Global;

/// A call that changed a disk, or what a crash may leave of it.
#[derive(Clone, Copy, Debug)]
pub enum Done {
    /// So many bytes were written at a place.
    Wrote { place: usize, size: usize },
    Synced,
}

/// A disk of bytes in memory. It takes its room when it is made, and fails at a listed call or beyond that room alone.
#[derive(Drop)]
pub struct MemDisk {
    room: usize,
    bytes: Vec<u8>,
    done: Vec<Done>,
    /// What was written, one piece after the other.
    text: Vec<u8>,
    fails: Fails,
    ghost replayed: { (replay done.items text.items new_disk).bytes ≡ bytes.items },
    ghost begun: { all_begin_within done.items text.items new_disk ≡ true },
    ghost size: { sizes done.items ≡ length text.items },
    ghost within: { length text.items ≤ room },
    ghost grown: { length bytes.items ≤ length text.items + 1 },
    ghost called: { length done.items ≤ fails.calls },
    ghost few: { room < 2 ^ 62 },
    ghost short: { length bytes.items < 2 ^ 63 },
    ghost for_bytes: { room + 1 ≤ vec_capacity bytes },
    ghost for_calls: { room ≤ vec_capacity done },
    ghost for_text: { room ≤ vec_capacity text },
}

/// Appends to a list that has room.
fn push_within(done: &mut Vec<Done>, call: Done)
    requires { vec_len done.old < vec_capacity done.old }
    ensures items { done.new.items ≡ done.old.items ++ call ∷ [] }
    ensures capacity { vec_capacity done.old ≤ vec_capacity done.new }
{
    match done.push(call) {
        Ok(()) => {}
        Err(_) => unreachable!(),
    }
}

/// Appends bytes to those that are there, within the room.
fn extend_within(bytes: &mut Vec<u8>, piece: &[u8])
    requires { vec_len bytes.old + length piece.now ≤ vec_capacity bytes.old }
    ensures items { bytes.new.items ≡ bytes.old.items ++ piece.now }
    ensures capacity { vec_capacity bytes.old ≤ vec_capacity bytes.new }
{
    match bytes.extend_from_slice(piece) {
        Ok(()) => {}
        Err(_) => unreachable!(),
    }
}

/// Writes bytes over those that are there and past the end, within the room.
fn overwrite(bytes: &mut Vec<u8>, place: usize, piece: &[u8])
    requires within { place ≤ length bytes.old.items }
    requires room { place + length piece.now ≤ vec_capacity bytes.old }
    ensures bytes { bytes.new.items ≡ overwritten place piece.now bytes.old.items }
    ensures capacity { vec_capacity bytes.old ≤ vec_capacity bytes.new }
{
    if piece.len() <= bytes.len() - place {
        bytes[place..place + piece.len()].copy_from_slice(piece);
    } else {
        bytes.truncate(place);
        extend_within(bytes, piece);
    }
}

impl MemDisk {
    /// A new disk, of one zero byte, with room for so many calls and so many bytes written. The listed calls are to fail.
    pub fn new(alloc: Global, room: usize, fails: &[u64]) -> Result<MemDisk, NoMemory>
        ensures bytes { IfOk result (λ d. (d.bytes.items ≡ 0 ∷ []) × (d.done.items ≡ []) × (d.text.items ≡ [])) }
        ensures room { IfOk result (λ d. d.room ≡ room) }
        ensures fails { IfOk result (λ d. (d.fails.calls ≡ 0) × (d.fails.listed.items ≡ fails.now) × (d.fails.faults ≡ 0)) }
    {
        // No memory has room for so many.
        if room >= 1 << 62 {
            return Err(NoMemory);
        }
        let mut bytes = Vec::with_capacity(alloc, room + 1)?;
        extend_within(&mut bytes, &[0]);
        Ok(MemDisk {
            room,
            bytes,
            done: Vec::with_capacity(alloc, room)?,
            text: Vec::with_capacity(alloc, room)?,
            fails: Fails::new(fails.to_vec(alloc)?),
        })
    }

    /// The bytes as read.
    pub fn bytes(&self) -> &[u8]
        ensures { result.now ≡ self.now.bytes.items }
    {
        &self.bytes
    }

    /// Counts a call that writes so many bytes, and says whether it is to fail, which counts a fault.
    fn refuses(&mut self, size: usize) -> bool
        ensures value { result ≡ is_refused self.old.room self.old.fails (length self.old.text.items) size }
        ensures counts { self.new.fails ≡ counted result self.old.fails }
        ensures cause { HasCause self.old.fails.faults self.new.fails.faults (IsTrue result) }
        ensures same { (self.new.bytes ≡ self.old.bytes) × (self.new.done ≡ self.old.done) × (self.new.text ≡ self.old.text) × (self.new.room ≡ self.old.room) }
    {
        let listed = self.fails.count_call();
        let refused = listed
            || self.fails.calls > self.room as u64
            || size > self.room - self.text.len();
        if refused {
            self.fails.count();
        }
        refused
    }
}

impl Disk for MemDisk {
    ghost told = { λ d. Some d.bytes.items };

    ghost may_leave = { λ d c. MayLeave d.done.items d.text.items c };

    ghost moment = { λ d. length d.done.items };

    ghost left_since = { λ d t c. LeftSince d.done.items d.text.items t c };

    ghost faults = { λ d. d.fails.faults };

    ghost reads_now = { λ d c told. reads_left d.done.items d.text.items d.bytes.items c d.replayed d.size d.begun told };

    ghost few = { λ d c told. few_told d.bytes.items c told d.short };

    ghost counts_now = { λ d t c le now. left_now d.done.items d.text.items t c le now };

    ghost only_now = { λ d c left. only_left d.done.items d.text.items c left };

    fn length(&mut self) -> Result<u64, Failed>
        ensures value { IfOk result (λ n. n ≡ length self.old.bytes.items) }
        ensures same { self.new.bytes ≡ self.old.bytes }
        ensures crash { Within (MayLeave self.old.done.items self.old.text.items) (MayLeave self.new.done.items self.new.text.items) }
        ensures time { Elapses (length self.old.done.items) (length self.new.done.items) (LeftSince self.old.done.items self.old.text.items) (LeftSince self.new.done.items self.new.text.items) (MayLeave self.new.done.items self.new.text.items) }
        ensures cause { HasCause self.old.fails.faults self.new.fails.faults (IsErr result) }
        ensures listed { IsErr result ↔ IsTrue (is_refused self.old.room self.old.fails (length self.old.text.items) 0) }
        ensures counts { self.new.fails ≡ counted (is_refused self.old.room self.old.fails (length self.old.text.items) 0) self.old.fails }
        ensures images { (self.new.done ≡ self.old.done) × (self.new.text ≡ self.old.text) × (self.new.room ≡ self.old.room) }
    {
        if self.refuses(0) {
            return Err(Failed);
        }
        Ok(self.bytes.len() as u64)
    }

    fn read_at(&mut self, place: u64, into: &mut [u8]) -> Result<(), Failed>
        requires { place + length into.old ≤ length self.old.bytes.items }
        ensures bytes { OnOk result (into.new ≡ take (length into.new) (drop place self.old.bytes.items)) }
        ensures same { self.new.bytes ≡ self.old.bytes }
        ensures crash { Within (MayLeave self.old.done.items self.old.text.items) (MayLeave self.new.done.items self.new.text.items) }
        ensures time { Elapses (length self.old.done.items) (length self.new.done.items) (LeftSince self.old.done.items self.old.text.items) (LeftSince self.new.done.items self.new.text.items) (MayLeave self.new.done.items self.new.text.items) }
        ensures cause { HasCause self.old.fails.faults self.new.fails.faults (IsErr result) }
        ensures listed { IsErr result ↔ IsTrue (is_refused self.old.room self.old.fails (length self.old.text.items) 0) }
        ensures counts { self.new.fails ≡ counted (is_refused self.old.room self.old.fails (length self.old.text.items) 0) self.old.fails }
        ensures stays { IsErr result → into.new ≡ into.old }
        ensures images { (self.new.done ≡ self.old.done) × (self.new.text ≡ self.old.text) × (self.new.room ≡ self.old.room) }
    {
        if self.refuses(0) {
            return Err(Failed);
        }
        let at = place as usize;
        into.copy_from_slice(&self.bytes[at..at + into.len()]);
        Ok(())
    }

    fn write_at(&mut self, place: u64, piece: &[u8]) -> Result<(), Failed>
        requires { place ≤ length self.old.bytes.items }
        ensures bytes { WritesAt place piece.now (Some self.old.bytes.items) (Some self.new.bytes.items) result }
        ensures crash { Follows place (length piece.now) (MayLeave self.old.done.items self.old.text.items) (MayLeave self.new.done.items self.new.text.items) }
        ensures time { Elapses (length self.old.done.items) (length self.new.done.items) (LeftSince self.old.done.items self.old.text.items) (LeftSince self.new.done.items self.new.text.items) (MayLeave self.new.done.items self.new.text.items) }
        ensures cause { HasCause self.old.fails.faults self.new.fails.faults (IsErr result) }
        ensures listed { IsErr result ↔ IsTrue (is_refused self.old.room self.old.fails (length self.old.text.items) (length piece.now)) }
        ensures counts { self.new.fails ≡ counted (is_refused self.old.room self.old.fails (length self.old.text.items) (length piece.now)) self.old.fails }
        // Each torn write of what a crash might have left it may leave now.
        ensures torn { OnOk result ((c d : List ℕ) → MayLeave self.old.done.items self.old.text.items d → Torn place (length piece.now) d c → MayLeave self.new.done.items self.new.text.items c) }
        // A write that fails changes nothing.
        ensures stays { IsErr result → (self.new.bytes ≡ self.old.bytes) × (self.new.done ≡ self.old.done) × (self.new.text ≡ self.old.text) }
        ensures room { self.new.room ≡ self.old.room }
    {
        if self.refuses(piece.len()) {
            return Err(Failed);
        }
        let at = place as usize;
        overwrite(&mut self.bytes, at, piece);
        let call = Done::Wrote {
            place: at,
            size: piece.len(),
        };
        push_within(&mut self.done, call);
        extend_within(&mut self.text, piece);
        Ok(())
    }

    fn sync(&mut self) -> Result<(), Failed>
        ensures durable { OnOk result (IsOnDisk (Some self.old.bytes.items) (MayLeave self.new.done.items self.new.text.items)) }
        ensures same { self.new.bytes ≡ self.old.bytes }
        ensures crash { Within (MayLeave self.old.done.items self.old.text.items) (MayLeave self.new.done.items self.new.text.items) }
        ensures time { Elapses (length self.old.done.items) (length self.new.done.items) (LeftSince self.old.done.items self.old.text.items) (LeftSince self.new.done.items self.new.text.items) (MayLeave self.new.done.items self.new.text.items) }
        ensures cause { HasCause self.old.fails.faults self.new.fails.faults (IsErr result) }
        ensures listed { IsErr result ↔ IsTrue (is_refused self.old.room self.old.fails (length self.old.text.items) 0) }
        ensures counts { self.new.fails ≡ counted (is_refused self.old.room self.old.fails (length self.old.text.items) 0) self.old.fails }
        // A sync that fails changes nothing of what a crash may leave.
        ensures stays { IsErr result → self.new.done ≡ self.old.done }
        ensures images { (self.new.text ≡ self.old.text) × (self.new.room ≡ self.old.room) }
    {
        if self.refuses(0) {
            return Err(Failed);
        }
        push_within(&mut self.done, Done::Synced);
        Ok(())
    }
}
