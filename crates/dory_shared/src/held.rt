//! One version of a folder, kept whatever is published since.
ghost use Rattle.std.specs.Prelude.{◌≡◌, true, false, IfOk, IfSome, IfNone};
ghost use Rattle.std.specs.Arc.{arc_value};
ghost use Rattle.dory_base.specs.Dims.{same_shape};
ghost use Rattle.dory_base.specs.declared.refusal.Refusal.TheVariants.{ShapeWrong};
ghost use Rattle.dory_wire.specs.Read.{found_of, search_of, IsReadAs};
ghost use Rattle.dory_wire.specs.Spelling.{AreKeys, IsWhat, IsFound};
ghost use Rattle.dory_shelf.specs.Published.{IsLawful, history_of};
ghost use Rattle.dory_shelf.specs.Versions.{is_retained, table_at};
ghost use Rattle.dory_shared.specs.Seen.{IsKept};

use crate::cabinet::no_memory;
use dory_base::{Found, NoMemory, Refusal, Shape};
use dory_chunks::Version;
use dory_domain::selectors;
use dory_dpf::Keys;
use dory_kernel::RowKernel;
use dory_scan::scan_parallel;
use dory_shelf::Told;
use dory_wire::What;
use std::alloc::Global;
use std::marker::Model;
use std::sync::Arc;
use std::thread::Threads;

/// A version, with the published history at which it was taken. Contracts see that history and the version's number.
#[derive(Drop)]
pub struct Held {
    version: Arc<Version>,
    number: u32,
    told: Told,
}

impl Model for Held {
    ghost use Rattle.std.specs.Prelude.{◌≡◌, true};
    ghost use Rattle.std.specs.Arc.{arc_value};
    ghost use Rattle.dory_shelf.specs.Versions.{is_retained, table_at};
    ghost use Rattle.dory_shared.specs.Seen.{IsKept};
    ghost use Rattle.dory_shared.specs.Reading.{Kept};

    ghost Value = { Kept };

    ghost view = { λ h. record { known = h.told; number = h.number } };

    ghost invariant = { λ h. IsKept h.told × (is_retained h.told h.number ≡ true) × (arc_value h.version ≡ table_at h.told h.number) };
}

/// The refusal of a search by another shape than the folder's.
pub(crate) fn shape_fault(own: Shape, asked: Shape) -> Option<Refusal>
    ensures none { IfNone result (same_shape asked own ≡ true) }
    ensures some { IfSome result (λ code. (same_shape asked own ≡ false) × (code ≡ ShapeWrong own.depth own.probes)) }
{
    let depth = own.depth();
    let probes = own.probes();
    if asked.depth() == depth && asked.probes() == probes {
        None
    } else {
        Some(Refusal::ShapeWrong { depth, probes })
    }
}

impl Held {
    /// This version of a history.
    pub(crate) fn of(version: Arc<Version>, number: u32, told: Told) -> Held
        requires kept { IsKept told }
        requires retained { is_retained told number ≡ true }
        requires version { arc_value version ≡ table_at told number }
        ensures { result ≡ record { known = told; number = number } }
    {
        Held {
            version,
            number,
            told,
        }
    }

    /// The answer to a search of the version, whatever was published since. It waits for nobody.
    pub fn answer<R: Threads + Sync>(
        &self,
        rt: &R,
        alloc: Global,
        kernel: &RowKernel,
        asked: Shape,
        keys: &Keys,
    ) -> What
        requires { AreKeys asked keys.now }
        ensures value { IsReadAs (search_of self.now.known.shelf.shape self.now.known.shelf.retained (history_of self.now.known) self.now.number asked keys.now) result }
        ensures range { IsWhat result }
    {
        if let Some(code) = shape_fault(self.told.shape(), asked) {
            return What::Refused { code };
        }
        match self.found(rt, alloc, kernel, keys) {
            Ok(found) => What::Found { found },
            Err(NoMemory) => no_memory(),
        }
    }

    /// What the version holds, with a sum for each key.
    fn found<R: Threads + Sync>(
        &self,
        rt: &R,
        alloc: Global,
        kernel: &RowKernel,
        keys: &Keys,
    ) -> Result<Found, NoMemory>
        requires { AreKeys self.now.known.shelf.shape keys.now }
        ensures value { IfOk result (λ f. f ≡ found_of (history_of self.now.known) self.now.number keys.now) }
        ensures range { IfOk result IsFound }
    {
        let _ = self.told.length();
        let selectors = selectors(alloc, self.told.shape(), keys)?;
        let found = scan_parallel(rt, alloc, &self.version, &selectors, kernel)?;
        Ok(found)
    }
}
