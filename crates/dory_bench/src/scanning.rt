//! A scan of a full folder, for one selector and for eight.
ghost use Rattle.std.specs.Prelude.{◌≡◌, ◌^◌, length, IfOk};

use crate::fault::Fault;
use crate::names::MASTER;
use crate::run::Run;
use crate::texts::{row_of, text};
use crate::versions::filled;
use crate::work::Selectors;
use dory_base::{Bits, Shape, Word};
use dory_chunks::Version;
use dory_hmac::FolderKeys;
use dory_kernel::RowKernel;
use dory_scan::scan;
use dory_words::words_of;
use std::alloc::Global;
use std::rt::Clock;

/// A selector of about half of the columns: the row of these words in the folder of this number.
fn selector(alloc: Global, shape: Shape, words: &[Word], folder: u32) -> Result<Bits, Fault>
    ensures { IfOk result (λ bits. length bits ≡ 2 ^ shape.depth) }
{
    let keys = FolderKeys::derive(&MASTER, folder);
    row_of(alloc, &keys, shape, words)
}

/// Scans for one selector.
fn for_one<R: Clock>(
    run: &mut Run<R>,
    version: &Version,
    shape: Shape,
    words: &[Word],
) -> Result<(), Fault>
    requires { version.now.shape ≡ shape }
{
    let selectors = [selector(run.alloc, shape, words, 0)?];
    let start = run.start()?;
    for _ in 0..run.turns {
        let found = scan(run.alloc, version, &selectors, run.kernel)?;
        run.sum.found(&found);
    }
    run.stop(start)
}

/// Scans for eight selectors.
fn for_eight<R: Clock>(
    run: &mut Run<R>,
    version: &Version,
    shape: Shape,
    words: &[Word],
) -> Result<(), Fault>
    requires { version.now.shape ≡ shape }
{
    let selectors = [
        selector(run.alloc, shape, words, 0)?,
        selector(run.alloc, shape, words, 1)?,
        selector(run.alloc, shape, words, 2)?,
        selector(run.alloc, shape, words, 3)?,
        selector(run.alloc, shape, words, 4)?,
        selector(run.alloc, shape, words, 5)?,
        selector(run.alloc, shape, words, 6)?,
        selector(run.alloc, shape, words, 7)?,
    ];
    let start = run.start()?;
    for _ in 0..run.turns {
        let found = scan(run.alloc, version, &selectors, run.kernel)?;
        run.sum.found(&found);
    }
    run.stop(start)
}

/// Whether an odd number of rows, laid end to end, have an odd number of ones in common with a selector of their length.
fn odd_rows(kernel: &RowKernel, rows: &[u64], selector: &[u64]) -> bool {
    let mut odd = false;
    for row in rows.chunks_exact(selector.len().max(1)) {
        if row.len() == selector.len() && row.len() <= 32 {
            odd ^= kernel.parity(row, selector);
        }
    }
    odd
}

/// The parities of a scan for eight selectors, by the kernel alone over rows in one block.
pub fn parities<R: Clock>(run: &mut Run<R>) -> Result<(), Fault> {
    let documents = if run.is_full() { 4096 } else { 130 };
    let words = words_of(run.alloc, &text(run.alloc, false)?)?;
    let row = selector(run.alloc, run.shape(), &words, 0)?;
    let mut rows = Vec::new(run.alloc);
    for _ in 0..documents {
        rows.extend_from_slice(row.words())?;
    }
    let start = run.start()?;
    for _ in 0..run.turns {
        for _ in 0..8 {
            run.sum.bit(odd_rows(run.kernel, &rows, row.words()));
        }
    }
    run.stop(start)
}

/// One scan at a time.
pub fn scans<R: Clock>(run: &mut Run<R>, selectors: Selectors) -> Result<(), Fault> {
    let shape = run.shape();
    let documents = if run.is_full() { 4096 } else { 130 };
    let version = filled(run.alloc, shape, documents)?;
    let words = words_of(run.alloc, &text(run.alloc, false)?)?;
    match selectors {
        Selectors::One => for_one(run, &version, shape, &words),
        Selectors::Eight => for_eight(run, &version, shape, &words),
    }
}
