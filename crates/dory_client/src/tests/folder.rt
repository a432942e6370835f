//! A folder over two domains in memory, and a member's calls on it.

use crate::end::ClientEnd;
use crate::run::client_run;
use dory_base::{FolderId, Shape, Side};
use dory_domain::{DomainCore, FolderConfig};
use dory_io::{MemKeeper, VecSink, VecSource};
use dory_kernel::RowKernel;
use dory_link::DomainLink;
use std::alloc::{AllocError, Global};
use std::test::Fail;

/// Begins the state of member 0, with 256 columns, two positions a word and a master key of zeros.
pub const INIT: &str =
    "init --folder 1 --member 0 --depth 8 --probes 2 --master 0000000000000000000000000000000000000000000000000000000000000000";

/// The same with one position a word.
pub const INIT_ONE: &str =
    "init --folder 1 --member 0 --depth 8 --probes 1 --master 0000000000000000000000000000000000000000000000000000000000000000";

/// Two domains over links in memory, and where a member keeps its state.
#[derive(Drop)]
pub struct Folder {
    pub lead: DomainLink,
    pub follow: DomainLink,
    pub keeper: MemKeeper,
}

/// How a call ended, and what it wrote.
#[derive(Drop)]
pub struct Came {
    pub end: ClientEnd,
    pub out: VecSink,
}

/// An empty domain.
pub fn core(
    alloc: Global,
    kernel: RowKernel,
    role: Side,
    depth: u8,
    probes: u8,
) -> Result<DomainCore, Fail> {
    let configs = [FolderConfig {
        folder: FolderId(1),
        shape: Shape::new(depth, probes).ok_or("a shape")?,
        retained: 64,
    }];
    Ok(
        DomainCore::new(alloc, role, &configs, kernel)
            .ok()
            .ok_or("a core")?,
    )
}

/// A link to an empty domain, whose listed calls are to fail.
pub fn link(
    alloc: Global,
    kernel: RowKernel,
    role: Side,
    probes: u8,
    fails: &[u64],
) -> Result<DomainLink, Fail> {
    let core = core(alloc, kernel, role, 8, probes)?;
    Ok(DomainLink::new(alloc, core, fails)?)
}

/// Two empty domains, and a member that keeps nothing.
pub fn empty_folder(alloc: Global, kernel: RowKernel, probes: u8) -> Result<Folder, Fail> {
    let again = kernel.again();
    Ok(Folder {
        lead: link(alloc, kernel, Side::Lead, probes, &[])?,
        follow: link(alloc, again, Side::Follow, probes, &[])?,
        keeper: MemKeeper::new(None, Vec::new(alloc)),
    })
}

/// The words of a line.
pub fn words_of(alloc: Global, line: &str) -> Result<Vec<String>, AllocError> {
    let mut words = Vec::new(alloc);
    for word in line.split_whitespace() {
        words.push(word.to_string(alloc)?)?;
    }
    Ok(words)
}

/// A call on a folder, with a text as its input.
pub fn called(alloc: Global, folder: &mut Folder, line: &str, text: &[u8]) -> Result<Came, Fail> {
    called_with(alloc, folder, line, text, &[], &[])
}

/// The same over an input and an output whose listed calls are to fail.
pub fn called_with(
    alloc: Global,
    folder: &mut Folder,
    line: &str,
    text: &[u8],
    source: &[u64],
    sink: &[u64],
) -> Result<Came, Fail> {
    let words = words_of(alloc, line)?;
    let mut input = VecSource::new(text.to_vec(alloc)?, source.to_vec(alloc)?);
    let mut out = VecSink::new(alloc, 1000, sink.to_vec(alloc)?)?;
    let end = client_run(
        alloc,
        &words,
        [0; 32],
        &mut folder.lead,
        &mut folder.follow,
        &mut folder.keeper,
        &mut input,
        &mut out,
    );
    Ok(Came { end, out })
}

/// Whether a call ends done and writes this.
pub fn says(
    alloc: Global,
    folder: &mut Folder,
    line: &str,
    text: &[u8],
    written: &[u8],
) -> Result<bool, Fail> {
    let came = called(alloc, folder, line, text)?;
    Ok(came.end == ClientEnd::Done && came.out.bytes() == written)
}

/// The bytes of a state of member 0 with nothing pending.
pub fn state(alloc: Global, next_serial: u64, seen: u32, used: u32) -> Result<Vec<u8>, Fail> {
    let mut bytes = Vec::new(alloc);
    bytes.extend_from_slice(b"dorystt2")?;
    bytes.extend_from_slice(&[0, 0, 0, 1, 0, 0, 0, 0, 8, 2])?;
    bytes.extend_from_slice(&[0; 32])?;
    bytes.extend_from_slice(&next_serial.to_be_bytes())?;
    bytes.extend_from_slice(&seen.to_be_bytes())?;
    bytes.extend_from_slice(&used.to_be_bytes())?;
    bytes.push(0)?;
    Ok(bytes)
}
