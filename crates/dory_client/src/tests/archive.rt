//! Two hundred documents of two members, searched at several versions.

use super::folder::{Came, Folder, called, core};
use crate::end::ClientEnd;
use dory_base::Side;
use dory_io::MemKeeper;
use dory_kernel::{RowKernel, lane_parity};
use dory_link::DomainLink;
use std::alloc::Global;
use std::mem;
use std::test::Fail;

/// A text of a mail, whose last has a word of 70 letters more.
fn text(alloc: Global, doc: u32) -> Result<Vec<u8>, Fail> {
    let (user, day) = (doc % 7, doc % 28);
    let text = format!(in alloc;
        "From: user{user}@example.org Subject: invoice{doc} Meeting on day{day} at café"
    )?;
    let mut bytes = text.as_bytes().to_vec(alloc)?;
    if doc == 200 {
        bytes.push(b' ')?;
        bytes.extend_from_slice(&[b'x'; 70])?;
    }
    Ok(bytes)
}

/// A folder of 1,024 columns and five positions a word, with the keepers of two members.
#[derive(Drop)]
struct Archive {
    folder: Folder,
    other: MemKeeper,
}

fn two_members(alloc: Global, kernel: RowKernel) -> Result<Archive, Fail> {
    let again = kernel.again();
    let lead = core(alloc, kernel, Side::Lead, 10, 5)?;
    let follow = core(alloc, again, Side::Follow, 10, 5)?;
    let folder = Folder {
        lead: DomainLink::new(alloc, lead, &[])?,
        follow: DomainLink::new(alloc, follow, &[])?,
        keeper: MemKeeper::new(None, Vec::new(alloc)),
    };
    let other = MemKeeper::new(None, Vec::new(alloc));
    Ok(Archive { folder, other })
}

impl Archive {
    /// The other member's turn.
    fn turn(&mut self) {
        mem::swap(&mut self.folder.keeper, &mut self.other);
    }

    /// Begins the state of both members.
    fn begin(&mut self, alloc: Global) -> Result<(), Fail> {
        for member in 0..2u32 {
            let line = format!(in alloc;
                "init --folder 1 --member {member} --depth 10 --probes 5 --master 0000000000000000000000000000000000000000000000000000000000000000"
            )?;
            called(alloc, &mut self.folder, line.as_str(), b"")?;
            self.turn();
        }
        Ok(())
    }

    /// Posts these documents, each by the next member, and whether each was posted.
    fn post(&mut self, alloc: Global, first: u32, last: u32) -> Result<bool, Fail> {
        for doc in first..=last {
            let line = format!(in alloc; "post {doc}")?;
            let came = called(alloc, &mut self.folder, line.as_str(), &text(alloc, doc)?)?;
            if came.end != ClientEnd::Done {
                return Ok(false);
            }
            self.turn();
        }
        Ok(true)
    }

    /// What a search for a word comes to.
    fn search(&mut self, alloc: Global, word: &str) -> Result<Came, Fail> {
        let line = format!(in alloc; "search {word}")?;
        called(alloc, &mut self.folder, line.as_str(), b"")
    }
}

/// What is written of a version that has all documents up to this one.
fn listed(alloc: Global, last: u32) -> Result<String, Fail> {
    let mut line = format!(in alloc; "version {last}:")?;
    for doc in 1..=last {
        line.push_str(format!(in alloc; " {doc}")?.as_str())?;
    }
    line.push('\n')?;
    Ok(line)
}

#[test]
fn each_of_two_hundred_documents_is_found(rt: HostRuntime) -> Result<(), Fail> {
    let alloc = rt.alloc();
    let mut archive = two_members(alloc, RowKernel::new(lane_parity))?;
    archive.begin(alloc)?;
    for (first, version) in [(1, 50), (51, 120), (121, 200u32)] {
        assert!(rt; archive.post(alloc, first, version)?);
        let came = archive.search(alloc, "café")?;
        assert!(rt; came.end == ClientEnd::Done, "{version}");
        assert!(rt;
            came.out.bytes() == listed(alloc, version)?.as_bytes(),
            "{version}"
        );
    }
    Ok(())
}
