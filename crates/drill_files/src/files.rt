//! Files that a run is written to.

ghost use Rattle.std.specs.Prelude.{◌≡◌, ◌⊎◌, length, false, All, IfErr, IfOk};
ghost use Rattle.streams.specs.declared.fault.ScriptFault.TheVariants.{OutOfMemory, WriteFailed};
ghost use Rattle.streams.specs.Watched.{has_failed};

use std::alloc::{AllocError, Global};
use std::fs;
use std::fs::Files;
use std::io::BufWriter;
use streams::{ScriptFault, Watched};

/// Writes to a file, from its beginning on.
pub fn file_at<R: Files>(
    rt: &R,
    alloc: Global,
    path: &str,
) -> Result<Watched<BufWriter<R::File>>, ScriptFault>
    ensures sound { IfOk result (λ file. has_failed file ≡ false) }
    ensures only { IfErr result (λ fault. (fault ≡ WriteFailed) ⊎ (fault ≡ OutOfMemory)) }
{
    let Ok(file) = fs::create(rt, path) else {
        return Err(ScriptFault::WriteFailed);
    };
    let Ok(file) = BufWriter::new(alloc, file) else {
        return Err(ScriptFault::OutOfMemory);
    };
    Ok(Watched::new(file))
}

/// Where the part of a node is kept.
pub(crate) fn part_path(alloc: Global, folder: &str, node: u8) -> Result<String, AllocError> {
    format!(in alloc; "{folder}/part{node}")
}

/// Writes to the files of the parts, one of each node, in a folder that is made where it isn't there.
pub fn part_files<R: Files>(
    rt: &R,
    alloc: Global,
    folder: &str,
    nodes: u8,
) -> Result<Vec<Watched<BufWriter<R::File>>>, ScriptFault>
    ensures number { IfOk result (λ files. length files.items ≡ nodes) }
    ensures sound { IfOk result (λ files. All (λ file. has_failed file ≡ false) files.items) }
    ensures only { IfErr result (λ fault. (fault ≡ WriteFailed) ⊎ (fault ≡ OutOfMemory)) }
{
    // Where it can't be made, no file in it can be.
    let _made = fs::create_dir(rt, folder);
    let mut files = Vec::new(alloc);
    for node in 0..nodes {
        let file = file_at(rt, alloc, &part_path(alloc, folder, node)?)?;
        files.reserve(1)?;
        files.push_reserved(file);
    }
    Ok(files)
}
