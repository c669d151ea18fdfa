//! Files that are there already.

ghost use Rattle.std.specs.Prelude.{◌≡◌, IfOk, None, true};

use crate::files::part_path;
use command_line::{ThreadOptions, quoted};
use message_format::MAX_NODES;
use std::alloc::{AllocError, AllocGlobal, Global};
use std::fs;
use std::fs::Files;

// Whether a file is there that holds what is written, unlike a pipe or a device.
fn is_kept<R: Files>(rt: &R, path: &str) -> bool {
    match fs::metadata(rt, path) {
        Ok(there) => there.is_file(),
        Err(_) => false,
    }
}

// The first file that is there and may have a part, of this run or of another one.
fn kept_part<R: Files>(rt: &R, alloc: Global, folder: &str) -> Result<Option<String>, AllocError> {
    for node in 0..MAX_NODES {
        let path = part_path(alloc, folder, node)?;
        if is_kept(rt, &path) {
            return Ok(Some(path));
        }
    }
    Ok(None)
}

// The file that is there where the drill or a part of it is to be kept, if one is and may not be written
// over.
fn kept_path<R: Files + AllocGlobal>(
    rt: &R,
    options: ThreadOptions<'_>,
) -> Result<Option<String>, AllocError>
    ensures forced { options.entry.force ≡ true → IfOk result (λ path. path ≡ None) }
    ensures unkept { options.entry.record ≡ None → options.entry.record_parts ≡ None →
        IfOk result (λ path. path ≡ None) }
{
    if options.force {
        return Ok(None);
    }
    match (options.record, options.record_parts) {
        (Some(path), _) => {
            if is_kept(rt, path) {
                return Ok(Some(String::from_str(rt.alloc(), path)?));
            }
            Ok(None)
        }
        (None, Some(folder)) => kept_part(rt, rt.alloc(), folder),
        (None, None) => Ok(None),
    }
}

/// That a file is there where the drill of a run or a part of it is to be kept, and what to do, if one is and
/// may not be written over.
pub fn in_the_way<R: Files + AllocGlobal>(
    rt: &R,
    options: ThreadOptions<'_>,
) -> Result<Option<String>, AllocError>
    ensures forced { options.entry.force ≡ true → IfOk result (λ advice. advice ≡ None) }
    ensures unkept { options.entry.record ≡ None → options.entry.record_parts ≡ None →
        IfOk result (λ advice. advice ≡ None) }
{
    let Some(path) = kept_path(rt, options)? else {
        return Ok(None);
    };
    let other = match options.record {
        Some(_) => "file",
        None => "folder",
    };
    let shown = quoted(rt.alloc(), &path)?;
    Ok(Some(format!(in rt.alloc();
        "{shown} already exists: choose another {other} or pass --force"
    )?))
}
