//! The file of a node's part: it is locked for this process, and the node goes on from what it has.

ghost use Rattle.std.specs.Prelude.{◌≡◌, ◌≢◌, ◌↔◌, ◌+◌, ◌⊎◌, false, true, Err, IfErr, IfOk};
ghost use Rattle.std.specs.Prelude.{IfSome, OnOk, Some};
ghost use Rattle.std.specs.Io.Buffered.{reader_inner};
ghost use Rattle.std.specs.Io.KnownBytes.{Keeps};
ghost use Rattle.streams.specs.Watched.{has_failed};
ghost use Rattle.drills.specs.Lines.{head_told};
ghost use Rattle.drills.specs.Taken.{IfBytes, bytes_left};
ghost use Rattle.part_files.specs.Opened.{BeginsWith, HasJournal, IsFirstLine, IsOpenFault};
ghost use Rattle.part_files.specs.Opened.{IsOtherHead, IsResumeFault, IsResumed, IsUntouched};
ghost use Rattle.part_files.specs.Opened.{MakesReady};
ghost use Rattle.part_files.specs.Opened.{calls_of, end_of, head_of};

use crate::journal_file::JournalFile;
use command_line::{PartOptions, quoted};
use drills::{PartHead, part_head_in, part_head_text};
use node_core::Config;
use node_registry::{Label, Registry, Seat};
use part_keeper::{PartFault, PartFile, Repeated, read_line, repeat_calls};
use std::alloc::{AllocError, Global};
use std::fs::{File, Files, OpenOptions, TryLockError};
use std::io::{BufReader, Read, Write};
use std::sync::Wait;
use std::time::{Clock, Duration};
use std::{fmt, fs, io, thread};
use streams::Watched;

/// How often a lock is tried, and the rest between. A process that is gone may have been starting
/// another one, which has its files for a moment.
const TRIES: u32 = 20;

const REST_MILLISECONDS: u64 = 10;

/// How much of a first line is read that isn't this node's, to say of what it is.
const MOST_OF_HEAD: usize = 4096;

/// Why a part isn't opened. The file is as it was then, but where it couldn't be begun.
#[derive(Debug, Drop)]
pub enum OpenFault {
    /// It can't be opened, or locked.
    CantOpen(io::Error),
    /// It is no file.
    NoFile,
    /// It is open already, in this process or another.
    InUse,
    /// Its first line isn't this node's: in words, what it says that the node's own doesn't.
    OtherHead(String),
    /// The node doesn't go on from its lines.
    Lines(PartFault),
    /// It can't be begun, or its cut line can't be cut off.
    NotBegun(io::Error),
}

impl fmt::Display for OpenFault {
    ghost use Rattle.std.specs.Prelude.{Some};
    ghost use Rattle.part_files.specs.FaultText.{open_fault_text};

    ghost output = { λ fault. Some (open_fault_text fault) };

    fn fmt<W: fmt::Write>(&self, f: &mut fmt::Formatter<W>) -> fmt::Result {
        match self {
            OpenFault::CantOpen(_) | OpenFault::NoFile | OpenFault::OtherHead(_) => f.write_str(
                "V4 BadPart",
            ),
            OpenFault::Lines(PartFault::ReadFailed) => f.write_str("V4 BadPart"),
            OpenFault::Lines(PartFault::NoCall { line }) => write!(f, "V4 BadPart line={line}"),
            OpenFault::Lines(PartFault::TooLong { line }) => write!(f, "V4 BadPart line={line}"),
            OpenFault::Lines(PartFault::Differs { line }) => write!(f, "V4 BadPart line={line}"),
            OpenFault::InUse => f.write_str("V5 PartInUse"),
            OpenFault::NotBegun(_) => f.write_str("V6 NotRecorded"),
            OpenFault::Lines(PartFault::OutOfMemory) => f.write_str("V3 OutOfMemory"),
        }
    }
}

impl From<AllocError> for OpenFault {
    ghost use Rattle.part_files.specs.declared.part_file.OpenFault.TheVariants as open_faults;
    ghost use Rattle.part_keeper.specs.declared.fault.PartFault.TheVariants as part_faults;

    ghost from_gives = { λ _ fault. fault ≡ open_faults.Lines part_faults.OutOfMemory };

    fn from(_error: AllocError) -> OpenFault {
        OpenFault::Lines(PartFault::OutOfMemory)
    }
}

impl From<PartFault> for OpenFault {
    ghost use Rattle.part_files.specs.declared.part_file.OpenFault.TheVariants as open_faults;

    ghost from_gives = { λ fault given. given ≡ open_faults.Lines fault };

    fn from(fault: PartFault) -> OpenFault {
        OpenFault::Lines(fault)
    }
}

// The file, which no other process has then.
fn locked<R: Clock + Files<File = File>>(rt: &R, path: &str) -> Result<File, OpenFault> {
    let mut options = OpenOptions::new();
    options.read(true).append(true).create(true);
    let file = options.open(rt, path).map_err(OpenFault::CantOpen)?;
    if !file.metadata().map_err(OpenFault::CantOpen)?.is_file() {
        return Err(OpenFault::NoFile);
    }
    for _ in 0..TRIES {
        match file.try_lock() {
            Ok(()) => return Ok(file),
            Err(TryLockError::WouldBlock) => {
                thread::sleep(rt, Duration::from_millis(REST_MILLISECONDS));
            }
            Err(TryLockError::Error(error)) => return Err(OpenFault::CantOpen(error)),
        }
    }
    Err(OpenFault::InUse)
}

// The head of the part of a node of a run.
fn head_of(alloc: Global, config: Config, run: &str) -> Result<PartHead, AllocError>
    ensures { IfOk result (λ head. head_told head ≡ head_of config run.now) }
{
    Ok(PartHead {
        node: config.node,
        nodes: config.nodes,
        cap: config.trace_cap,
        run: String::from_str(alloc, run)?,
    })
}

// What another first line says that the node's own doesn't.
fn differences(alloc: Global, met: &[u8], own: &PartHead) -> Result<String, AllocError> {
    let Some(met) = part_head_in(alloc, met.strip_suffix(b"\n").unwrap_or(met))? else {
        return String::from_str(alloc, "not a journal of a node");
    };
    let mut told = String::new(alloc);
    let numbers = [
        ("node", u64::from(met.node), u64::from(own.node)),
        ("nodes", u64::from(met.nodes), u64::from(own.nodes)),
        ("cap", met.cap, own.cap),
    ];
    for (name, there, here) in numbers {
        if there != here {
            let comma = if told.is_empty() { "" } else { ", " };
            told.push_str(&format!(in alloc; "{comma}{name} is {there} there and {here} here")?)?;
        }
    }
    if met.run.as_str() != own.run.as_str() {
        let comma = if told.is_empty() { "" } else { ", " };
        let (there, here) = (quoted(alloc, &met.run)?, quoted(alloc, &own.run)?);
        told.push_str(&format!(in alloc; "{comma}run is {there} there and {here} here")?)?;
    }
    if told.is_empty() {
        return String::from_str(alloc, "its first line isn't in canonical form");
    }
    format!(in alloc; "not this node's: {told}")
}

// What a first line that isn't this node's says that the node's own doesn't, once more of it is read.
fn other_head<I: Read>(
    alloc: Global,
    reader: &mut BufReader<Watched<I>>,
    line: &mut Vec<u8>,
    own: &PartHead,
) -> Result<String, OpenFault>
    requires { has_failed (reader_inner reader.old) ≡ false }
    ensures read_failed { (result ≡ Err (OpenFault.Lines PartFault.ReadFailed))
        ↔ (has_failed (reader_inner reader.new) ≡ true) }
    ensures only { IfErr result (λ fault. (fault ≡ OpenFault.Lines PartFault.ReadFailed)
        ⊎ (fault ≡ OpenFault.Lines PartFault.OutOfMemory)) }
{
    if line.last() != Some(&b'\n') {
        read_line(reader, MOST_OF_HEAD, line)?;
    }
    Ok(differences(alloc, line, own)?)
}

// Whether a journal is begun: it has its first line. It isn't if it has no more than a beginning of that
// line, without the newline.
fn is_begun<I: Read>(
    alloc: Global,
    reader: &mut BufReader<Watched<I>>,
    first: &[u8],
    own: &PartHead,
) -> Result<bool, OpenFault>
    requires { IsFirstLine (head_told own.now) first.now }
    ensures begun { IfOk result (λ begun. IfBytes I.remaining reader.old (λ bytes.
        BeginsWith begun first.now bytes (bytes_left I.remaining reader.new))) }
    ensures other { IfErr result (λ fault. IfBytes I.remaining reader.old (λ bytes.
        IsOtherHead first.now bytes fault)) }
    ensures read_failed { (result ≡ Err (OpenFault.Lines PartFault.ReadFailed))
        ↔ (has_failed (reader_inner reader.new) ≡ true) }
{
    let mut line = Vec::new(alloc);
    read_line(reader, first.len(), &mut line)?;
    if line.as_slice() == first {
        return Ok(true);
    }
    if line.len() < first.len() && first.starts_with(&line) {
        return Ok(false);
    }
    Err(OpenFault::OtherHead(other_head(alloc, reader, &mut line, own)?))
}

// Has a journal's file with the disk, and its name as well, if that is wanted.
fn sync_file<F: JournalFile, R: Files<File = File>>(
    rt: &R,
    file: &mut F,
    options: PartOptions<'_>,
) -> io::Result<()>
    ensures { OnOk result (Keeps (F.contents file.old) (F.contents file.new)) }
{
    if !options.is_synced {
        return Ok(());
    }
    file.sync_all()?;
    let folder = match options.path.rsplit_once('/') {
        Some(("", _)) => "/",
        Some((folder, _)) => folder,
        None => ".",
    };
    fs::open(rt, folder)?.sync_all()?;
    Ok(())
}

// Begins a journal: its file has the first line, and nothing else.
fn begin<F: JournalFile, R: Files<File = File>>(
    rt: &R,
    file: &mut F,
    options: PartOptions<'_>,
    first: &[u8],
) -> io::Result<()>
    ensures { OnOk result (IfSome (F.contents file.old) (λ _.
        F.contents file.new ≡ Some first.now)) }
{
    file.set_len(0)?;
    file.write_all(first)?;
    sync_file(rt, file, options)?;
    Ok(())
}

// The first line of a node's part, with the newline that ends it.
fn first_line(alloc: Global, head: &PartHead) -> Result<Vec<u8>, AllocError>
    ensures { IfOk result (λ line. IsFirstLine (head_told head.now) line.items) }
{
    let mut line = part_head_text(alloc, head)?;
    line.push('\n')?;
    Ok(line.into_bytes())
}

// What a node has of its journal, if that is begun: the calls of its lines are repeated at the registry.
fn gone_on<L: Label, I: Read, R: Wait>(
    rt: &R,
    alloc: Global,
    registry: &Registry<L>,
    seat: &mut Seat<L>,
    reader: &mut BufReader<Watched<I>>,
    first: &[u8],
    own: &PartHead,
) -> Result<Option<Repeated>, OpenFault>
    requires keeps { L.keeps ≡ false }
    requires first { IsFirstLine (head_told own.now) first.now }
    ensures counted { IfOk result (λ had. seat.new.calls ≡ seat.old.calls + calls_of had) }
    ensures journal { IfOk result (λ had. IfBytes I.remaining reader.old (λ bytes.
        HasJournal L.config L.seed seat.old.calls seat.new.calls first.now bytes had)) }
    ensures fault { IfErr result (λ fault. IfBytes I.remaining reader.old (λ bytes.
        IsOpenFault L.config L.seed seat.old.calls first.now bytes fault)) }
    ensures read_failed { (result ≡ Err (OpenFault.Lines PartFault.ReadFailed))
        ↔ (has_failed (reader_inner reader.new) ≡ true) }
{
    if !is_begun(alloc, reader, first, own)? {
        return Ok(None);
    }
    let had = repeat_calls(rt, alloc, registry, seat, reader)?;
    // Their lines are written: only those of later calls are to be.
    drop(registry.give(rt, alloc, seat));
    Ok(Some(had))
}

// How many calls a part has.
fn calls_of(had: Option<Repeated>) -> u64
    ensures { result ≡ calls_of had }
{
    had.map_or(0, |had| had.calls)
}

// Where the last whole line of a part ends, of which this is the first.
fn end_of(had: Repeated, first: &[u8]) -> u64
    ensures { result ≡ end_of had first.now }
{
    had.bytes.saturating_add(first.len() as u64)
}

// Cuts a journal's file after its last whole line, or begins it.
fn make_ready<F: JournalFile, R: Files<File = File>>(
    rt: &R,
    file: &mut F,
    options: PartOptions<'_>,
    first: &[u8],
    had: Option<Repeated>,
) -> io::Result<()>
    ensures { OnOk result (MakesReady first.now had
        (F.contents file.old) (F.contents file.new)) }
{
    match had {
        Some(had) => file.set_len(end_of(had, first)),
        None => begin(rt, file, options, first),
    }
}

// Resumes a node from its journal, which a reader gives and which stands in this file: repeats the calls
// of its whole lines, and cuts off what follows them. A journal that isn't begun is begun. After any error
// but `NotBegun` the file is as it was.
fn resume<L, I, F, R>(
    rt: &R,
    alloc: Global,
    registry: &Registry<L>,
    seat: &mut Seat<L>,
    input: I,
    file: &mut F,
    options: PartOptions<'_>,
    first: &[u8],
    own: &PartHead,
) -> Result<Option<Repeated>, OpenFault>
where
    L: Label,
    I: Read + Drop,
    F: JournalFile,
    R: Wait + Files<File = File>,
    requires keeps { L.keeps ≡ false }
    requires first { IsFirstLine (head_told own.now) first.now }
    requires same { F.contents file.old ≡ I.remaining input }
    ensures counted { IfOk result (λ had. seat.new.calls ≡ seat.old.calls + calls_of had) }
    ensures resumed { IfOk result (λ had. IfSome (I.remaining input) (λ bytes.
        IsResumed L.config L.seed seat.old.calls seat.new.calls first.now bytes had
        (F.contents file.new))) }
    ensures fault { IfErr result (λ fault. IfSome (I.remaining input) (λ bytes.
        IsResumeFault L.config L.seed seat.old.calls first.now bytes fault)) }
    ensures untouched { IfErr result (λ fault. IsUntouched fault file.old file.new) }
{
    let Ok(mut reader) = BufReader::new(alloc, Watched::new(input)) else {
        return Err(OpenFault::Lines(PartFault::OutOfMemory));
    };
    let had = gone_on(rt, alloc, registry, seat, &mut reader, first, own)?;
    if let Err(error) = make_ready(rt, file, options, first, had) {
        return Err(OpenFault::NotBegun(error));
    }
    Ok(had)
}

/// A part that is open: its file, behind which the next lines go, and how many calls it has.
#[derive(Drop)]
pub struct OpenPart {
    pub file: PartFile,
    pub calls: u64,
}

/// Opens the part of a node that has accepted no call, and locks it. The calls of its lines are made
/// again; a cut last line is cut off; where there is no file, or an empty one, the part is begun.
pub fn open_part<L, R>(
    rt: &R,
    alloc: Global,
    registry: &Registry<L>,
    seat: &mut Seat<L>,
    options: PartOptions<'_>,
) -> Result<OpenPart, OpenFault>
where
    L: Label,
    R: Wait + Clock + Files<File = File>,
    requires { L.keeps ≡ false }
    ensures { IfOk result (λ part. seat.new.calls ≡ seat.old.calls + part.calls) }
{
    let file = locked(rt, options.path)?;
    let own = head_of(alloc, registry.with(rt, |core| core.config()), options.run)?;
    let first = first_line(alloc, &own)?;
    let mut target = &file;
    let had = resume(
        rt,
        alloc,
        registry,
        seat,
        &file,
        &mut target,
        options,
        &first,
        &own,
    )?;
    Ok(OpenPart {
        file: PartFile::new(file, options.is_synced),
        calls: calls_of(had),
    })
}
