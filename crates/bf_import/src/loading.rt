//! From a stream to its history.
//!
//! The window is made before the source is lent to a reader (`Reader::with_window`): what a constructor that
//! fails leaves of a source that was lent to it cannot be said, and a fault of `import` has its cause on the
//! source.
ghost use Rattle.std.specs.Prelude.{◌≡◌, false, IfErr, IfOk, IsErrOf, OnOk};
ghost use Rattle.bf_grammar.specs.Limits.{IsWithin};
ghost use Rattle.bf_history.specs.Contents.{MayFurnish};
ghost use Rattle.bf_history.specs.Imports.{MayImport};
ghost use Rattle.bf_history.specs.Meanings.{nothing_loaded};
ghost use Rattle.bf_import.specs.Faults.{IsFaultOf, IsFurnishingFault, IsImportFault, refusal_of_stream};
ghost use Rattle.bf_import.specs.Loading.{IsFurnishedBy, LoadsRest, MayLoad, ended, loaded_by};
ghost use Rattle.bf_import.specs.Rest.{Leaves, ReadsOut, history_of};
ghost use Rattle.bf_io.specs.Causes.{FailsOnlyAt};
ghost use Rattle.bf_stream.specs.Standing.{is_over, limits_of, reader_faults, source_of};

use crate::content::Content;
use crate::history::History;
use crate::importer::Importer;
use bf_commits::{Contents, LetGo};
use bf_grammar::{Limits, StreamFault};
use bf_history::ImportFault;
use bf_io::{Bytes, Source};
use bf_stream::{Reader, Window};
use bf_tables::Blobs;
use std::alloc::Global;

/// The history that the commands of a stream make (git-fast-import(1)). The source is read to its end, or to the
/// line `done`. A stream is refused at the first command, in the order of its bytes, that is not in its form or
/// has no meaning; the bytes that were read are then gone from the source. `Stream` with `Read` comes only where
/// the source failed, and `NoMemory` only for want of memory; what limit was passed is `Commits` or `Entries`
/// where it is not the stream's own.
pub fn import<S: Source>(
    alloc: Global,
    source: &mut S,
    limits: Limits,
) -> Result<History, ImportFault>
    requires { IsWithin limits }
    ensures history { MayImport (S.left source.old) limits result }
    ensures cause { FailsOnlyAt (ImportFault.Stream StreamFault.Read)
        (S.faults source.old) (S.faults source.new) result }
    ensures own { IsErrOf result (ImportFault.Stream StreamFault.NoMemory) → ⊥ }
    ensures known { IfErr result (λ fault. IsImportFault fault) }
{
    let (history, _) = import_with_rest(alloc, source, limits)?;
    Ok(history)
}

/// The same of a stream behind which other bytes stand: the history, and what was read of those bytes. Behind it come the
/// bytes that the source has left; so nothing is lost, and nothing is waited for that the stream does not need. What
/// stands behind a stream counts against no limit on it. A stream that ends without the line `done` has nothing behind it.
pub fn import_with_rest<S: Source>(
    alloc: Global,
    source: &mut S,
    limits: Limits,
) -> Result<(History, Bytes), ImportFault>
    requires { IsWithin limits }
    ensures history { MayImport (S.left source.old) limits (history_of result) }
    ensures rest { IfOk result (λ both.
        Leaves (S.left source.old) limits both.1 (S.left source.new)) }
    ensures cause { FailsOnlyAt (ImportFault.Stream StreamFault.Read)
        (S.faults source.old) (S.faults source.new) result }
    ensures own { IsErrOf result (ImportFault.Stream StreamFault.NoMemory) → ⊥ }
    ensures known { IfErr result (λ fault. IsImportFault fault) }
{
    let (importer, _, rest) = imported(alloc, source, limits, LetGo)?;
    Ok((importer.into_history()?, rest))
}

/// The history that the commands of a stream make, with its contents: the blobs and the parts inline, each
/// content once. It is refused as by `import`, and with `NoContent` at the first file, submodules aside, whose
/// path is not UTF-8, or whose content is named by its digits and not among those so far.
pub fn import_with_blobs<S: Source>(
    alloc: Global,
    source: &mut S,
    limits: Limits,
) -> Result<Content, ImportFault>
    requires { IsWithin limits }
    ensures content { MayFurnish (S.left source.old) limits result }
    ensures cause { FailsOnlyAt (ImportFault.Stream StreamFault.Read)
        (S.faults source.old) (S.faults source.new) result }
    ensures known { IfErr result (λ fault. IsFurnishingFault fault) }
{
    let (importer, blobs, _) = imported(alloc, source, limits, Blobs::new(alloc))?;
    Ok(Content::of(importer.into_history()?, blobs))
}

/// An import that carried out the commands of a stream, what its contents have become, and what was read behind the
/// stream.
fn imported<S: Source, C: Contents + Drop>(
    alloc: Global,
    source: &mut S,
    limits: Limits,
    mut contents: C,
) -> Result<(Importer, C, Bytes), ImportFault>
    requires { IsWithin limits }
    ensures loads { let left = S.left source.old in
        MayLoad left limits (C.kept contents) (loaded_by C.kept result) }
    ensures furnished { let before = IsFurnishedBy (C.kept contents) (nothing_loaded limits) in
        IfOk result (λ all. before → IsFurnishedBy (C.kept all.1) all.0.loading) }
    ensures rest { IfOk result (λ all.
        Leaves (S.left source.old) limits all.2 (S.left source.new)) }
    ensures cause { FailsOnlyAt (ImportFault.Stream StreamFault.Read)
        (S.faults source.old) (S.faults source.new) result }
    ensures known { IfErr result (IsFaultOf (C.kept contents)) }
{
    let window = Window::new(alloc, limits.stream)?;
    let mut importer = Importer::new(alloc, limits)?;
    let mut reader = Reader::with_window(alloc, window, source, limits);
    let loaded = load(&mut reader, &mut importer, &mut contents);
    let rest = reader.rest();
    let _ = reader.close();
    match loaded {
        Ok(()) => Ok((importer, contents, rest?)),
        Err(fault) => Err(fault),
    }
}

/// Carries out the commands that are left.
fn load<S: Source, C: Contents>(
    reader: &mut Reader<'_, S>,
    importer: &mut Importer,
    contents: &mut C,
) -> Result<(), ImportFault>
    requires going_on { is_over reader.old ≡ false }
    requires limits { limits_of reader.old ≡ importer.old.limits }
    ensures loads { let answer = ended result importer.new (C.kept contents.new) in
        LoadsRest S.left reader.old importer.old (C.kept contents.old) answer }
    ensures furnished { let before = IsFurnishedBy (C.kept contents.old) importer.old.loading in
        OnOk result (before → IsFurnishedBy (C.kept contents.new) importer.new.loading) }
    ensures ends { OnOk result (ReadsOut S.left importer.old.limits reader.old reader.new) }
    ensures cause { FailsOnlyAt (ImportFault.Stream StreamFault.Read)
        (reader_faults S.faults reader.old) (reader_faults S.faults reader.new) result }
    ensures known { IfErr result (IsFaultOf (C.kept contents.old)) }
    ensures source { source_of reader.new ≡ source_of reader.old }
{
    'commands: loop {
        let next = match reader.next() {
            Ok(next) => next,
            Err(fault) => return Err(refused(fault)),
        };
        match next {
            Some(command) => importer.take(contents, command)?,
            None => return Ok(()),
        }
    }
}

/// The refusal of a stream, as the import hands it on.
fn refused(fault: StreamFault) -> ImportFault
    ensures { result ≡ refusal_of_stream fault }
{
    match fault {
        StreamFault::NoMemory => ImportFault::NoMemory,
        other => ImportFault::Stream(other),
    }
}
