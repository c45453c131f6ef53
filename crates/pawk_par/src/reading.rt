//! What a run reads of a source.

ghost use Rattle.std.specs.Prelude.{◌≡◌, ◌≤◌, false, true, IfOk, IfErr, OnOk};
ghost use Rattle.std.specs.Io.KnownBytes.{Keeps};
ghost use Rattle.pawk_code.specs.ProgramViews.{code_view};
ghost use Rattle.pawk_input.specs.Limits.{most_bytes};
ghost use Rattle.pawk_input.specs.Input.{files_of, total_size, whole_files};
ghost use Rattle.pawk_store.specs.Runs.{reads_records};
ghost use Rattle.pawk_par.specs.Streams.{AreBytes, IsInput, WhyUnread, standard_input};

use crate::refusal::StreamRefusal;
use pawk_device::{ReadStop, Source, read_all};
use pawk_input::{Input, TooLarge};
use pawk_threads::Job;
use std::alloc::{AllocError, Global};

/// One file without a name of these bytes.
fn nameless(alloc: Global, bytes: Vec<u8>) -> Result<Vec<(Vec<u8>, Vec<u8>)>, AllocError>
    ensures { IfOk result (λ files. whole_files files.items ≡ standard_input bytes.items) }
{
    let mut files = Vec::new(alloc);
    files.push((Vec::new(alloc), bytes))?;
    Ok(files)
}

/// All bytes of a source as one file without a name.
fn read_file<S: Source>(
    alloc: Global,
    source: &mut S,
) -> Result<Vec<(Vec<u8>, Vec<u8>)>, StreamRefusal>
    ensures bytes { IfOk result (λ files.
        AreBytes (S.left source.old) (whole_files files.items)) }
    ensures small { IfOk result (λ files. total_size (whole_files files.items) ≤ most_bytes) }
    ensures unfailing { OnOk result (S.failures source.new ≡ S.failures source.old) }
    ensures refused { IfErr result
        (WhyUnread (S.left source.old) (S.failures source.old) (S.failures source.new)) }
{
    match read_all(alloc, source) {
        Ok(bytes) => Ok(nameless(alloc, bytes)?),
        Err(ReadStop::Memory) => Err(StreamRefusal::Memory),
        Err(ReadStop::Failed) => Err(StreamRefusal::Read),
        Err(ReadStop::TooLarge) => Err(StreamRefusal::Input),
    }
}

/// The input of these files, which are small enough for one.
fn small_input(files: Vec<(Vec<u8>, Vec<u8>)>) -> Input
    requires { total_size (whole_files files.items) ≤ most_bytes }
    ensures { files_of result ≡ whole_files files.items }
{
    match Input::new(files) {
        Ok(input) => input,
        Err(TooLarge) => unreachable!(),
    }
}

/// What is read of a source: all its bytes as one file without a name, and no file where no record is read.
pub(crate) fn read_input<S: Source>(
    alloc: Global,
    job: Job<'_>,
    source: &mut S,
) -> Result<Input, StreamRefusal>
    ensures input { IfOk result (λ input.
        IsInput (code_view job.entry.code.now) (S.left source.old) (files_of input)) }
    ensures unread { reads_records (code_view job.entry.code.now) ≡ false →
        Keeps (S.left source.old) (S.left source.new)
        × (S.failures source.new ≡ S.failures source.old) }
    ensures unfailing { OnOk result (S.failures source.new ≡ S.failures source.old) }
    ensures refused { IfErr result (λ e. (reads_records (code_view job.entry.code.now) ≡ true)
        × WhyUnread (S.left source.old) (S.failures source.old) (S.failures source.new) e) }
{
    if !job.reads_records() {
        return Ok(small_input(Vec::new(alloc)));
    }
    let files = read_file(alloc, source)?;
    Ok(small_input(files))
}
