//! A program's text, and the files that it came from.

ghost use Rattle.std.specs.Prelude.{◌≡◌, ◌≤◌, ◌+◌, ◌++◌, [], length, OnOk, IfOk};
ghost use Rattle.pawk_explain.specs.Lines.{lines_as_lf, omissions, place_in_files};
ghost use Rattle.pawk_explain.specs.Lines as spec;

use std::alloc::{AllocError, Global};

/// A file, and the place of its first byte in the text, counted from 0.
#[derive(Clone, Copy)]
struct File<'a> {
    name: &'a str,
    start: usize,
}

/// The name of a file, if there is one, and the place of its first byte in the text, counted from 0.
#[derive(Clone, Copy)]
pub(crate) struct FileStart<'a> {
    pub(crate) name: Option<&'a str>,
    pub(crate) start: usize,
}

/// A program's text, and the files that it came from.
#[derive(Drop)]
pub struct Script<'a> {
    text: Vec<u8>,
    /// The places of the text, counted from 0, of the newlines before which a carriage return was left out.
    omissions: Vec<usize>,
    files: Vec<File<'a>>,
}

/// Appends bytes to a text, with each CR LF read as LF, and the places of the text, counted from 0, at which a carriage
/// return was left out.
fn append_as_lf(text: &mut Vec<u8>, places: &mut Vec<usize>, bytes: &[u8]) -> Result<(), AllocError>
    ensures text { OnOk result (text.new.items ≡ text.old.items ++ lines_as_lf bytes.now) }
    ensures places { OnOk result
        (places.new.items ≡ places.old.items ++ omissions (length text.old.items) bytes.now) }
{
    let mut rest = bytes;
    while let [byte, later @ ..] = rest {
        if *byte == b'\r' && begins_with_newline(later) {
            places.push(text.len())?;
        } else {
            text.push(*byte)?;
        }
        rest = later;
    }
    Ok(())
}

/// Whether a text begins with a newline.
fn begins_with_newline(text: &[u8]) -> bool
    ensures { result ≡ spec.begins_with_newline text.now }
{
    match text {
        [] => false,
        [byte, ..] => *byte == b'\n',
    }
}

impl<'a> Script<'a> {
    ghost use Rattle.pawk_explain.specs.Script.{text_of, omissions_of, text_before};

    /// A script to which no file was appended yet.
    pub fn new(alloc: Global) -> Script<'a>
        ensures text { text_of result ≡ [] }
        ensures omissions { omissions_of result ≡ [] }
    {
        Script {
            text: Vec::new(alloc),
            omissions: Vec::new(alloc),
            files: Vec::new(alloc),
        }
    }

    /// The text of a word of the command line: as it is, of no file.
    pub fn of_word(alloc: Global, text: &[u8]) -> Result<Script<'a>, AllocError>
        ensures text { IfOk result (λ s. text_of s ≡ text.now) }
        ensures omissions { IfOk result (λ s. omissions_of s ≡ []) }
    {
        Ok(Script {
            text: Vec::from_slice(alloc, text)?,
            omissions: Vec::new(alloc),
            files: Vec::new(alloc),
        })
    }

    /// Begins a file: after a newline where there is a text, or a file, before.
    fn begin_file(&mut self, name: &'a str) -> Result<(), AllocError>
        ensures text { OnOk result (text_of self.new ≡ text_before self.old) }
        ensures omissions { OnOk result (omissions_of self.new ≡ omissions_of self.old) }
    {
        if !self.text.is_empty() || !self.files.is_empty() {
            self.text.push(b'\n')?;
        }
        let start = self.text.len();
        self.files.push(File { name, start })?;
        Ok(())
    }

    /// Appends a file's text: after a newline where there is a text, or a file, before; each CR LF is read
    /// as LF. After an error the script has a part of the file.
    pub fn append_file(&mut self, name: &'a str, bytes: &[u8]) -> Result<(), AllocError>
        ensures text { OnOk result
            (text_of self.new ≡ text_before self.old ++ lines_as_lf bytes.now) }
        ensures omissions { OnOk result (omissions_of self.new ≡
            omissions_of self.old ++ omissions (length (text_before self.old)) bytes.now) }
    {
        self.begin_file(name)?;
        append_as_lf(&mut self.text, &mut self.omissions, bytes)
    }

    /// The text that is parsed: the files, one after the other.
    pub fn text(&self) -> &[u8]
        ensures { result.now ≡ text_of self.now }
    {
        self.text.as_slice()
    }

    /// The file in which a place of the text is, counted from 0.
    pub(crate) fn origin(&self, place: usize) -> FileStart<'a> {
        let mut origin = FileStart {
            name: None,
            start: 0,
        };
        for file in &self.files {
            if file.start <= place {
                origin = FileStart {
                    name: Some(file.name),
                    start: file.start,
                };
            }
        }
        origin
    }

    /// The place, counted from 1, in the bytes of the files (one newline between two) of a place of the text.
    pub fn place(&self, place: usize) -> usize
        ensures { place ≤ length (text_of self.now) + 1 →
            result ≡ place_in_files (omissions_of self.now) place }
    {
        let count = self
            .omissions
            .iter()
            .filter(|omission| **omission < place)
            .count();
        place.saturating_add(count)
    }
}
