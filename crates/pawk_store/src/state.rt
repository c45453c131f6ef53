//! What a run keeps beside the globals.

ghost use Rattle.std.specs.Prelude.{◌≡◌, ◌<◌, ◌≤◌, ◌+◌, ◌^◌, IfOk, IfErr, OnOk, Some, None};
ghost use Rattle.pawk_fields.specs.FieldsOf.{IfFault};
ghost use Rattle.pawk_input.specs.Input.{item_of};
ghost use Rattle.pawk_record.specs.Records.{read};
ghost use Rattle.pawk_value.specs.Value.{lent_value};
ghost use Rattle.pawk_store.specs.RecordStates as spec;
ghost use Rattle.pawk_store.specs.StateViews.{IsLendable, state_of};

use pawk_code::leaf::Special;
use pawk_input::Item;
use pawk_record::Record;
use pawk_value::{Stop, ValueRef};
use std::alloc::{AllocError, Global};

/// The count after one more record.
fn next_count(count: u64) -> Result<u64, AllocError>
    ensures { IfOk result (λ next. next ≡ count + 1) }
{
    count.checked_add(1).ok_or(AllocError)
}

/// Refuses what is no number of the language.
pub(crate) fn check_number(count: u64) -> Result<(), AllocError>
    ensures { OnOk result (count < 2 ^ 63) }
{
    if count > i64::MAX as u64 {
        return Err(AllocError);
    }
    Ok(())
}

/// What a run keeps beside the globals (POSIX.1-2017, awk, "Variables and Special Variables").
#[derive(Drop)]
pub struct RecordState<'a> {
    /// The record and its fields.
    pub line: Record<'a>,
    /// How many records were read (`NR`).
    pub nr: u64,
    /// How many records of the file were read (`FNR`).
    pub fnr: u64,
    /// The name of the file (`FILENAME`), if a record was read.
    pub name: Option<&'a [u8]>,
    /// Where the last match began, counted from 1 (`RSTART`).
    pub rstart: i64,
    /// How long the last match was, in bytes (`RLENGTH`).
    pub rlength: i64,
    /// The last status that `exit` gave.
    pub status: u8,
    /// `RS` as `BEGIN` left it, once the records begin.
    pub taken: Option<Vec<u8>>,
    /// For each rule whether its range has begun and not ended.
    pub ranges: Vec<bool>,
}

impl<'a> RecordState<'a> {
    /// The state in which a program with this number of rules begins.
    pub fn new(alloc: Global, rules: usize) -> Result<RecordState<'a>, AllocError>
        ensures { IfOk result (λ s. state_of s ≡ spec.opening rules) }
    {
        let mut ranges = Vec::new(alloc);
        ranges.resize(rules, false)?;
        Ok(RecordState {
            line: Record::new(alloc),
            nr: 0,
            fnr: 0,
            name: None,
            rstart: 0,
            rlength: -1,
            status: 0,
            taken: None,
            ranges,
        })
    }

    /// Whether records are paragraphs: where an empty `RS` was taken.
    pub fn is_paragraph(&self) -> bool
        ensures { result ≡ spec.is_paragraph (state_of self.now) }
    {
        match &self.taken {
            Some(rs) => rs.is_empty(),
            None => false,
        }
    }

    /// Reads a record: sets `NR`, `FNR`, `FILENAME`, `$0`, and the fields by this `FS`.
    ///
    /// Fault `fs` or `ere` where the record is not empty and `FS` is empty or no expression; the record
    /// then has no fields. Memory is refused also where 2^64 records were read, which no memory holds.
    #[inline(always)]
    pub fn read(&mut self, item: &Item<'a>, fs: &[u8]) -> Result<(), Stop>
        ensures record { OnOk result
            (state_of self.new ≡ spec.with_item fs.now (item_of item.now) (state_of self.old)) }
        ensures plain { OnOk result
            ((read fs.now (spec.is_paragraph (state_of self.old)) (item_of item.now).bytes).1 ≡ None) }
        ensures fault { IfErr result (λ stop. IfFault stop (λ fault.
            (state_of self.new ≡ spec.with_item fs.now (item_of item.now) (state_of self.old))
            × ((read fs.now (spec.is_paragraph (state_of self.old)) (item_of item.now).bytes).1
            ≡ Some fault))) }
    {
        let paragraph = self.is_paragraph();
        self.nr = next_count(self.nr)?;
        self.fnr = item.fnr;
        self.name = Some(item.name);
        self.line.read(item.bytes, fs, paragraph)
    }

    /// Makes a variable that the run sets ready to be lent: looks for all fields where it is `NF`. The
    /// state stays.
    ///
    /// Memory is refused also where it is 2^63 or more, which no memory holds.
    pub fn prepare_special(&mut self, variable: Special) -> Result<(), AllocError>
        ensures same { state_of self.new ≡ state_of self.old }
        ensures more { self.old.line.found ≤ self.new.line.found }
        ensures ready { OnOk result (IsLendable variable self.new) }
    {
        match variable {
            Special::Nr => check_number(self.nr),
            Special::Nf => {
                let count = self.line.count()?;
                check_number(count as u64)
            }
            Special::Fnr => check_number(self.fnr),
            Special::Filename | Special::Rstart | Special::Rlength => Ok(()),
        }
    }

    /// The value of a variable that the run sets, which was made ready; it is lent from the state
    /// (POSIX.1-2017, awk, "Variables and Special Variables").
    pub fn special(&self, variable: Special) -> ValueRef<'_>
        requires { IsLendable variable self.now }
        ensures { lent_value result ≡ spec.special_value variable (state_of self.now) }
    {
        match variable {
            Special::Nr => ValueRef::Num(self.nr as i64),
            Special::Nf => ValueRef::Num(self.line.prepared_count() as i64),
            Special::Fnr => ValueRef::Num(self.fnr as i64),
            Special::Filename => match self.name {
                Some(name) => ValueRef::Maybe(name),
                None => ValueRef::Uninit,
            },
            Special::Rstart => ValueRef::Num(self.rstart),
            Special::Rlength => ValueRef::Num(self.rlength),
        }
    }
}
