//! The record and its fields.

ghost use Rattle.std.specs.Prelude.{◌≡◌, ◌≤◌, length, Some, None, Ok, Err, [], IfErr, IfOk, IfSome, OnOk};
ghost use Rattle.pawk_value.specs.Value.{lent_value};
ghost use Rattle.pawk_fields.specs.FieldsOf.{IfFault};
ghost use Rattle.pawk_record.specs.Lines.{line_of};
ghost use Rattle.pawk_record.specs.Records.{IsPrepared, field_at, read, with_field, with_text};

use crate::layout::{FieldAssignment, FieldsRef, Layout};
use crate::limits::GREATEST_FIELD;
use crate::splitter::Splitter;
use pawk_value::{Fault, Stop, ValueRef};
use std::alloc::{AllocError, Global};
use std::marker::Model;
use std::mem;

/// Where the fields were counted, a loop up to `NF` may ask for each: then `AHEAD` times as many are looked for at
/// once.
const AHEAD: usize = 4;

/// The line: a text that is lent, or the record's own.
#[inline]
fn line<'a>(is_own: bool, own: &'a [u8], lent: &'a [u8]) -> &'a [u8]
    ensures { result.now ≡ line_of is_own own.now lent.now }
{
    if is_own { own } else { lent }
}

/// The record (`$0`) and its fields. POSIX.1-2017, awk, "Variables and Special Variables" (`NF`, `FS`), "Expressions in
/// awk".
///
/// Fields are looked for as they are asked for, and the search goes on where it stopped.
#[derive(Drop)]
pub struct Record<'a> {
    alloc: Global,
    /// The text that was read, where the line is not its own.
    lent: &'a [u8],
    is_own: bool,
    /// The line, where it is its own, and what was found of the fields.
    here: Layout,
    /// Space for the line after an assignment.
    spare: Layout,
    /// Where the next field is looked for, if one may be left.
    next: Option<usize>,
    /// How many fields there are, where they were counted while some were not looked for yet.
    counted: Option<usize>,
    splitter: Splitter,
}

impl<'a> Model for Record<'a> {
    ghost use Rattle.pawk_record.specs.Records.{SplitRecord};

    ghost Value = { SplitRecord };

    ghost use Rattle.pawk_record.specs.Views.{IsWhole, shown};

    ghost view = { shown };

    ghost invariant = { IsWhole };
}

impl<'a> Record<'a> {
    /// An empty record without fields. Takes no memory.
    pub fn new(alloc: Global) -> Record<'a>
        ensures text { result.record_now.text ≡ [] }
        ensures fields { result.record_now.fields ≡ [] }
    {
        Record {
            alloc,
            lent: b"",
            is_own: false,
            here: Layout::new(alloc),
            spare: Layout::new(alloc),
            next: None,
            counted: None,
            splitter: Splitter::new(alloc),
        }
    }

    /// Reads a text as the record. Its fields are those by `fs`, in paragraph mode by newlines too; an empty text has none.
    /// Copies nothing of the text. An FS that the last record did not have is copied, and an expression made ready.
    ///
    /// Fault `fs` where FS is empty, `ere` where it is longer than a byte and no expression: then the record has this text
    /// and no fields. Where memory was refused nothing is said of the record.
    ///
    /// POSIX.1-2017, awk, "Variables and Special Variables" (`FS`, `RS`).
    #[inline(always)]
    pub fn read(&mut self, text: &'a [u8], fs: &[u8], paragraph: bool) -> Result<(), Stop>
        ensures record { OnOk result
            (read fs.now paragraph text.entry.now ≡ (self.new.record_now, None)) }
        ensures fault { IfErr result (λ stop. IfFault stop
            (λ fault. read fs.now paragraph text.entry.now ≡ (self.new.record_now, Some fault))) }
    {
        let answer = self.splitter.fit(self.alloc, fs, paragraph, text);
        self.lent = text;
        self.is_own = false;
        self.here.clear();
        self.next = None;
        self.counted = None;
        answer?;
        if !text.is_empty() {
            self.next = Some(0);
        }
        Ok(())
    }

    /// The same record, which lends nothing: a line that was lent is copied into the space that it has for one. What was
    /// found of the fields stays.
    ///
    /// POSIX.1-2017, awk, "Variables and Special Variables" (`NF`: inside `END` the last record's).
    pub fn keep<'b>(self) -> Result<Record<'b>, AllocError>
        ensures { IfOk result (λ kept. kept ≡ self.entry) }
    {
        let Record {
            alloc,
            lent,
            is_own,
            mut here,
            spare,
            next,
            counted,
            splitter,
        } = self;
        here.copy_line(is_own, lent)?;
        Ok(Record {
            alloc,
            lent: b"",
            is_own: true,
            here,
            spare,
            next,
            counted,
            splitter,
        })
    }

    /// The text of the record.
    #[inline]
    pub fn text(&self) -> &[u8]
        ensures { result.now ≡ self.now.record_now.text }
    {
        line(self.is_own, self.here.text.as_slice(), self.lent)
    }

    /// Looks for the fields up to the one with index `n`, so that it may be lent, and those before it. The record stays.
    ///
    /// Where the fields were counted it looks for more at once, since a loop up to `NF` asks for each.
    #[inline]
    pub fn prepare(&mut self, n: usize) -> Result<(), AllocError>
        ensures same { self.new.record_now ≡ self.old.record_now }
        ensures ready { OnOk result (IsPrepared self.new n) }
        ensures more { self.old.found ≤ self.new.found }
    {
        if n <= self.here.ranges.len() {
            return Ok(());
        }
        if self.counted.is_some() {
            return self.find_ahead(n);
        }
        self.find(n)
    }

    /// Looks for fields until there are `count`, or none is left. The record stays.
    #[inline(always)]
    fn find(&mut self, count: usize) -> Result<(), AllocError>
        ensures same { self.new.record_now ≡ self.old.record_now }
        ensures ready { OnOk result (IsPrepared self.new count) }
        ensures more { self.old.found ≤ self.new.found }
    {
        if self.next.is_none() {
            return Ok(());
        }
        let text = line(self.is_own, self.here.text.as_slice(), self.lent);
        self.splitter
            .find(text, &mut self.here.ranges, &mut self.next, count)
    }

    /// Looks for the fields up to the one with index `n`, and for more at once. The record stays.
    #[inline(never)]
    fn find_ahead(&mut self, n: usize) -> Result<(), AllocError>
        ensures same { self.new.record_now ≡ self.old.record_now }
        ensures ready { OnOk result (IsPrepared self.new n) }
        ensures more { self.old.found ≤ self.new.found }
    {
        self.find(n.saturating_mul(AHEAD))
    }

    /// Looks for all fields, so that each may be lent. The record stays.
    pub fn prepare_all(&mut self) -> Result<(), AllocError>
        ensures same { self.new.record_now ≡ self.old.record_now }
        ensures ready { OnOk result (self.new.found ≡ length self.new.record_now.fields) }
        ensures more { self.old.found ≤ self.new.found }
    {
        if self.next.is_none() {
            return Ok(());
        }
        let text = line(self.is_own, self.here.text.as_slice(), self.lent);
        self.splitter
            .find_rest(text, &mut self.here.ranges, &mut self.next)
    }

    /// The value of the field with index `n`, which was prepared: field 0 is the record, and past the last one a field is
    /// uninitialised.
    #[inline]
    pub fn field(&self, n: usize) -> ValueRef<'_>
        requires { IsPrepared self.now n }
        ensures { lent_value result ≡ field_at self.now.record_now n }
    {
        let text = line(self.is_own, self.here.text.as_slice(), self.lent);
        if n == 0 {
            return ValueRef::Maybe(text);
        }
        FieldsRef {
            text,
            ranges: self.here.ranges.as_slice(),
            kinds: self.here.kinds.as_slice(),
        }
        .value(n - 1)
    }

    /// How many fields there are (`NF`). Each may be lent afterwards. The record stays.
    pub fn count(&mut self) -> Result<usize, AllocError>
        ensures count { IfOk result (λ count. count ≡ length self.new.record_now.fields) }
        ensures same { self.new.record_now ≡ self.old.record_now }
        ensures ready { OnOk result (self.new.found ≡ length self.new.record_now.fields) }
        ensures more { self.old.found ≤ self.new.found }
    {
        self.prepare_all()?;
        Ok(self.here.ranges.len())
    }

    /// How many fields there are (`NF`); they need not be looked for. The record stays.
    #[inline]
    pub fn field_count(&mut self) -> Result<usize, AllocError>
        ensures count { IfOk result (λ count. count ≡ length self.new.record_now.fields) }
        ensures same { self.new.record_now ≡ self.old.record_now }
        ensures more { self.old.found ≤ self.new.found }
    {
        if let Some(count) = self.found_count() {
            return Ok(count);
        }
        self.count_anew()
    }

    /// How many fields there are, where they were neither counted nor all looked for: by an FS of one byte counts those that
    /// are left, and else looks for all.
    fn count_anew(&mut self) -> Result<usize, AllocError>
        ensures count { IfOk result (λ count. count ≡ length self.new.record_now.fields) }
        ensures same { self.new.record_now ≡ self.old.record_now }
        ensures more { self.old.found ≤ self.new.found }
    {
        let text = line(self.is_own, self.here.text.as_slice(), self.lent);
        let Some(left) = self.splitter.count_left(text, self.next) else {
            return self.count();
        };
        let Some(count) = left.checked_add(self.here.ranges.len()) else {
            return self.count();
        };
        self.counted = Some(count);
        Ok(count)
    }

    /// How many fields there are (`NF`), where all were looked for.
    #[inline]
    pub fn prepared_count(&self) -> usize
        requires { length self.now.record_now.fields ≤ self.now.found }
        ensures { result ≡ length self.now.record_now.fields }
    {
        self.here.ranges.len()
    }

    /// How many fields there are (`NF`), if all were looked for, or they were counted.
    #[inline]
    pub fn found_count(&self) -> Option<usize>
        ensures { IfSome result (λ count. count ≡ length self.now.record_now.fields) }
    {
        match self.next {
            Some(_) => self.counted,
            None => Some(self.here.ranges.len()),
        }
    }

    /// Assigns a value to the field with index `n`, from 1 on. Past the last field there are uninitialised ones up to it.
    /// The text of the record is then the texts of all fields with `ofs` between them.
    ///
    /// Fault `field` where the index is above the greatest, `length` where the text is longer than a text may be: then the
    /// record stays. Where memory was refused nothing is said of the record.
    ///
    /// POSIX.1-2017, awk, "Variables and Special Variables" (`NF`, `OFS`).
    pub fn assign_field(&mut self, n: usize, value: ValueRef<'_>, ofs: &[u8]) -> Result<(), Stop>
        requires { 1 ≤ n }
        ensures record { OnOk result
            (with_field n (lent_value value.entry) ofs.now self.old.record_now ≡ Ok self.new.record_now) }
        ensures fault { IfErr result (λ stop. IfFault stop (λ fault.
            with_field n (lent_value value.entry) ofs.now self.old.record_now ≡ Err fault)) }
        ensures stays { IfErr result (λ stop. IfFault stop
            (λ _. self.new.record_now ≡ self.old.record_now)) }
    {
        if n > GREATEST_FIELD {
            return Err(Stop::Fault(Fault::Field));
        }
        self.prepare_all()?;
        self.next = None;
        self.counted = None;
        self.is_own = self.here.own(self.is_own, self.lent, ofs)?;
        if self.here.is_joined_by(ofs) && n - 1 <= self.here.ranges.len() {
            self.here.is_joined = false;
            self.here
                .assign(FieldAssignment { n, value }, ofs, &mut self.spare.text)?;
            self.here.is_joined = true;
            return Ok(());
        }
        let fields = FieldsRef {
            text: line(self.is_own, self.here.text.as_slice(), self.lent),
            ranges: self.here.ranges.as_slice(),
            kinds: self.here.kinds.as_slice(),
        };
        self.spare
            .lay_out(fields, FieldAssignment { n, value }, ofs)?;
        mem::swap(&mut self.here, &mut self.spare);
        self.is_own = true;
        Ok(())
    }

    /// Assigns a text to the record, of which it keeps a copy. Its fields are those by `fs`, as `read` has them.
    ///
    /// Fault `fs` or `ere`, as `read` has them: then the record stays. Where memory was refused nothing is said of the
    /// record.
    ///
    /// POSIX.1-2017, awk, "Variables and Special Variables" (`NF`).
    pub fn assign_text(&mut self, text: &[u8], fs: &[u8], paragraph: bool) -> Result<(), Stop>
        ensures record { OnOk result (with_text fs.now paragraph text.now ≡ Ok self.new.record_now) }
        ensures fault { IfErr result (λ stop. IfFault stop (λ fault.
            with_text fs.now paragraph text.now ≡ Err fault)) }
        ensures stays { IfErr result (λ stop. IfFault stop
            (λ _. self.new.record_now ≡ self.old.record_now)) }
    {
        self.splitter.fit(self.alloc, fs, paragraph, text)?;
        self.here.clear();
        self.is_own = true;
        self.next = None;
        self.counted = None;
        self.here.text.extend_from_slice(text)?;
        if !text.is_empty() {
            self.next = Some(0);
        }
        Ok(())
    }
}
