//! A line, and where its fields are in it.

ghost use Rattle.std.specs.Prelude.{◌≡◌, ◌+◌, ◌<◌, ◌≤◌, ◌++◌, true, false, [], None, Some, length, max, replicate, slice_get, slice_range, IfErr, IfOk, MatchOption, OnErr, OnOk};
ghost use Rattle.pawk_fields.specs.FieldSeparator.{range_of};
ghost use Rattle.pawk_value.specs.Conversion.{text_of};
ghost use Rattle.pawk_value.specs.Limits.{length_limit};
ghost use Rattle.pawk_value.specs.Value.{lent_value};
ghost use Rattle.pawk_value.specs.declared.faults.Fault.TheVariants.{Length};
ghost use Rattle.pawk_fields.specs.FieldsOf.{IfFault};
ghost use Rattle.pawk_record.specs.Lines.{Adds, IsJoined, IsLaidOut, Replaces, before_at, exchanged, kind_of, line_of, value_by, values, values_of};
ghost use Rattle.pawk_record.specs.Records.{joined, value_or_uninit, with_value};

use crate::places::{are_joined, before_at, bytes_in, exchange, move_end};
use itoa::Buffer;
use pawk_value::{Fault, LENGTH_LIMIT, Stop, ValueRef, text_in};
use std::alloc::{AllocError, Global};
use std::ops::Range;

/// What a field is. The bytes of a text are in the line, and so is the decimal text of a number.
#[derive(Clone, Copy)]
pub(crate) enum Kind {
    /// Never assigned.
    Uninit,
    /// A number.
    Num(i64),
    /// A text.
    Text,
    /// A text that came from outside.
    Maybe,
}

/// What a value is as a field.
fn kind_of(value: ValueRef<'_>) -> Kind
    ensures { result ≡ kind_of (lent_value value.entry) }
{
    match value {
        ValueRef::Uninit => Kind::Uninit,
        ValueRef::Num(number) => Kind::Num(number),
        ValueRef::Text(_) => Kind::Text,
        ValueRef::Maybe(_) => Kind::Maybe,
    }
}

/// The range with that number, if there is one.
#[inline]
fn range_at(ranges: &[Range<usize>], number: usize) -> Option<(usize, usize)>
    ensures { MatchOption result (slice_get ranges.now number ≡ None)
        (λ r. slice_get ranges.now number ≡ Some (range_of r)) }
{
    match ranges.get(number) {
        None => None,
        Some(range) => Some((range.start, range.end)),
    }
}

/// The kind with that number, if there is one.
#[inline]
fn kind_at(kinds: &[Kind], number: usize) -> Option<Kind>
    ensures { result ≡ slice_get kinds.now number }
{
    kinds.get(number).copied()
}

/// The value of bytes of a kind; without one they came from outside.
#[inline]
fn value_by(kind: Option<Kind>, bytes: &[u8]) -> ValueRef<'_>
    ensures { lent_value result ≡ value_by kind bytes.now }
{
    match kind {
        None => ValueRef::Maybe(bytes),
        Some(Kind::Uninit) => ValueRef::Uninit,
        Some(Kind::Num(number)) => ValueRef::Num(number),
        Some(Kind::Text) => ValueRef::Text(bytes),
        Some(Kind::Maybe) => ValueRef::Maybe(bytes),
    }
}

/// A line that is lent, with its fields: where each one is, as a range in bytes counted from 0, and what it is. A
/// field without a kind is a text that came from outside.
#[derive(Clone, Copy)]
pub(crate) struct FieldsRef<'a> {
    pub(crate) text: &'a [u8],
    pub(crate) ranges: &'a [Range<usize>],
    pub(crate) kinds: &'a [Kind],
}

impl<'a> FieldsRef<'a> {
    /// The value of the field with that number, counted from 0; past the last one there is none.
    #[inline]
    pub(crate) fn value(self, number: usize) -> ValueRef<'a>
        ensures { lent_value result ≡ value_or_uninit (slice_get
            (values self.entry.text.now self.entry.ranges.now self.entry.kinds.now) number) }
    {
        match range_at(self.ranges, number) {
            None => ValueRef::Uninit,
            Some((start, end)) => {
                value_by(kind_at(self.kinds, number), bytes_in(self.text, start, end))
            }
        }
    }
}

/// An assignment of a value to the field at `n`, counted from 1.
#[derive(Clone, Copy)]
pub(crate) struct FieldAssignment<'a> {
    pub(crate) n: usize,
    pub(crate) value: ValueRef<'a>,
}

/// The value of the field with that number, counted from 0, after an assignment.
#[inline]
fn value_after<'a>(
    fields: FieldsRef<'a>,
    change: FieldAssignment<'a>,
    number: usize,
) -> ValueRef<'a>
    requires first { 1 ≤ change.n }
    requires within { number < max change.n (length fields.ranges.now) }
    ensures { slice_get (with_value change.entry.n (lent_value change.entry.value)
        (values fields.entry.text.now fields.entry.ranges.now fields.entry.kinds.now)) number
        ≡ Some (lent_value result) }
{
    if number + 1 == change.n {
        change.value
    } else {
        fields.value(number)
    }
}

/// A line of its own, with its fields.
#[derive(Drop)]
pub(crate) struct Layout {
    pub(crate) text: Vec<u8>,
    pub(crate) ranges: Vec<Range<usize>>,
    pub(crate) kinds: Vec<Kind>,
    /// The OFS of the last assignment that laid the fields out.
    pub(crate) ofs: Vec<u8>,
    /// Whether the line is the texts of the fields with that OFS between them.
    pub(crate) is_joined: bool,
}

impl Layout {
    /// An empty line without fields.
    pub(crate) fn new(alloc: Global) -> Layout
        ensures text { result.text.items ≡ [] }
        ensures ranges { result.ranges.items ≡ [] }
        ensures kinds { result.kinds.items ≡ [] }
        ensures apart { result.is_joined ≡ false }
    {
        Layout {
            text: Vec::new(alloc),
            ranges: Vec::new(alloc),
            kinds: Vec::new(alloc),
            ofs: Vec::new(alloc),
            is_joined: false,
        }
    }

    /// Empties the line, and keeps its capacity.
    pub(crate) fn clear(&mut self)
        ensures text { self.new.text.items ≡ [] }
        ensures ranges { self.new.ranges.items ≡ [] }
        ensures kinds { self.new.kinds.items ≡ [] }
        ensures apart { self.new.is_joined ≡ false }
    {
        if !self.text.is_empty() {
            self.text.clear();
        }
        self.ranges.clear();
        if !self.kinds.is_empty() {
            self.kinds.clear();
        }
        self.is_joined = false;
    }

    /// Whether the line is the texts of the fields with that OFS between them.
    #[inline]
    pub(crate) fn is_joined_by(&self, ofs: &[u8]) -> bool
        ensures { result ≡ true
            → (self.now.is_joined ≡ true) × (self.now.ofs.items ≡ ofs.now) }
    {
        self.is_joined && self.ofs.as_slice() == ofs
    }

    /// Says that the line is the texts of the fields with that OFS between them.
    fn set_joined(&mut self, ofs: &[u8]) -> Result<(), AllocError>
        ensures joined { OnOk result
            ((self.new.is_joined ≡ true) × (self.new.ofs.items ≡ ofs.now)) }
        ensures refused { OnErr result (self.new.is_joined ≡ false) }
        ensures text { self.new.text.items ≡ self.old.text.items }
        ensures ranges { self.new.ranges.items ≡ self.old.ranges.items }
        ensures kinds { self.new.kinds.items ≡ self.old.kinds.items }
    {
        self.is_joined = false;
        if self.ofs.as_slice() != ofs {
            self.ofs.clear();
            self.ofs.extend_from_slice(ofs)?;
        }
        self.is_joined = true;
        Ok(())
    }

    /// Says of each field, where that is said of none, that it came from outside.
    fn set_outside(&mut self) -> Result<(), AllocError>
        requires { self.old.kinds.items ≡ [] }
        ensures kinds { OnOk result (self.new.kinds.items
            ≡ replicate (length self.old.ranges.items) Kind.Maybe) }
        ensures text { self.new.text.items ≡ self.old.text.items }
        ensures ranges { self.new.ranges.items ≡ self.old.ranges.items }
        ensures mark { self.new.is_joined ≡ self.old.is_joined }
    {
        for _ in 0..self.ranges.len() {
            self.kinds.push(Kind::Maybe)?;
        }
        Ok(())
    }

    /// Makes a copy of a lent line its own where the fields lie in it with `ofs` between them and all came
    /// from outside. Whether the line is its own afterwards.
    pub(crate) fn own(&mut self, is_own: bool, lent: &[u8], ofs: &[u8]) -> Result<bool, AllocError>
        requires own { self.old.is_joined ≡ true → is_own ≡ true }
        requires joined { self.old.is_joined ≡ true → IsJoined self.old }
        ensures line { IfOk result (λ own. line_of own self.new.text.items lent.now
            ≡ line_of is_own self.old.text.items lent.now) }
        ensures fields { IfOk result (λ own. values (line_of own self.new.text.items lent.now)
            self.new.ranges.items self.new.kinds.items
            ≡ values (line_of is_own self.old.text.items lent.now) self.old.ranges.items
            self.old.kinds.items) }
        ensures own { IfOk result (λ own. self.new.is_joined ≡ true → own ≡ true) }
        ensures joined { OnOk result (self.new.is_joined ≡ true → IsJoined self.new) }
        ensures refused { OnErr result ((is_own ≡ false) × (self.new.is_joined ≡ false)) }
        ensures ranges { self.new.ranges.items ≡ self.old.ranges.items }
    {
        if is_own || !self.kinds.is_empty() || !are_joined(lent, self.ranges.as_slice(), ofs) {
            return Ok(is_own);
        }
        self.text.clear();
        self.text.extend_from_slice(lent)?;
        self.set_outside()?;
        self.set_joined(ofs)?;
        Ok(true)
    }

    /// Makes the line its own: copies one that is lent into the space that is there. The fields stay.
    pub(crate) fn copy_line(&mut self, is_own: bool, lent: &[u8]) -> Result<(), AllocError>
        ensures line { OnOk result
            (self.new.text.items ≡ line_of is_own self.old.text.items lent.now) }
        ensures own { is_own ≡ true → self.new ≡ self.old }
        ensures ranges { self.new.ranges.items ≡ self.old.ranges.items }
        ensures kinds { self.new.kinds.items ≡ self.old.kinds.items }
        ensures mark { self.new.is_joined ≡ self.old.is_joined }
    {
        if is_own {
            return Ok(());
        }
        self.text.clear();
        self.text.extend_from_slice(lent)
    }

    /// Adds a field at the end: some bytes, and then the text of its value. Fault `length` where the line would be
    /// longer than a text may be.
    fn push(&mut self, before: &[u8], value: ValueRef<'_>) -> Result<(), Stop>
        ensures added { OnOk result (Adds before.now (lent_value value.entry) self.old self.new) }
        ensures short { OnOk result (length self.new.text.items ≤ length_limit) }
        ensures fault { IfErr result (λ stop. IfFault stop (λ fault. (fault ≡ Length)
            × (length_limit < length self.old.text.items
            + (length before.now + length (text_of (lent_value value.entry)))))) }
        ensures stays { IfErr result (λ stop. IfFault stop (λ _. self.new ≡ self.old)) }
        ensures ofs { self.new.ofs ≡ self.old.ofs }
        ensures mark { self.new.is_joined ≡ self.old.is_joined }
    {
        let mut buffer = Buffer::new();
        let text = text_in(value, &mut buffer);
        let length = before.len().saturating_add(text.len());
        if self.text.len().saturating_add(length) > LENGTH_LIMIT {
            return Err(Stop::Fault(Fault::Length));
        }
        self.text.extend_from_slice(before)?;
        let start = self.text.len();
        self.text.extend_from_slice(text)?;
        self.ranges.push(start..self.text.len())?;
        self.kinds.push(kind_of(value))?;
        Ok(())
    }

    /// Puts a value in the place of the field with that number, counted from 0, which is in that range. What is
    /// after it moves. Fault `length` where the line would be longer than a text may be.
    fn replace(
        &mut self,
        number: usize,
        range: (usize, usize),
        value: ValueRef<'_>,
        room: &mut Vec<u8>,
    ) -> Result<(), Stop>
        requires range { slice_get self.old.ranges.items number ≡ Some (range_of range) }
        requires order { range.0 ≤ range.1 }
        requires within { range.1 ≤ length self.old.text.items }
        requires number { number < length self.old.ranges.items }
        requires kind { number < length self.old.kinds.items }
        ensures replaced { OnOk result (Replaces number range (lent_value value.entry)
            self.old self.new) }
        ensures short { OnOk result (length self.new.text.items ≤ length_limit) }
        ensures fault { IfErr result (λ stop. IfFault stop (λ fault. (fault ≡ Length)
            × (length_limit < length (exchanged self.old.text.items range.0 range.1
            (text_of (lent_value value.entry)))))) }
        ensures stays { IfErr result (λ stop. IfFault stop (λ _. self.new ≡ self.old)) }
        ensures ofs { self.new.ofs ≡ self.old.ofs }
        ensures mark { self.new.is_joined ≡ self.old.is_joined }
    {
        let (start, end) = range;
        let mut buffer = Buffer::new();
        let text = text_in(value, &mut buffer);
        let rest = self.text.len() - (end - start);
        if rest.saturating_add(text.len()) > LENGTH_LIMIT {
            return Err(Stop::Fault(Fault::Length));
        }
        exchange(&mut self.text, range, text, room)?;
        move_end(
            self.ranges.as_mut_slice(),
            number,
            range,
            start + text.len(),
        );
        self.kinds[number] = kind_of(value);
        Ok(())
    }

    /// Assigns to a field, or to one after the last, in a line that is the texts of the fields with `ofs`
    /// between them, and stays so. Fault `length` where the line would be longer than a text may be; then it stays.
    pub(crate) fn assign(
        &mut self,
        change: FieldAssignment<'_>,
        ofs: &[u8],
        room: &mut Vec<u8>,
    ) -> Result<(), Stop>
        requires first { 1 ≤ change.n }
        requires last { change.n ≤ length self.old.ranges.items + 1 }
        requires joined { IsLaidOut ofs.now (values_of self.old) self.old }
        ensures line { OnOk result (IsLaidOut ofs.now (with_value change.entry.n
            (lent_value change.entry.value) (values_of self.old)) self.new) }
        ensures short { OnOk result (length self.new.text.items ≤ length_limit) }
        ensures fault { IfErr result (λ stop. IfFault stop (λ fault. (fault ≡ Length)
            × (length_limit < length (joined ofs.now (with_value change.entry.n
            (lent_value change.entry.value) (values_of self.old)))))) }
        ensures stays { IfErr result (λ stop. IfFault stop (λ _. self.new ≡ self.old)) }
        ensures ofs { self.new.ofs ≡ self.old.ofs }
        ensures mark { self.new.is_joined ≡ self.old.is_joined }
    {
        let number = change.n - 1;
        match range_at(self.ranges.as_slice(), number) {
            Some(range) => self.replace(number, range, change.value, room),
            None => self.push(before_at(ofs, number), change.value),
        }
    }

    /// Lays out the fields after an assignment, with OFS between them. Fault `length` where their line is longer than a
    /// text may be.
    pub(crate) fn lay_out(
        &mut self,
        fields: FieldsRef<'_>,
        change: FieldAssignment<'_>,
        ofs: &[u8],
    ) -> Result<(), Stop>
        requires first { 1 ≤ change.n }
        ensures line { OnOk result (IsLaidOut ofs.now (with_value change.entry.n
            (lent_value change.entry.value)
            (values fields.entry.text.now fields.entry.ranges.now fields.entry.kinds.now))
            self.new) }
        ensures short { OnOk result (length self.new.text.items ≤ length_limit) }
        ensures fault { IfErr result (λ stop. IfFault stop (λ fault. (fault ≡ Length)
            × (length_limit < length (joined ofs.now (with_value change.entry.n
            (lent_value change.entry.value) (values fields.entry.text.now
            fields.entry.ranges.now fields.entry.kinds.now)))))) }
        ensures joined { OnOk result
            ((self.new.is_joined ≡ true) × (self.new.ofs.items ≡ ofs.now)) }
    {
        self.clear();
        for number in 0..change.n.max(fields.ranges.len()) {
            self.push(before_at(ofs, number), value_after(fields, change, number))?;
        }
        self.set_joined(ofs)?;
        Ok(())
    }
}
