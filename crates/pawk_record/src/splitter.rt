//! What separates the fields of a record.

ghost use Rattle.std.specs.Prelude.{◌≡◌, ◌≤◌, ◌<◌, ◌⊎◌, ◌++◌, true, length, map, Some, None, Ok, Err, IfErr, IfOk, IfSome, MatchOption, OnErr, OnOk};
ghost use Rattle.std.specs.Option.{ForSome};
ghost use Rattle.pawk_fields.specs.FieldSeparator.{range_of, ranges_from};
ghost use Rattle.pawk_fields.specs.FieldList.{fields_of};
ghost use Rattle.pawk_fields.specs.FieldsOf.{IfFault};
ghost use Rattle.pawk_fields.specs.FieldWalks.{most_left};
ghost use Rattle.pawk_record.specs.Splitting.{IsBy, IsSplitter, first_place, left, ranges_or_none};

use pawk_ere::Matcher;
use pawk_fields::{
    FieldSeparator, append_fields, byte_separator, count_from, expression_matcher, find_words,
};
use pawk_value::{Fault, Stop};
use std::alloc::{AllocError, Global};
use std::ops::Range;

/// What separates by an FS.
#[derive(Drop)]
pub(crate) enum By {
    /// An FS of one byte.
    Plain(FieldSeparator),
    /// A longer one: the matches of that expression.
    Expression(Matcher),
    /// Nothing: the text is no FS.
    Bad(Fault),
}

/// What separates by an FS of more than one byte.
fn by_expression(alloc: Global, fs: &[u8], paragraph: bool) -> Result<By, AllocError>
    requires { 2 ≤ length fs.now }
    ensures { IfOk result (λ by. IsBy fs.now paragraph by) }
{
    let _ = paragraph;
    match expression_matcher(alloc, fs) {
        Ok(matcher) => Ok(By::Expression(matcher)),
        Err(Stop::Fault(fault)) => Ok(By::Bad(fault)),
        Err(Stop::Memory) => Err(AllocError),
    }
}

/// What separates by an FS.
fn by_fs(alloc: Global, fs: &[u8], paragraph: bool) -> Result<By, AllocError>
    ensures { IfOk result (λ by. IsBy fs.now paragraph by) }
{
    match fs {
        [] => Ok(By::Bad(Fault::Fs)),
        [byte] => Ok(By::Plain(byte_separator(*byte, paragraph))),
        _ => by_expression(alloc, fs, paragraph),
    }
}

/// Looks for the field from a place on, and adds its range. Where the next one is looked for.
#[inline(always)]
fn find_field(
    separator: FieldSeparator,
    text: &[u8],
    ranges: &mut Vec<Range<usize>>,
    place: usize,
) -> Result<Option<usize>, AllocError>
    requires { place ≤ length text.now }
    ensures same { IfOk result (λ next.
        ranges.new.items ++ map range_of (ranges_from separator text.now next)
        ≡ ranges.old.items ++ map range_of (ranges_from separator text.now (Some place))) }
    ensures refused { OnErr result (ranges.new.items ≡ ranges.old.items) }
    ensures within { IfOk result (λ next. ForSome next (λ p. (place < p) × (p ≤ length text.now))) }
    ensures more { length ranges.old.items ≤ length ranges.new.items }
{
    let Some(step) = separator.next_field(text, place) else {
        return Ok(None);
    };
    ranges.push(step.start..step.end)?;
    Ok(step.next)
}

/// Looks for fields until there are `count`, or none is left.
#[inline(always)]
fn find_until(
    separator: FieldSeparator,
    text: &[u8],
    ranges: &mut Vec<Range<usize>>,
    next: &mut Option<usize>,
    count: usize,
) -> Result<(), AllocError>
    requires { ForSome next.old (λ p. p ≤ length text.now) }
    ensures same { ranges.new.items ++ map range_of (ranges_from separator text.now next.new)
        ≡ ranges.old.items ++ map range_of (ranges_from separator text.now next.old) }
    ensures within { ForSome next.new (λ p. p ≤ length text.now) }
    ensures enough { OnOk result ((count ≤ length ranges.new.items) ⊎ (next.new ≡ None)) }
    ensures more { length ranges.old.items ≤ length ranges.new.items }
{
    while let Some(place) = *next {
        if ranges.len() >= count {
            return Ok(());
        }
        *next = find_field(separator, text, ranges, place)?;
    }
    Ok(())
}

/// Looks for fields until there are `count`, or none is left. The place is kept in a register meanwhile.
#[inline(never)]
fn find_each(
    separator: FieldSeparator,
    text: &[u8],
    ranges: &mut Vec<Range<usize>>,
    next: &mut Option<usize>,
    count: usize,
) -> Result<(), AllocError>
    requires { ForSome next.old (λ p. p ≤ length text.now) }
    ensures same { ranges.new.items ++ map range_of (ranges_from separator text.now next.new)
        ≡ ranges.old.items ++ map range_of (ranges_from separator text.now next.old) }
    ensures within { ForSome next.new (λ p. p ≤ length text.now) }
    ensures enough { OnOk result ((count ≤ length ranges.new.items) ⊎ (next.new ≡ None)) }
    ensures more { length ranges.old.items ≤ length ranges.new.items }
{
    let mut place = *next;
    let answer = find_until(separator, text, ranges, &mut place, count);
    *next = place;
    answer
}

/// Looks for fields until there are `count`, or none is left; between blanks for many at once.
#[inline(always)]
fn find_fields(
    separator: FieldSeparator,
    text: &[u8],
    ranges: &mut Vec<Range<usize>>,
    next: &mut Option<usize>,
    count: usize,
) -> Result<(), AllocError>
    requires { ForSome next.old (λ p. p ≤ length text.now) }
    ensures same { ranges.new.items ++ map range_of (ranges_from separator text.now next.new)
        ≡ ranges.old.items ++ map range_of (ranges_from separator text.now next.old) }
    ensures within { ForSome next.new (λ p. p ≤ length text.now) }
    ensures enough { OnOk result ((count ≤ length ranges.new.items) ⊎ (next.new ≡ None)) }
    ensures more { length ranges.old.items ≤ length ranges.new.items }
{
    match separator {
        FieldSeparator::Blanks => find_words(text, ranges, next, count),
        _ => find_each(separator, text, ranges, next, count),
    }
}

/// Adds the ranges of all fields by an expression.
#[inline(never)]
fn find_all(
    matcher: &mut Matcher,
    ranges: &mut Vec<Range<usize>>,
    text: &[u8],
    fs: &[u8],
    paragraph: bool,
) -> Result<(), AllocError>
    requires { IsBy fs.now paragraph (By.Expression matcher.old) }
    ensures same { OnOk result (ranges.new.items
        ≡ ranges.old.items ++ map range_of (ranges_or_none (fields_of fs.now paragraph text.now))) }
    ensures refused { OnErr result (ranges.new.items ≡ ranges.old.items) }
    ensures more { length ranges.old.items ≤ length ranges.new.items }
    ensures matcher { matcher.new ≡ matcher.old }
{
    match append_fields(matcher, ranges, text, fs, paragraph) {
        Ok(()) => Ok(()),
        Err(Stop::Memory) => Err(AllocError),
        Err(Stop::Fault(_)) => unreachable!(),
    }
}

/// Whether two texts are the same.
#[inline(never)]
fn are_same(a: &[u8], b: &[u8]) -> bool
    ensures { result ≡ true → a.now ≡ b.now }
{
    a == b
}

/// What separates the fields of records: by an FS, and in paragraph mode.
#[derive(Drop)]
pub(crate) struct Splitter {
    pub(crate) fs: Vec<u8>,
    pub(crate) paragraph: bool,
    pub(crate) by: By,
}

impl Splitter {
    /// One of the empty FS, by which no record has fields. Takes no memory.
    pub(crate) fn new(alloc: Global) -> Splitter
        ensures { IsSplitter result }
    {
        Splitter {
            fs: Vec::new(alloc),
            paragraph: false,
            by: By::Bad(Fault::Fs),
        }
    }

    /// Whether it is one of this FS. An FS of one byte, the usual one, is compared at once.
    #[inline(always)]
    fn is_of(&self, fs: &[u8], paragraph: bool) -> bool
        ensures { result ≡ true
            → (self.now.fs.items ≡ fs.now) × (self.now.paragraph ≡ paragraph) }
    {
        if self.paragraph != paragraph {
            return false;
        }
        match (self.fs.as_slice(), fs) {
            ([old], [byte]) => old == byte,
            (old, _) => are_same(old, fs),
        }
    }

    /// One of an FS.
    fn with(alloc: Global, fs: &[u8], paragraph: bool) -> Result<Splitter, AllocError>
        ensures right { IfOk result (λ splitter. IsSplitter splitter) }
        ensures fs { IfOk result (λ splitter. splitter.fs.items ≡ fs.now) }
        ensures paragraph { IfOk result (λ splitter. splitter.paragraph ≡ paragraph) }
    {
        Ok(Splitter {
            fs: Vec::from_slice(alloc, fs)?,
            paragraph,
            by: by_fs(alloc, fs, paragraph)?,
        })
    }

    /// The fault of a record, if it has no fields by the FS.
    #[inline]
    fn fault(&self, text: &[u8]) -> Option<Fault>
        requires { IsSplitter self.now }
        ensures { let fields = fields_of self.now.fs.items self.now.paragraph text.now in
            MatchOption result (fields ≡ Ok (left self.now text.now (first_place text.now)))
            (λ fault. fields ≡ Err fault) }
    {
        if text.is_empty() {
            return None;
        }
        match &self.by {
            By::Plain(_) => None,
            By::Expression(_) => None,
            By::Bad(fault) => Some(*fault),
        }
    }

    /// Makes it one of the FS for a record that has fields by it. Fault `fs` or `ere` where it has none; then the splitter
    /// stays.
    #[inline(never)]
    fn refit(&mut self, alloc: Global, fs: &[u8], paragraph: bool, text: &[u8]) -> Result<(), Stop>
        requires { IsSplitter self.old }
        ensures right { IsSplitter self.new }
        ensures fields { OnOk result (fields_of fs.now paragraph text.now
            ≡ Ok (left self.new text.now (first_place text.now))) }
        ensures fault { IfErr result (λ stop. IfFault stop
            (λ fault. fields_of fs.now paragraph text.now ≡ Err fault)) }
        ensures refused { OnErr result (self.new ≡ self.old) }
    {
        let fresh = Splitter::with(alloc, fs, paragraph)?;
        if let Some(fault) = fresh.fault(text) {
            return Err(Stop::Fault(fault));
        }
        *self = fresh;
        Ok(())
    }

    /// Makes it one of the FS, unless it is one, for a record that has fields by it. Fault `fs` or `ere` where it has none;
    /// then the splitter stays.
    #[inline]
    pub(crate) fn fit(
        &mut self,
        alloc: Global,
        fs: &[u8],
        paragraph: bool,
        text: &[u8],
    ) -> Result<(), Stop>
        requires { IsSplitter self.old }
        ensures right { IsSplitter self.new }
        ensures fields { OnOk result (fields_of fs.now paragraph text.now
            ≡ Ok (left self.new text.now (first_place text.now))) }
        ensures fault { IfErr result (λ stop. IfFault stop
            (λ fault. fields_of fs.now paragraph text.now ≡ Err fault)) }
        ensures refused { OnErr result (self.new ≡ self.old) }
    {
        if !self.is_of(fs, paragraph) {
            return self.refit(alloc, fs, paragraph, text);
        }
        match self.fault(text) {
            Some(fault) => Err(Stop::Fault(fault)),
            None => Ok(()),
        }
    }

    /// How many fields of a record are left, if they are counted without looking for them: by an FS of one byte.
    pub(crate) fn count_left(&self, text: &[u8], next: Option<usize>) -> Option<usize>
        requires { IfSome next (λ place. place ≤ length text.now) }
        ensures { IfSome result (λ count. count ≡ length (left self.now text.now next)) }
    {
        match &self.by {
            By::Plain(separator) => Some(count_from(*separator, text, next)),
            By::Expression(_) | By::Bad(_) => None,
        }
    }

    /// Looks for all fields of a record from the next one on. What was found and what is left are together what they were,
    /// also where memory was refused.
    #[inline(never)]
    pub(crate) fn find_rest(
        &mut self,
        text: &[u8],
        ranges: &mut Vec<Range<usize>>,
        next: &mut Option<usize>,
    ) -> Result<(), AllocError>
        requires right { IsSplitter self.old }
        requires within { ForSome next.old (λ p. p ≤ length text.now) }
        ensures same { ranges.new.items ++ map range_of (left self.new text.now next.new)
            ≡ ranges.old.items ++ map range_of (left self.old text.now next.old) }
        ensures within { ForSome next.new (λ p. p ≤ length text.now) }
        ensures none { OnOk result (next.new ≡ None) }
        ensures more { length ranges.old.items ≤ length ranges.new.items }
        ensures splitter { self.new ≡ self.old }
    {
        if next.is_none() {
            return Ok(());
        }
        match &mut self.by {
            By::Plain(separator) => find_fields(*separator, text, ranges, next, usize::MAX),
            By::Expression(matcher) => {
                find_all(matcher, ranges, text, self.fs.as_slice(), self.paragraph)?;
                *next = None;
                Ok(())
            }
            By::Bad(_) => {
                *next = None;
                Ok(())
            }
        }
    }

    /// Looks for fields of a record from the next one on, until there are `count` or none is left; by an expression for
    /// all. What was found and what is left are together what they were, also where memory was refused.
    #[inline]
    pub(crate) fn find(
        &mut self,
        text: &[u8],
        ranges: &mut Vec<Range<usize>>,
        next: &mut Option<usize>,
        count: usize,
    ) -> Result<(), AllocError>
        requires right { IsSplitter self.old }
        requires within { ForSome next.old (λ p. p ≤ length text.now) }
        ensures same { ranges.new.items ++ map range_of (left self.new text.now next.new)
            ≡ ranges.old.items ++ map range_of (left self.old text.now next.old) }
        ensures within { ForSome next.new (λ p. p ≤ length text.now) }
        ensures enough { OnOk result
            ((count ≤ length ranges.new.items) ⊎ (next.new ≡ None)) }
        ensures more { length ranges.old.items ≤ length ranges.new.items }
        ensures splitter { self.new ≡ self.old }
    {
        if let By::Plain(separator) = &self.by {
            return find_fields(*separator, text, ranges, next, count);
        }
        self.find_rest(text, ranges, next)
    }
}
