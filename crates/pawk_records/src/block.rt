//! One block of a file.

ghost use Rattle.std.specs.Prelude.{◌≡◌, ◌<◌, ◌≤◌, ◌++◌, ◌↔◌, [], length, OnOk, OnErr, IfOk, IsTrue, drop};
ghost use Rattle.pawk_records.specs.Separator.{rs_of};
ghost use Rattle.pawk_records.specs.Blocks.{EndsRecord};
ghost use Rattle.pawk_records.specs.Mending.{IsHead};

use crate::{Census, CountedBytes, Separator};
use memchr::memchr;
use std::alloc::{AllocError, Global};
use std::marker::Model;
use std::mem;

/// Consecutive bytes of a file: what a vector holds from a place on, with a census of the vector's newlines. The bytes before
/// that place went to the block before it.
#[derive(Drop)]
pub struct Block {
    bytes: Vec<u8>,
    from: usize,
    census: Census,
}

impl Model for Block {
    ghost use Rattle.std.specs.Prelude.{List, ℕ, ◌≤◌, drop, vec_len};
    ghost use Rattle.pawk_records.specs.Census.{IsCensus};

    ghost Value = { List ℕ };

    ghost view = { λ b. drop b.from b.bytes.items };

    ghost invariant = { λ b. (b.from ≤ vec_len b.bytes) × IsCensus b.census b.bytes.items };
}

/// How many bytes of a text belong to a record that began before it: with the separator that ends
/// it, or all where there is none. Paragraphs are never parted.
fn head_length(separator: Separator, text: &[u8]) -> usize
    ensures { IsHead (rs_of separator) text.now result }
{
    match separator {
        Separator::Byte(byte) => match memchr(byte, text) {
            Some(end) => end + 1,
            None => text.len(),
        },
        Separator::Paragraph => text.len(),
    }
}

/// Whether a text is empty, or a record may end with it.
fn may_end(separator: Separator, text: &[u8]) -> bool
    ensures { IsTrue result ↔ (0 < length text.now → EndsRecord (rs_of separator) text.now) }
{
    match (separator, text.last()) {
        (_, None) => true,
        (Separator::Byte(byte), Some(last)) => *last == byte,
        (Separator::Paragraph, Some(_)) => false,
    }
}

impl Block {
    /// The block of these bytes, of which nothing is counted. Takes no memory.
    pub fn new(bytes: Vec<u8>) -> Self
        ensures { result ≡ bytes.items }
    {
        let census = Census::new(*bytes.allocator());
        Block {
            bytes,
            from: 0,
            census,
        }
    }

    /// A block without bytes, with space for the given number of them.
    ///
    /// The error comes where memory was refused.
    pub fn with_capacity(alloc: Global, size: usize) -> Result<Self, AllocError>
        ensures { IfOk result (λ block. block ≡ []) }
    {
        Ok(Block::new(Vec::with_capacity(alloc, size)?))
    }

    /// Appends bytes and counts their newlines, so that the records of the block need not be counted by a second look at it.
    ///
    /// An error comes where memory was refused; the block may then hold the bytes or not.
    pub fn extend(&mut self, bytes: &[u8]) -> Result<(), AllocError>
        ensures { OnOk result (self.new ≡ self.old ++ bytes.now) }
    {
        self.bytes.extend_from_slice(bytes)?;
        self.census.grow(self.bytes.as_slice())
    }

    /// The bytes of the block with their census.
    pub(crate) fn counted_bytes(&self) -> CountedBytes<'_>
        ensures { result ≡ self.now }
    {
        CountedBytes::new(self.bytes.as_slice(), self.from, &self.census)
    }

    /// The bytes of the block, lent.
    pub fn bytes(&self) -> &[u8]
        ensures { result.now ≡ self.now }
    {
        let (_, bytes) = self.bytes.split_at(self.from);
        bytes
    }

    /// Appends bytes, with space for no more than these. After an error the block is as it was.
    fn append(&mut self, bytes: &[u8]) -> Result<(), AllocError>
        ensures ok { OnOk result (self.new ≡ self.old ++ bytes.now) }
        ensures err { OnErr result (self.new ≡ self.old) }
    {
        self.bytes.reserve_exact(bytes.len())?;
        self.bytes.extend_from_slice(bytes)
    }

    /// Leaves the first `count` bytes off; nothing is moved.
    fn skip(&mut self, count: usize)
        requires { count ≤ length self.old }
        ensures { self.new ≡ drop count self.old }
    {
        self.from += count;
    }

    /// Leaves all bytes off and gives the vector's memory back.
    fn release(&mut self)
        ensures { self.new ≡ [] }
    {
        let alloc = *self.bytes.allocator();
        self.from = 0;
        self.census = Census::new(alloc);
        self.bytes = Vec::new(alloc);
    }

    /// Gives the block the head of the next one, so that no record goes on there. Where nothing is
    /// left of the next block the two change places, so that the one that holds bytes comes last.
    ///
    /// After an error, which comes where memory was refused, both blocks are as they were.
    pub(crate) fn mend(&mut self, next: &mut Block, separator: Separator) -> Result<(), AllocError>
        ensures same { self.new ++ next.new ≡ self.old ++ next.old }
        ensures mended { OnOk result (0 < length self.new → EndsRecord (rs_of separator) self.new) }
    {
        if may_end(separator, self.bytes()) {
            return Ok(());
        }
        let head = head_length(separator, next.bytes());
        let (front, _) = next.bytes().split_at(head);
        self.append(front)?;
        next.skip(head);
        if next.bytes().is_empty() {
            next.release();
            mem::swap(self, next);
        }
        Ok(())
    }
}
