//! A buffer that windows of a source are read into.

ghost use Rattle.std.specs.Prelude.{◌≡◌, ◌≢◌, ℕ, ◌*◌, ◌^◌, ◌<◌, ◌≤◌, ◌++◌, [], length, take, drop, max, true, false, Ok, Err, IfOk, OnOk, OnErr};
ghost use Rattle.std.specs.Io.KnownBytes.{Keeps};
ghost use Rattle.pawk_records.specs.Separator.{rs_of};
ghost use Rattle.pawk_window.specs.Cuts.{NoneEnds, MayCut};
ghost use Rattle.pawk_device.specs.Device.{CountsFailure};
ghost use Rattle.pawk_window.specs.Windows.{Comes, ComesNext, HasCome, HaveCome, HasEnded, HoldsRecords, empty_window, forgotten};
ghost use Rattle.pawk_window.specs.declared.window.FillError.TheVariants as at;

use crate::buffer::{
    copy_to_front, move_to_front, next_length, read_after, set_length, wanted_length,
};
use crate::cut::whole_length;
use pawk_device::{Failed, Source};
use pawk_records::Separator;
use std::alloc::{AllocError, Global};
use std::marker::Model;
use std::mem;
use thiserror::Error;

/// Why a window was not filled.
#[derive(Clone, Copy, Debug, Drop, Error)]
pub enum FillError {
    /// Memory was refused.
    #[error("out of memory")]
    Memory,
    /// A read failed.
    #[error("a read failed")]
    Failed,
}

impl From<AllocError> for FillError {
    ghost use Rattle.pawk_window.specs.declared.window.FillError.TheVariants.{Memory};

    ghost from_gives = { λ _ e. e ≡ Memory };

    fn from(_error: AllocError) -> FillError {
        FillError::Memory
    }
}

impl From<Failed> for FillError {
    ghost use Rattle.pawk_window.specs.declared.window.FillError.TheVariants as at;

    ghost from_gives = { λ _ e. e ≡ at.Failed };

    fn from(_error: Failed) -> FillError {
        FillError::Failed
    }
}

/// Bytes of a source, in a buffer that is used again for each window: whole records, and what came of the next one.
#[derive(Drop)]
pub struct Window {
    separator: Separator,
    size: usize,
    /// How many bytes the buffer is to have before the next read, by what came in the last one.
    wanted: usize,
    buffer: Vec<u8>,
    filled: usize,
    whole: usize,
    is_ended: bool,
}

impl Model for Window {
    ghost use Rattle.pawk_records.specs.Separator.{rs_of};
    ghost use Rattle.pawk_window.specs.Windows.{Contents, LiesIn, contents_of};

    ghost Value = { Contents };

    ghost view = { λ w. contents_of (rs_of w.separator) w.size w.buffer.items w.whole w.filled w.is_ended };

    ghost invariant = { λ w. LiesIn (rs_of w.separator) w.size w.buffer.items w.whole w.filled };
}

/// How many of the bytes are whole records, where the first `known` were there before a read: all of them at the end of the
/// source, which gave none.
fn whole_after(bytes: &[u8], known: usize, separator: Separator) -> usize
    requires within { known ≤ length bytes.now }
    requires open { NoneEnds (rs_of separator) (take known bytes.now) }
    ensures within { result ≤ length bytes.now }
    ensures end { known ≡ length bytes.now → result ≡ length bytes.now }
    ensures cut { known < length bytes.now → MayCut (rs_of separator) bytes.now result }
    ensures open { NoneEnds (rs_of separator) (drop result bytes.now) }
{
    if known == bytes.len() {
        known
    } else {
        whole_length(bytes, known, separator)
    }
}

impl Window {
    /// A window of `size` bytes, in which nothing has come. Takes no memory.
    pub fn new(alloc: Global, separator: Separator, size: usize) -> Self
        requires { 0 < size }
        ensures { result ≡ empty_window (rs_of separator) size 0 }
    {
        Window {
            separator,
            size,
            wanted: 0,
            buffer: Vec::new(alloc),
            filled: 0,
            whole: 0,
            is_ended: false,
        }
    }

    /// The bytes of the whole records.
    pub fn records(&self) -> &[u8]
        ensures { result.now ≡ self.now.whole }
    {
        let (records, _) = self.buffer.split_at(self.whole);
        records
    }

    /// Whether the source has ended: no record follows these.
    pub fn is_ended(&self) -> bool
        ensures { result ≡ self.now.ended }
    {
        self.is_ended
    }

    /// Takes the whole records out, in the buffer that they came in, with nothing after them; the tail goes to the front of `spare`,
    /// which is the window's buffer from then on. Records that come back as the next call's `spare` are overwritten, so that two
    /// buffers do for all windows. Where neither has a byte the buffer stays, as long as it is, for another source.
    ///
    /// The error comes where memory was refused for a tail longer than `spare`; the window is then as it was.
    pub fn take_records(&mut self, spare: Vec<u8>) -> Result<Vec<u8>, AllocError>
        requires small { length spare.items < 2 ^ 63 }
        ensures records { IfOk result (λ records. records.items ≡ self.old.whole) }
        ensures ok { OnOk result (self.new ≡ forgotten self.old self.new.room) }
        ensures err { OnErr result (self.new ≡ self.old) }
    {
        if self.filled == 0 && spare.is_empty() {
            return Ok(spare);
        }
        let mut buffer = copy_to_front(spare, &self.buffer, self.whole, self.filled)?;
        mem::swap(&mut self.buffer, &mut buffer);
        buffer.truncate(self.whole);
        self.filled -= self.whole;
        self.whole = 0;
        Ok(buffer)
    }

    /// Forgets all bytes, so that another source can be read. The buffer stays, and how long it is to be.
    pub fn clear(&mut self)
        ensures { self.new ≡ empty_window self.old.rs self.old.size self.old.room }
    {
        self.filled = 0;
        self.whole = 0;
        self.is_ended = false;
    }

    /// Forgets the whole records, moves the tail to the front and makes room for more behind it. A buffer that the last read
    /// filled grows until it has the window's size; a longer one it has only while the tail is longer.
    ///
    /// The error comes where memory for that was refused; the records are then forgotten, too.
    fn make_room(&mut self) -> Result<(), AllocError>
        ensures ok { OnOk result ((r : ℕ) × (length self.old.tail < r)
            × (r ≤ max self.old.size (2 * length self.old.tail)) × (self.new ≡ forgotten self.old r)) }
        ensures err { OnErr result (self.new ≡ forgotten self.old self.old.room) }
    {
        let tail = self.filled - self.whole;
        let room = next_length(self.wanted, tail, self.size);
        self.filled = move_to_front(&mut self.buffer, self.whole, self.filled);
        self.whole = 0;
        set_length(&mut self.buffer, room)
    }

    /// Reads once, into the room behind the tail, and finds the whole records.
    fn read_on<S: Source>(&mut self, source: &mut S) -> Result<(), Failed>
        requires forgotten { self.old.whole ≡ [] }
        requires room { length self.old.tail < self.old.room }
        ensures bytes { OnOk result
            (HasCome (S.left source.old) (S.left source.new) self.old self.new) }
        ensures whole { OnOk result (HoldsRecords self.new) }
        ensures tail { OnOk result (NoneEnds self.new.rs self.new.tail) }
        ensures end { OnOk result (HasEnded (S.left source.new) self.new) }
        ensures same { (self.new.rs ≡ self.old.rs) × (self.new.size ≡ self.old.size)
            × (self.new.room ≡ self.old.room) }
        ensures err { OnErr result
            ((self.new ≡ self.old) × Keeps (S.left source.old) (S.left source.new)) }
        ensures counted { CountsFailure (S.failures source.old) (S.failures source.new) result }
    {
        let known = self.filled;
        let count = read_after(source, &mut self.buffer, known)?;
        self.filled = known + count;
        self.wanted = wanted_length(self.buffer.len(), self.filled);
        self.whole = whole_after(&self.buffer[..self.filled], known, self.separator);
        self.is_ended = count == 0;
        Ok(())
    }

    /// Forgets the whole records and reads once: what follows them, as far as it is whole records now, is the window's
    /// next; what came of a further record is its tail. There may be no record, where one is not there as a whole. Where the
    /// source gives nothing it has ended, and the tail is its last record.
    ///
    /// Of the bytes that were there before only the last is looked at again, and each is moved once at most. The buffer has no
    /// more bytes than the window's size, or twice the bytes of a record that goes on.
    ///
    /// `Memory` comes where memory was refused, `Failed` where the read failed, and then alone. Nothing was read then: the
    /// records are forgotten, the tail stays, and the call may be made again.
    pub fn fill<S: Source>(&mut self, source: &mut S) -> Result<(), FillError>
        ensures bytes { OnOk result
            (HasCome (S.left source.old) (S.left source.new) self.old self.new) }
        ensures whole { OnOk result (HoldsRecords self.new) }
        ensures tail { OnOk result (NoneEnds self.new.rs self.new.tail) }
        ensures end { OnOk result (HasEnded (S.left source.new) self.new) }
        ensures records { OnOk result
            (ComesNext (S.left source.old) (S.left source.new) self.old self.new) }
        ensures same { (self.new.rs ≡ self.old.rs) × (self.new.size ≡ self.old.size) }
        ensures room { OnOk result
            (self.new.room ≤ max self.old.size (2 * length self.old.tail)) }
        ensures err { OnErr result ((self.new ≡ forgotten self.old self.new.room)
            × Keeps (S.left source.old) (S.left source.new)) }
        ensures failed { result ≡ Err at.Failed → S.failures source.old < S.failures source.new }
        ensures unfailing { result ≢ Err at.Failed
            → S.failures source.new ≡ S.failures source.old }
    {
        self.make_room()?;
        self.read_on(source)?;
        Ok(())
    }

    /// Forgets the whole records and fills the window, as [`Window::fill`] does, until it has whole records or the source has ended.
    ///
    /// `Memory` comes where memory was refused, `Failed` where a read failed.
    pub fn fill_records<S: Source>(&mut self, source: &mut S) -> Result<(), FillError>
        ensures bytes { OnOk result
            (HaveCome (S.left source.old) (S.left source.new) self.old self.new) }
        ensures whole { OnOk result (HoldsRecords self.new) }
        ensures end { OnOk result (HasEnded (S.left source.new) self.new) }
        ensures some { OnOk result (self.new.ended ≡ false → self.new.whole ≢ []) }
        ensures same { OnOk result
            ((self.new.rs ≡ self.old.rs) × (self.new.size ≡ self.old.size)) }
    {
        for _ in 0..u64::MAX {
            self.fill(source)?;
            if self.is_ended() || !self.records().is_empty() {
                return Ok(());
            }
        }
        Err(FillError::Failed)
    }

    /// Reads the next whole records of a source, after what is in the window, and takes them out: at least one, or what is left at
    /// the end. They come in this buffer, which what it had is lost of.
    ///
    /// `Memory` comes where memory was refused, `Failed` where a read failed.
    pub fn next_records<S: Source>(
        &mut self,
        buffer: Vec<u8>,
        source: &mut S,
    ) -> Result<Vec<u8>, FillError>
        ensures come { IfOk result (λ records. Comes (S.left source.old) (S.left source.new)
            self.old self.new records.items) }
    {
        let small = self.take_records(buffer)?;
        self.fill_records(source)?;
        Ok(self.take_records(small)?)
    }
}
