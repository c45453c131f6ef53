//! Input that a thread of its own reads ahead.

ghost use Rattle.std.specs.Prelude.{◌≤◌, None, length};
ghost use Rattle.std.specs.Io.{ReadsAtMost};

use crate::held::{copy_from, read_part};
use crossbeam_channel::{Receiver, Sender, bounded};
use std::alloc::Global;
use std::io::Read;
use std::sync::Wait;
use std::thread::Threads;
use std::{io, thread};

/// How many bytes a block has at most: as many as a pipe holds.
const BLOCK: usize = 65_536;

/// How many blocks are held at most.
const BLOCKS: usize = 256;

/// What a read of a block gave.
type BlockAnswer = io::Result<Vec<u8>>;

/// Reads once, into a block of its own: an empty one at the end.
fn read_block<I: Read>(alloc: Global, input: &mut I) -> BlockAnswer {
    let mut block = vec![in alloc; 0u8; BLOCK]?;
    let count = read_part(input, block.as_mut_slice())?;
    block.truncate(count);
    Ok(block)
}

/// Reads blocks and hands them on, up to the end or a failure, which are handed on too.
fn read_blocks<R: Wait, I: Read + Drop>(
    rt: &R,
    alloc: Global,
    input: I,
    blocks: Sender<BlockAnswer>,
) {
    let mut input = input;
    for _ in rt.forever() {
        let answer = read_block(alloc, &mut input);
        let is_last = match &answer {
            Ok(block) => block.is_empty(),
            Err(_) => true,
        };
        if blocks.send(rt, answer).is_err() || is_last {
            return;
        }
    }
}

/// The blocks that a thread reads ahead. Where they are dropped, the thread ends when its read comes back, or with the process.
#[derive(Drop)]
struct AheadBlocks {
    answers: Receiver<BlockAnswer>,
    block: Vec<u8>,
    /// How many bytes of the block were given.
    given: usize,
    failure: Option<io::Error>,
}

impl AheadBlocks {
    /// Starts a thread that reads this input; nothing comes where it cannot be started.
    fn start<R, I>(rt: &R, alloc: Global, input: I) -> Option<AheadBlocks>
    where
        R: Threads + Wait + Copy + Send + Drop + 'static,
        I: Read + Send + Drop + 'static,
    {
        let (sender, answers) = bounded(alloc, BLOCKS).ok()?;
        let handle = *rt;
        thread::spawn(rt, move || read_blocks(&handle, alloc, input, sender)).ok()?;
        Some(AheadBlocks {
            answers,
            block: Vec::new(alloc),
            given: 0,
            failure: None,
        })
    }

    /// Gives bytes of the block.
    fn give(&mut self, buffer: &mut [u8]) -> usize
        ensures { result ≤ length buffer.new }
    {
        let count = copy_from(self.block.as_slice(), self.given, buffer);
        self.given = self.given.saturating_add(count);
        count
    }

    /// Whether all of the block was given.
    fn is_spent(&self) -> bool {
        self.given >= self.block.len()
    }

    /// Takes what a read gave: a block, or why there is none.
    fn take(&mut self, answer: BlockAnswer) {
        self.given = 0;
        match answer {
            Ok(block) => self.block = block,
            Err(error) => {
                self.block.clear();
                self.failure = Some(error);
            }
        }
    }

    /// Gives what has come; waits where nothing has.
    fn read<R: Wait>(&mut self, rt: &R, buffer: &mut [u8]) -> io::Result<usize>
        ensures { ReadsAtMost result buffer.new }
    {
        if self.is_spent()
            && self.failure.is_none()
            && let Ok(answer) = self.answers.recv(rt)
        {
            self.take(answer);
        }
        if let Some(error) = self.failure.take() {
            return Err(error);
        }
        let mut count = self.give(buffer);
        for _ in 0..BLOCKS {
            if count == buffer.len() {
                break;
            }
            let Ok(answer) = self.answers.try_recv(rt) else {
                break;
            };
            self.take(answer);
            let (_, room) = buffer.split_at_mut(count);
            count += self.give(room);
        }
        Ok(count)
    }
}

/// An input that a thread may read ahead.
#[derive(Drop)]
pub struct AheadInput<'d, R, I> {
    rt: &'d R,
    input: I,
    blocks: Option<AheadBlocks>,
}

impl<'d, R, I> AheadInput<'d, R, I> {
    /// The stream of an input that no thread reads.
    pub fn new(rt: &'d R, input: I) -> AheadInput<'d, R, I> {
        AheadInput {
            rt,
            input,
            blocks: None,
        }
    }
}

impl<'d, R, I> AheadInput<'d, R, I>
where
    R: Threads + Wait + AllocGlobal + Copy + Send + Drop + 'static,
    I: Read + Copy + Send + Drop + 'static,
{
    /// Starts a thread that reads ahead; where it cannot be started, nothing is changed.
    pub fn read_ahead(&mut self) {
        self.blocks = AheadBlocks::start(self.rt, self.rt.alloc(), self.input);
    }
}

impl<'d, R: Wait, I: Read> Read for AheadInput<'d, R, I> {
    ghost remaining = { λ _. None };

    fn read(&mut self, buffer: &mut [u8]) -> io::Result<usize> {
        match &mut self.blocks {
            Some(blocks) => blocks.read(self.rt, buffer),
            None => self.input.read(buffer),
        }
    }
}
