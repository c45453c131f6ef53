//! What a run of one record, or of BEGIN or END, has beside the globals.

ghost use Rattle.std.specs.Prelude.{◌≡◌, ◌≤◌, ◌++◌, ◌∷◌, [], List, length, take, IfOk};
ghost use Rattle.pawk_store.specs.Parts.{Hold, entry_of, with_locals};
ghost use Rattle.pawk_value.specs.Held.{held_value};
ghost use Rattle.pawk_value.specs.Value.{shown};
ghost use Rattle.pawk_store.specs.StateViews.{state_of};
ghost use Rattle.pawk_runtime.specs.Moments.{hold_of, holds_of};

use pawk_array::{AssociativeArray, Seed, Texts};
use pawk_builtins::{Matchers, Values};
use pawk_code::program::ParameterKind;
use pawk_store::RecordState;
use pawk_value::{Held, Value};
use std::alloc::{AllocError, Global};
use std::mem::replace;

/// What a parameter of a function that runs holds.
#[derive(Drop)]
pub enum Parameter {
    Value(Value),
    /// The global array of this slot.
    Global(usize),
    /// The local array of this number among all that are open.
    Local(usize),
}

/// What a run has beside the globals.
#[derive(Drop)]
pub struct Run<'a> {
    pub alloc: Global,
    /// The record, and what is kept from record to record.
    pub state: RecordState<'a>,
    /// The parameters of the function that runs; none outside of functions.
    pub frame: Vec<Parameter>,
    /// The local arrays of all calls that are open.
    pub arrays: Vec<AssociativeArray>,
    pub output: Vec<u8>,
    /// How many steps are left.
    pub left: u64,
    pub matchers: Matchers,
    /// Buffers that were given back.
    pub spare: Vec<Vec<u8>>,
    /// Room for the values that a format takes.
    pub values: Values,
    /// Room for the texts that are joined.
    pub texts: Texts,
    /// The frames of calls that have ended.
    pub frames: Vec<Vec<Parameter>>,
}

impl<'a> Run<'a> {
    /// A run that goes on from a record state: without output and outside of all calls, with this many steps left and
    /// with matchers for this many expressions between slashes. An error where memory is refused.
    pub fn new(
        alloc: Global,
        state: RecordState<'a>,
        left: u64,
        expressions: usize,
    ) -> Result<Run<'a>, AllocError>
        ensures output { IfOk result (λ run. run.output.items ≡ []) }
        ensures state { IfOk result (λ run. state_of run.state ≡ state_of state.entry) }
    {
        Ok(Run {
            alloc,
            matchers: Matchers::new(alloc, expressions)?,
            state,
            frame: Vec::new(alloc),
            arrays: Vec::new(alloc),
            output: Vec::new(alloc),
            left,
            spare: Vec::new(alloc),
            values: Values::new(alloc),
            texts: Texts::new(alloc),
            frames: Vec::new(alloc),
        })
    }
}

/// An empty buffer, if there is one that was given back.
#[inline(always)]
pub fn take_buffer(alloc: Global, spare: &mut Vec<Vec<u8>>) -> Vec<u8>
    ensures { result.items ≡ [] }
{
    match spare.pop() {
        Some(buffer) => {
            let mut buffer = buffer;
            buffer.clear();
            buffer
        }
        None => Vec::new(alloc),
    }
}

/// Gives a buffer back to the spare ones, unless it has no memory or there are 64 of them.
#[inline(always)]
pub fn give_back(spare: &mut Vec<Vec<u8>>, buffer: Vec<u8>) {
    if spare.len() < 64 && buffer.capacity() > 0 {
        let _ = spare.push(buffer);
    }
}

/// No values, in the room that was kept for them; none is kept then.
pub fn take_values(alloc: Global, kept: &mut Values) -> Values
    ensures { result ≡ [] }
{
    let mut values = replace(kept, Values::new(alloc));
    values.clear();
    values
}

/// No texts, in the room that was kept for them; none is kept then.
pub fn take_texts(alloc: Global, kept: &mut Texts) -> Texts
    ensures { result ≡ [] }
{
    let mut texts = replace(kept, Texts::new(alloc));
    texts.clear();
    texts
}

/// Gives the buffer of a value back, if it has one.
pub fn give_back_value(spare: &mut Vec<Vec<u8>>, value: Value) {
    match value {
        Value::Text(bytes) | Value::Maybe(bytes) => give_back(spare, bytes),
        Value::Uninit | Value::Num(_) => {}
    }
}

/// The value of these bytes, whose buffer is given back where the value is none of bytes.
#[inline(always)]
pub fn value_with(spare: &mut Vec<Vec<u8>>, held: Held, bytes: Vec<u8>) -> Value
    ensures { shown result ≡ held_value held bytes.items }
{
    match held {
        Held::Text => Value::Text(bytes),
        Held::Maybe => Value::Maybe(bytes),
        Held::Num(number) => {
            give_back(spare, bytes);
            Value::Num(number)
        }
        Held::Uninit => {
            give_back(spare, bytes);
            Value::Uninit
        }
    }
}

/// An empty frame, in the space of a call that has ended, if there is one.
pub fn take_frame(alloc: Global, frames: &mut Vec<Vec<Parameter>>) -> Vec<Parameter>
    ensures { result.items ≡ [] }
{
    match frames.pop() {
        Some(frame) => {
            let mut frame = frame;
            frame.clear();
            frame
        }
        None => Vec::new(alloc),
    }
}

/// Gives the frame of a call that has ended back, and the buffers of its values.
#[inline(always)]
pub fn give_back_frame(
    spare: &mut Vec<Vec<u8>>,
    frames: &mut Vec<Vec<Parameter>>,
    frame: Vec<Parameter>,
) {
    let mut frame = frame;
    while let Some(parameter) = frame.pop() {
        if let Parameter::Value(value) = parameter {
            give_back_value(spare, value);
        }
    }
    if frames.len() < 64 && frame.capacity() > 0 {
        let _ = frames.push(frame);
    }
}

/// A parameter that got no argument: a scalar without a value, or an empty array that is opened.
fn open_local(
    alloc: Global,
    seed: Seed,
    kind: ParameterKind,
    arrays: &mut Vec<AssociativeArray>,
) -> Result<Parameter, AllocError>
    ensures { IfOk result (λ parameter. (front : List Hold) →
        with_locals (kind ∷ []) (record { frame = front; arrays = arrays.old.items })
        ≡ record { frame = front ++ hold_of parameter ∷ []; arrays = arrays.new.items }) }
{
    match kind {
        ParameterKind::Scalar => Ok(Parameter::Value(Value::Uninit)),
        ParameterKind::Array => {
            let number = arrays.len();
            arrays.push(AssociativeArray::new(alloc, seed))?;
            Ok(Parameter::Local(number))
        }
    }
}

/// Closes the local arrays that were opened after the first `count`.
#[inline(always)]
pub fn close_arrays(arrays: &mut Vec<AssociativeArray>, count: usize)
    ensures { arrays.new.items ≡ take count arrays.old.items }
{
    if count < arrays.len() {
        arrays.truncate(count);
    }
}

/// The parameters of a call with fewer arguments: these, and for each kind after them a fresh one, a
/// scalar without a value, or an empty array that is opened.
fn fill_frame(
    alloc: Global,
    seed: Seed,
    arguments: Vec<Parameter>,
    kinds: &[ParameterKind],
    arrays: &mut Vec<AssociativeArray>,
) -> Result<Vec<Parameter>, AllocError>
    requires { length arguments.items ≤ length kinds.now }
    ensures { IfOk result (λ frame. entry_of kinds.now (holds_of arguments.items) arrays.old.items
        ≡ record { frame = holds_of frame.items; arrays = arrays.new.items }) }
{
    let mut frame = arguments;
    let given = frame.len();
    for kind in &kinds[given..] {
        let parameter = open_local(alloc, seed, *kind, arrays)?;
        frame.push(parameter)?;
    }
    Ok(frame)
}

/// The parameters of a call: the arguments, and for each kind after them a fresh one, a scalar
/// without a value, or an empty array that is opened.
///
/// POSIX.1-2017, awk, "User-Defined Functions".
#[inline(always)]
pub fn parameters(
    alloc: Global,
    seed: Seed,
    arguments: Vec<Parameter>,
    kinds: &[ParameterKind],
    arrays: &mut Vec<AssociativeArray>,
) -> Result<Vec<Parameter>, AllocError>
    ensures { IfOk result (λ frame. entry_of kinds.now (holds_of arguments.items) arrays.old.items
        ≡ record { frame = holds_of frame.items; arrays = arrays.new.items }) }
{
    if arguments.len() < kinds.len() {
        return fill_frame(alloc, seed, arguments, kinds, arrays);
    }
    Ok(arguments)
}
