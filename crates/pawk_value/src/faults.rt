//! The faults that end a run, and why a call gives no value.

ghost use Rattle.std.specs.Prelude.{◌≡◌};
ghost use Rattle.pawk_value.specs.Faults.{fault_name};

use crate::limits::LENGTH_LIMIT;
use std::alloc::{AllocError, AllocFailed};
use thiserror::Error;

/// A fault ends a run at once. Their numbers are 1 to 15.
#[derive(Clone, Copy, Debug, PartialEq, Eq, Drop, Error)]
pub enum Fault {
    /// A number is not in the range of 64 bits with a sign.
    #[error("a number was less than {low} or greater than {high}", low = i64::MIN, high = i64::MAX)]
    Overflow = 1,
    /// A divisor is 0.
    #[error("there was a division, or a remainder, by 0")]
    Zero,
    /// A division leaves a remainder.
    #[error("a division left a remainder, and numbers are whole")]
    Inexact,
    /// An exponent is negative.
    #[error("the exponent of ^ was negative")]
    Exponent,
    /// A numeral has a digit after the point or an exponent.
    #[error("the number of a text with a fraction or an exponent was needed")]
    Numeral,
    /// The record separator is more than one byte.
    #[error("RS had more than one byte when the records began")]
    Rs,
    /// The field separator is empty.
    #[error("a text was to be split by an empty separator")]
    Fs,
    /// The index of a field is negative or too great.
    #[error("the index of a field was negative, or greater than 32767 where it was assigned")]
    Field,
    /// An exit status is not 0 to 255.
    #[error("the value of exit was not one of 0 to 255")]
    Status,
    /// The steps of the budget are used up.
    #[error("the budget of steps was used up")]
    Steps,
    /// Calls are nested too deep.
    #[error("more than 200 calls were open at once")]
    Depth,
    /// A text that was made is too long.
    #[error("a text of more than {limit} bytes was to be made", limit = LENGTH_LIMIT)]
    Length,
    /// A negative number is to be written without a sign.
    #[error("a negative number was to be written by %o, %u, %x or %X")]
    Negative,
    /// A format has no meaning, or lacks an argument.
    #[error("a format could not be read, an argument was missing, or %c had a number that is no byte")]
    Format,
    /// An extended regular expression cannot be read.
    #[error("a text that stands for an expression could not be read")]
    Ere,
}

impl Fault {
    /// The fault's name in messages.
    pub fn name(self) -> &'static str
        ensures { result.now ≡ fault_name self }
    {
        match self {
            Fault::Overflow => "overflow",
            Fault::Zero => "zero",
            Fault::Inexact => "inexact",
            Fault::Exponent => "exponent",
            Fault::Numeral => "numeral",
            Fault::Rs => "rs",
            Fault::Fs => "fs",
            Fault::Field => "field",
            Fault::Status => "status",
            Fault::Steps => "steps",
            Fault::Depth => "depth",
            Fault::Length => "length",
            Fault::Negative => "negative",
            Fault::Format => "format",
            Fault::Ere => "ere",
        }
    }
}

/// Why a call gives no value: a fault of the program that is run, or a refused allocation.
#[derive(Clone, Copy, Debug, Drop, Error)]
pub enum Stop {
    /// The program that is run is at fault.
    #[error(transparent)]
    Fault(Fault),
    /// A growth of memory was refused.
    #[error("out of memory")]
    Memory,
}

impl From<AllocError> for Stop {
    ghost use Rattle.pawk_value.specs.declared.faults.Stop.TheVariants.{Memory};

    ghost from_gives = { λ _ stop. stop ≡ Memory };

    fn from(_error: AllocError) -> Stop {
        Stop::Memory
    }
}

impl<T: Drop> From<AllocFailed<T>> for Stop {
    ghost use Rattle.pawk_value.specs.declared.faults.Stop.TheVariants.{Memory};

    ghost from_gives = { λ _ stop. stop ≡ Memory };

    fn from(_error: AllocFailed<T>) -> Stop {
        Stop::Memory
    }
}

impl From<Fault> for Stop {
    ghost use Rattle.pawk_value.specs.declared.faults.Stop.TheVariants as stops;

    ghost from_gives = { λ fault stop. stop ≡ stops.Fault fault };

    fn from(fault: Fault) -> Stop {
        Stop::Fault(fault)
    }
}
