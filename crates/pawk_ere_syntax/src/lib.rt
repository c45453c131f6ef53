// Extended regular expressions as they are written: reading them.
#![tactic(auto)]

mod bound;
mod bracket;
mod builder;
mod byte_set;
mod class;
mod ere;
mod escape;
mod expression;
pub mod laws;
mod lex;
mod limits;
mod refusal;
mod shape;
mod token;

pub use crate::byte_set::ByteSet;
pub use crate::ere::Ere;
pub use crate::expression::Expression;
pub use crate::refusal::EreRefusal;
