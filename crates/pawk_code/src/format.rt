//! Formats that do not change.

ghost use Rattle.std.specs.Prelude.{◌≡◌, IfOk};
ghost use Rattle.pawk_value.specs.TemplateViews.{IsTemplateOf};

use pawk_value::{Template, read_template};
use std::alloc::{AllocError, Global};

/// A constant format: its bytes, and what was read from them once.
#[derive(Drop)]
pub struct FixedFormat {
    pub text: Vec<u8>,
    pub template: Template,
    ghost read: { ∥ IsTemplateOf template text.items ∥₁ },
}

impl FixedFormat {
    /// Reads a format. It is refused only where an allocation is refused.
    pub fn read(alloc: Global, text: &[u8]) -> Result<FixedFormat, AllocError>
        ensures { IfOk result (λ format. format.text.items ≡ text.now) }
    {
        let template = read_template(alloc, text)?;
        let text = Vec::from_slice(alloc, text)?;
        Ok(FixedFormat { text, template })
    }
}
