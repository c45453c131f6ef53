//! Laws about the definitions. The calls do nothing.

ghost use Rattle.pawk_fields.specs.Law.{SplitLaw};

/// The fields of a record by an FS are in order in the record; laid end to end with what
/// separates them they are the record; there is no other list of them, and then no fault.
pub fn split_law(fs: &[u8], paragraph: bool, text: &[u8])
    ensures { SplitLaw fs.now paragraph text.now }
{
    let _ = fs;
    let _ = paragraph;
    let _ = text;
}
