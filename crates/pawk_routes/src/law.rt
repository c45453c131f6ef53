//! A law of cuttings.

ghost use Rattle.std.specs.Prelude.{◌≤◌, ℕ, List, length};
ghost use Rattle.pawk_input.specs.Input.{File};
ghost use Rattle.pawk_input.specs.Limits.{most_chunks};
ghost use Rattle.pawk_routes.specs.Cuttings.{IsRefused};
ghost use Rattle.pawk_routes.specs.declared.cutting.Cutting.TheVariants as cutting;

/// There is a plan by at least a size wherever there are no more files than there may be chunks. A law,
/// which takes and leaves nothing.
pub fn at_least_law()
    ensures { (rs : List ℕ) (files : List File) (bytes : ℕ) → length files ≤ most_chunks
        → ¬ IsRefused rs files (cutting.AtLeast bytes) }
{}
