//! What a run goes by.

ghost use Rattle.std.specs.Prelude.{◌≡◌};
ghost use Rattle.pawk_code.specs.ProgramViews.{code_view};
ghost use Rattle.pawk_eval.specs.Contexts.{eres_of, functions_of};
ghost use Rattle.pawk_store.specs.Runs as spec;

use pawk_code::program::Code;
use pawk_eval::Context;
use pawk_store::Seed;

/// What is run, how many steps BEGIN, each record and END may take, and what the keys of elements are hashed by,
/// which changes nothing of what a run gives.
#[derive(Clone, Copy)]
pub struct Job<'p> {
    pub code: &'p Code,
    pub budget: u64,
    pub seed: Seed,
}

impl<'p> Job<'p> {
    /// What its parts look at.
    pub fn context(self) -> Context<'p>
        ensures eres { eres_of result ≡ (code_view self.entry.code.now).expressions }
        ensures functions { functions_of result ≡ (code_view self.entry.code.now).functions }
    {
        Context { code: self.code }
    }

    /// Whether records are read: where there is a main rule or an action of END.
    ///
    /// POSIX.1-2017, awk, "Overall Program Structure".
    pub fn reads_records(self) -> bool
        ensures { result ≡ spec.reads_records (code_view self.entry.code.now) }
    {
        !self.code.rules.is_empty() || !self.code.ends.is_empty()
    }
}
