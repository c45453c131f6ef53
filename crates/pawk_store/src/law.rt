// The laws over whole runs: of two worlds in lockstep, and of one.

ghost use Rattle.pawk_world.specs.Worlds.{Calls};
ghost use Rattle.pawk_store.specs.Lockstep.{Access, Resource, Pair};
ghost use Rattle.pawk_store.specs.Laws.{StatementsLaw, RecordLaw, ActionsLaw, RecordsLaw, RunLaw, NeverDisallowsLaw};
ghost use Rattle.pawk_store.specs.Steady.{RecordKeepsLaw, RecordsKeepLaw, RecordsFollowLaw, RecordsResumeLaw, ReadsAnewLaw};
ghost use Rattle.pawk_store.specs.Outputs.{OutputIsAppendedLaw, OutputStaysLaw};

/// Two worlds for each setting, as their definitions have them: the meaning of each one's calls, a
/// relation of their states, an order of each one's states in which its calls go on, what a program
/// may ask of which global, and the requests at which the two part.
pub trait Pairing {
    ghost use Rattle.pawk_store.specs.Lockstep.{Pair};

    /// What the rest depends on.
    ghost Setting: { Type 0 };

    /// The states of the first world.
    ghost First: { Type 0 };

    /// The states of the second world.
    ghost Second: { Type 0 };

    /// The two worlds, with their relation and what is permitted.
    ghost pair: { Setting → Pair First Second };
}

/// Statements over two worlds that are in lockstep for what the text asks: the same end, or both
/// came in step to a request at which the worlds part. A law, which takes and leaves nothing.
pub fn lockstep<P: Pairing>()
    ensures { (i : P.Setting) → StatementsLaw (P.pair i) }
{}

/// One record over two worlds that are in lockstep: it is read, and the main rules follow (POSIX.1-2017, awk, "Overall
/// Program Structure").
pub fn lockstep_record<P: Pairing>()
    ensures { (i : P.Setting) → RecordLaw (P.pair i) }
{}

/// A list of records over two worlds that are in lockstep, and how the run over each world may be left.
pub fn lockstep_records<P: Pairing>()
    ensures { (i : P.Setting) → RecordsLaw (P.pair i) }
{}

/// The actions of BEGIN or of END, one after the other, over two worlds that are in lockstep.
pub fn lockstep_actions<P: Pairing>()
    ensures { (i : P.Setting) → ActionsLaw (P.pair i) }
{}

/// A whole run over two worlds that are in lockstep: BEGIN, the records of files by RS as it is then, and END; and how
/// the run over each world may end (POSIX.1-2017, awk, "Overall Program Structure").
pub fn lockstep_run<P: Pairing>()
    ensures { (i : P.Setting) → RunLaw (P.pair i) }
{}

/// One world for each setting, as its definitions have it, and what a program may do there to which
/// resource.
pub trait Policy {
    ghost use Rattle.pawk_world.specs.Worlds.{Calls};
    ghost use Rattle.pawk_store.specs.Lockstep.{Access, Resource};

    /// What the rest depends on.
    ghost Setting: { Type 0 };

    /// The states of the world.
    ghost State: { Type 0 };

    /// What each call answers in a state.
    ghost calls: { Setting → Calls State };

    /// What is permitted.
    ghost permits: { Setting → Access → Resource → Type 0 };
}

/// One record where `match`, ranges and `nextfile` are not permitted: it changes nothing of the
/// record state but the record, `NR`, `FNR` and `FILENAME`, and does not leave its file. A law, which
/// takes and leaves nothing.
pub fn record_keeps<P: Policy>()
    ensures { (i : P.Setting) → RecordKeepsLaw (P.permits i) (P.calls i) }
{}

/// A list of records where `match`, ranges and `nextfile` are not permitted: they are read up to one that ends the run,
/// `NR` counts them, and `exit` gives its status.
pub fn records_keep<P: Policy>()
    ensures { (i : P.Setting) → RecordsKeepLaw (P.permits i) (P.calls i) }
{}

/// Records in two parts: the second part is read from where the first one came through.
pub fn records_follow<P: Policy>()
    ensures { (i : P.Setting) → RecordsFollowLaw (P.permits i) (P.calls i) }
{}

/// The second part may be run from the record state before the first one, with `NR` moved on by as
/// many records.
pub fn records_resume<P: Policy>()
    ensures { (i : P.Setting) → RecordsResumeLaw (P.permits i) (P.calls i) }
{}

/// A record does not look at the record, `FNR` and `FILENAME` of before, of any program.
pub fn reads_anew<P: Policy>()
    ensures { (i : P.Setting) → ReadsAnewLaw (P.calls i) }
{}

/// Over a world that answers no request with a clash no run of any program is disallowed.
pub fn never_disallows<P: Policy>()
    ensures { (i : P.Setting) → NeverDisallowsLaw (P.calls i) }
{}

/// What was written before records stays in front of what they write, and no record of any program
/// looks at it; and the same of END.
pub fn output_is_appended<P: Policy>()
    ensures records { (i : P.Setting) → OutputIsAppendedLaw (P.calls i) }
    ensures behind { (i : P.Setting) → OutputStaysLaw (P.calls i) }
{}
