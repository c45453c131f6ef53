//! The words that rows begin with.

/// What a row asks for.
#[derive(Clone, Copy)]
pub enum Verb {
    Files,
    Records,
    Size,
    Cuts,
    Many,
    Counts,
    Counted,
    Stepped,
    Begins,
    Refusals,
    Unknown,
}

/// Each word, with what it asks for.
static WORDS: [(&[u8], Verb); 10] = [
    (b"files", Verb::Files),
    (b"records", Verb::Records),
    (b"size", Verb::Size),
    (b"cuts", Verb::Cuts),
    (b"many", Verb::Many),
    (b"counts", Verb::Counts),
    (b"counted", Verb::Counted),
    (b"stepped", Verb::Stepped),
    (b"begins", Verb::Begins),
    (b"refusals", Verb::Refusals),
];

impl Verb {
    /// What a row asks for that begins with a word.
    pub fn of(word: &[u8]) -> Verb {
        for (text, verb) in &WORDS {
            if *text == word {
                return *verb;
            }
        }
        Verb::Unknown
    }
}
