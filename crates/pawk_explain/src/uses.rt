//! Names with two uses: the number 5.

use crate::case::FaultyScript;
use crate::display::append_position;
use crate::note::{Note, Words};
use pawk_lex::token::{Builtin, Mark, Token, TokenValue};
use pawk_lex::vocabulary::is_variable;
use std::alloc::AllocError;

/// How a name is used.
#[derive(Clone, Copy, PartialEq, Eq)]
enum Use {
    Array,
    Scalar,
    Function,
    /// Alone in a list, of parameters or of arguments.
    Listed,
}

/// The places at which a name is first used in each way, counted from 0, how often a function of the name is
/// defined, how often the name is alone in a list, and how it is used at the place at fault.
#[derive(Clone, Copy)]
struct Uses {
    array: Option<usize>,
    scalar: Option<usize>,
    function: Option<usize>,
    definitions: usize,
    list_count: usize,
    here: Use,
}

/// The tokens round a name: the two before it, and the one after it.
#[derive(Clone, Copy)]
struct Round<'t> {
    earlier: Option<&'t TokenValue>,
    before: Option<&'t TokenValue>,
    after: Option<&'t TokenValue>,
    is_filled: bool,
}

/// Whether this is a mark.
fn is_mark(value: Option<&TokenValue>, sign: Mark) -> bool {
    match value {
        Some(TokenValue::Mark(mark)) => *mark == sign,
        _ => false,
    }
}

/// Whether this may be the name of a function before the list of its parameters or arguments.
fn is_called(value: Option<&TokenValue>) -> bool {
    matches!(
        value,
        Some(TokenValue::FunctionName(_) | TokenValue::Name(_))
    )
}

/// Whether a name between these is alone in a list of parameters or of arguments.
fn is_listed(round: Round<'_>) -> bool {
    let is_first = is_mark(round.before, Mark::LeftParenthesis) && is_called(round.earlier);
    let ends = is_mark(round.after, Mark::RightParenthesis) || is_mark(round.after, Mark::Comma);
    (is_first || is_mark(round.before, Mark::Comma)) && ends
}

/// How a name between these is used.
fn use_of_name(round: Round<'_>) -> Use {
    if is_mark(round.before, Mark::Function) {
        Use::Function
    } else if round.is_filled
        || is_mark(round.after, Mark::LeftBracket)
        || is_mark(round.before, Mark::In)
        || is_mark(round.before, Mark::Delete)
    {
        Use::Array
    } else if is_listed(round) {
        Use::Listed
    } else {
        Use::Scalar
    }
}

/// How a token uses a name, if it has this one.
fn use_of(value: &TokenValue, name: &[u8], round: Round<'_>) -> Option<Use> {
    match value {
        TokenValue::Name(text) if text.as_slice() == name => Some(use_of_name(round)),
        TokenValue::FunctionName(text) if text.as_slice() == name => Some(Use::Function),
        _ => None,
    }
}

/// How many brackets are open after a token.
fn depth_after(depth: usize, value: &TokenValue) -> usize {
    match value {
        TokenValue::Mark(Mark::LeftParenthesis | Mark::LeftBracket) => depth.saturating_add(1),
        TokenValue::Mark(Mark::RightParenthesis | Mark::RightBracket) => depth.saturating_sub(1),
        _ => depth,
    }
}

/// A walk over tokens, which knows the second argument of `split`.
#[derive(Clone, Copy)]
struct Walk {
    depth: usize,
    /// How many brackets are open in the list of a `split` whose first argument is read; 0 where there is none.
    list: usize,
    is_filled: bool,
}

impl Walk {
    /// The walk past a token.
    fn past(self, value: &TokenValue) -> Walk {
        let depth = depth_after(self.depth, value);
        let is_split = matches!(value, TokenValue::Builtin(Builtin::Split));
        let is_comma = matches!(value, TokenValue::Mark(Mark::Comma));
        let is_filled = is_comma && self.list > 0 && self.list == depth;
        let list = if is_split {
            depth.saturating_add(1)
        } else if is_filled || depth < self.list.saturating_sub(1) {
            0
        } else {
            self.list
        };
        Walk {
            depth,
            list,
            is_filled,
        }
    }
}

impl Uses {
    /// No uses.
    fn none() -> Uses {
        Uses {
            array: None,
            scalar: None,
            function: None,
            definitions: 0,
            list_count: 0,
            here: Use::Listed,
        }
    }

    /// The uses with one more at this place.
    fn with(mut self, found: Use, start: usize) -> Uses {
        match found {
            Use::Array => self.array = self.array.or(Some(start)),
            Use::Scalar => self.scalar = self.scalar.or(Some(start)),
            Use::Function => self.function = self.function.or(Some(start)),
            Use::Listed => self.list_count = self.list_count.saturating_add(1),
        }
        self
    }

    /// The uses with those of a token at this place, if it has the name.
    fn with_token(mut self, token: &Token, name: &[u8], round: Round<'_>, place: usize) -> Uses {
        let Some(found) = use_of(&token.value, name, round) else {
            return self;
        };
        if token.span.start == place {
            self.here = found;
        }
        if is_mark(round.before, Mark::Function) {
            self.definitions = self.definitions.saturating_add(1);
        }
        self.with(found, token.span.start)
    }
}

/// The uses of the name at the place at fault.
fn read_uses(case: &FaultyScript<'_, '_>) -> Uses {
    let name = case.name();
    let mut uses = Uses::none();
    let mut earlier = None;
    let mut before = None;
    let mut walk = Walk {
        depth: 0,
        list: 0,
        is_filled: false,
    };
    for (number, token) in case.tokens.iter().enumerate() {
        let round = Round {
            earlier,
            before,
            after: case.value(number.saturating_add(1)),
            is_filled: walk.is_filled,
        };
        uses = uses.with_token(token, name, round, case.start);
        walk = walk.past(&token.value);
        earlier = before;
        before = Some(&token.value);
    }
    uses
}

/// How a use is called.
fn words_of(found: Use) -> &'static str {
    match found {
        Use::Array => "an array",
        Use::Scalar => "a scalar",
        Use::Function => "a function",
        Use::Listed => "a name",
    }
}

/// Two uses of a name, and where the second one is; the first one is at the place at fault, or elsewhere.
#[derive(Clone, Copy)]
struct Clash {
    first: Use,
    elsewhere: Option<usize>,
    second: Use,
    place: usize,
}

/// The first place of a use that is another than this one.
fn other_than(uses: Uses, first: Use, elsewhere: Option<usize>) -> Option<Clash> {
    let others = [
        (Use::Array, uses.array),
        (Use::Scalar, uses.scalar),
        (Use::Function, uses.function),
    ];
    for (second, start) in others {
        if let (Some(place), false) = (start, second == first) {
            return Some(Clash {
                first,
                elsewhere,
                second,
                place,
            });
        }
    }
    None
}

/// The two uses of a name that are reported.
fn find_clash(uses: Uses) -> Option<Clash> {
    if uses.here != Use::Listed {
        return other_than(uses, uses.here, None);
    }
    match (uses.array, uses.scalar) {
        (Some(_), _) => other_than(uses, Use::Array, uses.array),
        (None, Some(_)) => other_than(uses, Use::Scalar, uses.scalar),
        (None, None) => None,
    }
}

/// Tells of a use, and where it is: here, or at another place.
fn tell_use(
    case: &FaultyScript<'_, '_>,
    found: Use,
    elsewhere: Option<usize>,
    note: &mut Note,
) -> Result<(), AllocError> {
    note.tell(words_of(found))?;
    match elsewhere {
        Some(start) => {
            note.tell(" at ")?;
            append_position(&mut note.what, case.script, start)
        }
        None => note.tell(" here"),
    }
}

/// Tells of two uses.
fn explain_clash(
    case: &FaultyScript<'_, '_>,
    clash: Clash,
    note: &mut Note,
) -> Result<(), AllocError> {
    let words = Words {
        what: "@ is ",
        advice: "give one of them another name",
    };
    note.explain(words, case.name())?;
    tell_use(case, clash.first, clash.elsewhere, note)?;
    note.tell(", and ")?;
    tell_use(case, clash.second, Some(clash.place), note)
}

/// Whether a token may come before a parameter in a list of parameters.
fn is_in_parameters(token: &Token) -> bool {
    matches!(
        &token.value,
        TokenValue::Name(_) | TokenValue::Mark(Mark::Comma)
    )
}

/// How many of these tokens, from the last one back, may come before a parameter.
fn count_in_parameters(tokens: &[Token]) -> usize {
    let mut count: usize = 0;
    for token in tokens.iter().rev() {
        if !is_in_parameters(token) {
            return count;
        }
        count = count.saturating_add(1);
    }
    0
}

/// Whether these tokens end with the head of a function, up to its `(`.
fn ends_with_head(tokens: &[Token]) -> bool {
    match tokens {
        [.., word, _, list] => {
            is_mark(Some(&word.value), Mark::Function)
                && is_mark(Some(&list.value), Mark::LeftParenthesis)
        }
        _ => false,
    }
}

/// Whether the name at the place is in the list of the parameters of a function.
fn is_parameter(case: &FaultyScript<'_, '_>) -> bool {
    let before = case.tokens.get(..case.count_before()).unwrap_or(&[]);
    let end = before.len().saturating_sub(count_in_parameters(before));
    ends_with_head(before.get(..end).unwrap_or(&[]))
}

/// What is reported about a parameter.
fn words_of_parameter(case: &FaultyScript<'_, '_>, uses: Uses) -> &'static str {
    if is_variable(case.name()) {
        "the parameter @ has the name of a variable of the language"
    } else if uses.function.is_some() {
        "the parameter @ has the name of a function"
    } else if uses.list_count > 1 {
        "the parameter @ is there twice"
    } else {
        OTHER_KIND
    }
}

/// What is reported about a name that is itself used in one way.
const OTHER_KIND: &str =
    "@ is of another kind than what is passed for it, or than what it is passed for";

/// What is reported about a function.
fn words_of_function(case: &FaultyScript<'_, '_>, uses: Uses) -> &'static str {
    if uses.definitions > 1 {
        "the function @ is defined twice"
    } else if is_variable(case.name()) {
        "the function @ has the name of a variable of the language"
    } else {
        "@ is a function here, and a parameter or an argument elsewhere"
    }
}

/// What is reported about a name of which no two uses were seen.
fn words_of_single(case: &FaultyScript<'_, '_>, uses: Uses) -> &'static str {
    if uses.here == Use::Function {
        words_of_function(case, uses)
    } else if is_parameter(case) {
        words_of_parameter(case, uses)
    } else if is_variable(case.name()) {
        "@ is a variable of the language, and a scalar"
    } else {
        OTHER_KIND
    }
}

/// Tells of a name of which no two uses were seen.
fn explain_single(
    case: &FaultyScript<'_, '_>,
    uses: Uses,
    note: &mut Note,
) -> Result<(), AllocError> {
    let words = Words {
        what: words_of_single(case, uses),
        advice: "a name is an array, a scalar or a function in all its places, and where it is passed to",
    };
    note.explain(words, case.name())
}

/// 5: one name has two uses.
pub(crate) fn explain_uses(case: &FaultyScript<'_, '_>, note: &mut Note) -> Result<(), AllocError> {
    let uses = read_uses(case);
    match find_clash(uses) {
        Some(clash) => explain_clash(case, clash, note),
        None => explain_single(case, uses, note),
    }
}
