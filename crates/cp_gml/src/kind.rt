// What can be wrong with a text.
ghost use Rattle.std.specs.Prelude.{◌≡◌};
ghost use Rattle.cp_gml.specs.Kinds.{grammar_name, grammar_number};

use std::fmt;

/// What is wrong where a text ceases to be a list of keys and values.
#[derive(Clone, Copy, Debug, PartialEq, Eq)]
pub enum GrammarKind {
    /// A byte that begins no token, no blank and no comment.
    BadByte,
    /// A string without a closing quote, at its opening one.
    OpenString,
    /// A number that is neither an integer nor a real.
    BadNumber,
    /// A number, a string or an opening bracket where a key or a closing bracket is due.
    KeyExpected,
    /// A word, a closing bracket or the end of the text where a value is due.
    ValueExpected,
    /// The end of the text where a key is due, inside a list between brackets.
    ListOpen,
    /// A closing bracket where a key is due, outside of all brackets.
    StrayClose,
    /// An opening bracket as a value, of a list at depth 513.
    TooDeep,
}

impl GrammarKind {
    /// The number of the kind in the format: 1 to 8, in the order of the variants.
    pub fn number(&self) -> u8
        ensures { result ≡ grammar_number self.now }
    {
        match self {
            GrammarKind::BadByte => 1,
            GrammarKind::OpenString => 2,
            GrammarKind::BadNumber => 3,
            GrammarKind::KeyExpected => 4,
            GrammarKind::ValueExpected => 5,
            GrammarKind::ListOpen => 6,
            GrammarKind::StrayClose => 7,
            GrammarKind::TooDeep => 8,
        }
    }

    /// The name of the kind.
    pub fn name(&self) -> &'static str
        ensures { result.now ≡ grammar_name self.now }
    {
        match self {
            GrammarKind::BadByte => "BadByte",
            GrammarKind::OpenString => "OpenString",
            GrammarKind::BadNumber => "BadNumber",
            GrammarKind::KeyExpected => "KeyExpected",
            GrammarKind::ValueExpected => "ValueExpected",
            GrammarKind::ListOpen => "ListOpen",
            GrammarKind::StrayClose => "StrayClose",
            GrammarKind::TooDeep => "TooDeep",
        }
    }
}

impl fmt::Display for GrammarKind {
    fn fmt<W: fmt::Write>(&self, f: &mut fmt::Formatter<W>) -> fmt::Result {
        f.write_str(self.name())
    }
}
