//! Refusals, with their numbers and words.
ghost use Rattle.std.specs.Prelude.{◌≡◌};
ghost use Rattle.soy_base.specs.Code.{code_number, code_word};

/// Why something is refused. Each code has a number and a word, which the line of a refusal shows.
#[derive(Clone, Copy, Debug, PartialEq, Eq)]
pub enum Code {
    /// A file isn't UTF-8.
    NotUtf8 = 1,
    /// A file is longer than its limit.
    TooLarge = 2,
    /// No token begins here.
    Lex = 3,
    /// The grammar doesn't go on here.
    Syntax = 4,
    /// Constructs nest too deep.
    Nesting = 5,
    /// A name is given twice.
    Twice = 6,
    /// A name is not known.
    Unknown = 7,
    /// A type doesn't fit, or has no such name.
    Mistyped = 8,
    /// A call hands too much or too little.
    Argument = 9,
    /// No value of this class may stand here.
    Place = 11,
    /// Two ways lead here that leave different places.
    Mixed = 12,
    /// A block may not end here.
    EndState = 13,
    /// A print in the name of a tag or an attribute.
    InName = 14,
    /// Too many states meet.
    States = 15,
    /// An ampersand that may begin a reference and may not.
    Ampersand = 16,
    /// A reference that isn't known.
    Reference = 17,
    /// Script or style that can't be followed.
    Script = 18,
    /// A second value at the start of a URI.
    UriStart = 19,
    /// A block of a kind that may not stand here.
    Kind = 20,
    /// The bundle hasn't its form.
    Bundle = 21,
    /// A translation isn't a pattern.
    Icu = 22,
    /// A plural rule isn't one.
    Rule = 23,
    /// A translation names a placeholder that its message hasn't.
    Placeholder = 24,
    /// A translation selects by what its message doesn't.
    Selector = 25,
    /// Two messages that differ have one id.
    IdClash = 26,
    /// The data aren't JSON.
    NotJson = 27,
    /// A member of the data hasn't its type.
    DataType = 28,
    /// No such template may be rendered.
    Entry = 29,
    /// Calls nest too deep.
    TooDeep = 31,
    /// A line of a script isn't a step.
    Step = 32,
    /// The page is too long to be shown.
    TooLong = 33,
}

impl Code {
    /// The number, 1 to 33.
    pub fn number(&self) -> u32
        ensures { result ≡ code_number self.now }
    {
        *self as u32
    }

    /// The word, in ASCII letters and digits.
    pub fn word(&self) -> &'static str
        ensures { result.now ≡ code_word self.now }
    {
        match self {
            Code::NotUtf8 => "NotUtf8",
            Code::TooLarge => "TooLarge",
            Code::Lex => "Lex",
            Code::Syntax => "Syntax",
            Code::Nesting => "Nesting",
            Code::Twice => "Twice",
            Code::Unknown => "Unknown",
            Code::Mistyped => "Type",
            Code::Argument => "Argument",
            Code::Place => "Place",
            Code::Mixed => "Mixed",
            Code::EndState => "EndState",
            Code::InName => "InName",
            Code::States => "States",
            Code::Ampersand => "Ampersand",
            Code::Reference => "Reference",
            Code::Script => "Script",
            Code::UriStart => "UriStart",
            Code::Kind => "Kind",
            Code::Bundle => "Bundle",
            Code::Icu => "Icu",
            Code::Rule => "Rule",
            Code::Placeholder => "Placeholder",
            Code::Selector => "Selector",
            Code::IdClash => "IdClash",
            Code::NotJson => "Data",
            Code::DataType => "DataType",
            Code::Entry => "Entry",
            Code::TooDeep => "TooDeep",
            Code::Step => "Step",
            Code::TooLong => "TooLong",
        }
    }
}
