//! How a run ends, and why a text is refused: the statuses with their numbers, the reasons with their words.

ghost use Rattle.std.specs.Prelude.{◌≡◌};
ghost use Rattle.rare_base.specs.Answers.{number_of, reason_word};

/// How a run ended.
#[derive(Clone, Copy, Debug, PartialEq, Eq)]
pub enum Status {
    /// All rewrites are valid.
    AllGood,
    /// Some rewrite is open, or a command is invalid.
    NotAll,
    /// The words after the program's name have none of its forms.
    BadWords,
    /// A file has no reading.
    BadText,
    /// A read failed.
    ReadFault,
    /// A put failed.
    WriteFault,
    /// Want of memory.
    Memory,
    /// A file has more than 2^28 bytes.
    TooLong,
}

impl Status {
    /// The number with which the program ends, from 0 to 7.
    pub fn number(&self) -> u8
        ensures { result ≡ number_of self.now }
    {
        match self {
            Status::AllGood => 0,
            Status::NotAll => 1,
            Status::BadWords => 2,
            Status::BadText => 3,
            Status::ReadFault => 4,
            Status::WriteFault => 5,
            Status::Memory => 6,
            Status::TooLong => 7,
        }
    }
}

/// A place in a text: its line and its column, both from 1, columns in bytes.
#[derive(Clone, Copy, Debug, PartialEq, Eq)]
pub struct Place {
    pub line: u32,
    pub column: u32,
}

/// Why a text is refused.
#[derive(Clone, Copy, Debug, PartialEq, Eq)]
pub enum Reason {
    /// A `)` without `(`, at it, or the end of the text inside a list, at the outermost open `(`.
    Unbalanced,
    /// A byte that fits no expression, at it, or the end of the text inside an atom that is not whole,
    /// at the atom.
    BadCharacter,
    /// The end of the text inside a string, at its first byte.
    OpenString,
    /// The end of the text inside a quoted symbol, at its first byte.
    OpenSymbol,
    /// More lists within one another than may be nested, at the `(` of the first too many.
    TooDeep,
    /// An expression has none of the forms that may stand in its place, and no other reason applies;
    /// at that expression.
    BadForm,
    /// A list whose first symbol is no command of such a file, at the list.
    UnknownCommand,
    /// A name that is not declared, or not of the kind needed, at the name.
    UnknownSymbol,
    /// A name that was declared before or is a word of the theories is declared, or a second rewrite
    /// has a name; at the name.
    DeclaredTwice,
    /// A name that is reserved is declared or bound, at the name.
    ReservedSymbol,
    /// An expression that is no sort, or a sort whose width is not entailed to be at least 1; at it.
    BadSort,
    /// An application or a literal breaks its rule of sorts, at it; or the two sides of an equation
    /// have two sorts, at the command; or a term has another sort than is stated, at that sort.
    IllSorted,
    /// A literal has a larger value than may be read, at the literal.
    LiteralTooWide,
    /// A term, a sort, a linear expression or a constraint is beyond a limit, at it.
    TermLimit,
    /// A product of two linear expressions that both have names, at the product.
    NonLinear,
    /// A constraint is false where each name has its sample, at the command.
    SampleFails,
    /// The word for the rule of a step is none of those that are known, at the word.
    UnknownRule,
    /// A parameter or definition of a rule has a name that stands before it, or one that none may have, at
    /// the name.
    DuplicateParam,
    /// A rule has too many nodes, or too many list variables in one application of its left side, at the
    /// rule.
    RuleTooLarge,
    /// The hole of a rule stands not exactly once in its context, or elsewhere, at the rule.
    ContextForm,
    /// A list variable is no argument of an operator that lists are spliced into, at the rule.
    MisplacedList,
    /// An expression of the left side uses a name that is not determined before it, at the rule.
    LeftIndex,
    /// The left side of a rule does not determine a name, at the rule.
    Unbound,
    /// The rules of sorts fail in a rule, at the rule.
    Clash,
    /// A constraint of a rule that has no name is false, at the rule.
    NeverHolds,
    /// A rule of the name stands before it, at the rule.
    DuplicateName,
}

impl Reason {
    /// The word that is printed for it.
    pub fn word(&self) -> &'static str
        ensures { result.now ≡ reason_word self.now }
    {
        match self {
            Reason::Unbalanced => "Unbalanced",
            Reason::BadCharacter => "BadCharacter",
            Reason::OpenString => "OpenString",
            Reason::OpenSymbol => "OpenSymbol",
            Reason::TooDeep => "TooDeep",
            Reason::BadForm => "BadForm",
            Reason::UnknownCommand => "UnknownCommand",
            Reason::UnknownSymbol => "UnknownSymbol",
            Reason::DeclaredTwice => "DeclaredTwice",
            Reason::ReservedSymbol => "ReservedSymbol",
            Reason::BadSort => "BadSort",
            Reason::IllSorted => "IllSorted",
            Reason::LiteralTooWide => "LiteralTooWide",
            Reason::TermLimit => "TermLimit",
            Reason::NonLinear => "NonLinear",
            Reason::SampleFails => "SampleFails",
            Reason::UnknownRule => "UnknownRule",
            Reason::DuplicateParam => "DuplicateParam",
            Reason::RuleTooLarge => "RuleTooLarge",
            Reason::ContextForm => "ContextForm",
            Reason::MisplacedList => "MisplacedList",
            Reason::LeftIndex => "LeftIndex",
            Reason::Unbound => "Unbound",
            Reason::Clash => "Clash",
            Reason::NeverHolds => "NeverHolds",
            Reason::DuplicateName => "DuplicateName",
        }
    }
}

/// Why a text could not be read.
#[derive(Clone, Copy, Debug, PartialEq, Eq)]
pub enum Fault {
    /// The text is refused: the first fault, by its place and its reason.
    Refused { place: Place, reason: Reason },
    /// Want of memory.
    Memory,
}
