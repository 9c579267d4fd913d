//! Compiled rules, with resolved names.
use base_ast::ast::RuleType;
use base_ast::deep::Release;

/// The builtins that match one character of a set.
#[derive(Clone, Copy)]
pub enum Class {
    Any,
    Digit,
    NonzeroDigit,
    BinDigit,
    OctDigit,
    HexDigit,
    AlphaLower,
    AlphaUpper,
    Alpha,
    Alphanumeric,
    Ascii,
}

/// A compiled expression, an instruction of the matcher, with resolved names.
#[derive(Drop)]
pub enum Form {
    Str(String),
    Insens(String),
    Range(char, char),
    One(Class),
    /// One of some characters, those of the boxed form.
    Set(Box<Form>),
    Start,
    End,
    Newline,
    /// A call, with the index of the rule.
    Call(usize),
    /// A property's name, and the index of its set.
    Property(String, usize),
    PosPred(Box<Form>),
    NegPred(Box<Form>),
    Seq(Box<Form>, Box<Form>),
    Choice(Box<Form>, Box<Form>),
    Opt(Box<Form>),
    Rep(Box<Form>),
    RepOnce(Box<Form>),
    /// A forward search for the first of some texts, or to the end.
    Skip(Vec<String>),
    Push(Box<Form>),
    PushLiteral(String),
    /// A tagged form, with its tag.
    Tag(Box<Form>, String),
    Restore(Box<Form>),
    Peek,
    Pop,
    Discard,
    PeekAll,
    PopAll,
    PeekSlice(i32, Option<i32>),
}

/// A compiled rule. `blank`: the rule has one of the two names that are skipped implicitly. The body is
/// dropped iteratively.
pub struct ProgramRule {
    pub name: String,
    pub kind: RuleType,
    pub blank: bool,
    pub body: Form,
}

impl Drop for ProgramRule {
    fn drop(self) {
        let ProgramRule {
            name: _,
            kind: _,
            blank: _,
            body,
        } = self;
        body.release();
    }
}

/// The set of characters of a property's name: ranges of code points with both their ends.
#[derive(Drop)]
pub struct Property {
    pub name: String,
    pub ranges: Vec<(u32, u32)>,
}

/// Compiled rules, the properties that they name, and the indices of those that are skipped implicitly.
#[derive(Drop)]
pub struct Program {
    pub rules: Vec<ProgramRule>,
    pub properties: Vec<Property>,
    pub whitespace: Option<usize>,
    pub comment: Option<usize>,
}
