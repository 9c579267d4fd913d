//! The mistakes that hints know, and what is said of each.

/// A mistake that a hint knows, by where it is.
#[derive(Clone, Copy)]
pub enum Mistake {
    Literal(LiteralMistake),
    Outer(OuterMistake),
    Foreign(ForeignMistake),
    Sign(SignMistake),
    Term(TermMistake),
}

impl Mistake {
    /// How it is mended, in words.
    pub fn text(self) -> &'static str {
        match self {
            Mistake::Literal(mistake) => mistake.text(),
            Mistake::Outer(mistake) => mistake.text(),
            Mistake::Foreign(mistake) => mistake.text(),
            Mistake::Sign(mistake) => mistake.text(),
            Mistake::Term(mistake) => mistake.text(),
        }
    }
}

impl From<LiteralMistake> for Mistake {
    fn from(mistake: LiteralMistake) -> Self {
        Mistake::Literal(mistake)
    }
}

impl From<OuterMistake> for Mistake {
    fn from(mistake: OuterMistake) -> Self {
        Mistake::Outer(mistake)
    }
}

impl From<ForeignMistake> for Mistake {
    fn from(mistake: ForeignMistake) -> Self {
        Mistake::Foreign(mistake)
    }
}

impl From<SignMistake> for Mistake {
    fn from(mistake: SignMistake) -> Self {
        Mistake::Sign(mistake)
    }
}

impl From<TermMistake> for Mistake {
    fn from(mistake: TermMistake) -> Self {
        Mistake::Term(mistake)
    }
}

/// A mistake at a string, a character or a range.
#[derive(Clone, Copy)]
pub enum LiteralMistake {
    /// An escape `\x` without its digits.
    HexEscape,
    /// An escape `\u` without its digits.
    UnicodeEscape,
    /// An escape that is none.
    UnknownEscape,
    /// A string in other quotes.
    SingleQuotes,
    /// A character without a range.
    LoneCharacter,
    /// A single quote that is not closed.
    OpenCharacter,
    /// A double quote that is not closed.
    OpenString,
    /// Bounds in double quotes, or without quotes.
    QuotedBounds,
    /// A bound of several characters.
    LongBound,
    /// A range that does not have two bounds.
    LostBound,
    /// More dots than two.
    ThreeDots,
    /// A range with `..=`.
    InclusiveRange,
    /// A range with a dash.
    DashedRange,
    /// A range in any case.
    CaretRange,
}

impl LiteralMistake {
    /// How it is mended, in words.
    pub fn text(self) -> &'static str {
        match self {
            LiteralMistake::HexEscape => "`\\x` takes two hexadecimal digits",
            LiteralMistake::UnicodeEscape => {
                "`\\u` takes two to six hexadecimal digits in braces: `\\u{1F600}`"
            }
            LiteralMistake::UnknownEscape => {
                "escapes are `\\\"`, `\\'`, `\\\\`, `\\n`, `\\r`, `\\t`, `\\0`, `\\xHH`, `\\u{..}`"
            }
            LiteralMistake::SingleQuotes => "a string is in double quotes",
            LiteralMistake::LoneCharacter => {
                "a string is in double quotes; single quotes are for ranges, as `'a'..'z'`"
            }
            LiteralMistake::OpenCharacter => {
                "a string is in double quotes, a bound of a range in single ones"
            }
            LiteralMistake::OpenString => {
                "a string is closed by `\"`, and a quote in it is written `\\\"`"
            }
            LiteralMistake::QuotedBounds => {
                "the bounds of a range are characters in single quotes: `'a'..'z'`"
            }
            LiteralMistake::LongBound => "a bound of a range is one character",
            LiteralMistake::LostBound => "a range has two bounds: `'a'..'z'`",
            LiteralMistake::ThreeDots => "a range has two dots",
            LiteralMistake::InclusiveRange => "a range has two dots, and both bounds belong to it",
            LiteralMistake::DashedRange => "a range is written `'a'..'z'`",
            LiteralMistake::CaretRange => "`^` is followed by a string, and not by a range",
        }
    }
}

/// A mistake outside of bodies.
#[derive(Clone, Copy)]
pub enum OuterMistake {
    /// A name that begins with a digit.
    DigitFirst,
    /// A comment with other signs.
    CommentSign,
    /// A comment of another notation.
    EbnfComment,
    /// A comment that is not closed.
    OpenComment,
    /// The end of a comment that is not open.
    ClosedComment,
    /// A comment of the grammar behind its rules.
    LateDoc,
    /// A comment of a rule in its body.
    InnerDoc,
    /// A semicolon behind a rule.
    Semicolon,
    /// A comma behind a rule.
    Comma,
    /// An operator between bodies.
    SplitBody,
    /// A rule without a name.
    NoName,
    /// A word before a name.
    WordBefore,
    /// A rule in another form.
    Assignment,
    /// A body without braces.
    NoBraces,
    /// A modifier elsewhere.
    OuterModifier,
    /// More modifiers than one.
    TwoModifiers,
    /// A rule with parameters.
    Parameters,
    /// A directive of another notation.
    Directive,
    /// An import.
    Import,
    /// A name in quotes.
    QuotedName,
    /// A name in angle brackets.
    AngleBrackets,
    /// A name with another sign.
    NameSign,
    /// A name that begins with `PUSH`.
    PushName,
    /// A closing brace too many.
    ClosedBrace,
    /// A rule before another without its brace.
    OpenRule,
    /// A rule before another with an open bracket.
    OpenBracket,
}

impl OuterMistake {
    /// How it is mended, in words.
    pub fn text(self) -> &'static str {
        match self {
            OuterMistake::DigitFirst => "a name does not begin with a digit",
            OuterMistake::CommentSign => "a comment begins with `//`",
            OuterMistake::EbnfComment => "a comment begins with `//`, or is in `/*` and `*/`",
            OuterMistake::OpenComment => "a comment is closed by `*/`, each inside another, too",
            OuterMistake::ClosedComment => "no comment is open here",
            OuterMistake::LateDoc => {
                "`//!` documents the grammar, and is before all rules and their `///`"
            }
            OuterMistake::InnerDoc => {
                "`///` documents a rule, and is before its name; in a body a comment begins with `//`"
            }
            OuterMistake::Semicolon => "a rule ends with its brace, without `;`",
            OuterMistake::Comma => "rules follow each other without a comma",
            OuterMistake::SplitBody =>
                "alternatives and sequences are in one body: `a = { b | c }`",
            OuterMistake::NoName => "a rule begins with its name: `name = { .. }`",
            OuterMistake::WordBefore => "a rule begins with its name alone: `name = { .. }`",
            OuterMistake::Assignment => "a rule is written `name = { .. }`",
            OuterMistake::NoBraces => "a rule's body is in braces: `name = { .. }`",
            OuterMistake::OuterModifier =>
                "a modifier is between `=` and `{`, as in `name = @{ .. }`",
            OuterMistake::TwoModifiers => "a rule has one modifier: take the others away",
            OuterMistake::Parameters => "a rule has no parameters: write one for each use",
            OuterMistake::Directive => "a grammar has no directives; a comment begins with `//`",
            OuterMistake::Import => {
                "a grammar has no imports: `#[grammar = \"..\"]` may stand several times"
            }
            OuterMistake::QuotedName => "a name is written without quotes",
            OuterMistake::AngleBrackets => "names of rules are written without `<` and `>`",
            OuterMistake::NameSign => "a name has ASCII letters, digits and `_`",
            OuterMistake::PushName => "no name begins with `PUSH`",
            OuterMistake::ClosedBrace => "no brace is open here",
            OuterMistake::OpenRule => "the rule before this one has no closing brace",
            OuterMistake::OpenBracket => "the rule before this one is not closed",
        }
    }
}

/// A mistake at a character that no part of a grammar has.
#[derive(Clone, Copy)]
pub enum ForeignMistake {
    /// A byte order mark at the start.
    ByteOrderMark,
    /// A blank beyond ASCII.
    Blank,
    /// An invisible character.
    Invisible,
    /// A control character.
    Control,
    /// A dash beyond ASCII.
    Dash,
    /// An ellipsis in one character.
    Ellipsis,
    /// Quotes beyond ASCII.
    Quotes,
    /// A letter beyond ASCII.
    Letter,
    /// A sign beyond ASCII.
    Sign,
}

impl ForeignMistake {
    /// How it is mended, in words.
    pub fn text(self) -> &'static str {
        match self {
            ForeignMistake::ByteOrderMark => "the text begins with a byte order mark",
            ForeignMistake::Blank => "the blanks of a grammar are spaces, tabs and line ends",
            ForeignMistake::Invisible => "an invisible character is here",
            ForeignMistake::Control => "a control character is here",
            ForeignMistake::Dash => "this is a dash past ASCII; a range is written `'a'..'z'`",
            ForeignMistake::Ellipsis => "a range is written with two dots: `'a'..'z'`",
            ForeignMistake::Quotes => "strings are in straight quotes: `\"`",
            ForeignMistake::Letter => "a name has ASCII letters, digits and `_`",
            ForeignMistake::Sign => "operators are ASCII: `~`, `|`, `*`, `+`, `?`, `!` and `&`",
        }
    }
}

/// A mistake at a sign in a body.
#[derive(Clone, Copy)]
pub enum SignMistake {
    /// Another sign for `~`.
    OtherTilde,
    /// A test behind what it tests.
    LateTest,
    /// A sign for lists.
    ListSign,
    /// A character by its number, as in ABNF.
    CharacterNumber,
    /// A hash that begins no tag.
    Hash,
    /// An arrow.
    Arrow,
    /// An equals sign.
    Equals,
    /// A label.
    Label,
    /// A slash between alternatives.
    Slash,
    /// A regular expression.
    RegularExpression,
    /// A group of a regular expression.
    RegexGroup,
    /// A class of a regular expression.
    RegexClass,
    /// An escape outside of strings.
    RegexEscape,
    /// A class of all other characters.
    NegatedClass,
    /// A class of characters.
    Class,
    /// Brackets.
    Brackets,
    /// Other bounds of `PEEK`.
    PeekBounds,
    /// A dot for any character.
    Dot,
    /// A dot behind a name.
    DottedName,
    /// A caret for the start.
    CaretForStart,
    /// A dollar sign for the end.
    DollarForEnd,
    /// An operator with nothing behind it.
    MissingAfter,
    /// An operator with nothing before it.
    MissingBefore,
    /// A tilde for a negation.
    TildeForNot,
    /// A repetition before its operand.
    EarlyPostfix,
    /// Braces in a body that are no count.
    InnerBraces,
    /// A modifier in a body.
    InnerModifier,
    /// A difference.
    Difference,
    /// A parenthesis that is not closed.
    OpenParenthesis,
    /// A closing parenthesis too many.
    ClosedParenthesis,
    /// An empty body.
    Nothing,
}

impl SignMistake {
    /// How it is mended, in words.
    pub fn text(self) -> &'static str {
        match self {
            SignMistake::OtherTilde => "a sequence is written with `~`",
            SignMistake::LateTest => "`!` and `&` are before what they test",
            SignMistake::ListSign => "a list is written `e ~ (\",\" ~ e)*`",
            SignMistake::CharacterNumber => "a character is written by its number as `\"\\x41\"`",
            SignMistake::Hash => "a comment begins with `//`, and a tag is written `#name = e`",
            SignMistake::Arrow => "a grammar has no actions: it says what is matched alone",
            SignMistake::Equals => "a tag is written `#name = e`, and a rule outside of braces",
            SignMistake::Label => "a tag is written `#name = e`",
            SignMistake::Slash => "alternatives are separated by `|`",
            SignMistake::RegularExpression => {
                "there are no regular expressions: write strings, ranges, `|`, `~`, `*`, `+` and `?`"
            }
            SignMistake::RegexGroup => "there are no regular expressions: a group is `(e)`",
            SignMistake::RegexClass => "classes of characters have names",
            SignMistake::RegexEscape => "an escape is in a string, as `\"\\n\"`",
            SignMistake::NegatedClass => {
                "to match any character except some, write `!(\"a\" | \"b\") ~ ANY`"
            }
            SignMistake::Class => "a class of characters is a choice of ranges and strings",
            SignMistake::Brackets => {
                "there are no brackets: a class is `('a'..'z' | \"_\")`, and what may be left out `(e)?`"
            }
            SignMistake::PeekBounds => "the bounds of `PEEK` are two integers, as in `PEEK[0..1]`",
            SignMistake::Dot => "any character is `ANY`",
            SignMistake::DottedName => {
                "a name has ASCII letters, digits and `_`, and a sequence is written `a ~ b`"
            }
            SignMistake::CaretForStart =>
                "`^` is followed by a string; the start of the text is `SOI`",
            SignMistake::DollarForEnd => "the end of the text is `EOI`",
            SignMistake::MissingAfter => "an operand is missing after this operator",
            SignMistake::MissingBefore => "an operand is missing before this operator",
            SignMistake::TildeForNot => {
                "`~` is between two expressions: what is not `b` is written `!b ~ ANY`"
            }
            SignMistake::EarlyPostfix => "`*`, `+` and `?` are after what they repeat",
            SignMistake::InnerBraces => "what is repeated is written `(e)*`, and grouped `(e)`",
            SignMistake::InnerModifier => "a modifier is one of a whole rule: make a rule of this",
            SignMistake::Difference => "what matches `a` and not `b` is written `!b ~ a`",
            SignMistake::OpenParenthesis => "a parenthesis is not closed",
            SignMistake::ClosedParenthesis => "no parenthesis is open here",
            SignMistake::Nothing => "use `\"\"` to match the empty string",
        }
    }
}

/// A mistake at an expression, or where one ends.
#[derive(Clone, Copy)]
pub enum TermMistake {
    /// Two expressions with no operator between them.
    LostTilde,
    /// A plus sign for a sequence.
    Plus,
    /// A string over a line's end.
    LostQuote,
    /// A letter for any case.
    AnyCase,
    /// A raw string.
    RawString,
    /// A caret before another expression than a string.
    Caret,
    /// A word for an operator.
    Word,
    /// A word for a difference.
    Except,
    /// A word for a range.
    WordRange,
    /// A call with arguments.
    Arguments,
    /// `PUSH` in small letters.
    SmallPush,
    /// `PUSH` without parentheses.
    Push,
    /// `PUSH_LITERAL` without a string.
    PushLiteral,
    /// A call of a name that begins with `PUSH`.
    PushPrefix,
    /// `PEEK` with parentheses.
    Peek,
    /// `POP` and its like with parentheses.
    Pop,
    /// A modifier behind the brace.
    LateModifier,
    /// A tag without its sign.
    TagSign,
    /// A count before its operand.
    EarlyCount,
    /// A count with another sign.
    CountSign,
    /// Braces in a body that are no count.
    Count,
    /// A last rule without its brace.
    LastRule,
}

impl TermMistake {
    /// How it is mended, in words.
    pub fn text(self) -> &'static str {
        match self {
            TermMistake::LostTilde => "a sequence is written with `~`",
            TermMistake::Plus => {
                "a sequence is written `a ~ b`; `+`, `*` and `?` repeat what is before them"
            }
            TermMistake::LostQuote => {
                "the string before this one goes over a line's end; a quote may be missing"
            }
            TermMistake::AnyCase => "case-insensitive strings are written `^\"a\"`",
            TermMistake::RawString => "there are no raw strings: a backslash is written `\\\\`",
            TermMistake::Caret => "`^` is followed by a string",
            TermMistake::Word =>
                "operators are signs: `a | b` for or, `a ~ b` for and, `!a` for not",
            TermMistake::Except => "what matches `a` and not `b` is written `!b ~ a`",
            TermMistake::WordRange => "a range is written `'a'..'z'`",
            TermMistake::Arguments => "a rule takes no arguments; a sequence is written `a ~ b`",
            TermMistake::SmallPush => "`PUSH` is in capitals",
            TermMistake::Push => "`PUSH` takes its expression in parentheses: `PUSH(e)`",
            TermMistake::PushLiteral => {
                "`PUSH_LITERAL` takes a string in parentheses: `PUSH_LITERAL(\"a\")`"
            }
            TermMistake::PushPrefix => {
                "`PUSH` takes its expression in parentheses, and no name begins with it"
            }
            TermMistake::Peek => "`PEEK` takes bounds in brackets, as `PEEK[0..1]`, or nothing",
            TermMistake::Pop => "`POP`, `POP_ALL`, `DROP` and `PEEK_ALL` take no parentheses",
            TermMistake::LateModifier => "a modifier is before the brace",
            TermMistake::TagSign => "a tag is written `#name = e`",
            TermMistake::EarlyCount => "a count is behind what it repeats: `e{2}`",
            TermMistake::CountSign => "a count is written `{1, 3}`",
            TermMistake::Count => {
                "braces in a body are a count, as `{2}`, `{2,}`, `{,3}` or `{2,3}`; there are no actions"
            }
            TermMistake::LastRule => "the last rule has no closing brace",
        }
    }
}
