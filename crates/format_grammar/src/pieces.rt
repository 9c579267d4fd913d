//! The pieces that a grammar is printed from, and the possible line ends between them.
ghost use Rattle.std.specs.Prelude.{◌≡◌, ◌||◌, false, max, true};
ghost use Rattle.format_grammar.specs.Separators.{has_blank, has_operator, rank};

/// A piece of the printed text.
#[derive(Clone, Copy)]
pub enum Piece {
    /// Bytes of the text, as they are.
    Text {
        start: usize,
        end: usize,
    },
    /// Bytes of a line of a comment.
    Comment {
        start: usize,
        end: usize,
    },
    /// A word that has no token of its own.
    Word(&'static str),
    /// A blank between two pieces of one line.
    Blank,
    /// A possible line end: a line end if its group is broken and it is not left out, and else a blank or
    /// nothing. The next piece is an operator, which is two columns before its operand, or an operand.
    Line {
        is_blank: bool,
        is_operator: bool,
        fill: Fill,
    },
    /// A line end, or one and an empty line. All groups around it are broken.
    LineEnd {
        has_empty_line: bool,
    },
    /// A line end inside a comment.
    CommentLineEnd,
    /// A group starts: its lines are broken all, or none.
    Open,
    /// A group ends.
    Close,
    /// Lines are indented by one step more.
    Indent,
    /// Lines are indented by one step less.
    Dedent,
}

/// When a line end of a broken group is left out.
#[derive(Clone, Copy)]
pub enum Fill {
    Never,
    /// If the operand before or after it is short, and the one after it fits on the line.
    BesideShort,
    /// If the operand after it fits on the line.
    WhereItFits,
}

/// The kind of an item of a grammar.
#[derive(Clone, Copy, PartialEq, Eq)]
pub enum ItemKind {
    Rule,
    /// A line that documents a rule.
    RuleDoc,
    /// A line that documents the grammar.
    GrammarDoc,
    Comment,
}

/// An item of a grammar, which begins a line.
#[derive(Clone, Copy)]
pub struct Item {
    pub kind: ItemKind,
    /// The number of its first piece.
    pub first: usize,
    /// The number of the piece after its own ones. The pieces between that and the next item are comments
    /// that follow on its last line.
    pub end: usize,
    /// Whether an empty line is before it.
    pub after_empty_line: bool,
}

/// The printed text of an item.
#[derive(Clone, Copy)]
pub struct PrintedItem {
    /// The byte of the whole printed text before which this one ends.
    pub end: usize,
    /// Whether the item takes more than one line, without the comments that follow on its last one.
    pub has_lines: bool,
}

/// The separator of two words without comments between them.
#[derive(Clone, Copy)]
pub enum Separator {
    Nothing,
    Blank,
    Line { is_blank: bool, is_operator: bool },
}

impl Separator {
    /// Returns the separator before comments that lead an operand or an operator.
    pub fn before_operand(self) -> Separator
        ensures rank { rank result ≡ rank self }
        ensures blank { has_blank result ≡ has_blank self }
        ensures operand { has_operator result ≡ false }
    {
        match self {
            Separator::Line { is_blank, .. } => Separator::Line {
                is_blank,
                is_operator: false,
            },
            _ => self,
        }
    }

    /// Returns the separator between such comments and an operator; nothing before an operand.
    pub fn before_operator(self) -> Separator
        ensures operator { has_operator self ≡ true → result ≡ self }
        ensures operand { has_operator self ≡ false → result ≡ Separator.Nothing }
    {
        match self {
            Separator::Line {
                is_operator: true,
                ..
            } => self,
            _ => Separator::Nothing,
        }
    }

    /// Joins the separators of two neighbouring words into one that serves both.
    pub fn join(self, other: Separator) -> Separator
        ensures rank { rank result ≡ max (rank self) (rank other) }
        ensures blank { has_blank result ≡ (has_blank self || has_blank other) }
        ensures operator { has_operator result ≡ (has_operator self || has_operator other) }
    {
        match (self, other) {
            (
                Separator::Line {
                    is_blank: first_blank,
                    is_operator: first_operator,
                },
                Separator::Line {
                    is_blank,
                    is_operator,
                },
            ) => Separator::Line {
                is_blank: first_blank || is_blank,
                is_operator: first_operator || is_operator,
            },
            (Separator::Line { .. }, _) => self,
            (_, Separator::Line { .. }) => other,
            (Separator::Nothing, Separator::Nothing) => Separator::Nothing,
            _ => Separator::Blank,
        }
    }
}
