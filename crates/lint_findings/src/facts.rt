//! The table of codes.
ghost use Rattle.std.specs.Prelude.{◌≡◌, map};
ghost use Rattle.lint_findings.specs.Codes.{all_codes, code_name, message_of, report_of};

use crate::codes::{Code, Report};

/// The facts of a code.
#[derive(Clone, Copy)]
pub struct Facts {
    pub code: Code,
    /// The name of the code, such as `pest::left_recursion`.
    pub name: &'static str,
    /// What is wrong, in a few words.
    pub summary: &'static str,
    /// How diagnostics of the code are reported.
    pub report: Report,
    /// The message of the warnings of the code. For an error it is empty, since an error has a
    /// message of its own.
    pub message: &'static str,
    /// The help of the code, if it is the same for all its diagnostics.
    pub help: Option<&'static str>,
    /// The page of the code: when it is reported, an example, and how to correct it.
    pub page: &'static str,
}

/// The facts of all codes, in the order of the codes.
static FACTS: [Facts; 29] = [
    Facts {
        code: Code::Syntax,
        name: "pest::syntax",
        summary: "the text is not a valid grammar",
        report: Report::Error,
        message: "",
        help: None,
        page: "The text is not a valid grammar. The reported position is the furthest one that the \
               parser reached. The expected names are those of pest's own grammar. If the mistake is a \
               known one, a help shows how to correct it.",
    },
    Facts {
        code: Code::EscapeValue,
        name: "pest::escape_value",
        summary: "an escape names no character",
        report: Report::Error,
        message: "",
        help: Some("D800 to DFFF and what is above 10FFFF are no characters"),
        page: "An escape does not name a character.\n\n    \
               a = { \"\\u{D800}\" }\n\n\
               The values D800 to DFFF and those above 10FFFF are not characters.",
    },
    Facts {
        code: Code::NumberRange,
        name: "pest::number_range",
        summary: "a number does not fit 32 bits",
        report: Report::Error,
        message: "",
        help: None,
        page: "A number does not fit into 32 bits.\n\n    \
               a = { \"x\"{5000000000} }",
    },
    Facts {
        code: Code::ZeroRepetition,
        name: "pest::zero_repetition",
        summary: "an expression is repeated 0 times",
        report: Report::Error,
        message: "",
        help: Some("use `\"\"` to match the empty string"),
        page: "An expression is repeated zero times, and so it would match only the empty string.\n\n    \
               a = { \"x\"{0} }\n\n\
               Use \"\" to match the empty string.",
    },
    Facts {
        code: Code::ReservedName,
        name: "pest::reserved_name",
        summary: "a rule has a name that is reserved",
        report: Report::Error,
        message: "",
        help: Some("use another name: pest has a meaning for this one"),
        page: "A rule has a name that pest reserves.\n\n    \
               ANY = { \"x\" }",
    },
    Facts {
        code: Code::DuplicateRule,
        name: "pest::duplicate_rule",
        summary: "two rules have one name",
        report: Report::Error,
        message: "",
        help: Some("remove one of them, or write both as alternatives: `a = { b | c }`"),
        page: "Two rules have the same name.\n\n    \
               a = { \"x\" }\n    \
               a = { \"y\" }",
    },
    Facts {
        code: Code::UndefinedRule,
        name: "pest::undefined_rule",
        summary: "a name is neither a rule nor a builtin",
        report: Report::Error,
        message: "",
        help: None,
        page: "A name is neither that of a rule nor that of a builtin.\n\n    \
               a = { asci_digit+ }\n\n\
               The names of builtins are in capital letters, such as ASCII_DIGIT.",
    },
    Facts {
        code: Code::MissingProperty,
        name: "pest::missing_property",
        summary: "a Unicode property of pest is not supported here",
        report: Report::Error,
        message: "",
        help: None,
        page: "A rule calls a Unicode property that pest has and this front end does not have. These \
               are the properties of emoji, most scripts, and some others.\n\n    \
               a = { EMOJI }\n\n\
               In pest, the call is valid. If you define a rule with this name, it takes the place of \
               the property.",
    },
    Facts {
        code: Code::LeftRecursion,
        name: "pest::left_recursion",
        summary: "a rule calls itself before it takes a character",
        report: Report::Error,
        message: "",
        help: Some("write the operand first and repeat the rest: `a = { b ~ (\"+\" ~ b)* }`"),
        page: "A rule calls itself before it consumes a character, and so it would never end.\n\n    \
               sum = { sum ~ \"+\" ~ number | number }\n\n\
               Write the operand first, and then repeat the rest:\n\n    \
               sum = { number ~ (\"+\" ~ number)* }",
    },
    Facts {
        code: Code::EndlessRepetition,
        name: "pest::endless_repetition",
        summary: "a repetition may never end",
        report: Report::Error,
        message: "",
        help: None,
        page: "An iteration of a repetition may consume nothing, and then the repetition would never \
               end.\n\n    \
               a = { (\"x\"?)* }\n\n\
               Each iteration has to consume a character. ANY does so; EOI and \"x\"* do not.",
    },
    Facts {
        code: Code::UnreachableChoice,
        name: "pest::unreachable_choice",
        summary: "an alternative follows one that cannot fail",
        report: Report::Error,
        message: "",
        help: Some("put the alternative that cannot fail last, or remove its `?` or `*`"),
        page: "An alternative that cannot fail stands before other alternatives, and so they are never \
               tried.\n\n    \
               a = { \"x\"? | \"y\" }\n\n\
               Move it to the end of the choice.",
    },
    Facts {
        code: Code::TagWithoutToken,
        name: "pest::tag_without_token",
        summary: "a tag is on what produces no pair",
        report: Report::Error,
        message: "",
        help: Some("tag a rule that is not silent, or remove the tag"),
        page: "A tag is on an expression that produces no pair: a silent rule or a builtin.\n\n    \
               a = { #t = ANY }",
    },
    Facts {
        code: Code::UnusedAllowance,
        name: "pest::unused_allowance",
        summary: "a comment allows a warning that is not there",
        report: Report::Warning,
        message: "this allows nothing in the rule below",
        help: Some("remove the comment"),
        page: "A comment allows a warning that does not occur, or it does not name a code.\n\n    \
               // pest-lint: allow(pest::idle_test)\n    \
               a = { \"x\" }\n\n\
               Such a comment is a line directly above the rule, and allows one code for this rule. \
               Only the first 256 of these comments in a grammar count. Errors cannot be allowed.",
    },
    Facts {
        code: Code::UncalledRule,
        name: "pest::uncalled_rule",
        summary: "a rule is never used",
        report: Report::Warning,
        message: "this rule is never used",
        help: None,
        page: "A rule is not needed. A rule is needed if another rule calls it, if it calls SOI or \
               EOI, if it is named as a start, or if it is WHITESPACE or COMMENT. To name starts, use \
               --start, or write a line before the rules:\n\n    \
               //! pest-lint: start(file, expression)\n\n\
               If no rule calls SOI or EOI, and no start is named, the first rule is taken for the \
               start. If another rule calls that first rule, nothing is reported. With --warn all, the \
               first rule is not taken for the start.",
    },
    Facts {
        code: Code::MissingEnd,
        name: "pest::missing_end",
        summary: "a start rule does not require EOI",
        report: Report::Warning,
        message: "start rule doesn't require EOI, so it can stop before the end of the input",
        help: Some("end its body with `~ EOI` if the whole input is to match"),
        page: "A rule with which matching starts never tests for the end of the text. So it also \
               succeeds on a text that continues after the match.\n\n    \
               file = { SOI ~ line* }\n\n\
               Write file = { SOI ~ line* ~ EOI }. A start here is a rule that no other rule calls, if \
               it calls SOI, or if it is the only rule of several that is not called. EOI, !ANY, ANY* \
               and ANY+ test for the end, in the start itself or through at most 32 calls. If several \
               starts are named and no rule tests for the end, nothing is reported. This warning is a \
               hint, and not definite: the rule may test for the end in another way.",
    },
    Facts {
        code: Code::UnknownStart,
        name: "pest::unknown_start",
        summary: "a comment names a start that is no rule",
        report: Report::Warning,
        message: "no rule has this name",
        help: Some("give the names of rules of this grammar"),
        page: "A comment `//! pest-lint: start(a, b)` names a start that is not a rule of the grammar. \
               Write the name of a rule as it is defined.",
    },
    Facts {
        code: Code::Unreachable,
        name: "pest::unreachable",
        summary: "an earlier alternative matches a prefix of this one",
        report: Report::Warning,
        message: "unreachable: an earlier alternative matches a prefix of everything this one matches",
        help: None,
        page: "An alternative is never taken, because an earlier literal or call matches a prefix of \
               everything that the alternative matches.\n\n    \
               a = { \"<\" | \"<=\" }\n    \
               b = { name | name ~ \"(\" ~ \")\" }\n\n\
               Put the longer alternative first.",
    },
    Facts {
        code: Code::ReversedRange,
        name: "pest::reversed_range",
        summary: "a range is reversed and matches nothing",
        report: Report::Warning,
        message: "this range is empty: its first character is greater than its last",
        help: Some("swap the bounds"),
        page: "The first character of a range is greater than its last one, so the range is empty.\n\n    \
               a = { 'z'..'a' }",
    },
    Facts {
        code: Code::ReversedCount,
        name: "pest::reversed_count",
        summary: "a count is reversed, and its first number is ignored",
        report: Report::Warning,
        message: "the first number is greater than the last, and is ignored",
        help: Some("swap the numbers"),
        page: "The first number of a count is greater than its last one. Only the last number has an \
               effect.\n\n    \
               a = { \"x\"{3,1} }\n\n\
               This matches one \"x\".",
    },
    Facts {
        code: Code::IdleTest,
        name: "pest::idle_test",
        summary: "a test or an option of what cannot fail",
        report: Report::Warning,
        message: "this has no effect, since its operand cannot fail",
        help: None,
        page: "The operand of a test or of an option cannot fail, so the test or the option has no \
               effect.\n\n    \
               a = { ANY*? ~ \"x\" }\n\n\
               Repetitions are never lazy. To match everything before an \"x\", write (!\"x\" ~ ANY)*.",
    },
    Facts {
        code: Code::NeverMatches,
        name: "pest::never_matches",
        summary: "an expression that succeeds on no text",
        report: Report::Warning,
        message: "this never matches",
        help: None,
        page: "An expression does not succeed on any text.\n\n    \
               a = { ANY* ~ \"x\" }\n\n\
               ANY* consumes the whole rest of the text. Write (!\"x\" ~ ANY)* ~ \"x\". Also, !(e*) \
               always fails, because e* never fails.",
    },
    Facts {
        code: Code::BlanksInToken,
        name: "pest::blanks_in_token",
        summary: "whitespace is skipped between characters",
        report: Report::Warning,
        message: "implicit whitespace is allowed between these characters",
        help: Some("make the rule atomic: `name = @{ .. }`"),
        page: "If WHITESPACE or COMMENT is defined, it is skipped between the parts of a rule, and \
               also between the iterations of a repetition.\n\n    \
               WHITESPACE = _{ \" \" }\n    \
               word = { ASCII_ALPHA+ }\n\n\
               This matches a b c as one word. A rule with @ or $ before its brace skips nothing. With \
               @, the rules that it calls give no tokens:\n\n    \
               word = @{ ASCII_ALPHA+ }",
    },
    Facts {
        code: Code::ManyCopies,
        name: "pest::many_copies",
        summary: "nested counts make 10,000 copies or more",
        report: Report::Warning,
        message: "the optimizer makes 10,000 copies or more of what this repeats",
        help: Some("put a part of it into a rule of its own: then calls alone are copied"),
        page: "The optimizer replaces a count by copies of the expression, and the counts of nested \
               repetitions multiply. This is reported if an expression has 10,000 copies or more.\n\n    \
               a = { ((\"x\" ~ \"y\"){100} ~ \"z\"){100} }\n\n\
               If the repeated expression is a call, only the call is copied:\n\n    \
               a = { b{100} }\n    \
               b = _{ (\"x\" ~ \"y\"){100} ~ \"z\" }",
    },
    Facts {
        code: Code::RepeatedAlternative,
        name: "pest::repeated_alternative",
        summary: "an alternative stands twice in a choice",
        report: Report::Warning,
        message: "unreachable: this alternative is the same as an earlier one",
        help: Some("remove it, or write what was meant"),
        page: "An alternative is the same as an earlier one, so it is never taken. Alternatives with \
               more than 256 nodes and characters together are not compared.\n\n    \
               a = { \"x\" ~ b | c | \"x\" ~ b }",
    },
    Facts {
        code: Code::RewrittenList,
        name: "pest::rewritten_list",
        summary: "a list that pest runs differently",
        report: Report::Warning,
        message: "pest runs a list `(x ~ y)* ~ x` of this rule as `x ~ (y ~ x)*`",
        help: Some("so it matches before a `y` that no `x` follows; write what is meant"),
        page: "The optimizer rewrites (x ~ y)* ~ x as x ~ (y ~ x)*, which matches more texts.\n\n    \
               a = { (b ~ \",\")* ~ b }\n    \
               b = { \"x\" }\n\n\
               As it is written, this fails on \"x,\", but pest matches the x. Nothing is reported if \
               x cannot fail, of (!c ~ n)* in an atomic rule, or of rules with more than 1,000,000 \
               nodes after counts are replaced by copies. If a search among short texts finds one on \
               which both forms differ, a note shows it. In a grammar of more than 200 rules there is \
               no search.",
    },
    Facts {
        code: Code::KeywordName,
        name: "pest::keyword_name",
        summary: "a rule is named as a keyword of Rust",
        report: Report::OnRequest,
        message: "Rust keeps this name for itself",
        help: Some(
            "in Rust it is written `r#name`, which `self`, `Self`, `super` and `crate` can't be",
        ),
        page: "The name of a rule is a keyword of Rust. This is reported only with --warn all.\n\n    \
               match = { \"x\" }\n\n\
               In Rust, this rule is Rule::r#match. A rule with the name self, Self, super or crate \
               cannot be named in Rust.",
    },
    Facts {
        code: Code::BuiltinName,
        name: "pest::builtin_name",
        summary: "a rule is named as a builtin",
        report: Report::OnRequest,
        message: "this name is that of a builtin",
        help: None,
        page: "A rule has the name of a builtin, and takes its place. Or it has the name of a builtin \
               of pest 1, such as any, eoi or whitespace, and is a rule like others. This is reported \
               only with --warn all.\n\n    \
               LETTER = { 'a'..'z' }\n    \
               whitespace = _{ \" \" }",
    },
    Facts {
        code: Code::RepeatedBody,
        name: "pest::repeated_body",
        summary: "two rules have one type and body",
        report: Report::OnRequest,
        message: "a rule before this one has the same type and body",
        help: Some("let one of them call the other, or remove one"),
        page: "A rule has the same type and body as an earlier one. This is reported only with --warn \
               all, because two names may be intended. A body is not compared if it is a literal or a \
               call, or if it has more than 256 nodes and characters together.\n\n    \
               count = @{ ASCII_DIGIT+ }\n    \
               number = @{ ASCII_DIGIT+ }\n\n\
               Let one rule call the other, or remove one of them.",
    },
    Facts {
        code: Code::StackRead,
        name: "pest::stack_read",
        summary: "the stack is read, so time has no known bound",
        report: Report::OnRequest,
        message: "the stack is read: the time of a match has no bound that is known",
        help: Some("give each match a limit on steps"),
        page: "A rule reads the stack. If no rule uses the stack, the turns of a match are linear in \
               the text and in its tree. If one does, backtracking may take exponential time. This is \
               reported only with --warn all.\n\n    \
               quoted = { PUSH(\"'\"+) ~ (!PEEK ~ ANY)* ~ POP }\n\n\
               Give each match a limit on its steps.",
    },
];

/// The facts of all codes, in the order of the codes.
pub fn all_facts() -> &'static [Facts]
    ensures codes { map (λ facts. facts.code) result.now ≡ all_codes }
    ensures names { map (λ facts. facts.name.now) result.now ≡ map code_name all_codes }
    ensures reports { map (λ facts. facts.report) result.now ≡ map report_of all_codes }
    ensures messages { map (λ facts. facts.message.now) result.now ≡ map message_of all_codes }
{
    &FACTS
}

/// The facts of a code.
pub(crate) fn facts_of(code: Code) -> &'static Facts
    ensures code { result.now.code ≡ code }
    ensures name { result.now.name.now ≡ code_name code }
    ensures report { result.now.report ≡ report_of code }
    ensures message { result.now.message.now ≡ message_of code }
{
    &all_facts()[code as usize]
}
