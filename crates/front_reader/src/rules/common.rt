//! Common names of the rules of the meta-grammar.
ghost use Rattle.std.specs.Prelude.{◌≡◌};
ghost use Rattle.front_reader.specs.CommonNames.{common_name};

use base_language::grammar::Rule;

/// Returns the common name of a rule, as a message says it after "expected". A rule that is written in
/// one way only has its text between grave accents, as `` `{` ``, and all others have a name in words, as
/// `an identifier`; `EOI` is `the end of the text`.
///
/// Errors show the names that `rename_meta_rule` gives, which calls most rules by their own names, and
/// `~` a `&`.
pub fn common_name(rule: Rule) -> &'static str
    ensures { result.now ≡ common_name rule }
{
    match rule {
        Rule::EOI => "the end of the text",
        Rule::grammar_rules => "rules",
        Rule::grammar_rule => "a rule",
        Rule::assignment_operator => "`=`",
        Rule::opening_brace => "`{`",
        Rule::closing_brace => "`}`",
        Rule::opening_paren => "`(`",
        Rule::closing_paren => "`)`",
        Rule::opening_brack => "`[`",
        Rule::closing_brack => "`]`",
        Rule::modifier => "a modifier",
        Rule::silent_modifier => "`_`",
        Rule::atomic_modifier => "`@`",
        Rule::compound_atomic_modifier => "`$`",
        Rule::non_atomic_modifier => "`!`",
        Rule::tag_id => "a tag",
        Rule::node_tag => "a tag and `=`",
        Rule::expression => "an expression",
        Rule::term => "a term",
        Rule::node => "a term without operators",
        Rule::terminal => "a name, a literal or a range",
        Rule::prefix_operator => "a prefix operator",
        Rule::infix_operator => "`~` or `|`",
        Rule::postfix_operator => "a postfix operator",
        Rule::positive_predicate_operator => "`&`",
        Rule::negative_predicate_operator => "`!`",
        Rule::sequence_operator => "`~`",
        Rule::choice_operator => "`|`",
        Rule::optional_operator => "`?`",
        Rule::repeat_operator => "`*`",
        Rule::repeat_once_operator => "`+`",
        Rule::repeat_exact => "`{n}`",
        Rule::repeat_min => "`{n,}`",
        Rule::repeat_max => "`{,n}`",
        Rule::repeat_min_max => "`{m,n}`",
        Rule::number => "a number",
        Rule::integer => "an integer",
        Rule::comma => "`,`",
        Rule::_push => "`PUSH`",
        Rule::_push_literal => "`PUSH_LITERAL`",
        Rule::peek_slice => "`PEEK[..]`",
        Rule::identifier => "an identifier",
        Rule::alpha => "a letter",
        Rule::alpha_num => "a letter or a digit",
        Rule::string => "a string",
        Rule::insensitive_string => "`^` and a string",
        Rule::range => "a range",
        Rule::character => "a character",
        Rule::inner_str => "the text of a string",
        Rule::inner_chr => "the text of a character",
        Rule::escape => "an escape",
        Rule::code => "`x` and two hexadecimal digits",
        Rule::unicode => "`u{..}`",
        Rule::hex_digit => "a hexadecimal digit",
        Rule::quote => "`\"`",
        Rule::single_quote => "`'`",
        Rule::range_operator => "`..`",
        Rule::newline => "a line break",
        Rule::WHITESPACE => "white space",
        Rule::line_comment => "a line comment",
        Rule::block_comment => "a block comment",
        Rule::COMMENT => "a comment",
        Rule::space => "a blank",
        Rule::grammar_doc => "`//!`",
        Rule::line_doc => "`///`",
        Rule::inner_doc => "the text of a documenting comment",
    }
}
