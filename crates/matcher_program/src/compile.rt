//! The compiler, from optimized rules to forms.
ghost use Rattle.std.specs.Prelude.{◌≡◌, ℕ, List, false, Option, IfErr, IfNone, IfOk, IfSome, None, bytes_eq, chars, map, codes, ◌∷◌, [], ◌||◌};
ghost use Rattle.base_language.specs.Language.Text.{Text};
ghost use Rattle.base_language.specs.Language.Expression.{Grammar, Ident, rule_of, whitespace, comment};
ghost use Rattle.base_ast.specs.Optimized.{optimized_expression_of, optimized_rule_of, optimized_rules_of};
ghost use Rattle.base_language.specs.Language.Builtins.{is_one_of, property_names};
ghost use Rattle.matcher_program.specs.declared.compile.Unfit.TheVariants.{Memory};
ghost use Rattle.matcher_program.specs.declared.form.Property.{Property};
ghost use Rattle.matcher_program.specs.Programs.{Fits, IsProgramRule, IsSkippedRule, IsSound, class_name, grammar_of, grammar_rule};
ghost use Rattle.matcher_program.specs.Compiled.{Compiles, names_in};
ghost use Rattle.matcher_program.specs.Indexed.{KnowsLast};
ghost use Rattle.matcher_program.specs.Refusals.{IsNoBuiltin, IsNoCharacter, IsReason, IsWrongBound, IsWrongIn, has_property};
ghost use Rattle.base_ast.specs.Ast.{text_of};
ghost use Rattle.front_names.specs.Builtins.{name_of};
ghost use Rattle.front_names.specs.CharSets.{set_name};

use crate::form::{Class, Form, Program, ProgramRule, Property};
use crate::forms::form_of;
use crate::indexed::{Indexed, index_rules};
use crate::properties::{Properties, find_property, properties_in};
use crate::sets::to_set;
use crate::texts::same;
use base_ast::optimized::OptimizedRule;
use front_names::{Builtin, CharSet, comment_name, unicode_property_names, whitespace_name};
use std::alloc::{AllocError, Global};

/// Why rules cannot be run.
#[derive(Debug, Drop)]
pub enum Unfit {
    /// An allocation failed.
    Memory,
    /// A rule calls a name that is neither a rule nor a builtin, or a property that is not known.
    UnknownName(String),
    /// A bound of a range is not one character.
    Bound(String),
}

impl From<AllocError> for Unfit {
    ghost from_gives = { λ _ unfit. unfit ≡ Memory };

    fn from(_error: AllocError) -> Unfit {
        Unfit::Memory
    }
}

/// Returns the class of a builtin's set.
fn class_of(set: CharSet) -> Class
    ensures { class_name result ≡ set_name set }
{
    match set {
        CharSet::Any => Class::Any,
        CharSet::AsciiDigit => Class::Digit,
        CharSet::AsciiNonzeroDigit => Class::NonzeroDigit,
        CharSet::AsciiBinDigit => Class::BinDigit,
        CharSet::AsciiOctDigit => Class::OctDigit,
        CharSet::AsciiHexDigit => Class::HexDigit,
        CharSet::AsciiAlphaLower => Class::AlphaLower,
        CharSet::AsciiAlphaUpper => Class::AlphaUpper,
        CharSet::AsciiAlpha => Class::Alpha,
        CharSet::AsciiAlphanumeric => Class::Alphanumeric,
        CharSet::Ascii => Class::Ascii,
    }
}

/// Returns the form of a builtin other than a property name.
fn form_of_builtin(builtin: Builtin) -> Form
    ensures { (g : Grammar) (ps : List Property)
        → rule_of g (name_of builtin) ≡ None → Compiles g ps (Ident (name_of builtin)) result }
{
    match builtin {
        Builtin::Set(set) => Form::One(class_of(set)),
        Builtin::Soi => Form::Start,
        Builtin::Eoi => Form::End,
        Builtin::Newline => Form::Newline,
        Builtin::Peek => Form::Peek,
        Builtin::Pop => Form::Pop,
        Builtin::Drop => Form::Discard,
        Builtin::PeekAll => Form::PeekAll,
        Builtin::PopAll => Form::PopAll,
    }
}

/// Returns the character of a text with exactly one.
fn single(text: &str) -> Option<char>
    ensures none { IfNone result (IsNoCharacter (chars text.now)) }
    ensures some { IfSome result (λ c. chars text.now ≡ c ∷ []) }
{
    let mut characters = text.chars();
    let c = characters.next()?;
    if characters.as_str().is_empty() {
        Some(c)
    } else {
        None
    }
}

/// Returns the character of a range's bound.
pub(crate) fn range_bound(text: &String) -> Result<char, Unfit>
    ensures refused { IfErr result (IsWrongBound (text_of text.now)) }
    ensures character { IfOk result (λ c. text_of text.now ≡ c ∷ []) }
{
    match single(text.as_str()) {
        Some(c) => Ok(c),
        None => Err(Unfit::Bound(text.clone()?)),
    }
}

/// Whether a name is a property's.
pub fn is_property(name: &str) -> bool
    ensures { result ≡ is_one_of property_names (chars name.now) }
{
    let names = unicode_property_names();
    for property in names {
        if same(property, name) {
            return true;
        }
    }
    false
}

/// Returns the form of a name that no rule has, or `None` if it is no builtin and no known property.
fn builtin(properties: &[Property], name: &String) -> Result<Option<Form>, AllocError>
    ensures some { IfOk result (λ found. IfSome found (λ form. (g : Grammar)
        → rule_of g (text_of name.now) ≡ None
        → Compiles g properties.now (Ident (text_of name.now)) form)) }
    ensures none { IfOk result (λ found. IfNone found
        (IsNoBuiltin (has_property properties.now) (text_of name.now))) }
{
    if let Some(builtin) = Builtin::from_name(name.as_str()) {
        return Ok(Some(form_of_builtin(builtin)));
    }
    if !is_property(name.as_str()) {
        return Ok(None);
    }
    match find_property(properties, name.as_str()) {
        Some(number) => Ok(Some(Form::Property(name.clone()?, number))),
        None => Ok(None),
    }
}

/// Resolves a name to the last rule of that name, or else to a builtin.
pub(crate) fn resolve_name(
    rules: &Indexed<'_>,
    properties: &[Property],
    name: &String,
) -> Result<Form, Unfit>
    requires { KnowsLast (optimized_rules_of rules.now.rules.now) rules.now.numbers }
    ensures compiles { IfOk result (Compiles (optimized_rules_of rules.now.rules.now) properties.now
        (Ident (text_of name.now))) }
    ensures refused { IfErr result (IsWrongIn properties.now (optimized_rules_of rules.now.rules.now)
        (Ident (text_of name.now))) }
{
    match rules.number_of(name.as_str()) {
        Some(number) => Ok(Form::Call(number)),
        None => match builtin(properties, name)? {
            Some(form) => Ok(form),
            None => Err(Unfit::UnknownName(name.clone()?)),
        },
    }
}

/// Whether a name is one of the two that are skipped implicitly.
fn is_blank(name: &str) -> bool
    ensures { result ≡ (bytes_eq (chars name.now) whitespace || bytes_eq (chars name.now) comment) }
{
    if same(name, whitespace_name()) {
        true
    } else {
        same(name, comment_name())
    }
}

/// Compiles a rule.
fn program_rule_of(
    alloc: Global,
    rules: &Indexed<'_>,
    properties: &[Property],
    rule: &OptimizedRule,
) -> Result<ProgramRule, Unfit>
    requires { KnowsLast (optimized_rules_of rules.now.rules.now) rules.now.numbers }
    ensures says { IfOk result (λ program_rule.
        grammar_rule (names_in (optimized_rules_of rules.now.rules.now)) program_rule
        ≡ optimized_rule_of rule.now) }
    ensures sound { IfOk result (IsProgramRule (optimized_rules_of rules.now.rules.now)
        (names_in (optimized_rules_of rules.now.rules.now)) properties.now) }
    ensures refused { IfErr result (IsWrongIn properties.now (optimized_rules_of rules.now.rules.now)
        (optimized_expression_of rule.now.expr)) }
{
    let name = rule.name.clone()?;
    let blank = is_blank(name.as_str());
    let body = to_set(alloc, form_of(alloc, rules, properties, &rule.expr)?)?;
    Ok(ProgramRule {
        name,
        kind: rule.ty,
        blank,
        body,
    })
}

/// Compiles rules.
fn program_rules_of(
    alloc: Global,
    rules: &Indexed<'_>,
    properties: &[Property],
) -> Result<Vec<ProgramRule>, Unfit>
    requires { KnowsLast (optimized_rules_of rules.now.rules.now) rules.now.numbers }
    ensures sound { IfOk result (λ program_rules. (white note : Option ℕ)
        → IsSkippedRule (optimized_rules_of rules.now.rules.now) whitespace white
        → IsSkippedRule (optimized_rules_of rules.now.rules.now) comment note
        → IsSound program_rules.items properties.now white note) }
    ensures means { IfOk result (λ program_rules. grammar_of program_rules.items
        ≡ optimized_rules_of rules.now.rules.now) }
    ensures refused { IfErr result (IsReason (has_property properties.now)
        (optimized_rules_of rules.now.rules.now)) }
{
    let mut program_rules = Vec::new(alloc);
    for rule in rules.rules {
        let program_rule = program_rule_of(alloc, rules, properties, rule)?;
        if program_rules.push(program_rule).is_err() {
            return Err(Unfit::Memory);
        }
    }
    Ok(program_rules)
}

/// Compiles rules, with the sets of the property names that they name. Errors: an allocation failure; a
/// name in a body that is neither a rule's nor a builtin's, or a property's that `properties` does not
/// know; and a bound of a range that is not one character.
pub fn program_of<P: Properties>(
    alloc: Global,
    rules: &[OptimizedRule],
    properties: &P,
) -> Result<Program, Unfit>
    ensures sound { IfOk result (λ program.
        IsSound program.rules.items program.properties.items program.whitespace program.comment) }
    ensures means { IfOk result (λ program. grammar_of program.rules.items ≡ optimized_rules_of rules.now) }
    ensures fits { IfOk result (λ program. Fits program.properties.items P.classes) }
    ensures refused { IfErr result (IsReason P.knows (optimized_rules_of rules.now)) }
{
    let properties = properties_in(alloc, rules, properties)?;
    let rules = index_rules(alloc, rules)?;
    let program_rules = program_rules_of(alloc, &rules, &properties)?;
    let whitespace = rules.number_of(whitespace_name());
    let comment = rules.number_of(comment_name());
    Ok(Program {
        rules: program_rules,
        properties,
        whitespace,
        comment,
    })
}
