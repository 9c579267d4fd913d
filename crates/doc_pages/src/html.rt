//! Pages of HTML, and single diagrams.
ghost use Rattle.std.specs.Prelude.{◌≡◌, ◌++◌, [], IfOk, MatchOption, OnOk, length, map, string_bytes};
ghost use Rattle.std.specs.HashMap.{get_by_text};
ghost use Rattle.std.specs.List.{range_with_len};
ghost use Rattle.std.specs.List.Sorted.{IsPermutation};
ghost use Rattle.base_ast.specs.Ast.{rule_of_code, rules_of};
ghost use Rattle.doc_markup.specs.Links.{AreLinksWithin, links_of};
ghost use Rattle.doc_markup.specs.Pages.{AreIndexLinks, AreNames, IsPage};
ghost use Rattle.doc_pages.specs.Documents.{EndsWithSections, HasNoRule, HasNoneNamed, IsAskedFor, IsDiagramOf, IsDiagramOfRule, IsOneNamed};
ghost use Rattle.doc_pages.specs.Modifiers.{meaning};
ghost use Rattle.doc_pages.specs.Links.{diagram_links, other_rule, part_links, source_links};

use crate::facts::RuleFacts;
use crate::first_sets::FirstSet;
use crate::read::GrammarDoc;
use crate::source::{RuleSource, SourcePart};
use crate::warnings::RuleWarning;
use base_ast::ast;
use base_ast::ast::{Expr, RuleType};
use doc_diagram::{DiagramStyle, draw_diagram};
use doc_markup::{
    Class, Markup, MarkupBuilder, SectionContents, Tag, foot, push_markup, push_section, start_page,
};
use std::alloc::{AllocError, Global};
use std::collections::HashMap;

/// Returns the page of a grammar under a title. The only error is an allocation failure.
pub fn html_page(alloc: Global, title: &str, doc: &GrammarDoc<'_>) -> Result<String, AllocError>
    ensures { IfOk result
        (λ page. IsPage title.now (rules_of doc.now.rules.value.items) (string_bytes page)) }
{
    let names = doc.names(alloc)?;
    let introduction = introduce(alloc, doc)?;
    let index = list_rules(alloc, &names)?;
    let mut page = start_page(alloc, title, &introduction.tokens, &index.tokens, &names)?;
    push_sections(alloc, doc, &names, &mut page)?;
    page.push_str(foot())?;
    Ok(page)
}

/// Returns the diagram of the rule named `rule` as SVG. If no name is given, it is that of the first rule.
/// Returns `None` if the grammar has no such rule. The only error is an allocation failure.
pub fn svg_diagram(
    alloc: Global,
    doc: &GrammarDoc<'_>,
    rule: Option<&str>,
) -> Result<Option<String>, AllocError>
    ensures { IfOk result (λ diagram. MatchOption diagram
        (HasNoRule rule.entry (rules_of doc.now.rules.value.items))
        (IsDiagramOfRule rule.entry (rules_of doc.now.rules.value.items))) }
{
    match find_rule(&doc.rules.value, rule) {
        Some(found) => Ok(Some(render_diagram(alloc, found, &doc.numbers)?)),
        None => Ok(None),
    }
}

/// The first rule named `name`, or the first rule of all if no name is given.
fn find_rule<'r>(rules: &'r [ast::Rule], name: Option<&str>) -> Option<&'r ast::Rule>
    ensures { MatchOption result (HasNoRule name.entry (rules_of rules.entry.now))
        (λ rule. IsAskedFor name.entry (rules_of rules.entry.now) (rule_of_code rule.now)) }
{
    match name {
        Some(name) => find_named(rules, name),
        None => rules.first(),
    }
}

/// The first rule named `name`.
fn find_named<'r>(rules: &'r [ast::Rule], name: &str) -> Option<&'r ast::Rule>
    ensures { MatchOption result (HasNoneNamed name.now (rules_of rules.entry.now))
        (λ rule. IsOneNamed name.now (rules_of rules.entry.now) (rule_of_code rule.now)) }
{
    for rule in rules {
        if rule.name.as_str() == name {
            return Some(rule);
        }
    }
    None
}

/// The diagram of a rule. Since no page is around it, it has no links.
fn render_diagram(
    alloc: Global,
    rule: &ast::Rule,
    numbers: &HashMap<String, usize>,
) -> Result<String, AllocError>
    ensures { IfOk result (IsDiagramOf (get_by_text numbers.now) rule.now.expr) }
{
    let markup = draw_diagram(alloc, &rule.expr, numbers, DiagramStyle::Own)?;
    let mut drawing = String::new(alloc);
    push_markup(&markup.tokens, &[], &mut drawing)?;
    drawing.push_str("\n")?;
    Ok(drawing)
}

/// Appends the sections of all rules.
fn push_sections(
    alloc: Global,
    doc: &GrammarDoc<'_>,
    names: &[&str],
    page: &mut String,
) -> Result<(), AllocError>
    requires { AreNames (rules_of doc.now.rules.value.items) names.now }
    ensures { OnOk result (EndsWithSections names.now (rules_of doc.now.rules.value.items)
        (string_bytes page.old) (string_bytes page.new)) }
{
    for (number, rule) in doc.rules.value.iter().enumerate() {
        let contents = describe(alloc, doc, number, rule)?;
        push_section(alloc, rule, &contents, names, page)?;
    }
    Ok(())
}

/// The comment of a grammar.
fn introduce<'i>(alloc: Global, doc: &GrammarDoc<'i>) -> Result<MarkupBuilder<'i>, AllocError>
    ensures { IfOk result (λ markup. links_of markup.tokens.items ≡ []) }
{
    let mut markup = MarkupBuilder::new(alloc);
    push_comment(&mut markup, &doc.source.comment)?;
    Ok(markup)
}

/// The index of rules of these names: a list in order, and one by name.
fn list_rules<'t>(alloc: Global, names: &[&str]) -> Result<MarkupBuilder<'t>, AllocError>
    ensures { IfOk result (λ markup. AreIndexLinks (length names.now) (links_of markup.tokens.items)) }
{
    let by_name = sort_by_name(alloc, names)?;
    let mut markup = MarkupBuilder::new(alloc);
    markup.element(Tag::H2, "Rules")?;
    markup.start(Tag::Ul)?;
    push_rule_items(&mut markup, names.len())?;
    markup.close_line(Tag::Ul)?;
    markup.element(Tag::H2, "Rules by name")?;
    markup.start(Tag::Ul)?;
    push_sorted_items(&mut markup, &by_name)?;
    markup.close_line(Tag::Ul)?;
    Ok(markup)
}

/// Adds items that link to the first `count` rules.
fn push_rule_items(markup: &mut MarkupBuilder<'_>, count: usize) -> Result<(), AllocError>
    ensures { OnOk result (links_of markup.new.tokens.items
        ≡ links_of markup.old.tokens.items ++ range_with_len 0 count) }
{
    for number in 0..count {
        markup.start(Tag::Li)?;
        markup.rule_link(number)?;
        markup.close_line(Tag::Li)?;
    }
    Ok(())
}

/// The names with their places, sorted.
fn sort_by_name<'n>(alloc: Global, names: &[&'n str]) -> Result<Vec<(&'n str, usize)>, AllocError>
    ensures { IfOk result (λ sorted. IsPermutation (range_with_len 0 (length names.now))
        (map (λ rule. rule.1) sorted.items)) }
{
    let mut sorted = Vec::new(alloc);
    for (number, name) in names.iter().enumerate() {
        sorted.push((*name, number))?;
    }
    sorted.sort()?;
    Ok(sorted)
}

/// Adds items that link to the rules of these numbers.
fn push_sorted_items(
    markup: &mut MarkupBuilder<'_>,
    sorted: &[(&str, usize)],
) -> Result<(), AllocError>
    ensures { OnOk result (links_of markup.new.tokens.items
        ≡ links_of markup.old.tokens.items ++ map (λ rule. rule.1) sorted.now) }
{
    for rule in sorted {
        markup.start(Tag::Li)?;
        markup.rule_link(rule.1)?;
        markup.close_line(Tag::Li)?;
    }
    Ok(())
}

/// Adds the lines of a comment as paragraphs, which empty lines separate.
fn push_comment<'i>(markup: &mut MarkupBuilder<'i>, lines: &[&'i str]) -> Result<(), AllocError>
    ensures { OnOk result (links_of markup.new.tokens.items ≡ links_of markup.old.tokens.items) }
{
    if lines.is_empty() {
        return Ok(());
    }
    markup.start(Tag::P)?;
    for line in lines {
        if line.is_empty() {
            markup.close_line(Tag::P)?;
            markup.start(Tag::P)?;
        } else {
            markup.put(Markup::Text(*line))?;
            markup.put(Markup::LineFeed)?;
        }
    }
    markup.close_line(Tag::P)
}

/// The contents of the section of a rule.
fn describe<'i>(
    alloc: Global,
    doc: &GrammarDoc<'i>,
    number: usize,
    rule: &ast::Rule,
) -> Result<SectionContents<'i>, AllocError>
    ensures before { IfOk result
        (λ contents. AreLinksWithin (length doc.now.rules.value.items) contents.before.items) }
    ensures after { IfOk result
        (λ contents. AreLinksWithin (length doc.now.rules.value.items) contents.after.items) }
{
    let before = show_rule(alloc, doc, number, rule)?;
    let after = show_facts(alloc, doc, number)?;
    Ok(SectionContents {
        before: before.tokens,
        after: after.tokens,
    })
}

/// Adds the meaning of the modifier, the comment, the diagram and the text of a rule.
fn show_rule<'i>(
    alloc: Global,
    doc: &GrammarDoc<'i>,
    number: usize,
    rule: &ast::Rule,
) -> Result<MarkupBuilder<'i>, AllocError>
    ensures { IfOk result (λ markup. AreLinksWithin (length doc.now.rules.value.items) markup.tokens.items) }
{
    let mut markup = MarkupBuilder::new(alloc);
    push_modifier(&mut markup, rule.ty)?;
    push_rule(alloc, &mut markup, doc, number, &rule.expr)?;
    Ok(markup)
}

/// Adds the comment, the diagram and the text of the rule of a number.
fn push_rule<'i>(
    alloc: Global,
    markup: &mut MarkupBuilder<'i>,
    doc: &GrammarDoc<'i>,
    number: usize,
    expr: &Expr,
) -> Result<(), AllocError>
    ensures { OnOk result (AreLinksWithin (length doc.now.rules.value.items) markup.old.tokens.items
        → AreLinksWithin (length doc.now.rules.value.items) markup.new.tokens.items) }
{
    let Some(source) = doc.source.rules.get(number) else {
        return push_diagram(alloc, markup, expr, &doc.numbers);
    };
    push_comment(markup, &source.comment)?;
    push_diagram(alloc, markup, expr, &doc.numbers)?;
    push_source(markup, source, number, &doc.numbers)
}

/// The facts of a rule.
fn show_facts<'i>(
    alloc: Global,
    doc: &GrammarDoc<'i>,
    number: usize,
) -> Result<MarkupBuilder<'i>, AllocError>
    ensures { IfOk result (λ markup. AreLinksWithin (length doc.now.rules.value.items) markup.tokens.items) }
{
    let mut markup = MarkupBuilder::new(alloc);
    match doc.facts.get(number) {
        Some(facts) => {
            push_facts(&mut markup, facts)?;
            Ok(markup)
        }
        None => Ok(markup),
    }
}

/// Adds the diagram of an expression.
fn push_diagram(
    alloc: Global,
    markup: &mut MarkupBuilder<'_>,
    expr: &Expr,
    numbers: &HashMap<String, usize>,
) -> Result<(), AllocError>
    ensures { OnOk result (links_of markup.new.tokens.items
        ≡ links_of markup.old.tokens.items ++ diagram_links (get_by_text numbers.now) expr.now) }
{
    let mut diagram = draw_diagram(alloc, expr, numbers, DiagramStyle::OfPage)?;
    markup.start_with_class(Tag::Div, Class::Scroll)?;
    markup.tokens.append(&mut diagram.tokens)?;
    markup.close_line(Tag::Div)
}

/// Adds what the modifier of a rule means.
fn push_modifier(markup: &mut MarkupBuilder<'_>, ty: RuleType) -> Result<(), AllocError>
    ensures { OnOk result (links_of markup.new.tokens.items ≡ links_of markup.old.tokens.items) }
{
    let meaning = meaning_of(ty);
    if meaning.is_empty() {
        return Ok(());
    }
    markup.start_with_class(Tag::P, Class::Modifier)?;
    markup.put(Markup::Text(meaning))?;
    markup.close_line(Tag::P)
}

/// Describes the modifier of a rule in a few words.
pub fn meaning_of(ty: RuleType) -> &'static str
    ensures { result.now ≡ meaning ty }
{
    match ty {
        RuleType::Normal => "",
        RuleType::Silent => "silent: gives no token",
        RuleType::Atomic => "atomic: no implicit whitespace, and no tokens inside",
        RuleType::CompoundAtomic => "compound-atomic: no implicit whitespace",
        RuleType::NonAtomic => "non-atomic: implicit whitespace, whatever rule calls it",
    }
}

/// Adds a rule as it is written, with the names of other rules as links.
fn push_source<'i>(
    markup: &mut MarkupBuilder<'i>,
    source: &RuleSource<'i>,
    own: usize,
    numbers: &HashMap<String, usize>,
) -> Result<(), AllocError>
    ensures { OnOk result (links_of markup.new.tokens.items ≡ links_of markup.old.tokens.items
        ++ source_links (get_by_text numbers.now) own source.now.parts.items) }
{
    markup.start(Tag::Pre)?;
    markup.start(Tag::Code)?;
    for part in &source.parts {
        push_part(markup, part, own, numbers)?;
    }
    markup.close(Tag::Code)?;
    markup.close_line(Tag::Pre)
}

/// Adds a part of a rule's text.
fn push_part<'i>(
    markup: &mut MarkupBuilder<'i>,
    part: &SourcePart<'i>,
    own: usize,
    numbers: &HashMap<String, usize>,
) -> Result<(), AllocError>
    ensures { OnOk result (links_of markup.new.tokens.items ≡ links_of markup.old.tokens.items
        ++ part_links (get_by_text numbers.now) own part.now) }
{
    match part {
        SourcePart::Name(name) => push_name(markup, name, numbers.get(*name).copied(), own),
        SourcePart::Other(text) => markup.put(Markup::Text(*text)),
    }
}

/// Adds a name, with a link if it is the name of a rule other than `own`.
fn push_name<'i>(
    markup: &mut MarkupBuilder<'i>,
    name: &'i str,
    rule: Option<usize>,
    own: usize,
) -> Result<(), AllocError>
    ensures { OnOk result (links_of markup.new.tokens.items
        ≡ links_of markup.old.tokens.items ++ other_rule own rule) }
{
    match rule {
        Some(rule) if rule != own => markup.rule_link(rule),
        _ => markup.put(Markup::Text(name)),
    }
}

/// Adds the warnings and the facts of a rule.
fn push_facts<'i>(markup: &mut MarkupBuilder<'i>, facts: &RuleFacts<'i>) -> Result<(), AllocError>
    ensures { OnOk result (links_of markup.new.tokens.items
        ≡ links_of markup.old.tokens.items ++ facts.now.callers.items) }
{
    push_warnings(markup, &facts.warnings)?;
    markup.start(Tag::Dl)?;
    push_callers(markup, facts)?;
    push_first_set(markup, &facts.first_set)?;
    if facts.is_nullable {
        markup.element(Tag::Dt, "Empty text")?;
        markup.element(Tag::Dd, "may match nothing")?;
    }
    markup.close_line(Tag::Dl)
}

/// Adds the warnings of a rule.
fn push_warnings<'i>(
    markup: &mut MarkupBuilder<'i>,
    warnings: &[RuleWarning<'i>],
) -> Result<(), AllocError>
    ensures { OnOk result (links_of markup.new.tokens.items ≡ links_of markup.old.tokens.items) }
{
    for warning in warnings {
        markup.start_with_class(Tag::P, Class::Warning)?;
        markup.put(Markup::Text("warning: "))?;
        markup.element(Tag::Code, warning.text)?;
        markup.put(Markup::Text(": "))?;
        markup.put(Markup::Text(warning.code.message()))?;
        markup.close_line(Tag::P)?;
    }
    Ok(())
}

/// Adds the rules that call a rule.
fn push_callers(markup: &mut MarkupBuilder<'_>, facts: &RuleFacts<'_>) -> Result<(), AllocError>
    ensures { OnOk result (links_of markup.new.tokens.items
        ≡ links_of markup.old.tokens.items ++ facts.now.callers.items) }
{
    markup.element(Tag::Dt, "Used in")?;
    markup.start(Tag::Dd)?;
    markup.put(Markup::Text(other_use(facts)))?;
    for (place, caller) in facts.callers.iter().enumerate() {
        push_comma(markup, place > 0 || facts.is_implicit || facts.is_start)?;
        markup.rule_link(*caller)?;
    }
    markup.close(Tag::Dd)
}

/// How else a rule is used than by the rules that call it.
fn other_use(facts: &RuleFacts<'_>) -> &'static str {
    if facts.is_implicit {
        "sequences and repetitions, implicitly"
    } else if facts.is_start {
        "the start of matching"
    } else if facts.callers.is_empty() {
        "no other rule"
    } else {
        ""
    }
}

/// Adds a comma, if there is to be one.
fn push_comma(markup: &mut MarkupBuilder<'_>, has_comma: bool) -> Result<(), AllocError>
    ensures { OnOk result (links_of markup.new.tokens.items ≡ links_of markup.old.tokens.items) }
{
    if has_comma {
        markup.put(Markup::Text(", "))
    } else {
        Ok(())
    }
}

/// Adds the terminals that may begin a rule.
fn push_first_set(markup: &mut MarkupBuilder<'_>, first_set: &FirstSet) -> Result<(), AllocError>
    ensures { OnOk result (links_of markup.new.tokens.items ≡ links_of markup.old.tokens.items) }
{
    if first_set.labels.is_empty() {
        return Ok(());
    }
    markup.element(Tag::Dt, "Begins with")?;
    markup.start(Tag::Dd)?;
    for (place, label) in first_set.labels.iter().enumerate() {
        push_comma(markup, place > 0)?;
        markup.start(Tag::Code)?;
        markup.put(Markup::Label(label.clone()?))?;
        markup.close(Tag::Code)?;
    }
    if first_set.has_more {
        markup.put(Markup::Text(" and more"))?;
    }
    markup.close(Tag::Dd)
}
