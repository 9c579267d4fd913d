//! The parts of documents that each rule has: its name, its contents and its printed expression.
ghost use Rattle.std.specs.Prelude.{◌≡◌, ◌++◌, IfOk, OnOk, encode_utf8_all, string_bytes};
ghost use Rattle.base_ast.specs.Ast.{expression_of, rule_of_code};
ghost use Rattle.base_ast.specs.Printing.{printed};
ghost use Rattle.doc_markup.specs.Markdown.{code_bytes};
ghost use Rattle.std.specs.Str.{chars};
ghost use Rattle.doc_markup.specs.Pages.{definition_bytes, expression_bytes, heading_bytes, index_bytes, markdown_expression, markdown_heading, markdown_section, markdown_start, page_start, section_bytes, style_start};

use crate::ebnf::{EbnfToken, push_ebnf, push_plain};
use crate::escape::push_escaped;
use crate::markdown::{MarkdownToken, push_code, push_inline, push_markdown};
use crate::template::{body, diagram_style, head, style};
use crate::tokens::{Markup, push_markup};
use base_ast::ast::{Expr, Rule};
use std::alloc::{AllocError, Global};

/// The contents of a rule's section, before and after its printed expression.
#[derive(Drop)]
pub struct SectionContents<'t> {
    pub before: Vec<Markup<'t>>,
    pub after: Vec<Markup<'t>>,
}

/// The contents of a rule's section in Markdown, before and after its printed expression.
#[derive(Drop)]
pub struct MarkdownContents<'t> {
    pub before: Vec<MarkdownToken<'t>>,
    pub after: Vec<MarkdownToken<'t>>,
}

/// Returns a page of HTML up to its first section. `names` has the names of the rules. All sections link to
/// the index.
pub fn start_page(
    alloc: Global,
    title: &str,
    introduction: &[Markup<'_>],
    index: &[Markup<'_>],
    names: &[&str],
) -> Result<String, AllocError>
    ensures { IfOk result (λ page. string_bytes page
        ≡ page_start title.now names.now introduction.now index.now) }
{
    let mut page = page_with_style(alloc, title)?;
    push_escaped(title, &mut page)?;
    page.push_str("</h1>\n")?;
    push_markup(introduction, names, &mut page)?;
    push_index(index, names, &mut page)?;
    page.push_str("<main>\n")?;
    Ok(page)
}

/// Appends the index of a page. No rule has its id, since names of rules have no `-`.
fn push_index(index: &[Markup<'_>], names: &[&str], page: &mut String) -> Result<(), AllocError>
    ensures { OnOk result (string_bytes page.new
        ≡ string_bytes page.old ++ index_bytes names.now index.now) }
{
    page.push_str("<nav id=\"all-rules\">")?;
    push_markup(index, names, page)?;
    page.push_str("</nav>\n")?;
    Ok(())
}

/// A page of HTML up to its heading.
fn page_with_style(alloc: Global, title: &str) -> Result<String, AllocError>
    ensures { IfOk result (λ page. string_bytes page ≡ style_start title.now) }
{
    let mut page = String::from_str(alloc, head())?;
    push_escaped(title, &mut page)?;
    page.push_str(style())?;
    page.push_str(diagram_style())?;
    page.push_str(body())?;
    Ok(page)
}

/// Appends the section of a rule to a page of HTML.
pub fn push_section(
    alloc: Global,
    rule: &Rule,
    contents: &SectionContents<'_>,
    names: &[&str],
    page: &mut String,
) -> Result<(), AllocError>
    ensures { OnOk result (string_bytes page.new ≡ string_bytes page.old
        ++ section_bytes names.now (rule_of_code rule.now)
        contents.now.before.items contents.now.after.items) }
{
    push_heading(rule.name.as_str(), page)?;
    push_markup(&contents.before, names, page)?;
    push_expression(alloc, rule, page)?;
    push_markup(&contents.after, names, page)?;
    page.push_str("</section>\n")?;
    Ok(())
}

/// Appends the heading of a rule's section, by which links find it, and its link to the index.
fn push_heading(name: &str, page: &mut String) -> Result<(), AllocError>
    ensures { OnOk result (string_bytes page.new ≡ string_bytes page.old ++ heading_bytes (chars name.now)) }
{
    page.push_str("<section id=\"")?;
    push_escaped(name, page)?;
    page.push_str("\">\n<a class=\"back\" href=\"#all-rules\">all rules</a>\n<h2>")?;
    push_escaped(name, page)?;
    page.push_str("</h2>\n")?;
    Ok(())
}

/// Appends the printed expression of a rule.
fn push_expression(alloc: Global, rule: &Rule, page: &mut String) -> Result<(), AllocError>
    ensures { OnOk result (string_bytes page.new
        ≡ string_bytes page.old ++ expression_bytes (rule_of_code rule.now)) }
{
    let expression = rule.expr.to_string(alloc)?;
    page.push_str("<details><summary>Expression</summary>\n<pre><code>")?;
    push_escaped(expression.as_str(), page)?;
    page.push_str("</code></pre></details>\n")
}

/// Returns a page of Markdown up to its first section. `names` has the names of the rules.
pub fn start_markdown(
    alloc: Global,
    title: &str,
    introduction: &[MarkdownToken<'_>],
    names: &[&str],
) -> Result<String, AllocError>
    ensures { IfOk result (λ page. string_bytes page ≡ markdown_start title.now names.now introduction.now) }
{
    let mut page = String::from_str(alloc, "# ")?;
    push_inline(title, &mut page)?;
    page.push_str("\n\n")?;
    push_markdown(introduction, names, &mut page)?;
    Ok(page)
}

/// Appends the section of a rule to a page of Markdown.
pub fn push_markdown_section(
    alloc: Global,
    rule: &Rule,
    contents: &MarkdownContents<'_>,
    names: &[&str],
    page: &mut String,
) -> Result<(), AllocError>
    ensures { OnOk result (string_bytes page.new ≡ string_bytes page.old
        ++ markdown_section names.now (rule_of_code rule.now)
        contents.now.before.items contents.now.after.items) }
{
    push_markdown_heading(rule.name.as_str(), page)?;
    push_markdown(&contents.before, names, page)?;
    push_markdown_expression(alloc, rule, page)?;
    push_markdown(&contents.after, names, page)?;
    page.push_str("\n")?;
    Ok(())
}

/// Appends the heading of a rule's section in Markdown, by which links find it.
fn push_markdown_heading(name: &str, page: &mut String) -> Result<(), AllocError>
    ensures { OnOk result (string_bytes page.new
        ≡ string_bytes page.old ++ markdown_heading (chars name.now)) }
{
    page.push_str("## <a id=\"")?;
    push_escaped(name, page)?;
    page.push_str("\"></a>")?;
    push_inline(name, page)?;
    page.push_str("\n\n")
}

/// Appends the printed expression of a rule in Markdown.
fn push_markdown_expression(alloc: Global, rule: &Rule, page: &mut String) -> Result<(), AllocError>
    ensures { OnOk result (string_bytes page.new
        ≡ string_bytes page.old ++ markdown_expression (rule_of_code rule.now)) }
{
    page.push_str("<details><summary>Expression</summary>\n\n    ")?;
    push_printed(alloc, &rule.expr, page)?;
    page.push_str("\n\n</details>\n\n")?;
    Ok(())
}

/// Appends an expression as it is printed, in a block of code.
fn push_printed(alloc: Global, expr: &Expr, page: &mut String) -> Result<(), AllocError>
    ensures { OnOk result (string_bytes page.new
        ≡ string_bytes page.old ++ code_bytes (encode_utf8_all (printed (expression_of expr.now)))) }
{
    let expression = expr.to_string(alloc)?;
    push_code(expression.as_str(), page)
}

/// Appends the definition of a rule in EBNF.
pub fn push_definition(
    rule: &Rule,
    body: &[EbnfToken<'_>],
    text: &mut String,
) -> Result<(), AllocError>
    ensures { OnOk result (string_bytes text.new
        ≡ string_bytes text.old ++ definition_bytes (rule_of_code rule.now) body.now) }
{
    push_plain(rule.name.as_str(), text)?;
    text.push_str(" ::= ")?;
    push_ebnf(body, text)?;
    text.push_str("\n")
}
