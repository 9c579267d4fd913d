//! The fixed parts of a page of HTML.
ghost use Rattle.std.specs.Prelude.{◌≡◌};
ghost use Rattle.doc_markup.specs.Template.{body, diagram_style, foot, head, namespace, style};

/// A page up to its title.
const HEAD: &str = "<!DOCTYPE html>\n\
<html lang=\"en\">\n\
<head>\n\
<meta charset=\"utf-8\">\n\
<meta name=\"viewport\" content=\"width=device-width, initial-scale=1\">\n\
<title>";

/// A page from the end of its title up to the style of diagrams.
const STYLE: &str = "</title>\n\
<style>\n\
:root { color-scheme: light dark; --ink: #1f2328; --paper: #fff; --faint: #59636e; --line: #d1d9e0;\n\
  --link: #0550ae; --alert: #9a3b00; }\n\
@media (prefers-color-scheme: dark) { :root { --ink: #e6edf3; --paper: #0d1117; --faint: #9198a1;\n\
  --line: #3d444d; --link: #79c0ff; --alert: #f0883e; } }\n\
body { margin: 0 auto; max-width: 62rem; padding: 1rem 1.5rem 4rem; font: 16px/1.5 system-ui, sans-serif;\n\
  color: var(--ink); background: var(--paper); }\n\
h1 { margin: 1rem 0 .5rem; } h2 { margin: 1.5rem 0 .25rem; font-size: 1.25rem; }\n\
section { border-top: 1px solid var(--line); } section h2 { font-family: ui-monospace, monospace; }\n\
h1, h2, li, code, dd { overflow-wrap: anywhere; }\n\
.modifier { color: var(--faint); margin: 0; } .warning { color: var(--alert); }\n\
a { color: var(--link); }\n\
nav ul { columns: 17rem; column-gap: 2.5rem; padding-left: 1.2rem; }\n\
pre { padding: .6rem .8rem; border: 1px solid var(--line); border-radius: 6px; overflow-x: auto; }\n\
code { font: 13px/1.45 ui-monospace, monospace; } details code { white-space: pre-wrap; }\n\
dl { display: grid; grid-template-columns: max-content 1fr; gap: .2rem 1rem; margin: .5rem 0 1rem; }\n\
dt { color: var(--faint); } dd { margin: 0; } summary { color: var(--faint); }\n\
.back { float: right; margin: 1.7rem 0 0 1rem; font-size: .875rem; }\n\
.scroll { overflow-x: auto; margin: .5rem 0; }\n";

/// The style of diagrams.
const DIAGRAM_STYLE: &str =
    ".diagram { --ink: #1f2328; --faint: #59636e; --terminal: #dafbe1; --call: #ddf4ff;\n\
  --builtin: #fff8c5; display: block; }\n\
@media (prefers-color-scheme: dark) { .diagram { --ink: #e6edf3; --faint: #9198a1; --terminal: #12361f;\n\
  --call: #0c2d4a; --builtin: #3b2e00; } }\n\
.diagram path { fill: none; stroke: var(--ink); stroke-width: 1.5; }\n\
.diagram rect { stroke: var(--ink); stroke-width: 1.2; } .diagram .end { fill: var(--ink); }\n\
.diagram .terminal { fill: var(--terminal); } .diagram .call { fill: var(--call); }\n\
.diagram .builtin { fill: var(--builtin); }\n\
.diagram .group { fill: none; stroke: var(--faint); stroke-dasharray: 4 3; }\n\
.diagram text { font: 13px ui-monospace, monospace; fill: var(--ink); white-space: pre; }\n\
.diagram .label { font: 12px system-ui, sans-serif; fill: var(--faint); }\n";

/// A page from the end of the style of diagrams up to its heading.
const BODY: &str = "</style>\n</head>\n<body>\n<h1>";

/// The end of a page.
const FOOT: &str = "</main>\n</body>\n</html>\n";

/// The attributes of a drawing.
const NAMESPACE: &str =
    " xmlns=\"http://www.w3.org/2000/svg\" role=\"group\" aria-label=\"Railroad diagram\"";

/// Returns a page up to its title.
#[tactic(auto, unfolding(crate::specs::Template::head))]
pub fn head() -> &'static str
    ensures { result.now ≡ head }
{
    HEAD
}

/// Returns a page from the end of its title up to the style of diagrams.
#[tactic(auto, unfolding(crate::specs::Template::style))]
pub fn style() -> &'static str
    ensures { result.now ≡ style }
{
    STYLE
}

/// Returns the style of diagrams.
#[tactic(auto, unfolding(crate::specs::Template::diagram_style))]
pub fn diagram_style() -> &'static str
    ensures { result.now ≡ diagram_style }
{
    DIAGRAM_STYLE
}

/// Returns a page from the end of the style of diagrams up to its heading.
#[tactic(auto, unfolding(crate::specs::Template::body))]
pub fn body() -> &'static str
    ensures { result.now ≡ body }
{
    BODY
}

/// Returns the end of a page.
#[tactic(auto, unfolding(crate::specs::Template::foot))]
pub fn foot() -> &'static str
    ensures { result.now ≡ foot }
{
    FOOT
}

/// Returns the attributes of a drawing.
#[tactic(auto, unfolding(crate::specs::Template::namespace))]
pub fn namespace() -> &'static str
    ensures { result.now ≡ namespace }
{
    NAMESPACE
}
