//! The names that a grammar's trees define and call.
ghost use Rattle.std.specs.Prelude.{◌++◌, ◌≡◌, ◌≤◌, [], ◌∷◌, IfOk, OnOk, map};
ghost use Rattle.std.specs.Str.{IsCharBoundary};
ghost use Rattle.base_language.specs.Pieces.MetaRules.{name_of};
ghost use Rattle.front_nodes.specs.Nodes.{named_trees_of, trees_of};
ghost use Rattle.base_language.specs.Pieces.Saying.{piece, piece_of};
ghost use Rattle.front_names.specs.GrammarNames as spec;
ghost use Rattle.front_names.specs.Standing.{IsTreeWithin, AreTreesWithin};

use base_language::grammar::Rule;
use base_language::runtime::Span;
use front_nodes::nodes::{FirstTree, TokenNode, first_tree};
use std::alloc::{AllocError, Global};

/// Returns the piece of the text from the byte `start` to the byte `end`.
fn place<'i>(text: &'i str, start: usize, end: usize) -> Span<'i>
    requires ordered { start ≤ end }
    requires starts_at_character { IsCharBoundary text.now start }
    requires ends_at_character { IsCharBoundary text.now end }
    ensures { piece_of result ≡ piece text.entry.now start end }
{
    Span::new(text, start, end).unwrap()
}

/// Adds the span of a tree to `names`, if the tree is a name.
fn add_own_name<'i>(
    text: &'i str,
    tree: FirstTree<'_>,
    names: &mut Vec<Span<'i>>,
) -> Result<(), AllocError>
    requires { IsTreeWithin text.now tree }
    ensures { OnOk result (map piece_of names.new.items ≡ map piece_of names.old.items
        ++ spec.own_name text.entry.now (name_of tree.entry.rule) tree.entry.start tree.entry.end) }
{
    if let Rule::identifier = tree.rule {
        names.push(place(text, tree.start, tree.end))?;
    }
    Ok(())
}

/// Adds the spans of all names in some trees, in the order of the text. The list `waiting` is lent for the
/// trees that are still to be read, and serves many trees.
fn add_names<'i, 't>(
    text: &'i str,
    trees: &'t [TokenNode],
    waiting: &mut Vec<&'t [TokenNode]>,
    names: &mut Vec<Span<'i>>,
) -> Result<(), AllocError>
    requires within { AreTreesWithin text.now (trees_of trees.now) }
    requires empty { waiting.old.items ≡ [] }
    ensures names { OnOk result (map piece_of names.new.items
        ≡ map piece_of names.old.items ++ spec.names_in text.entry.now (named_trees_of trees.entry.now)) }
    ensures empty { OnOk result (waiting.new.items ≡ []) }
{
    let mut rest = trees;
    'trees: loop {
        match first_tree(rest) {
            Some(tree) => {
                add_own_name(text, tree, names)?;
                if !tree.others.is_empty() {
                    waiting.push(tree.others)?;
                }
                rest = tree.inner;
            }
            None => match waiting.pop() {
                Some(next) => rest = next,
                None => return Ok(()),
            },
        }
    }
}

/// Adds the span of the name which the trees of a rule define, if they define one.
fn add_definition<'i>(
    text: &'i str,
    trees: &[TokenNode],
    names: &mut Vec<Span<'i>>,
) -> Result<(), AllocError>
    requires { AreTreesWithin text.now (trees_of trees.now) }
    ensures { OnOk result (map piece_of names.new.items
        ≡ map piece_of names.old.items ++ spec.defined_by text.entry.now (named_trees_of trees.now)) }
{
    match first_tree(trees) {
        Some(first) => add_own_name(text, first, names),
        None => Ok(()),
    }
}

/// Adds the spans of the names which the trees of a rule call, in the order of the text.
/// The list `waiting` is lent for trees.
fn add_calls<'i, 't>(
    text: &'i str,
    trees: &'t [TokenNode],
    waiting: &mut Vec<&'t [TokenNode]>,
    names: &mut Vec<Span<'i>>,
) -> Result<(), AllocError>
    requires within { AreTreesWithin text.now (trees_of trees.now) }
    requires empty { waiting.old.items ≡ [] }
    ensures names { OnOk result (map piece_of names.new.items
        ≡ map piece_of names.old.items ++ spec.called_by text.entry.now (named_trees_of trees.entry.now)) }
    ensures empty { OnOk result (waiting.new.items ≡ []) }
{
    match first_tree(trees) {
        Some(first) => add_names(text, first.others, waiting, names),
        None => Ok(()),
    }
}

/// Collects the names that the rules of a grammar define, in the order of the text, by spans in bytes.
/// `trees` are within `text`.
pub(crate) fn definitions<'i>(
    alloc: Global,
    text: &'i str,
    trees: &[TokenNode],
) -> Result<Vec<Span<'i>>, AllocError>
    requires { AreTreesWithin text.now (trees_of trees.now) }
    ensures { IfOk result (λ found. map piece_of found.items
        ≡ spec.definitions text.entry.now (named_trees_of trees.now)) }
{
    let mut found = Vec::new(alloc);
    let mut rest = trees;
    while let Some(tree) = first_tree(rest) {
        if let Rule::grammar_rule = tree.rule {
            add_definition(text, tree.inner, &mut found)?;
        }
        rest = tree.others;
    }
    Ok(found)
}

/// Collects the names that the rules of a grammar call, in the order of the text, by spans in bytes.
/// `trees` are within `text`.
pub(crate) fn calls<'i>(
    alloc: Global,
    text: &'i str,
    trees: &[TokenNode],
) -> Result<Vec<Span<'i>>, AllocError>
    requires { AreTreesWithin text.now (trees_of trees.now) }
    ensures { IfOk result (λ found. map piece_of found.items
        ≡ spec.calls text.entry.now (named_trees_of trees.now)) }
{
    let mut found = Vec::new(alloc);
    let mut waiting = Vec::new(alloc);
    let mut rest = trees;
    while let Some(tree) = first_tree(rest) {
        if let Rule::grammar_rule = tree.rule {
            add_calls(text, tree.inner, &mut waiting, &mut found)?;
        }
        rest = tree.others;
    }
    Ok(found)
}
