//! The call graph: the rule whose body has each node, and the calls between rules.
ghost use Rattle.std.specs.Prelude.{◌≡◌, IfOk, OnOk, Some};
ghost use Rattle.front_stack_loops.specs.Leading.{AreLinks, AreOwned, LeadsFrom, Owns, owner_in};

use crate::table::{NodeKind, Parts, PassNode};
use base_graphs::Link;
use std::alloc::{AllocError, Global};

/// Returns the rule whose body is known to have a node.
fn owner_of(owners: &[Option<usize>], node: usize) -> Option<usize>
    ensures { result ≡ owner_in owners.now node }
{
    match owners.get(node) {
        Some(owner) => *owner,
        None => None,
    }
}

/// Records the rule whose body has a node.
fn own<'n, 'i>(
    roots: &[usize],
    nodes: &[PassNode<'n, 'i>],
    owners: &mut Vec<Option<usize>>,
    node: usize,
    rule: usize,
)
    requires owned { AreOwned nodes.now roots.now owners.old.items }
    requires inside { Owns nodes.now roots.now rule node }
    ensures { AreOwned nodes.now roots.now owners.new.items }
{
    if node < owners.len() {
        owners[node] = Some(rule);
    }
}

/// Records a node's rule for its operands.
fn own_parts<'n, 'i>(
    roots: &[usize],
    nodes: &[PassNode<'n, 'i>],
    owners: &mut Vec<Option<usize>>,
    place: usize,
)
    requires { AreOwned nodes.now roots.now owners.old.items }
    ensures { AreOwned nodes.now roots.now owners.new.items }
{
    if place >= nodes.len() {
        return;
    }
    let Some(rule) = owner_of(owners.as_slice(), place) else {
        return;
    };
    match nodes[place].kind.parts() {
        Parts::Nothing => {}
        Parts::Inside(body, _, _, _) => own(roots, nodes, owners, body, rule),
        Parts::Both(first, second, _) => {
            own(roots, nodes, owners, first, rule);
            own(roots, nodes, owners, second, rule);
        }
    }
}

/// Records every rule for the root of its body.
#[tactic(auto, using(crate::proofs::GroupLemmas::root_owned))]
fn own_roots<'n, 'i>(roots: &[usize], nodes: &[PassNode<'n, 'i>], owners: &mut Vec<Option<usize>>)
    requires { AreOwned nodes.now roots.now owners.old.items }
    ensures { AreOwned nodes.now roots.now owners.new.items }
{
    for rule in 0..roots.len() {
        own(roots, nodes, owners, roots[rule], rule);
    }
}

/// Records the rules of all operands, from the last node to the first.
fn own_all<'n, 'i>(roots: &[usize], nodes: &[PassNode<'n, 'i>], owners: &mut Vec<Option<usize>>)
    requires { AreOwned nodes.now roots.now owners.old.items }
    ensures { AreOwned nodes.now roots.now owners.new.items }
{
    let count = nodes.len();
    for done in 0..count {
        own_parts(roots, nodes, owners, count - 1 - done);
    }
}

/// Returns the rule whose body has each node.
fn owners_of<'n, 'i>(
    alloc: Global,
    roots: &[usize],
    nodes: &[PassNode<'n, 'i>],
) -> Result<Vec<Option<usize>>, AllocError>
    ensures { IfOk result (λ owners. AreOwned nodes.now roots.now owners.items) }
{
    let mut owners = vec![in alloc; None; nodes.len()]?;
    own_roots(roots, nodes, &mut owners);
    own_all(roots, nodes, &mut owners);
    Ok(owners)
}

/// Appends the link of a call: from the rule whose body has the node to the rule that it calls.
fn add_link<'n, 'i>(
    roots: &[usize],
    nodes: &[PassNode<'n, 'i>],
    owners: &[Option<usize>],
    place: usize,
    links: &mut Vec<Link>,
) -> Result<(), AllocError>
    requires owned { AreOwned nodes.now roots.now owners.now }
    requires links { AreLinks nodes.now roots.now links.old.items }
    ensures { OnOk result (AreLinks nodes.now roots.now links.new.items) }
{
    if place >= nodes.len() {
        return Ok(());
    }
    let Some(target) = nodes[place].kind.called_rule() else {
        return Ok(());
    };
    let Some(source) = owner_of(owners, place) else {
        return Ok(());
    };
    links.push(Link { source, target })?;
    Ok(())
}

/// Returns the calls in all bodies.
pub(crate) fn links_of<'n, 'i>(
    alloc: Global,
    roots: &[usize],
    nodes: &[PassNode<'n, 'i>],
) -> Result<Vec<Link>, AllocError>
    ensures { IfOk result (λ links. AreLinks nodes.now roots.now links.items) }
{
    let owners = owners_of(alloc, roots, nodes)?;
    let mut links = Vec::new(alloc);
    for place in 0..nodes.len() {
        add_link(roots, nodes, owners.as_slice(), place, &mut links)?;
    }
    Ok(links)
}
