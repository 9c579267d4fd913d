//! Rules that certainly reach themselves: their leader reaches them, and they reach their leader (a check
//! of the components).
ghost use Rattle.std.specs.Prelude.{◌≡◌, ℕ, IfOk, Some, false, true, slice_get};
ghost use Rattle.front_stack_loops.specs.Leading as spec;
ghost use Rattle.front_stack_loops.specs.Leading.{AreLed, AreLinks, IsOnward, LeadsBack, leader_in};

use crate::table::PassNode;
use base_graphs::{Components, Link, is_set};
use std::alloc::{AllocError, Global};

/// Returns the link, or the reverse link.
fn orient(link: Link, down: bool) -> Link
    ensures { result ≡ spec.turned down link }
{
    if down {
        link
    } else {
        Link {
            source: link.target,
            target: link.source,
        }
    }
}

/// Returns the leader of a rule.
fn leader_of(leaders: &[usize], rule: usize) -> usize
    ensures { result ≡ leader_in leaders.now rule }
{
    match leaders.get(rule) {
        Some(leader) => *leader,
        None => 0,
    }
}

/// Whether two rules have one leader, and the first one is that or has its flag set.
fn leads_on(leaders: &[usize], flags: &[bool], first: usize, second: usize) -> bool
    ensures { result ≡ true → IsOnward leaders.now flags.now first second }
{
    let leader = leader_of(leaders, second);
    leader_of(leaders, first) == leader && (first == leader || is_set(flags, first))
}

/// Links in some order, the leaders of the rules, and whether the links are followed down from the leaders
/// or up to them.
#[derive(Clone, Copy)]
struct Ways<'l> {
    links: &'l [Link],
    leaders: &'l [usize],
    down: bool,
}

/// Sets the flag of the rule at the end of a link, if the rule at its beginning is the leader of both or
/// has its flag set. If flags mean rules that lead up to their leaders, the link is reversed.
fn go_on<'n, 'i>(
    roots: &[usize],
    nodes: &[PassNode<'n, 'i>],
    ways: Ways<'_>,
    flags: &mut Vec<bool>,
    place: usize,
)
    requires links { AreLinks nodes.now roots.now ways.links.now }
    requires flags { AreLed nodes.now roots.now ways.down ways.leaders.now flags.old.items }
    ensures { AreLed nodes.now roots.now ways.entry.down ways.entry.leaders.now flags.new.items }
{
    let Ways {
        links,
        leaders,
        down,
    } = ways;
    if place >= links.len() {
        return;
    }
    let link = orient(links[place], down);
    if link.target < flags.len() && leads_on(leaders, flags.as_slice(), link.source, link.target) {
        flags[link.target] = true;
    }
}

/// Returns flags of the rules that their leaders reach, or else that reach their leaders, by links in this
/// order.
fn led_by<'n, 'i>(
    alloc: Global,
    roots: &[usize],
    nodes: &[PassNode<'n, 'i>],
    ways: Ways<'_>,
    steps: &[usize],
) -> Result<Vec<bool>, AllocError>
    requires { AreLinks nodes.now roots.now ways.links.now }
    ensures { IfOk result
        (λ flags. AreLed nodes.now roots.now ways.entry.down ways.entry.leaders.now flags.items) }
{
    let mut flags = vec![in alloc; false; roots.len()]?;
    for step in steps {
        go_on(roots, nodes, ways, &mut flags, *step);
    }
    Ok(flags)
}

/// Returns flags of the rules that their leaders reach, the leaders included.
fn reached_by<'n, 'i>(
    alloc: Global,
    roots: &[usize],
    nodes: &[PassNode<'n, 'i>],
    links: &[Link],
    leaders: &[usize],
    steps: &[usize],
) -> Result<Vec<bool>, AllocError>
    requires { AreLinks nodes.now roots.now links.now }
    ensures { IfOk result (λ flags. AreLed nodes.now roots.now true leaders.now flags.items) }
{
    let ways = Ways {
        links,
        leaders,
        down: true,
    };
    let mut reached = led_by(alloc, roots, nodes, ways, steps)?;
    for place in 0..links.len() {
        go_on(roots, nodes, ways, &mut reached, place);
    }
    Ok(reached)
}

/// Whether a rule is reached from its leader, which is that rule or is reached from it.
#[tactic(auto, using(crate::proofs::GroupLemmas::back_by_leader))]
fn is_recursive<'n, 'i>(
    roots: &[usize],
    nodes: &[PassNode<'n, 'i>],
    leaders: &[usize],
    reached: &[bool],
    returning: &[bool],
    rule: usize,
) -> bool
    requires reached { AreLed nodes.now roots.now true leaders.now reached.now }
    requires returning { AreLed nodes.now roots.now false leaders.now returning.now }
    ensures { result ≡ true → LeadsBack nodes.now roots.now rule }
{
    is_set(reached, rule) && (leader_of(leaders, rule) == rule || is_set(returning, rule))
}

/// Returns for each rule whether it certainly reaches itself.
pub(crate) fn recursive_by<'n, 'i>(
    alloc: Global,
    roots: &[usize],
    nodes: &[PassNode<'n, 'i>],
    links: &[Link],
    groups: &Components,
) -> Result<Vec<bool>, AllocError>
    requires { AreLinks nodes.now roots.now links.now }
    ensures { IfOk result (λ flags. (r : ℕ) → slice_get flags.items r ≡ Some true
        → LeadsBack nodes.now roots.now r) }
{
    let leaders = groups.leaders.as_slice();
    let reached = reached_by(alloc, roots, nodes, links, leaders, groups.down.as_slice())?;
    let up = Ways {
        links,
        leaders,
        down: false,
    };
    let returning = led_by(alloc, roots, nodes, up, groups.up.as_slice())?;
    let mut flags = Vec::with_capacity(alloc, roots.len())?;
    for rule in 0..roots.len() {
        flags.push(is_recursive(
            roots,
            nodes,
            leaders,
            reached.as_slice(),
            returning.as_slice(),
            rule,
        ))?;
    }
    Ok(flags)
}
