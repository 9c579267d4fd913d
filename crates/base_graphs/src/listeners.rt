//! The dependency graph of flags: for each item the list of its listeners, whose flags depend on its own.
//! The lists only save time; no flag's correctness rests on them.
use std::alloc::{AllocError, Global};

/// Items that are known by number, each of which listens to some of them.
pub trait DependencyGraph {
    /// Counts the items.
    fn count(&self) -> usize;

    /// Calls `visit` for each item to which this one listens.
    fn visit_dependencies<V: DependencyVisitor>(&self, item: usize, visitor: &mut V);
}

/// A visitor of the items to which one item listens.
pub trait DependencyVisitor {
    /// Visits an item to which the current one listens.
    fn visit(&mut self, item: usize);
}

/// For each item those that listen to it, all in one list.
#[derive(Drop)]
pub struct Listeners {
    /// Where the listeners of each item start; they end where those of the next one start.
    starts: Vec<usize>,
    all: Vec<usize>,
}

impl Listeners {
    /// Returns the listeners of an item.
    pub fn of(&self, item: usize) -> &[usize] {
        let start = place_at(&self.starts, item);
        let end = place_at(&self.starts, item.saturating_add(1));
        self.all.get(start..end).unwrap_or(&[])
    }
}

fn place_at(places: &[usize], item: usize) -> usize {
    match places.get(item) {
        Some(place) => *place,
        None => 0,
    }
}

/// How many listen to each item; and one number more.
#[derive(Drop)]
struct ListenerCounts {
    counts: Vec<usize>,
}

impl DependencyVisitor for ListenerCounts {
    fn visit(&mut self, item: usize) {
        if let Some(count) = self.counts.get_mut(item) {
            *count = count.saturating_add(1);
        }
    }
}

/// The listeners of all items, while each is put in front of those of its item that were put.
#[derive(Drop)]
struct ListenerLists {
    starts: Vec<usize>,
    all: Vec<usize>,
    listener: usize,
}

impl DependencyVisitor for ListenerLists {
    fn visit(&mut self, item: usize) {
        if let Some(start) = self.starts.get_mut(item) {
            *start = start.saturating_sub(1);
            if let Some(place) = self.all.get_mut(*start) {
                *place = self.listener;
            }
        }
    }
}

/// Counts the listeners of each item, with one 0 more at the end.
fn count_listeners<L: DependencyGraph>(alloc: Global, graph: &L) -> Result<Vec<usize>, AllocError> {
    let counts = vec![in alloc; 0; graph.count().saturating_add(1)]?;
    let mut visitor = ListenerCounts { counts };
    for item in 0..graph.count() {
        graph.visit_dependencies(item, &mut visitor);
    }
    Ok(visitor.counts)
}

/// Replaces each number by its sum with those before it, and returns the total.
fn add_up(counts: &mut [usize]) -> usize {
    let mut sum: usize = 0;
    for count in counts.iter_mut() {
        sum = sum.saturating_add(*count);
        *count = sum;
    }
    sum
}

/// Collects the listeners of each item.
pub fn find_listeners<L: DependencyGraph>(
    alloc: Global,
    graph: &L,
) -> Result<Listeners, AllocError> {
    let mut starts = count_listeners(alloc, graph)?;
    let sum = add_up(&mut starts);
    let all = vec![in alloc; 0; sum]?;
    let mut visitor = ListenerLists {
        starts,
        all,
        listener: 0,
    };
    for item in 0..graph.count() {
        visitor.listener = item;
        graph.visit_dependencies(item, &mut visitor);
    }
    let ListenerLists { starts, all, .. } = visitor;
    Ok(Listeners { starts, all })
}
