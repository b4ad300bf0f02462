//! Which node is visited next: one of which a row that it reads was raised.
//!
//! Nothing rests on what a worklist answers but how long an inference takes: in the end all nodes
//! are tested.
use crate::queue::{Queue, empty_lists};
use crate::task::Found;
use acg_base::Memory;
use action_terms::{Graph, Node, YKind};
use sort_rules::demands::Demand;
use std::alloc::Global;

/// The nodes that are to be visited, and which nodes read what.
#[derive(Drop)]
pub struct Worklist {
    queue: Queue,
    // of each node, those that read what it ends with, since they give it data
    readers: Vec<Vec<u32>>,
    // of each node, those that it gave data to at its last visit
    given: Vec<Vec<u32>>,
    // the nodes that read what is stored in cells
    loading: Vec<u32>,
    // whether contents of cells were raised in this turn
    stored: bool,
}

// whether one of the yielders of these numbers reads what is stored
fn one_loads(loads: &[bool], numbers: &[u32]) -> bool {
    for number in numbers {
        if let Some(true) = loads.get(*number as usize) {
            return true;
        }
    }
    false
}

// of each yielder, whether it or one in it reads what is stored
fn loading_yielders(alloc: Global, graph: &Graph<'_>) -> Result<Vec<bool>, Memory> {
    let yielders = graph.yielders();
    let mut loads = vec![in alloc; false; yielders.len()]?;
    for i in (0..yielders.len()).rev() {
        let own = matches!(yielders[i].kind, YKind::Stored { sort: _ });
        loads[i] = own || one_loads(loads.as_slice(), yielders[i].children);
    }
    Ok(loads)
}

// whether a yielder of the node reads what is stored
fn node_loads(loads: &[bool], node: Node<'_>) -> bool {
    for operand in node.operands {
        if one_loads(loads, *operand) {
            return true;
        }
    }
    false
}

// the nodes that read what is stored
fn loading_nodes(alloc: Global, graph: &Graph<'_>) -> Result<Vec<u32>, Memory> {
    let loads = loading_yielders(alloc, graph)?;
    let mut nodes = Vec::new(alloc);
    let mut number: u32 = 0;
    for node in graph.nodes() {
        if node_loads(loads.as_slice(), *node) {
            nodes.push(number)?;
        }
        number = number.wrapping_add(1);
    }
    Ok(nodes)
}

impl Worklist {
    /// All nodes are to be visited, along the tour.
    pub fn new(alloc: Global, graph: &Graph<'_>, tour: &[u32]) -> Result<Worklist, Memory> {
        let count = graph.nodes().len();
        Ok(Worklist {
            queue: Queue::new(alloc, tour, count)?,
            readers: empty_lists(alloc, count)?,
            given: empty_lists(alloc, count)?,
            loading: loading_nodes(alloc, graph)?,
            stored: false,
        })
    }

    // the node reads what those end with that it gives data to, beside those of its last visit
    fn listen(&mut self, node: u32, given: &[u32]) -> Result<(), Memory> {
        let Some(known) = self.given.get_mut(node as usize) else {
            return Ok(());
        };
        if known.len() == given.len() {
            return Ok(());
        }
        let mut old: usize = 0;
        for other in given {
            if known.get(old) == Some(other) {
                old = old.wrapping_add(1);
            } else if let Some(readers) = self.readers.get_mut(*other as usize) {
                readers.push(node)?;
            }
        }
        known.clear();
        known.extend_from_slice(given)?;
        Ok(())
    }

    // the nodes that read what this one ends with are to be visited
    fn put_readers(&mut self, node: u32) {
        if let Some(readers) = self.readers.get(node as usize) {
            for reader in readers {
                self.queue.put(*reader);
            }
        }
    }

    // so are those that read what a demand raised
    fn put_raised(&mut self, demand: Demand<'_>) {
        match demand {
            Demand::DataIn(node, _) => self.queue.put(node),
            Demand::BindsIn(node, _) => self.queue.put(node),
            Demand::DataOut(node, _) => self.put_readers(node),
            Demand::BindsOut(node, _) => self.put_readers(node),
            Demand::Escaped(node, _) => self.put_readers(node),
            Demand::Contents(_, _) => self.stored = true,
            Demand::Mark(_, _) => {}
        }
    }

    /// Takes down what a visit of a node found.
    pub fn note(&mut self, node: u32, found: &Found<'_>) -> Result<(), Memory> {
        self.listen(node, found.given.as_slice())?;
        for demand in &found.raised {
            self.put_raised(*demand);
        }
        Ok(())
    }

    // the tour begins again; what was stored in the last turn is read in this one
    fn turn(&mut self) {
        self.queue.turn();
        if self.stored {
            self.stored = false;
            for node in &self.loading {
                self.queue.put(*node);
            }
        }
    }

    /// The next place of the tour at which a node is to be visited.
    pub fn next(&mut self, tour: &[u32]) -> Option<usize> {
        let place = self.queue.next(tour);
        if place.is_some() {
            return place;
        }
        self.turn();
        self.queue.next(tour)
    }
}
