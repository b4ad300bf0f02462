//! The order in which nodes are visited.
ghost use Rattle.std.specs.Prelude.{ℕ, ◌≡◌, ◌<◌, ◌++◌, ◌∷◌, [], length, IfOk, OnOk, All};
ghost use Rattle.action_terms.specs.Meaning.{action_of};
ghost use Rattle.action_terms.specs.Performances.{OneOf};
ghost use Rattle.action_terms.specs.Proper.{IsProper};
ghost use Rattle.sort_infer.specs.Tours.{AreWithin, job_node, parts_of};

use acg_base::Memory;
use action_terms::{Graph, NodeView};
use sort_rules::named::push_node_closures;
use std::alloc::Global;

// what is still to be done of the walk
#[derive(Clone, Copy)]
enum Job {
    // the node is entered
    Enter(u32),
    // the node is visited, since one under it has been
    Visit(u32),
}

// puts both parts behind a list, the right one first
fn push_both(nodes: &mut Vec<u32>, left: u32, right: u32) -> Result<(), Memory>
    ensures { OnOk result (nodes.new.items ≡ nodes.old.items ++ right ∷ left ∷ []) }
{
    nodes.push(right)?;
    nodes.push(left)?;
    Ok(())
}

// puts the parts of a node and the body of an `unfolding` behind a list, the last one first
fn push_parts(view: NodeView<'_>, nodes: &mut Vec<u32>) -> Result<(), Memory>
    ensures { OnOk result (nodes.new.items ≡ nodes.old.items ++ parts_of view.entry) }
{
    match view {
        NodeView::Both { left, right, .. } => push_both(nodes, left, right),
        NodeView::Phases { left, right, .. } => push_both(nodes, left, right),
        NodeView::Either { left, right } => push_both(nodes, left, right),
        NodeView::Trapping { left, right } => push_both(nodes, left, right),
        NodeView::Branch { left, right, .. } => push_both(nodes, left, right),
        NodeView::Furthermore { part } => {
            nodes.push(part)?;
            Ok(())
        }
        NodeView::Unfolding { body } => {
            nodes.push(body)?;
            Ok(())
        }
        _ => Ok(()),
    }
}

// the nodes that stand under a node, as parts or as bodies, the last one first
fn under(alloc: Global, graph: &Graph<'_>, node: u32) -> Result<Vec<u32>, Memory>
    requires node { node < length graph.now.nodes }
    requires action { IsProper (action_of graph.now) }
    ensures { IfOk result (λ nodes. All (λ k. k < length graph.now.nodes) nodes.items) }
{
    let view = graph.view(node as usize);
    let mut nodes = Vec::new(alloc);
    push_parts(view, &mut nodes)?;
    push_node_closures(alloc, graph, view, &mut nodes)?;
    Ok(nodes)
}

// puts what is to be done of a node on the stack: each node under it is entered, then it is visited
fn push_under(
    alloc: Global,
    graph: &Graph<'_>,
    node: u32,
    jobs: &mut Vec<Job>,
) -> Result<(), Memory>
    requires node { node < length graph.now.nodes }
    requires action { IsProper (action_of graph.now) }
    requires jobs { AreWithin (length graph.now.nodes) jobs.now.items }
    ensures { OnOk result (AreWithin (length graph.now.nodes) jobs.new.items) }
{
    let nodes = under(alloc, graph, node)?;
    for below in &nodes {
        jobs.push(Job::Visit(node))?;
        jobs.push(Job::Enter(*below))?;
    }
    Ok(())
}

// does a job: its node is the next in the order
fn take(
    alloc: Global,
    graph: &Graph<'_>,
    job: Job,
    order: &mut Vec<u32>,
    jobs: &mut Vec<Job>,
) -> Result<(), Memory>
    requires job { job_node job < length graph.now.nodes }
    requires action { IsProper (action_of graph.now) }
    requires order { All (λ k. k < length graph.now.nodes) order.now.items }
    requires jobs { AreWithin (length graph.now.nodes) jobs.now.items }
    ensures order { OnOk result (All (λ k. k < length graph.now.nodes) order.new.items) }
    ensures jobs { OnOk result (AreWithin (length graph.now.nodes) jobs.new.items) }
{
    match job {
        Job::Visit(node) => {
            order.push(node)?;
            Ok(())
        }
        Job::Enter(node) => {
            order.push(node)?;
            push_under(alloc, graph, node, jobs)
        }
    }
}

/// Each node when it is entered, and again after each node under it: at most two visits a node.
pub fn tour(alloc: Global, graph: &Graph<'_>) -> Result<Vec<u32>, Memory>
    ensures { IfOk result (λ order. All (λ k. k < length graph.now.nodes) order.items) }
{
    let count = graph.nodes().len();
    let mut order = Vec::new(alloc);
    let mut jobs = Vec::new(alloc);
    jobs.push(Job::Enter(0))?;
    for _visit in 0..2 * count {
        let Some(job) = jobs.pop() else {
            break;
        };
        take(alloc, graph, job, &mut order, &mut jobs)?;
    }
    Ok(order)
}

/// All nodes.
pub fn all_nodes(alloc: Global, graph: &Graph<'_>) -> Result<Vec<u32>, Memory>
    ensures within { IfOk result (λ nodes. All (λ k. k < length graph.now.nodes) nodes.items) }
    ensures each { IfOk result (λ nodes. (k : ℕ) → k < length graph.now.nodes
        → OneOf k nodes.items) }
{
    let mut nodes = Vec::new(alloc);
    for node in 0..graph.nodes().len() {
        nodes.push(node as u32)?;
    }
    Ok(nodes)
}
