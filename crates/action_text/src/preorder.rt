//! From labels in postorder to labels in preorder, in linear time and without recursion.
ghost use Rattle.std.specs.Prelude.{◌≡◌, ◌≤◌, ◌++◌, length, map, IfOk, OnOk};
ghost use Rattle.meta_terms.specs.Templates.{under};
ghost use Rattle.meta_terms.specs.Nodes.{label_of};
ghost use Rattle.action_text.specs.Sizes.{step_back, start_back, tree_ends, AreSizes, IsPostorder, IsReordered};

use action_terms::under::{parts_of_action, parts_of_yielder};
use meta_terms::TemplateNode;
use std::alloc::{AllocError, Global};

// How many trees stand under a node.
fn part_count(label: TemplateNode<'_>) -> usize
    ensures { result ≡ length (under (label_of label.entry)) }
{
    match label {
        TemplateNode::Action(node) => parts_of_action(node.kind, node.items).count(),
        TemplateNode::Yielder(node) => parts_of_yielder(node.kind).count(),
        TemplateNode::ActionTokenOf { node, .. } => {
            parts_of_action(node.kind, node.items).count()
        }
        TemplateNode::YielderTokenOf { node, .. } => parts_of_yielder(node.kind).count(),
        TemplateNode::Apply { .. } | TemplateNode::ValueOf { .. } => 0,
    }
}

// Where the tree begins that ends before the place.
fn step_back(sizes: &[usize], end: usize) -> usize
    requires { end ≤ length sizes.now }
    ensures value { result ≡ step_back sizes.now end }
    ensures before { result ≤ end }
{
    if end == 0 {
        0
    } else {
        end.saturating_sub(sizes[end - 1])
    }
}

// Where the first of so many trees begins, of which the last ends before the place.
fn start_back(sizes: &[usize], count: usize, end: usize) -> usize
    requires { end ≤ length sizes.now }
    ensures value { result ≡ start_back sizes.now count end }
    ensures before { result ≤ end }
{
    let mut start = end;
    for _ in 0..count {
        start = step_back(sizes, start);
    }
    start
}

// The size of the tree that ends with each label.
fn sizes_of(alloc: Global, labels: &[TemplateNode<'_>]) -> Result<Vec<usize>, AllocError>
    ensures { IfOk result (λ v. AreSizes (map label_of labels.now) v.items) }
{
    let mut sizes = Vec::new(alloc);
    for (place, label) in labels.iter().enumerate() {
        let start = start_back(sizes.as_slice(), part_count(*label), place);
        sizes.push(place + 1 - start)?;
    }
    Ok(sizes)
}

// Puts the ends of so many trees on the stack, that of the first one on top.
fn push_ends(
    stack: &mut Vec<usize>,
    sizes: &[usize],
    count: usize,
    end: usize,
) -> Result<(), AllocError>
    requires { end ≤ length sizes.now }
    ensures { OnOk result (stack.new.items ≡ stack.old.items ++ tree_ends sizes.now count end) }
{
    let mut last = end;
    for _ in 0..count {
        stack.push(last)?;
        last = step_back(sizes, last);
    }
    Ok(())
}

/// The labels of an action in preorder, of the same action's labels in postorder.
pub fn preorder_of<'t>(
    alloc: Global,
    labels: &[TemplateNode<'t>],
) -> Result<Vec<TemplateNode<'t>>, AllocError>
    requires { IsPostorder (map label_of labels.now) }
    ensures { IfOk result (λ v. IsReordered (map label_of labels.now) (map label_of v.items)) }
{
    let list = sizes_of(alloc, labels)?;
    let sizes = list.as_slice();
    let mut stack = Vec::new(alloc);
    stack.push(labels.len())?;
    let mut ordered = Vec::new(alloc);
    while let Some(end) = stack.pop() {
        let label = labels[end - 1];
        ordered.push(label)?;
        push_ends(&mut stack, sizes, part_count(label), end - 1)?;
    }
    Ok(ordered)
}
