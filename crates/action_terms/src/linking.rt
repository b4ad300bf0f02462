//! The children and operands of pushed nodes, from the last node to the first.
ghost use Rattle.std.specs.Prelude.{◌≡◌, List, [], ◌∷◌, ◌++◌, IfOk, OnOk, map, take, drop, sum, option_to_list};
ghost use Rattle.action_terms.specs.Labels.{operand_lengths};
ghost use Rattle.action_terms.specs.Numbering.{pieces, children_of};
ghost use Rattle.action_terms.specs.Entries.{entry_of, part_count, closure_count, argument_count, Links, LinksNode};

use crate::bodies::Entered;
use crate::graph::{Node, YNode};
use crate::kinds::Kind;
use crate::pushed::{NewAction, NewYielder, Pushed};
use crate::under::{parts_of_action, parts_of_yielder};
use bumpalo::Bump;
use bumpalo::collections::into_bump_slice;
use std::alloc::{AllocError, Global};
use std::collections::VecDeque;

/// The nodes that are linked so far, and the roots of their trees.
#[derive(Drop)]
pub struct Linker<'a> {
    /// Where lists are placed.
    pub arena: &'a Bump,
    /// The action nodes.
    pub nodes: VecDeque<Node<'a>>,
    /// The yielders.
    pub yielders: VecDeque<YNode<'a>>,
    /// The numbers of the actions that have no parent yet.
    pub action_roots: VecDeque<u32>,
    /// The numbers of the yielders that have no parent yet.
    pub yielder_roots: VecDeque<u32>,
}

// moves the first root, if there is one
fn take_root(roots: &mut VecDeque<u32>, taken: &mut Vec<u32, &Bump>) -> Result<(), AllocError>
    ensures taken { OnOk result (taken.new.items ≡ taken.old.items ++ take 1 roots.old.items) }
    ensures left { roots.new.items ≡ drop 1 roots.old.items }
{
    if let Some(root) = roots.pop_front() {
        taken.push(root)?;
    }
    Ok(())
}

// takes so many roots, and places them in the arena
#[tactic(auto, using(crate::proofs::RootsLemmas::taking))]
fn take_roots<'a>(
    arena: &'a Bump,
    roots: &mut VecDeque<u32>,
    count: usize,
) -> Result<&'a [u32], AllocError>
    ensures taken { IfOk result (λ r. r.now ≡ take count roots.old.items) }
    ensures left { OnOk result (roots.new.items ≡ drop count roots.old.items) }
{
    let mut taken = Vec::new(arena);
    for _ in 0..count {
        take_root(roots, &mut taken)?;
    }
    Ok(into_bump_slice(taken))
}

// takes an operand of this length, if there is one
fn take_operand<'a>(
    arena: &'a Bump,
    roots: &mut VecDeque<u32>,
    length: Option<u32>,
    operands: &mut Vec<&'a [u32], &'a Bump>,
) -> Result<(), AllocError>
    ensures taken { OnOk result (map (λ o. o.now) operands.new.items
        ≡ map (λ o. o.now) operands.old.items ++ pieces (option_to_list length) roots.old.items) }
    ensures left { OnOk result
        (roots.new.items ≡ drop (sum (option_to_list length)) roots.old.items) }
{
    if let Some(count) = length {
        operands.push(take_roots(arena, roots, count as usize)?)?;
    }
    Ok(())
}

// takes the operands of an action node
#[tactic(auto, using(crate::proofs::RootsLemmas::operands))]
fn take_operands<'a>(
    arena: &'a Bump,
    roots: &mut VecDeque<u32>,
    kind: Kind,
    items: u32,
) -> Result<&'a [&'a [u32]], AllocError>
    ensures taken { IfOk result (λ r. map (λ o. o.now) r.now
        ≡ pieces (operand_lengths kind items) roots.old.items) }
    ensures left { OnOk result
        (roots.new.items ≡ drop (sum (operand_lengths kind items)) roots.old.items) }
{
    let (first, second) = parts_of_action(kind, items).operands();
    let mut operands = Vec::new(arena);
    take_operand(arena, roots, first, &mut operands)?;
    take_operand(arena, roots, second, &mut operands)?;
    Ok(into_bump_slice(operands))
}

// takes the action parts of an action node; the body of an `unfolding` is no child of it
fn take_children<'a>(
    arena: &'a Bump,
    roots: &mut VecDeque<u32>,
    kind: Kind,
) -> Result<&'a [u32], AllocError>
    ensures taken { IfOk result
        (λ r. r.now ≡ children_of kind (take (part_count kind) roots.old.items)) }
    ensures left { OnOk result (roots.new.items ≡ drop (part_count kind) roots.old.items) }
{
    let parts = take_roots(arena, roots, parts_of_action(kind, 0).actions())?;
    match kind {
        Kind::Unfolding => Ok(&[]),
        _ => Ok(parts),
    }
}

impl<'a> Linker<'a> {
    /// Nothing is linked.
    pub fn new(alloc: Global, arena: &'a Bump) -> Linker<'a>
        ensures { Links [] result }
    {
        Linker {
            arena,
            nodes: VecDeque::new(alloc),
            yielders: VecDeque::new(alloc),
            action_roots: VecDeque::new(alloc),
            yielder_roots: VecDeque::new(alloc),
        }
    }

    /// Places the nodes and the yielders in the arena.
    pub fn place(self) -> Result<(&'a [Node<'a>], &'a [YNode<'a>]), AllocError>
        ensures nodes { IfOk result (λ lists. lists.0.now ≡ self.entry.nodes.items) }
        ensures yielders { IfOk result (λ lists. lists.1.now ≡ self.entry.yielders.items) }
    {
        let Linker {
            arena,
            nodes,
            yielders,
            action_roots: _,
            yielder_roots: _,
        } = self;
        let nodes = arena.try_alloc_slice_copy(nodes.into_vec().as_slice())?;
        let yielders = arena.try_alloc_slice_copy(yielders.into_vec().as_slice())?;
        Ok((nodes, yielders))
    }

    fn link_action(&mut self, new: NewAction<'a>, number: u32, body: u32) -> Result<(), AllocError>
        ensures { OnOk result
            (LinksNode (Pushed.Action new.entry) number body self.old self.new) }
    {
        let children = take_children(self.arena, &mut self.action_roots, new.kind)?;
        let operands = take_operands(self.arena, &mut self.yielder_roots, new.kind, new.items)?;
        self.nodes.push_front(Node {
            kind: new.kind,
            token: new.token,
            children,
            operands,
            body,
        })?;
        self.action_roots.push_front(number)?;
        Ok(())
    }

    fn link_yielder(
        &mut self,
        new: NewYielder<'a>,
        number: u32,
        body: u32,
    ) -> Result<(), AllocError>
        ensures { OnOk result
            (LinksNode (Pushed.Yielder new.entry) number body self.old self.new) }
    {
        let under = parts_of_yielder(new.kind);
        let children = take_roots(self.arena, &mut self.yielder_roots, under.yielders())?;
        if under.actions() > 0 {
            let _body = self.action_roots.pop_front();
        }
        self.yielders.push_front(YNode {
            kind: new.kind,
            token: new.token,
            children,
            body,
        })?;
        self.yielder_roots.push_front(number)?;
        Ok(())
    }

    /// The node stands before those that are linked.
    pub fn link(&mut self, entered: Entered<'a>) -> Result<(), AllocError>
        ensures { OnOk result
            (LinksNode entered.entry.node entered.entry.number entered.entry.body
            self.old self.new) }
    {
        match entered.node {
            Pushed::Action(new) => self.link_action(new, entered.number, entered.body),
            Pushed::Yielder(new) => self.link_yielder(new, entered.number, entered.body),
        }
    }
}

/// Links all nodes, from the last to the first.
pub fn link_all<'a>(
    alloc: Global,
    arena: &'a Bump,
    entered: &[Entered<'a>],
) -> Result<Linker<'a>, AllocError>
    ensures { IfOk result (λ linker. Links (map entry_of entered.now) linker) }
{
    let mut linker = Linker::new(alloc, arena);
    for i in (0..entered.len()).rev() {
        linker.link(entered[i])?;
    }
    Ok(linker)
}
