//! What the code of an action is made from.

ghost use Rattle.std.specs.Prelude.{◌≡◌, ℕ, ◌+◌, ◌*◌, ◌<◌, [], All, length, slice_index};
ghost use Rattle.action_terms.specs.Actions.{node_at};
ghost use Rattle.action_terms.specs.Meaning.{action_of};
ghost use Rattle.action_terms.specs.Need.{node_yielder_count};
ghost use Rattle.action_terms.specs.Numbering.{node_limit};
ghost use Rattle.rv_yield.specs.Registers.{AreNeeds};
ghost use Rattle.rv_codegen.specs.Aliases.{list_at, lists_of};
ghost use Rattle.rv_codegen.specs.Blocks.{first_label, exits_of};
ghost use Rattle.rv_codegen.specs.Built.{unbuilt};
ghost use Rattle.rv_codegen.specs.ItemCode.{AreReached};

use crate::entries::Entries;
use crate::labels::NodeLabels;
use action_terms::Graph;
use rv_asm::Label;
use std::alloc::Global;

/// An action, with the labels that its code has.
#[derive(Clone, Copy)]
pub(crate) struct Plan<'a, 'l, 'd> {
    /// Where memory comes from.
    pub(crate) alloc: Global,
    /// The action.
    pub(crate) graph: &'a Graph<'a>,
    /// How many registers each yielder needs, by the number of the yielder.
    pub(crate) needs: &'l [usize],
    /// The labels of its nodes, and those behind them.
    pub(crate) labels: NodeLabels<'l>,
    /// Where each node finds what it is given, by the number of the node.
    pub(crate) given: &'d [&'d [u32]],
    /// Where each node leaves what it completes with.
    pub(crate) out: &'d [&'d [u32]],
    /// Where each node puts what it escapes with, by the number of the node.
    pub(crate) escaped: &'d [&'d [u32]],
    /// The first word of the record of each node, by the number of the node.
    pub(crate) keeps: &'d [u32],
    /// How many words the frame has in which each node is performed, by the number of the node.
    pub(crate) frames: &'d [u32],
    /// Where each node goes on, by the number of the node.
    pub(crate) exits: &'a [Label],
    /// The labels of the entries.
    pub(crate) entries: &'a Entries,
    ghost few: { (k : ℕ) → node_yielder_count (node_at (action_of graph.now) k) < node_limit },
    ghost built: { unbuilt (action_of graph.now) ≡ [] },
    ghost needed: { AreNeeds graph.now.yielders needs.now },
    ghost given_count: { length given.now ≡ length graph.now.nodes },
    ghost out_count: { length out.now ≡ length graph.now.nodes },
    ghost given_reached: { (k : ℕ) → AreReached (list_at (lists_of given.now) k) },
    ghost out_reached: { (k : ℕ) → AreReached (list_at (lists_of out.now) k) },
    ghost escaped_count: { length escaped.now ≡ length graph.now.nodes },
    ghost escaped_reached: { (k : ℕ) → AreReached (list_at (lists_of escaped.now) k) },
    ghost keeps_count: { length keeps.now ≡ length graph.now.nodes },
    ghost keeps_reached: { (k : ℕ) → slice_index keeps.now k < 33554432 },
    ghost frames_count: { length frames.now ≡ length graph.now.nodes },
    ghost rows: { length labels.row.now ≡ 4 * length graph.now.nodes + 4 },
    ghost count: { length exits.now ≡ length graph.now.nodes },
    ghost goes_on: { exits.now ≡ exits_of (action_of graph.now) },
    ghost made: { All (λ l. l < first_label + length labels.row.now) exits.now },
}

impl<'d> Plan<'_, '_, 'd> {
    /// Where node k finds what it is given.
    pub(crate) fn given_at(self, k: usize) -> &'d [u32]
        requires { k < length self.graph.now.nodes }
        ensures is { result.now ≡ list_at (lists_of self.entry.given.now) k }
        ensures reached { AreReached result.now }
    {
        self.given[k]
    }

    /// Where node k leaves what it completes with.
    pub(crate) fn out_at(self, k: usize) -> &'d [u32]
        requires { k < length self.graph.now.nodes }
        ensures is { result.now ≡ list_at (lists_of self.entry.out.now) k }
        ensures reached { AreReached result.now }
    {
        self.out[k]
    }

    /// Where node k puts what it escapes with.
    pub(crate) fn escaped_at(self, k: usize) -> &'d [u32]
        requires { k < length self.graph.now.nodes }
        ensures is { result.now ≡ list_at (lists_of self.entry.escaped.now) k }
        ensures reached { AreReached result.now }
    {
        self.escaped[k]
    }

    /// The first word of the record of node k.
    pub(crate) fn keep_at(self, k: usize) -> u32
        requires { k < length self.graph.now.nodes }
        ensures is { result ≡ slice_index self.entry.keeps.now k }
        ensures near { result < 33554432 }
    {
        self.keeps[k]
    }
    /// How many words the frame of node k has.
    pub(crate) fn frame_at(self, k: usize) -> u32
        requires { k < length self.graph.now.nodes }
        ensures { result ≡ slice_index self.entry.frames.now k }
    {
        self.frames[k]
    }
}
