//! What stands under a node, in the order of the text.
ghost use Rattle.std.specs.Prelude.{◌≡◌, [], ◌∷◌, ◌++◌, length, option_to_list};
ghost use Rattle.action_terms.specs.Labels.{AYielder, copies, operand_lengths, under_action, under_yielder, under};
ghost use Rattle.action_terms.specs.Places.{wanted_by, actions_wanted, yielders_wanted, places_of, operand, operand_of, places_under, operands_under};
ghost use Rattle.action_terms.specs.Pushed.{label_of};

use crate::kinds::{Kind, YKind};
use crate::pushed::Pushed;

/// What may stand in a place under a node.
#[derive(Clone, Copy, Debug, PartialEq, Eq)]
pub enum Place {
    /// An action.
    Action,
    /// One datum.
    Yielder,
    /// An item of data: one datum, or `them`.
    Item,
    /// A closure.
    Closure,
}

/// Places of one sort that follow one another.
#[derive(Clone, Copy, Debug, PartialEq, Eq)]
pub struct Places {
    /// What may stand in each.
    pub place: Place,
    /// How many they are.
    pub count: u32,
}

/// The places under a node, in the order of the text. Under an action node, places for yielders
/// that stand together are one operand.
#[derive(Clone, Copy, Debug, PartialEq, Eq)]
pub struct Parts {
    /// The first places, if there are some.
    pub first: Option<Places>,
    /// The places after the first, if there are some.
    pub second: Option<Places>,
}

// how many places there are
#[tactic(auto, using(crate::proofs::PlacesLemmas::counts))]
fn count_of(places: Option<Places>) -> u32
    ensures { result ≡ length (places_of places) }
{
    match places {
        Some(group) => group.count,
        None => 0,
    }
}

// how many of the places want an action
#[tactic(auto, using(crate::proofs::PlacesLemmas::counts))]
fn actions_of(places: Option<Places>) -> u32
    ensures { result ≡ actions_wanted (places_of places) }
{
    match places {
        Some(group) => match group.place {
            Place::Action => group.count,
            Place::Yielder | Place::Item | Place::Closure => 0,
        },
        None => 0,
    }
}

// how many of the places want a yielder
#[tactic(auto, using(crate::proofs::PlacesLemmas::counts))]
fn yielders_of(places: Option<Places>) -> u32
    ensures { result ≡ yielders_wanted (places_of places) }
{
    match places {
        Some(group) => match group.place {
            Place::Action => 0,
            Place::Yielder | Place::Item | Place::Closure => group.count,
        },
        None => 0,
    }
}

// how many items the operand has that the places are, if they are one
fn operand_of(places: Option<Places>) -> Option<u32>
    ensures { option_to_list result ≡ operand_of places }
{
    match places {
        Some(group) => match group.place {
            Place::Action => None,
            Place::Yielder | Place::Item | Place::Closure => Some(group.count),
        },
        None => None,
    }
}

impl Parts {
    /// How many actions stand under the node.
    #[tactic(auto, using(crate::proofs::PlacesLemmas::counts))]
    pub fn actions(&self) -> usize
        ensures { result ≡ actions_wanted (places_under self.now) }
    {
        actions_of(self.first) as usize + actions_of(self.second) as usize
    }

    /// How many yielders stand under the node.
    #[tactic(auto, using(crate::proofs::PlacesLemmas::counts))]
    pub fn yielders(&self) -> usize
        ensures { result ≡ yielders_wanted (places_under self.now) }
    {
        yielders_of(self.first) as usize + yielders_of(self.second) as usize
    }

    /// How many trees stand under the node.
    #[tactic(auto, using(crate::proofs::PlacesLemmas::counts))]
    pub fn count(&self) -> usize
        ensures { result ≡ length (places_under self.now) }
    {
        count_of(self.first) as usize + count_of(self.second) as usize
    }

    /// How many items the first and the second operand of an action node have, if it has them.
    pub fn operands(&self) -> (Option<u32>, Option<u32>)
        ensures { option_to_list result.0 ++ option_to_list result.1 ≡ operands_under self.now }
    {
        (operand_of(self.first), operand_of(self.second))
    }
}

fn none() -> Parts
    ensures places { places_under result ≡ [] }
    ensures operands { operands_under result ≡ [] }
{
    Parts {
        first: None,
        second: None,
    }
}

fn group(place: Place, count: u32) -> Option<Places>
    ensures places { places_of result ≡ copies count (wanted_by place) }
    ensures operand { operand_of result ≡ operand place count }
{
    Some(Places { place, count })
}

fn one(place: Place, count: u32) -> Parts
    ensures places { places_under result ≡ copies count (wanted_by place) }
    ensures operands { operands_under result ≡ operand place count }
{
    Parts {
        first: group(place, count),
        second: None,
    }
}

// one yielder, and then so many places of one sort
fn yielder_and(place: Place, count: u32) -> Parts
    ensures places { places_under result ≡ AYielder ∷ copies count (wanted_by place) }
    ensures operands { operands_under result ≡ 1 ∷ operand place count }
{
    Parts {
        first: group(Place::Yielder, 1),
        second: group(place, count),
    }
}

/// The places under an action node of the kind whose data have so many items.
pub fn parts_of_action(kind: Kind, items: u32) -> Parts
    ensures places { places_under result ≡ under_action kind items }
    ensures operands { operands_under result ≡ operand_lengths kind items }
{
    match kind {
        Kind::Give | Kind::EscapeWith => one(Place::Item, items),
        Kind::Check | Kind::Bind | Kind::Send | Kind::Enact => one(Place::Yielder, 1),
        Kind::BindRec => one(Place::Closure, 1),
        Kind::Store => yielder_and(Place::Yielder, 1),
        Kind::Apply => yielder_and(Place::Item, items),
        Kind::Unfolding | Kind::Furthermore => one(Place::Action, 1),
        Kind::Or
        | Kind::And
        | Kind::AndThen
        | Kind::Then
        | Kind::Trap
        | Kind::Hence
        | Kind::Moreover
        | Kind::Before => one(Place::Action, 2),
        Kind::Branch => yielder_and(Place::Action, 2),
        Kind::Complete
        | Kind::Fail
        | Kind::Escape
        | Kind::Commit
        | Kind::Regive
        | Kind::Rebind
        | Kind::Allocate
        | Kind::Receive
        | Kind::Unfold => none(),
    }
}

/// The places under a yielder of the kind.
pub fn parts_of_yielder(kind: YKind) -> Parts
    ensures { places_under result ≡ under_yielder kind }
{
    match kind {
        YKind::Stored { sort: _ } | YKind::Negation | YKind::Not => one(Place::Yielder, 1),
        YKind::Sum
        | YKind::Difference
        | YKind::Product
        | YKind::Quotient
        | YKind::Remainder
        | YKind::Is
        | YKind::Less
        | YKind::Both
        | YKind::Either => one(Place::Yielder, 2),
        YKind::Closure => one(Place::Action, 1),
        YKind::Number(_)
        | YKind::Truth(_)
        | YKind::Them
        | YKind::Given { sort: _, place: _ }
        | YKind::Bound { sort: _ } => none(),
    }
}

/// The places under a node.
pub(crate) fn parts_of(node: Pushed<'_>) -> Parts
    ensures { places_under result ≡ under (label_of node.entry) }
{
    match node {
        Pushed::Action(new) => parts_of_action(new.kind, new.items),
        Pushed::Yielder(new) => parts_of_yielder(new.kind),
    }
}
