//! The places that are still wanted while nodes are pushed, and which node may stand in one.
ghost use Rattle.std.specs.Prelude.{◌≡◌, ◌+◌, ◌≤◌, List, [], ◌∷◌, ◌++◌, MatchOption, IfOk, OnOk, OnErr, vec_len, vec_capacity, false, if◌then◌else◌};
ghost use Rattle.std.specs.List.{list_all};
ghost use Rattle.action_terms.specs.Labels.{Label, AnAction, is_token_byte, is_token, has_no_token, token_fits, items_fit, yielder_fits, is_datum, is_closure, serves, under};
ghost use Rattle.action_terms.specs.Pushed.{label_of};
ghost use Rattle.action_terms.specs.Places.{fills, wanted_by, places_of, run_of, wanted_on, expects};

use crate::kinds::{Kind, YKind};
use crate::pushed::Pushed;
use crate::under::{Place, Places, parts_of};
use std::alloc::{AllocError, Global};

/// A place, and places of the same sort that follow it.
#[derive(Clone, Copy, Debug, PartialEq, Eq)]
pub struct Run {
    /// What may stand in each.
    pub place: Place,
    /// How many follow the first.
    pub more: u32,
}

/// What is expected of the nodes that follow.
#[derive(Drop)]
pub struct Expected {
    // the places that are wanted, the first of them last
    places: Vec<Run>,
    // whether each node so far could stand in its place
    fits: bool,
}

fn is_token_byte(byte: u8) -> bool
    ensures { result ≡ is_token_byte byte }
{
    0x21 <= byte && byte <= 0x7e && byte != b'"'
}

fn are_token_bytes(bytes: &[u8]) -> bool
    ensures { result ≡ list_all is_token_byte bytes.now }
{
    bytes.iter().all(|byte| is_token_byte(*byte))
}

#[tactic(auto, using(crate::proofs::PlacesLemmas::is_token_some))]
/// Whether a text can give the token.
pub fn is_token(token: &[u8]) -> bool
    ensures { result ≡ is_token token.now }
{
    !token.is_empty() && are_token_bytes(token)
}

fn token_fits(kind: Kind, token: &[u8]) -> bool
    ensures { result ≡ token_fits kind token.now }
{
    match kind {
        Kind::Bind | Kind::BindRec => is_token(token),
        _ => token.is_empty(),
    }
}

fn items_fit(kind: Kind, items: u32) -> bool
    ensures { result ≡ items_fit kind items }
{
    match kind {
        Kind::Give | Kind::EscapeWith | Kind::Apply => true,
        _ => items == 0,
    }
}

fn yielder_fits(kind: YKind, token: &[u8]) -> bool
    ensures { result ≡ yielder_fits kind token.now }
{
    match kind {
        YKind::Bound { sort: _ } => is_token(token),
        YKind::Given { sort: _, place } => place <= 64 && token.is_empty(),
        _ => token.is_empty(),
    }
}

/// Whether a text can give the node, and it may stand in such a place.
pub fn serves(place: Place, node: Pushed<'_>) -> bool
    ensures { result ≡ serves (wanted_by place) (label_of node.entry) }
{
    match (place, node) {
        (Place::Action, Pushed::Action(new)) => {
            items_fit(new.kind, new.items) && token_fits(new.kind, new.token)
        }
        (Place::Yielder, Pushed::Yielder(new)) => {
            !matches!(new.kind, YKind::Them) && yielder_fits(new.kind, new.token)
        }
        (Place::Item, Pushed::Yielder(new)) => yielder_fits(new.kind, new.token),
        (Place::Closure, Pushed::Yielder(new)) => {
            matches!(new.kind, YKind::Closure) && yielder_fits(new.kind, new.token)
        }
        _ => false,
    }
}

// the places, if they are any
fn run_of(places: Option<Places>) -> Option<Run>
    ensures { run_of result ≡ places_of places }
{
    match places {
        Some(group) if group.count > 0 => Some(Run {
            place: group.place,
            more: group.count - 1,
        }),
        _ => None,
    }
}

// takes the first place off the stack, whose last places come first
fn take_place(stack: &mut Vec<Run>) -> Option<Place>
    ensures first { MatchOption result (wanted_on stack.old.items ≡ [])
        (λ place. wanted_on stack.old.items ≡ wanted_by place ∷ wanted_on stack.new.items) }
    ensures room { vec_capacity stack.new ≡ vec_capacity stack.old }
    ensures no_more { vec_len stack.new ≤ vec_len stack.old }
{
    let Some(top) = stack.pop() else {
        return None;
    };
    if top.more > 0 {
        let rest = Run {
            place: top.place,
            more: top.more - 1,
        };
        stack.push_reserved(rest);
    }
    Some(top.place)
}

// puts the node in the first place, and wants what stands under it
fn fill_place(stack: &mut Vec<Run>, node: Pushed<'_>) -> bool
    requires { vec_len stack.old + 2 ≤ vec_capacity stack.old }
    ensures { (more : List Label)
        → (if result then fills (wanted_on stack.new.items) more else false)
        ≡ fills (wanted_on stack.old.items) (label_of node.entry ∷ more) }
{
    let Some(place) = take_place(stack) else {
        return false;
    };
    if !serves(place, node) {
        return false;
    }
    let under = parts_of(node);
    if let Some(second) = run_of(under.second) {
        stack.push_reserved(second);
    }
    if let Some(first) = run_of(under.first) {
        stack.push_reserved(first);
    }
    true
}

impl Expected {
    /// One action.
    pub fn an_action(alloc: Global) -> Result<Expected, AllocError>
        ensures { IfOk result
            (λ e. (more : List Label) → expects e more ≡ fills (AnAction ∷ []) more) }
    {
        let mut places = Vec::with_capacity(alloc, 8)?;
        places.push(Run {
            place: Place::Action,
            more: 0,
        })?;
        Ok(Expected { places, fits: true })
    }

    /// Makes room for what one more node may want.
    pub fn reserve(&mut self) -> Result<(), AllocError>
        ensures same { (more : List Label) → expects self.new more ≡ expects self.old more }
        ensures room { OnOk result (vec_len self.new.places + 2 ≤ vec_capacity self.new.places) }
    {
        self.places.reserve(2)
    }

    /// The node follows.
    pub fn follow(&mut self, node: Pushed<'_>)
        requires { vec_len self.old.places + 2 ≤ vec_capacity self.old.places }
        ensures { (more : List Label)
            → expects self.new more ≡ expects self.old (label_of node.entry ∷ more) }
    {
        let fits = fill_place(&mut self.places, node);
        self.fits = self.fits && fits;
    }

    /// Whether nothing more is expected.
    pub fn is_met(&self) -> bool
        ensures { result ≡ expects self.now [] }
    {
        self.fits && self.places.is_empty()
    }
}
