//! What a yielder may yield, and whether it fits, from the same of its arguments.
ghost use Rattle.std.specs.Prelude.{◌≡◌, [], map, option_map};
ghost use Rattle.action_terms.specs.Forms.{two_viewed, one_viewed};
ghost use Rattle.sort_rules.specs.Parts.{Clash, Unreached, join, lookup_set, on_list, when};
ghost use Rattle.sort_rules.specs.Values.{clashes, one_or_unreached, only_set, nth_set, first_set, strays, both_stray, misfit_two, misfit_one, found, misfit, result_of_two, result_of_one};
ghost use Rattle.sort_rules.specs.Judgements.{looked_up, misfit_unless, two_judged, one_judged};
ghost use Rattle.sort_rules.specs.Views.{set_of, place_of, marked_tuple_of, marked_binds_of, value_part, judgement_of};

use crate::maps;
use crate::parts::{MarkedBinds, MarkedTuple};
use crate::set::Set;
use crate::sets::{atoms, inside, is_empty, lies_in};
use action_terms::{One, Sort, Two};

/// What a yielder may yield.
#[derive(Clone, Copy, Debug, PartialEq, Eq)]
pub enum Value<'a> {
    /// Nothing.
    Unreached,
    /// A datum of the set.
    One(Set<'a>),
    /// It is looked up where lists don't agree.
    Clash,
}

/// What a yielder may yield, and whether it fits.
#[derive(Clone, Copy, Debug, PartialEq, Eq)]
pub struct Judged<'a> {
    /// What it may yield.
    pub value: Value<'a>,
    /// Whether it fits, and each yielder in it.
    pub fits: bool,
}

/// The value of a set.
pub fn value_of(set: Set<'_>) -> Value<'_>
    ensures { value_part result ≡ one_or_unreached (set_of set.entry) }
{
    if is_empty(set) {
        Value::Unreached
    } else {
        Value::One(set)
    }
}

// what is found of a sort
fn found<'a>(sort: Sort, set: Option<Set<'a>>) -> Judged<'a>
    ensures value { value_part result.value ≡ found sort (option_map set_of set.entry) }
    ensures wrong { misfit_unless result.fits ≡ misfit sort (option_map set_of set.entry) }
{
    match set {
        None => Judged {
            value: Value::Unreached,
            fits: false,
        },
        Some(set) => Judged {
            value: value_of(inside(sort, set)),
            fits: lies_in(sort, set),
        },
    }
}

// the set of a tuple of one
fn only_set<'a>(sets: &[Set<'a>]) -> Option<Set<'a>>
    ensures { option_map set_of result ≡ only_set (map place_of sets.now) }
{
    match sets {
        [only] => Some(*only),
        _ => None,
    }
}

// the set of a place, from 1
fn nth_set<'a>(sets: &[Set<'a>], place: u32) -> Option<Set<'a>>
    ensures { option_map set_of result ≡ nth_set place (map place_of sets.now) }
{
    if place == 0 {
        return None;
    }
    let index = place as usize - 1;
    if index < sets.len() {
        Some(sets[index])
    } else {
        None
    }
}

/// Of `the given S`, where this is given.
pub fn given<'a>(sort: Sort, g: MarkedTuple<'a>) -> Judged<'a>
    ensures { judgement_of result ≡ looked_up sort only_set (marked_tuple_of g.entry) }
{
    match g {
        MarkedTuple::Unreached => nothing(),
        MarkedTuple::List(sets) => found(sort, only_set(sets)),
        MarkedTuple::Clash => clash(),
    }
}

/// Of `the given S # n`.
pub fn given_at<'a>(sort: Sort, place: u32, g: MarkedTuple<'a>) -> Judged<'a>
    ensures { judgement_of result ≡ looked_up sort (nth_set place) (marked_tuple_of g.entry) }
{
    match g {
        MarkedTuple::Unreached => nothing(),
        MarkedTuple::List(sets) => found(sort, nth_set(sets, place)),
        MarkedTuple::Clash => clash(),
    }
}

/// Of `the S bound to T`, where this is received.
pub fn bound_to<'a>(sort: Sort, token: &[u8], h: MarkedBinds<'a>) -> Judged<'a>
    ensures { judgement_of result ≡ looked_up sort (lookup_set token.now)
        (marked_binds_of h.entry) }
{
    match h {
        MarkedBinds::Unreached => nothing(),
        MarkedBinds::Map(pairs) => found(sort, maps::lookup(pairs, token)),
        MarkedBinds::Clash => clash(),
    }
}

// nothing is looked up where nothing comes
fn nothing<'a>() -> Judged<'a>
    ensures { judgement_of result ≡ record { value = Unreached; wrong = Unreached } }
{
    Judged {
        value: Value::Unreached,
        fits: true,
    }
}

// what is looked up in a clash is one
fn clash<'a>() -> Judged<'a>
    ensures { judgement_of result ≡ record { value = Clash; wrong = Clash } }
{
    Judged {
        value: Value::Clash,
        fits: false,
    }
}

/// Whether a value lies in a sort.
pub fn lies_within(sort: Sort, value: Value<'_>) -> bool
    ensures { misfit_unless result ≡ strays sort (value_part value.entry) }
{
    match value {
        Value::Unreached => true,
        Value::One(set) => lies_in(sort, set),
        Value::Clash => false,
    }
}

/// Whether a value is none that is looked up in a clash.
pub fn is_no_clash(value: Value<'_>) -> bool
    ensures { misfit_unless result ≡ clashes (value_part value.entry) }
{
    !matches!(value, Value::Clash)
}

/// Of what is stored in a cell, from the judgement of the cell and what its cells may hold.
#[tactic(auto, using(crate::proofs::Misfits::misfits))]
pub fn stored<'a>(sort: Sort, cell: Judged<'a>, content: Value<'a>) -> Judged<'a>
    ensures value { value_part result.value ≡ on_list
        (λ ps. found sort (first_set ps)) (value_part content.entry) }
    ensures wrong { misfit_unless result.fits
        ≡ join (misfit_unless cell.entry.fits)
        (join (strays Sort.Cell (value_part cell.entry.value))
        (strays sort (value_part content.entry))) }
{
    let value = match content {
        Value::Unreached => Value::Unreached,
        Value::One(set) => value_of(inside(sort, set)),
        Value::Clash => Value::Clash,
    };
    let fits = cell.fits && lies_within(Sort::Cell, cell.value) && lies_within(sort, content);
    Judged { value, fits }
}

// whether both values lie in the sort
#[tactic(auto, using(crate::proofs::Misfits::misfits))]
fn both_lie(sort: Sort, x: Value<'_>, y: Value<'_>) -> bool
    ensures { misfit_unless result ≡ both_stray sort (value_part x.entry) (value_part y.entry) }
{
    lies_within(sort, x) && lies_within(sort, y)
}

// whether the arguments of an operation on two data are of the sorts that it wants
#[tactic(auto, using(crate::proofs::Misfits::misfits))]
fn two_fit(operation: Two, x: Value<'_>, y: Value<'_>) -> bool
    ensures { misfit_unless result ≡ misfit_two (two_viewed operation) (value_part x.entry)
        (value_part y.entry) }
{
    match operation {
        Two::Is => {
            both_lie(Sort::Integer, x, y)
                || both_lie(Sort::Truth, x, y)
                || both_lie(Sort::Cell, x, y)
        }
        Two::BothOf | Two::EitherOf => both_lie(Sort::Truth, x, y),
        _ => both_lie(Sort::Integer, x, y),
    }
}

// what an operation on two data gives
fn result_of_two(operation: Two) -> Set<'static>
    ensures { set_of result ≡ result_of_two (two_viewed operation) }
{
    match operation {
        Two::Is | Two::Less | Two::BothOf | Two::EitherOf => atoms(false, true),
        _ => atoms(true, false),
    }
}

// what an operation on one datum gives
fn result_of_one(operation: One) -> Set<'static>
    ensures { set_of result ≡ result_of_one (one_viewed operation) }
{
    match operation {
        One::Negation => atoms(true, false),
        One::Not => atoms(false, true),
    }
}

// the set, where the value is reached
fn where_reached<'a>(x: Value<'_>, value: Value<'a>) -> Value<'a>
    ensures { value_part result ≡ when (value_part x.entry) (value_part value.entry) }
{
    match x {
        Value::Unreached => Value::Unreached,
        _ => value,
    }
}

/// Of an operation on two data.
#[tactic(auto, using(crate::proofs::Misfits::misfits))]
pub fn on_two<'a>(operation: Two, x: Judged<'a>, y: Judged<'a>) -> Judged<'a>
    ensures { judgement_of result ≡ two_judged (two_viewed operation) (judgement_of x.entry)
        (judgement_of y.entry) }
{
    let value = Value::One(result_of_two(operation));
    Judged {
        value: where_reached(x.value, where_reached(y.value, value)),
        fits: x.fits && y.fits && two_fit(operation, x.value, y.value),
    }
}

/// Of an operation on one datum.
#[tactic(auto, using(crate::proofs::Misfits::misfits))]
pub fn on_one<'a>(operation: One, x: Judged<'a>) -> Judged<'a>
    ensures { judgement_of result ≡ one_judged (one_viewed operation) (judgement_of x.entry) }
{
    let sort = match operation {
        One::Negation => Sort::Integer,
        One::Not => Sort::Truth,
    };
    let value = Value::One(result_of_one(operation));
    Judged {
        value: where_reached(x.value, value),
        fits: x.fits && lies_within(sort, x.value),
    }
}
