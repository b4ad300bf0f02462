//! The parts of an acting tree that run side by side, as a tree of their own.
ghost use Rattle.std.specs.Prelude.{◌≡◌, ◌<◌, ◌≤◌, ◌-◌, ◌+◌, ◌^◌, ℕ, Bool, Some, None, Option, IsSome, Box};
ghost use Rattle.std.specs.Global.{Global};
ghost use Rattle.action_terms.specs.Actions.{Action};
ghost use Rattle.action_terms.specs.Acting.{Tree};
ghost use Rattle.action_sos.specs.Kept.{IsCounted};
ghost use Rattle.action_sos.specs.declared.branch.Branch.{Branch, out-Branch};
ghost use Rattle.action_sos.specs.Branches.{opposite, other_of, IsTaken, count_in, IsReached, HasRoom, IsRefilled, AreGrown, IsGrown, child_of, turned, way, rest_of, counted, grown, target, target_index, renewed, regrown};

use crate::part::{Part, Side};
use std::mem;

/// A part, and its two parts where it has two.
///
/// While a step is made below a branch, the branch around it stands in place of the part in which that is.
pub struct Branch<'a> {
    /// The part.
    pub part: Part<'a>,
    /// How many steps stand open in it and in its two parts.
    pub count: u64,
    /// The side in which a step is made.
    pub went: Side,
    /// The left part.
    pub left: Option<Box<Branch<'a>>>,
    /// The right part.
    pub right: Option<Box<Branch<'a>>>,
}

/// Where a step is made: the branch, those around it, and the index of the step in it.
pub struct Way<'a> {
    /// The branch in which the step is made.
    pub branch: Box<Branch<'a>>,
    /// The branch around it, which has the next one in its place, and so on.
    pub around: Option<Box<Branch<'a>>>,
    /// The index of the step.
    pub index: u64,
}

impl<'a> Drop for Branch<'a> {
    // a loop: a tree may be as deep as it is large
    fn drop(mut self) {
        loop {
            let Branch {
                part,
                count,
                went,
                left,
                right,
            } = self;
            match (left, right) {
                (None, None) => return,
                (None, Some(only)) => self = Box::into_inner(only),
                (Some(mut first), right) => {
                    let rest = Branch {
                        part,
                        count,
                        went,
                        left: None,
                        right,
                    };
                    let mut inner = mem::replace(&mut *first, rest);
                    first.left = inner.right.take();
                    inner.right = Some(first);
                    self = inner;
                }
            }
        }
    }
}

/// How many steps stand open in a part.
pub fn count_of(child: &Option<Box<Branch<'_>>>) -> u64
    ensures { result ≡ counted child.now }
{
    match child {
        Some(branch) => branch.count,
        None => 0,
    }
}

// the part on the side, in whose place the branch around is put
fn turn<'a>(
    branch: &mut Branch<'a>,
    side: Side,
    around: Option<Box<Branch<'a>>>,
) -> Option<Box<Branch<'a>>>
    ensures child { result ≡ child_of side branch.old }
    ensures turned { branch.new ≡ turned side around.entry branch.old }
{
    branch.went = side;
    match side {
        Side::Left => mem::replace(&mut branch.left, around),
        Side::Right => mem::replace(&mut branch.right, around),
    }
}

// the side on which the step of this index is, where it isn't one of the branch's own
fn side_of(branch: &Branch<'_>, index: u64) -> Option<Side>
    ensures { result ≡ way branch.now index }
{
    match (&branch.left, &branch.right) {
        (Some(left), Some(right)) => {
            if index < left.count {
                Some(Side::Left)
            } else if index - left.count < right.count {
                Some(Side::Right)
            } else {
                None
            }
        }
        _ => None,
    }
}

// the index of the step in the part on the side
fn index_in(branch: &Branch<'_>, side: Side, index: u64) -> u64
    ensures { result ≡ rest_of side branch.now index }
{
    match side {
        Side::Left => index,
        Side::Right => index.saturating_sub(count_of(&branch.left)),
    }
}

/// The way to the step of this index.
pub fn descend<'a>(root: Box<Branch<'a>>, choice: u64) -> Way<'a>
    ensures branch { result.branch.value ≡ target root.entry.value choice }
    ensures index { result.index ≡ target_index root.entry.value choice }
    ensures around { (q : Bool) (t : Tree) →
        regrown q result.around t ≡ renewed q root.entry.value choice t }
    ensures reached { (a : Action) (limit : ℕ) →
        IsGrown a root.entry.value → count_in root.entry.value ≤ limit →
        IsReached a limit result.branch.value result.around }
    ensures ends { way result.branch.value result.index ≡ None }
{
    let mut branch = root;
    let mut around = None;
    let mut index = choice;
    while let Some(side) = side_of(&branch, index) {
        index = index_in(&branch, side, index);
        match turn(&mut branch, side, around) {
            Some(child) => {
                around = Some(branch);
                branch = child;
            }
            None => unreachable!(),
        }
    }
    Way {
        branch,
        around,
        index,
    }
}

// the other side
fn opposite(side: Side) -> Side
    ensures { result ≡ opposite side }
{
    match side {
        Side::Left => Side::Right,
        Side::Right => Side::Left,
    }
}

// puts a part in place of that of a branch: it has as many steps more as its frames have more of their own
fn take_part<'a>(branch: &mut Branch<'a>, part: Part<'a>)
    requires fits { count_in branch.old + part.broken
        < (out-Branch branch.old).part.broken + 2 ^ 64 }
    requires more { (out-Branch branch.old).part.broken ≤ part.broken }
    ensures { IsTaken branch.old part.entry branch.new }
{
    let more = part.broken - branch.part.broken;
    let count = branch.count + more as u64;
    branch.count = count;
    branch.part = part;
}

/// The other part of a branch in place of the branch, where that is now this part; and the branch around.
pub fn join<'a>(
    outer: Box<Branch<'a>>,
    part: Part<'a>,
) -> (Box<Branch<'a>>, Option<Box<Branch<'a>>>)
    requires other { IsSome (other_of outer.value) }
    requires fits { (y : Box Branch Global) → other_of outer.value ≡ Some y →
        count_in y.value + part.broken < (out-Branch y.value).part.broken + 2 ^ 64 }
    requires more { (y : Box Branch Global) → other_of outer.value ≡ Some y →
        (out-Branch y.value).part.broken ≤ part.broken }
    ensures around { result.1 ≡ child_of (out-Branch outer.entry.value).went outer.entry.value }
    ensures joined { (y : Box Branch Global) → other_of outer.entry.value ≡ Some y →
        IsTaken y.value part.entry result.0.value }
{
    let mut outer = outer;
    let side = outer.went;
    let around = turn(&mut outer, side, None);
    let Some(mut other) = turn(&mut outer, opposite(side), None) else {
        unreachable!();
    };
    take_part(&mut other, part);
    (other, around)
}

// closes the alternatives of a branch, where the step below it commits, and counts its steps anew
fn refill(branch: &mut Branch<'_>, closes: bool)
    requires counted { IsCounted (out-Branch branch.old).part }
    requires fits { (out-Branch branch.old).part.broken
        + (counted (out-Branch branch.old).left + counted (out-Branch branch.old).right) < 2 ^ 64 }
    ensures { IsRefilled closes branch.old branch.new }
{
    let part = branch.part;
    let count = count_of(&branch.left) + count_of(&branch.right);
    branch.part = if closes { part.with_all_closed() } else { part };
    branch.count = part.broken as u64 + count;
}

/// The root, once a step has been made in the branch: it closes the alternatives around where it commits.
pub fn climb<'a>(
    around: Option<Box<Branch<'a>>>,
    branch: Box<Branch<'a>>,
    closes: bool,
) -> Box<Branch<'a>>
    requires { HasRoom around branch.value }
    ensures tree { grown result.value ≡ regrown closes around.entry (grown branch.entry.value) }
    ensures sound { (a : Action) →
        AreGrown a around.entry → IsGrown a branch.entry.value → IsGrown a result.value }
{
    let mut branch = branch;
    let mut around = around;
    while let Some(mut outer) = around {
        let side = outer.went;
        around = turn(&mut outer, side, Some(branch));
        refill(&mut outer, closes);
        branch = outer;
    }
    branch
}
