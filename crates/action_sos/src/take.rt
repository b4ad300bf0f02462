//! A step taken in a tree of branches.
ghost use Rattle.std.specs.Prelude.{◌≡◌, ◌+◌, ◌-◌, ◌≤◌, ◌<◌, ◌^◌, Bool, Some, None, IfOk, IfSome, IfNone, OnOk, OnErr, Box, length};
ghost use Rattle.std.specs.Global.{Global};
ghost use Rattle.action_terms.specs.Actions.{Action};
ghost use Rattle.action_terms.specs.Acting.{Ended};
ghost use Rattle.action_terms.specs.Steps.{commits, open_steps};
ghost use Rattle.action_terms.specs.Meaning.{action_of};
ghost use Rattle.action_terms.specs.Proper.{IsProper};
ghost use Rattle.action_terms.specs.Sound.{IsSound};
ghost use Rattle.action_sos.specs.declared.branch.Branch.{Branch, out-Branch};
ghost use Rattle.action_sos.specs.Views.{end_of};
ghost use Rattle.action_sos.specs.Kept.{IsCounted};
ghost use Rattle.action_sos.specs.Moves.{effect_of};
ghost use Rattle.action_sos.specs.Performers.{Takes};
ghost use Rattle.action_sos.specs.Performed.{world_of};
ghost use Rattle.action_sos.specs.Branches.{way, most, count_in, grown, regrown, IsGoingTree, IsGrown, AreGrown, IsOuter, IsReached};
ghost use Rattle.action_sos.specs.Taking.{state_of, below, AreJoined, IsFitting, IsMade};

use crate::branch::{Branch, Way, climb, count_of, descend, join};
use crate::ends::End;
use crate::grow::{after_step, does_commit, joined_part};
use crate::moves::Change;
use crate::part::{Focus, Part};
use crate::plan::plan_of_part;
use crate::world::World;
use acg_base::Memory;
use action_terms::Graph;
use bumpalo::Bump;
use std::alloc::Global;
use std::mem;

/// A step that isn't part of the tree yet.
pub struct Made<'a> {
    /// The branch after it.
    pub branch: Branch<'a>,
    /// Where that has ended beside another branch: what the part of the other one becomes.
    pub joined: Option<Part<'a>>,
    /// Whether the step commits.
    pub commits: bool,
}

// the index among the steps of the part itself: those of its two parts come before
fn own_index(branch: &Branch<'_>, index: u64) -> u64
    requires { below branch.now ≤ index }
    ensures { result ≡ index - below branch.now }
{
    index - (count_of(&branch.left) + count_of(&branch.right))
}

/// How a branch has ended as a whole, where it has.
pub fn ended<'a>(branch: &Branch<'a>) -> Option<End<'a>>
    requires { IsCounted (out-Branch branch.now).part }
    ensures ended { IfSome result (λ z. grown branch.now ≡ Ended (end_of z)) }
    ensures going { IfNone result (IsGoingTree (grown branch.now)) }
{
    if branch.part.depth != 0 {
        return None;
    }
    match branch.part.focus {
        Focus::Ended(end) => Some(end),
        Focus::Run { .. } => None,
        Focus::Parts { .. } => None,
    }
}

// what the part beside becomes, where the branch has ended beside another one
fn joined<'a>(
    alloc: Global,
    arena: &'a Bump,
    around: &Option<Box<Branch<'a>>>,
    branch: &Branch<'a>,
    change: Change<'a>,
) -> Result<Option<Part<'a>>, Memory>
    requires counted { IsCounted (out-Branch branch.now).part }
    requires outer { (o : Box Branch Global) → around.now ≡ Some o → IsOuter o.value }
    ensures { IfOk result (λ p.
        AreJoined (commits (effect_of change.entry)) around.now branch.now p) }
{
    match (around, ended(branch)) {
        (Some(outer), Some(end)) => {
            let part = joined_part(alloc, arena, outer, end, change)?;
            Ok(Some(part))
        }
        _ => Ok(None),
    }
}

// makes the step to which the way leads; after `Memory` the world is as before
fn make<'a>(
    alloc: Global,
    arena: &'a Bump,
    graph: &Graph<'a>,
    world: &mut World<'a>,
    path: &Way<'a>,
) -> Result<Made<'a>, Memory>
    requires proper { IsProper (action_of graph.now) }
    requires reached { IsReached (action_of graph.now) most path.now.branch.value path.now.around }
    requires ends { way path.now.branch.value path.now.index ≡ None }
    requires open { path.now.index
        < length (open_steps (action_of graph.now) (world_of world.old) (grown path.now.branch.value)) }
    requires sound { IsSound (action_of graph.now) (state_of path.now.branch.value world.old) }
    ensures made { IfOk result (λ m.
        IsMade (action_of graph.now) (world_of world.old) (world_of world.new) path.now m) }
    ensures fits { IfOk result (λ m. IsFitting path.now m) }
    ensures kept { OnErr result (world_of world.new ≡ world_of world.old) }
{
    let index = own_index(&path.branch, path.index);
    let part = path.branch.part;
    let plan = plan_of_part(alloc, arena, graph, part, world.outside(), index)?;
    let branch = after_step(alloc, arena, graph, plan)?;
    let joined = joined(alloc, arena, &path.around, &branch, plan.change)?;
    world.change(plan.change)?;
    Ok(Made {
        branch,
        joined,
        commits: does_commit(plan.change),
    })
}

// the root, with the step in its place
fn placed<'a>(way: Way<'a>, made: Made<'a>) -> Box<Branch<'a>>
    requires { IsFitting way made }
    ensures tree { grown result.value
        ≡ regrown made.entry.commits way.entry.around (grown made.entry.branch) }
    ensures grows { (a : Action) →
        AreGrown a way.entry.around → IsGrown a made.entry.branch → IsGrown a result.value }
{
    let Made {
        branch: after,
        joined,
        commits,
    } = made;
    let Way {
        branch,
        around,
        index: _,
    } = way;
    let Some(part) = joined else {
        let mut branch = branch;
        let _before = mem::replace(&mut *branch, after);
        return climb(around, branch, commits);
    };
    let Some(outer) = around else {
        unreachable!();
    };
    let (other, around) = join(outer, part);
    climb(around, other, commits)
}

/// Takes the open step with the index `choice`: the root after it. After `Memory` the acting tree and the world are as before.
pub fn take_step<'a>(
    alloc: Global,
    arena: &'a Bump,
    graph: &Graph<'a>,
    world: &mut World<'a>,
    root: Box<Branch<'a>>,
    choice: u64,
) -> (Box<Branch<'a>>, Result<(), Memory>)
    requires proper { IsProper (action_of graph.now) }
    requires grows { IsGrown (action_of graph.now) root.value }
    requires sound { IsSound (action_of graph.now) (state_of root.value world.old) }
    requires open { choice
        < length (open_steps (action_of graph.now) (world_of world.old) (grown root.value)) }
    requires few { count_in root.value ≤ most }
    ensures grows { IsGrown (action_of graph.now) result.0.value }
    ensures sound { OnOk result.1
        (IsSound (action_of graph.now) (state_of result.0.value world.new)) }
    ensures takes { OnOk result.1 (Takes choice
        (record { graph = graph.now; state = state_of root.entry.value world.old })
        (record { graph = graph.now; state = state_of result.0.value world.new })) }
    ensures kept { OnErr result.1
        (state_of result.0.value world.new ≡ state_of root.entry.value world.old) }
{
    let way = descend(root, choice);
    match make(alloc, arena, graph, world, &way) {
        Ok(made) => (placed(way, made), Ok(())),
        Err(Memory) => {
            let Way {
                branch,
                around,
                index: _,
            } = way;
            (climb(around, branch, false), Err(Memory))
        }
    }
}
