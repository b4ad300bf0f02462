//! The yielders in a yielder, one after the other.
ghost use Rattle.std.specs.Prelude.{ℕ, ◌≡◌, [], ◌∷◌, ◌++◌, length, reverse, IfOk, OnOk};
ghost use Rattle.action_terms.specs.Forms.{IsDatum, yielder_at};
ghost use Rattle.action_terms.specs.Need.{yielder_count};
ghost use Rattle.action_terms.specs.Steps.{closures_in};
ghost use Rattle.sort_rules.specs.Parts.{Part};
ghost use Rattle.sort_rules.specs.Judgements.{judgement};
ghost use Rattle.sort_rules.specs.Postorder.{judged_by_all, listed_closures, arguments_of};

use action_terms::{Graph, YielderView};
use std::alloc::{AllocError, Global};

/// The yielder of this number and those in it: each before its arguments, the second argument
/// before the first.
pub fn listed<'a>(
    alloc: Global,
    graph: &Graph<'a>,
    number: u32,
) -> Result<Vec<YielderView<'a>>, AllocError>
    requires { IsDatum graph.now.yielders number }
    ensures judged { IfOk result (λ views. (c : ℕ → Part) → (g : Part) → (h : Part)
        → judged_by_all c g h views.items ≡ judgement c g h (yielder_at graph.now.yielders number)
        ∷ []) }
    ensures closures { IfOk result (λ views. listed_closures views.items
        ≡ reverse (closures_in (yielder_at graph.now.yielders number))) }
    ensures count { IfOk result (λ views. length views.items
        ≡ yielder_count (yielder_at graph.now.yielders number)) }
{
    let mut left = Vec::new(alloc);
    let mut views = Vec::new(alloc);
    left.push(number)?;
    while let Some(next) = left.pop() {
        let view = graph.yielder_view(next as usize);
        push_arguments(&mut left, view)?;
        views.push(view)?;
    }
    Ok(views)
}

// puts the arguments of a yielder on a stack, the second one last
fn push_arguments(left: &mut Vec<u32>, view: YielderView<'_>) -> Result<(), AllocError>
    ensures { OnOk result (left.new.items ≡ left.old.items ++ arguments_of view.entry) }
{
    match view {
        YielderView::StoredIn { cell, .. } => left.push(cell)?,
        YielderView::OnTwo { first, second, .. } => {
            left.push(first)?;
            left.push(second)?;
        }
        YielderView::OnOne { argument, .. } => left.push(argument)?,
        _ => {}
    }
    Ok(())
}
