//! Yielders with arguments, evaluated without recursion.
ghost use Rattle.std.specs.Prelude.{◌≡◌, ◌∷◌, ◌++◌, ◌+◌, ◌<◌, IsTrue, length, Some, None, true, IfOk, OnOk, option_map, slice_get, if◌then◌else◌};
ghost use Rattle.action_terms.specs.Forms.{IsYielderView};
ghost use Rattle.action_terms.specs.Yielding.{and_then, set_content, stored};
ghost use Rattle.action_values.specs.Values.{meant, storage_of};
ghost use Rattle.action_values.specs.Evaluation.{value_meant, is_operation, stored_value, one_value, two_value, opened, jobs_of, values_of, finished, turns, job_turns, value_at};

use crate::context::{Context, ItemValue, single_value};
use crate::datum::Datum;
use crate::leaves::leaf_value;
use crate::operations::{of_sort, on_one, on_two};
use action_terms::{One, Sort, Two, YielderView};
use std::alloc::{AllocError, Global};

/// What is still to be done.
#[derive(Clone, Copy)]
enum Job {
    // evaluates the yielder of this number
    Visit(u32),
    // takes what a cell holds, if it is of the sort
    Stored(Sort),
    // applies an operation on one value, or on two
    One(One),
    Two(Two),
}

/// A walk over a yielder and its arguments.
#[derive(Drop)]
struct Walk<'a> {
    // the next one is last
    jobs: Vec<Job>,
    // the values of arguments; nothing where a part yields nothing
    values: Vec<Option<Datum<'a>>>,
}

// what the cell of this number holds, where it is set
#[tactic(auto, using(crate::proofs::DataLists::data_lists))]
fn content<'a>(cells: &[Option<Datum<'a>>], number: usize) -> Option<Datum<'a>>
    ensures { option_map meant result ≡ set_content (slice_get (storage_of cells.now) number) }
{
    if number < cells.len() {
        cells[number]
    } else {
        None
    }
}

// what is stored in the cell that the datum is
fn stored<'a>(cells: &[Option<Datum<'a>>], datum: Datum<'a>) -> Option<Datum<'a>>
    ensures { option_map meant result ≡ stored (storage_of cells.now) (meant datum.entry) }
{
    match datum {
        Datum::Cell(number) => content(cells, number),
        _ => None,
    }
}

fn stored_value<'a>(
    sort: Sort,
    cells: &[Option<Datum<'a>>],
    value: Option<Datum<'a>>,
) -> Option<Datum<'a>>
    ensures { option_map meant result
        ≡ stored_value sort (storage_of cells.now) (option_map meant value.entry) }
{
    of_sort(sort, stored(cells, value?)?)
}

fn one_value<'a>(operation: One, value: Option<Datum<'a>>) -> Option<Datum<'a>>
    ensures { option_map meant result ≡ one_value operation (option_map meant value.entry) }
{
    on_one(operation, value?)
}

fn two_value<'a>(
    operation: Two,
    first: Option<Datum<'a>>,
    second: Option<Datum<'a>>,
) -> Option<Datum<'a>>
    ensures { option_map meant result
        ≡ two_value operation (option_map meant first.entry) (option_map meant second.entry) }
{
    on_two(operation, first?, second?)
}

impl<'a> Walk<'a> {
    // puts off an operation until its arguments are evaluated
    #[tactic(auto, using(crate::proofs::Stacks::stacks))]
    fn open(&mut self, view: YielderView<'_>) -> Result<(), AllocError>
        ensures jobs { OnOk result (jobs_of self.new ≡ opened view.entry ++ jobs_of self.old) }
        ensures values { OnOk result (values_of self.new ≡ values_of self.old) }
    {
        match view {
            YielderView::StoredIn { sort, cell } => {
                self.jobs.push(Job::Stored(sort))?;
                self.jobs.push(Job::Visit(cell))?;
            }
            YielderView::OnOne {
                operation,
                argument,
            } => {
                self.jobs.push(Job::One(operation))?;
                self.jobs.push(Job::Visit(argument))?;
            }
            YielderView::OnTwo {
                operation,
                first,
                second,
            } => {
                self.jobs.push(Job::Two(operation))?;
                self.jobs.push(Job::Visit(second))?;
                self.jobs.push(Job::Visit(first))?;
            }
            _ => {}
        }
        Ok(())
    }

    // keeps a value. It answers whether it is one of a yielder
    #[tactic(auto, using(crate::proofs::Stacks::stacks))]
    fn keep(&mut self, value: ItemValue<'a>) -> Result<bool, AllocError>
        ensures values { IfOk result (λ going. (if going then Some (values_of self.new) else None)
            ≡ option_map (λ v. v ∷ values_of self.old) (value_meant value.entry)) }
        ensures jobs { self.new.jobs.items ≡ self.old.jobs.items }
    {
        match value {
            ItemValue::Datum(datum) => self.values.push(Some(datum))?,
            ItemValue::Nothing => self.values.push(None)?,
            ItemValue::Them => return Ok(false),
        }
        Ok(true)
    }

    // looks at a yielder: its value is known, or those of its arguments come first. It answers
    // whether it is one
    fn visit(&mut self, context: &Context<'a, '_>, number: u32) -> Result<bool, AllocError>
        ensures value { IfOk result (λ going.
            (if going then finished context.now (jobs_of self.new) (values_of self.new) else None)
            ≡ finished context.now (Job.Visit number ∷ jobs_of self.old) (values_of self.old)) }
        ensures turns { IfOk result (λ going. IsTrue going → turns context.now self.new
            < job_turns (length context.now.graph.now.yielders) (Job.Visit number)
            + turns context.now self.old) }
    {
        let place = number as usize;
        if place >= context.graph.yielder_count() {
            return Ok(false);
        }
        let view = context.graph.yielder_view(place);
        let Some(value) = leaf_value(context, view) else {
            self.open(view)?;
            return Ok(true);
        };
        self.keep(value)
    }

    // takes what a cell holds
    fn apply_stored(&mut self, context: &Context<'a, '_>, sort: Sort) -> Result<bool, AllocError>
        ensures value { IfOk result (λ going.
            (if going then finished context.now (jobs_of self.new) (values_of self.new) else None)
            ≡ finished context.now (Job.Stored sort ∷ jobs_of self.old) (values_of self.old)) }
        ensures jobs { self.new.jobs.items ≡ self.old.jobs.items }
    {
        let Some(value) = self.values.pop() else {
            return Ok(false);
        };
        self.values.push(stored_value(sort, context.cells, value))?;
        Ok(true)
    }

    // applies an operation on one value
    fn apply_one(&mut self, context: &Context<'a, '_>, operation: One) -> Result<bool, AllocError>
        ensures value { IfOk result (λ going.
            (if going then finished context.now (jobs_of self.new) (values_of self.new) else None)
            ≡ finished context.now (Job.One operation ∷ jobs_of self.old) (values_of self.old)) }
        ensures jobs { self.new.jobs.items ≡ self.old.jobs.items }
    {
        let Some(value) = self.values.pop() else {
            return Ok(false);
        };
        self.values.push(one_value(operation, value))?;
        Ok(true)
    }

    // applies an operation on two values
    fn apply_two(&mut self, context: &Context<'a, '_>, operation: Two) -> Result<bool, AllocError>
        ensures value { IfOk result (λ going.
            (if going then finished context.now (jobs_of self.new) (values_of self.new) else None)
            ≡ finished context.now (Job.Two operation ∷ jobs_of self.old) (values_of self.old)) }
        ensures jobs { self.new.jobs.items ≡ self.old.jobs.items }
    {
        let Some(second) = self.values.pop() else {
            return Ok(false);
        };
        let Some(first) = self.values.pop() else {
            return Ok(false);
        };
        self.values.push(two_value(operation, first, second))?;
        Ok(true)
    }

    // does a job. It answers whether the yielder may still be one
    fn step(&mut self, context: &Context<'a, '_>, job: Job) -> Result<bool, AllocError>
        ensures value { IfOk result (λ going.
            (if going then finished context.now (jobs_of self.new) (values_of self.new) else None)
            ≡ finished context.now (job ∷ jobs_of self.old) (values_of self.old)) }
        ensures turns { IfOk result (λ going. IsTrue going → turns context.now self.new
            < job_turns (length context.now.graph.now.yielders) job + turns context.now self.old) }
    {
        match job {
            Job::Visit(number) => self.visit(context, number),
            Job::Stored(sort) => self.apply_stored(context, sort),
            Job::One(operation) => self.apply_one(context, operation),
            Job::Two(operation) => self.apply_two(context, operation),
        }
    }
}

// the value of the yielder of this view, which is an operation
fn operation_value<'a>(
    alloc: Global,
    context: &Context<'a, '_>,
    number: u32,
    view: YielderView<'a>,
) -> Result<ItemValue<'a>, AllocError>
    requires viewed { IsYielderView context.now.graph.now number view }
    requires operation { is_operation view ≡ true }
    ensures { IfOk result (λ value. value_meant value ≡ value_at context.now number) }
{
    let mut walk = Walk {
        jobs: Vec::new(alloc),
        values: Vec::new(alloc),
    };
    walk.open(view)?;
    while let Some(job) = walk.jobs.pop() {
        if !walk.step(context, job)? {
            return Ok(ItemValue::Them);
        }
    }
    match walk.values.pop() {
        Some(value) => Ok(single_value(value)),
        None => Ok(ItemValue::Them),
    }
}

/// The value of the item of this number. A number of no yielder is `them`.
pub fn evaluate<'a>(
    alloc: Global,
    context: &Context<'a, '_>,
    number: u32,
) -> Result<ItemValue<'a>, AllocError>
    ensures { IfOk result (λ value. value_meant value ≡ value_at context.now number) }
{
    let place = number as usize;
    if place >= context.graph.yielder_count() {
        return Ok(ItemValue::Them);
    }
    // most yielders have no arguments, and need no stacks
    let view = context.graph.yielder_view(place);
    match leaf_value(context, view) {
        Some(value) => Ok(value),
        None => operation_value(alloc, context, number, view),
    }
}
