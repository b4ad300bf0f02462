//! Looking up rows of the table.
ghost use Rattle.std.specs.Prelude.{◌≡◌, ◌++◌, reverse, OnOk, MatchOption, map};
ghost use Rattle.action_text.specs.Numbers.{class_number, name_number};
ghost use Rattle.action_text.specs.Tables.{line_of, other_of, numbered};
ghost use Rattle.action_text.specs.ActionTable.{template_lines, action_others};
ghost use Rattle.action_text.specs.Rows.{line_at, other_at, found_line, found_other, HasLineAt, HasNoLineAt};

use crate::classes::Class;
use crate::names::Name;
use crate::table::{OTHER_ROWS, OtherRow, ROWS, Row, Symbol};
use std::alloc::AllocError;

// The row of the name for a token of the class, among these rows.
fn find_row_in(rows: &[Row], name: Name, class: Class) -> Option<Row>
    ensures { found_line result
        ≡ line_of (map line_at rows.now) (name_number name) (class_number class) }
{
    for row in rows {
        if row.name.is(name) && row.class.is(class) {
            return Some(*row);
        }
    }
    None
}

// The row of what else the name may be, among these rows.
fn find_other_in(rows: &[OtherRow], name: Name) -> Option<OtherRow>
    ensures { found_other result ≡ other_of (map other_at rows.now) (name_number name) }
{
    for row in rows {
        if row.name.is(name) {
            return Some(*row);
        }
    }
    None
}

/// The row of the name for a token of the class.
pub fn find_row(name: Name, class: Class) -> Option<Row>
    ensures { found_line result ≡ line_of template_lines (name_number name) (class_number class) }
{
    find_row_in(&ROWS, name, class)
}

/// The row of what else the name may be.
pub fn find_other(name: Name) -> Option<OtherRow>
    ensures { found_other result ≡ other_of action_others (name_number name) }
{
    find_other_in(&OTHER_ROWS, name)
}

/// The row of the name for the class at the place.
pub fn row_at(classes: &[Class], at: usize, name: Name) -> Option<Row>
    ensures { MatchOption result
        (HasNoLineAt (map class_number classes.now) at (name_number name))
        (λ r. HasLineAt (map class_number classes.now) at (name_number name) r) }
{
    if at < classes.len() {
        find_row(name, classes[at])
    } else {
        None
    }
}

/// Puts the symbols on the stack, the first on top.
pub fn push_reversed(stack: &mut Vec<Symbol>, right: &[Symbol]) -> Result<(), AllocError>
    ensures { OnOk result (map numbered stack.new.items
        ≡ map numbered stack.old.items ++ reverse (map numbered right.now)) }
{
    let mut left = right.len();
    while left > 0 {
        left -= 1;
        stack.push(right[left])?;
    }
    Ok(())
}
