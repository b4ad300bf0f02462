//! The operations of yielders on data. Integers are of 64 bits, signed.
ghost use Rattle.std.specs.Prelude.{◌≡◌, ◌+ℤ◌, ◌-ℤ◌, ◌*ℤ◌, neg_ℤ, int_rem, int_div, option_map};
ghost use Rattle.action_terms.specs.Information.{Number, Truth, CellOf};
ghost use Rattle.action_terms.specs.Yielding.{within_64, divided, of_sort, on_two, on_one};
ghost use Rattle.action_terms.specs.Forms.{two_viewed, one_viewed};
ghost use Rattle.action_values.specs.Values.{meant};

use crate::datum::Datum;
use action_terms::{One, Sort, Two};

/// The datum, where it is of the sort.
pub fn of_sort<'a>(sort: Sort, datum: Datum<'a>) -> Option<Datum<'a>>
    ensures { option_map meant result ≡ of_sort sort (meant datum.entry) }
{
    match (sort, datum) {
        (Sort::Integer, Datum::Number(_))
        | (Sort::Truth, Datum::Truth(_))
        | (Sort::Cell, Datum::Cell(_))
        | (Sort::Abstraction, Datum::Closure { .. }) => Some(datum),
        _ => None,
    }
}

fn sum(x: i64, y: i64) -> Option<i64>
    ensures { option_map Number result ≡ within_64 (x +ℤ y) }
{
    x.checked_add(y)
}

fn difference(x: i64, y: i64) -> Option<i64>
    ensures { option_map Number result ≡ within_64 (x -ℤ y) }
{
    x.checked_sub(y)
}

fn product(x: i64, y: i64) -> Option<i64>
    ensures { option_map Number result ≡ within_64 (x *ℤ y) }
{
    x.checked_mul(y)
}

// cut toward 0
fn quotient(x: i64, y: i64) -> Option<i64>
    ensures { option_map Number result ≡ divided int_div x y }
{
    x.checked_div(y)
}

// with the sign of x; that of the least integer by -1 is 0, though its quotient is too large
fn remainder(x: i64, y: i64) -> Option<i64>
    ensures { option_map Number result ≡ divided int_rem x y }
{
    if y == 0 {
        None
    } else {
        Some(x.wrapping_rem(y))
    }
}

fn negation(x: i64) -> Option<i64>
    ensures { option_map Number result ≡ within_64 (neg_ℤ x) }
{
    x.checked_neg()
}

fn number<'a>(value: Option<i64>) -> Option<Datum<'a>>
    ensures { option_map meant result ≡ option_map Number value }
{
    match value {
        Some(value) => Some(Datum::Number(value)),
        None => None,
    }
}

fn on_numbers<'a>(operation: Two, x: i64, y: i64) -> Option<Datum<'a>>
    ensures { option_map meant result ≡ on_two (two_viewed operation) (Number x) (Number y) }
{
    match operation {
        Two::Sum => number(sum(x, y)),
        Two::Difference => number(difference(x, y)),
        Two::Product => number(product(x, y)),
        Two::Quotient => number(quotient(x, y)),
        Two::Remainder => number(remainder(x, y)),
        Two::Is => Some(Datum::Truth(x == y)),
        Two::Less => Some(Datum::Truth(x < y)),
        _ => None,
    }
}

fn on_truths<'a>(operation: Two, x: bool, y: bool) -> Option<Datum<'a>>
    ensures { option_map meant result ≡ on_two (two_viewed operation) (Truth x) (Truth y) }
{
    match operation {
        Two::Is => Some(Datum::Truth(x == y)),
        Two::BothOf => Some(Datum::Truth(x && y)),
        Two::EitherOf => Some(Datum::Truth(x || y)),
        _ => None,
    }
}

fn on_cells<'a>(operation: Two, x: usize, y: usize) -> Option<Datum<'a>>
    ensures { option_map meant result ≡ on_two (two_viewed operation) (CellOf x) (CellOf y) }
{
    match operation {
        Two::Is => Some(Datum::Truth(x == y)),
        _ => None,
    }
}

/// What an operation on two data gives.
pub fn on_two<'a>(operation: Two, first: Datum<'a>, second: Datum<'a>) -> Option<Datum<'a>>
    ensures { option_map meant result ≡ on_two (two_viewed operation) (meant first.entry) (meant second.entry) }
{
    match (first, second) {
        (Datum::Number(x), Datum::Number(y)) => on_numbers(operation, x, y),
        (Datum::Truth(x), Datum::Truth(y)) => on_truths(operation, x, y),
        (Datum::Cell(x), Datum::Cell(y)) => on_cells(operation, x, y),
        _ => None,
    }
}

/// What an operation on one datum gives.
pub fn on_one<'a>(operation: One, datum: Datum<'a>) -> Option<Datum<'a>>
    ensures { option_map meant result ≡ on_one (one_viewed operation) (meant datum.entry) }
{
    match (operation, datum) {
        (One::Negation, Datum::Number(x)) => number(negation(x)),
        (One::Not, Datum::Truth(x)) => Some(Datum::Truth(!x)),
        _ => None,
    }
}

#[cfg(test)]
mod tests {
    use super::*;

    #[test]
    fn integers_have_64_bits(rt: HostRuntime) {
        assert_eq!(rt; sum(i64::MAX, 1), None);
        assert_eq!(rt; difference(i64::MIN, 1), None);
        assert_eq!(rt; product(i64::MAX, -1), Some(-i64::MAX));
        assert_eq!(rt; product(i64::MIN, -1), None);
        assert_eq!(rt; negation(i64::MIN), None);
    }

    #[test]
    fn quotients_are_cut_toward_zero(rt: HostRuntime) {
        assert_eq!(rt; quotient(-7, 2), Some(-3));
        assert_eq!(rt; remainder(-7, 2), Some(-1));
        assert_eq!(rt; remainder(7, -2), Some(1));
        assert_eq!(rt; quotient(7, 0), None);
        assert_eq!(rt; remainder(7, 0), None);
        assert_eq!(rt; quotient(i64::MIN, -1), None);
        assert_eq!(rt; remainder(i64::MIN, -1), Some(0));
    }
}
