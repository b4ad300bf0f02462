//! A table of one row.
use sort_rules::sets::atoms;
use sort_rules::{BindSort, Row, Table, TupleSort};
use std::test::Fail;

#[test]
fn a_table_keeps_its_rows(rt: HostRuntime) -> Result<(), Fail> {
    let places = [atoms(true, false)];
    let row = Row {
        g: TupleSort::List(&[]),
        h: BindSort::Map(&[]),
        o: TupleSort::List(&places),
        p: BindSort::Map(&[]),
        e: TupleSort::Unreached,
    };
    let rows = [row];
    let contents = [atoms(false, false)];
    let table = Table::make(&rows, &contents);
    assert_eq!(rt; table.row(0), row);
    assert_eq!(rt; table.contents(0), atoms(false, false));
    assert_eq!(rt; table.width(), 1);
    Ok(())
}
