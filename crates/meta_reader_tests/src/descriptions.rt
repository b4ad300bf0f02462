//! Descriptions and their items.
ghost use Rattle.std.specs.Prelude.{◌<◌, length};

use bumpalo::Bump;
use meta_lex::lex::{LexError, tokens};
use meta_reader::reader::{ReadError, read};
use meta_terms::{Item, Items};
use std::alloc::Global;
use std::test::Fail;

// The description that the expressions of sums have, with a line feed at its end.
const SUMS: [u8; 342] = *b"grammar
  P = [[ E ]] .
  E = [[ E \"+\" E ]] | [[ numeral ]] .
semantics
  run _ : P .
  evaluate _ : E .
  run [[ X:E ]] = evaluate X then send the given integer .
  evaluate [[ X:E \"+\" Y:E ]] = (evaluate X and evaluate Y) then
    give sum(the given integer # 1, the given integer # 2) .
  evaluate [[ N:numeral ]] = give value of N .
end .
";

// What a text is.
#[derive(Clone, Copy, Debug, PartialEq, Eq)]
enum Answer {
    // No memory was left.
    Memory,
    // No token begins at the byte.
    Byte(u32),
    // The run is none of a description.
    Run(u32),
    // A description with so many items.
    Items(usize),
}

fn answer_to(alloc: Global, text: &[u8]) -> Answer
    requires { length text.now < 4294967295 }
{
    let arena = Bump::new(alloc);
    let list = match tokens(alloc, &arena, text) {
        Ok(list) => list,
        Err(LexError::BadByte { offset }) => return Answer::Byte(offset),
        Err(LexError::Memory) => return Answer::Memory,
    };
    if list.list.len() > 1000 {
        return Answer::Memory;
    }
    match read(alloc, &arena, &list) {
        Ok(items) => Answer::Items(items.list.len()),
        Err(ReadError::BadItem { index }) => Answer::Run(index),
        Err(ReadError::Memory) => Answer::Memory,
    }
}

#[test]
fn reads_a_description(rt: HostRuntime) {
    assert_eq!(rt; answer_to(rt.alloc(), &SUMS), Answer::Items(7));
}

#[test]
fn refuses_what_is_cut_off(rt: HostRuntime) {
    let alloc = rt.alloc();
    let (whole, _) = SUMS.split_at(341);
    assert_eq!(rt; answer_to(alloc, whole), Answer::Items(7));
    for end in 0..341 {
        let (front, _) = SUMS.split_at(end);
        let refused = matches!(answer_to(alloc, front), Answer::Byte(_) | Answer::Run(_));
        assert!(rt; refused);
    }
}

#[test]
fn names_the_first_bad_run(rt: HostRuntime) {
    let alloc = rt.alloc();
    let (unfinished, _) = SUMS.split_at(340);
    assert_eq!(rt; answer_to(alloc, unfinished), Answer::Run(7));
    assert_eq!(rt; answer_to(alloc, b""), Answer::Run(0));
    assert_eq!(rt; answer_to(alloc, b"end ."), Answer::Run(0));
    assert_eq!(rt; answer_to(alloc, b"grammar P = [[ ]] ."), Answer::Run(1));
    assert_eq!(rt;
        answer_to(alloc, b"grammar P = [[ ]] . end ."),
        Answer::Run(1)
    );
    assert_eq!(rt;
        answer_to(
            alloc,
            b"grammar P = [[ ]] . semantics f _ : P . end . end ."
        ),
        Answer::Run(3)
    );
    assert_eq!(rt;
        answer_to(alloc, b"grammar P = [[ ]] . semantics give _ : P . end ."),
        Answer::Run(1)
    );
    assert_eq!(rt;
        answer_to(alloc, b"grammar P = [[ p ]] . semantics f _ : P . end ."),
        Answer::Run(0)
    );
    assert_eq!(rt;
        answer_to(
            alloc,
            b"grammar P = [[ ]] . semantics f [[ E ]] = fail . end ."
        ),
        Answer::Run(1)
    );
    assert_eq!(rt;
        answer_to(alloc, b"grammar P = [[ ]] . semantics f [[ ]] = f . end ."),
        Answer::Run(1)
    );
}

#[test]
fn names_the_first_bad_byte(rt: HostRuntime) {
    assert_eq!(rt;
        answer_to(rt.alloc(), b"?grammar P = [[ ]] ."),
        Answer::Byte(0)
    );
}

// The name in an item.
fn name_of<'a>(item: &Item<'a>) -> &'a [u8] {
    match *item {
        Item::Production(production) => production.name,
        Item::Declaration(declaration) => declaration.function,
        Item::Equation(equation) => equation.function,
    }
}

// Reads the items of a text with tokens.
fn items<'a>(alloc: Global, arena: &'a Bump, text: &[u8]) -> Result<Items<'a>, ReadError>
    requires { length text.now < 4294967295 }
{
    match tokens(alloc, arena, text) {
        Ok(list) => {
            if list.list.len() < 1000 {
                read(alloc, arena, &list)
            } else {
                Err(ReadError::Memory)
            }
        }
        Err(_) => Err(ReadError::Memory),
    }
}

#[test]
fn keeps_items_in_order(rt: HostRuntime) -> Result<(), Fail> {
    let alloc = rt.alloc();
    let arena = Bump::new(alloc);
    let read = items(alloc, &arena, &SUMS)?;
    let list = read.list;
    assert_eq!(rt; list.len(), 7);
    assert_eq!(rt; name_of(&list[0]), b"P".as_slice());
    assert_eq!(rt; name_of(&list[1]), b"E".as_slice());
    assert_eq!(rt; name_of(&list[2]), b"run".as_slice());
    assert_eq!(rt; name_of(&list[5]), b"evaluate".as_slice());
    Ok(())
}
