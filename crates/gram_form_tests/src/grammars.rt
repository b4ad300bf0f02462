//! Productions and their grammars.
use bumpalo::Bump;
use gram_form::{GramError, Grammar, Part, Production};
use std::test::Fail;

#[test]
fn numbers_literals_in_the_order_of_first_places(rt: HostRuntime) -> Result<(), Fail> {
    let alloc = rt.alloc();
    let arena = Bump::new(alloc);
    let parts = [
        Part::Nonterm(b"E"),
        Part::Literal(b"+"),
        Part::Nonterm(b"E"),
        Part::Literal(b"("),
        Part::Literal(b"+"),
    ];
    let list = [Production {
        name: b"E",
        alternatives: &[&parts, &[Part::Numeral]],
    }];
    let grammar = Grammar::build(alloc, &arena, &list)?;
    assert_eq!(rt; grammar.productions.len(), 1);
    let literals = grammar.literals;
    assert_eq!(rt; literals.len(), 2);
    assert!(rt; literals[0] == b"+".as_slice() && literals[1] == b"(".as_slice());
    Ok(())
}

#[test]
fn names_the_first_undefined_part(rt: HostRuntime) {
    let alloc = rt.alloc();
    let arena = Bump::new(alloc);
    let list = [Production {
        name: b"P",
        alternatives: &[&[Part::Identifier], &[Part::Numeral, Part::Nonterm(b"Q")]],
    }];
    let answer = Grammar::build(alloc, &arena, &list);
    let first = matches!(
        answer,
        Err(GramError::Undefined {
            production: 0,
            alternative: 1,
            part: 1
        })
    );
    assert!(rt; first);
}

// The sums of expressions, where a summand has a name without a production.
#[test]
fn names_an_undefined_summand(rt: HostRuntime) {
    let alloc = rt.alloc();
    let arena = Bump::new(alloc);
    let list = [
        Production {
            name: b"P",
            alternatives: &[&[Part::Nonterm(b"E")]],
        },
        Production {
            name: b"E",
            alternatives: &[
                &[
                    Part::Nonterm(b"E"),
                    Part::Literal(b"+"),
                    Part::Nonterm(b"F"),
                ],
                &[Part::Numeral],
            ],
        },
    ];
    let answer = Grammar::build(alloc, &arena, &list);
    let summand = matches!(
        answer,
        Err(GramError::Undefined {
            production: 1,
            alternative: 0,
            part: 2
        })
    );
    assert!(rt; summand);
}

#[test]
fn refuses_no_productions(rt: HostRuntime) {
    let alloc = rt.alloc();
    let arena = Bump::new(alloc);
    let answer = Grammar::build(alloc, &arena, &[]);
    assert!(rt; matches!(answer, Err(GramError::Empty)));
}
