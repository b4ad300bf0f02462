//! The one tree of small sources, where there is one.
use crate::sources::{Picked, answer, below, is_ambiguous, is_node, is_none, is_tree, is_word};
use bumpalo::Bump;
use gram_form::{Part, Production};
use std::test::Fail;

#[test]
fn sums_of_two_have_a_tree_and_of_three_two(rt: HostRuntime) -> Result<(), Fail> {
    let alloc = rt.alloc();
    let arena = Bump::new(alloc);
    let list = [
        Production {
            name: b"P",
            alternatives: &[&[Part::Nonterm(b"E")]],
        },
        Production {
            name: b"E",
            alternatives: &[
                &[
                    Part::Nonterm(b"E"),
                    Part::Literal(b"+"),
                    Part::Nonterm(b"E"),
                ],
                &[Part::Numeral],
            ],
        },
    ];
    let sum = answer(alloc, &arena, &list, b"1+2")?;
    assert!(rt; is_tree(&sum, 0, 0, 3));
    let Picked::One(tree) = sum else {
        return Err("no tree")?;
    };
    let Some(sum) = below(&tree, 0) else {
        return Err("no phrase")?;
    };
    assert!(rt; is_node(sum, 1, 0, 0, 3));
    assert_eq!(rt; sum.parts.len(), 3);
    assert!(rt; is_word(sum, 1, 1));
    let Some(last) = below(sum, 2) else {
        return Err("no second summand")?;
    };
    assert!(rt; is_node(last, 1, 1, 2, 3));
    assert!(rt; is_word(last, 0, 2));
    assert!(rt; is_ambiguous(&answer(alloc, &arena, &list, b"1+2+3")?));
    assert!(rt; is_none(&answer(alloc, &arena, &list, b"")?));
    assert!(rt; is_none(&answer(alloc, &arena, &list, b"1+")?));
    Ok(())
}

#[test]
fn a_phrase_of_itself_has_ever_more_trees(rt: HostRuntime) -> Result<(), Fail> {
    let alloc = rt.alloc();
    let arena = Bump::new(alloc);
    let list = [Production {
        name: b"E",
        alternatives: &[&[Part::Nonterm(b"E")], &[Part::Numeral]],
    }];
    assert!(rt; is_ambiguous(&answer(alloc, &arena, &list, b"1")?));
    assert!(rt; is_none(&answer(alloc, &arena, &list, b"1 1")?));
    Ok(())
}

#[test]
fn lists_on_the_left_may_be_empty(rt: HostRuntime) -> Result<(), Fail> {
    let alloc = rt.alloc();
    let arena = Bump::new(alloc);
    let list = [Production {
        name: b"L",
        alternatives: &[&[], &[Part::Nonterm(b"L"), Part::Literal(b"x")]],
    }];
    assert!(rt; is_tree(&answer(alloc, &arena, &list, b"")?, 0, 0, 0));
    let two = answer(alloc, &arena, &list, b"x x")?;
    assert!(rt; is_tree(&two, 0, 1, 2));
    let Picked::One(tree) = two else {
        return Err("no tree")?;
    };
    assert!(rt; is_word(&tree, 1, 1));
    let Some(one) = below(&tree, 0) else {
        return Err("no list of one")?;
    };
    assert!(rt; is_node(one, 0, 1, 0, 1));
    Ok(())
}

#[test]
fn lists_on_the_right_end_with_the_source(rt: HostRuntime) -> Result<(), Fail> {
    let alloc = rt.alloc();
    let arena = Bump::new(alloc);
    let list = [Production {
        name: b"L",
        alternatives: &[&[], &[Part::Literal(b"x"), Part::Nonterm(b"L")]],
    }];
    let six = answer(alloc, &arena, &list, b"xxxxxx")?;
    assert!(rt; is_none(&six));
    let six = answer(alloc, &arena, &list, b"x x x x x x")?;
    assert!(rt; is_tree(&six, 0, 1, 6));
    let Picked::One(tree) = six else {
        return Err("no tree")?;
    };
    let Some(five) = below(&tree, 1) else {
        return Err("no rest")?;
    };
    assert!(rt; is_node(five, 0, 1, 1, 6));
    Ok(())
}

#[test]
fn lists_of_lists_are_ambiguous(rt: HostRuntime) -> Result<(), Fail> {
    let alloc = rt.alloc();
    let arena = Bump::new(alloc);
    let list = [Production {
        name: b"L",
        alternatives: &[&[], &[Part::Nonterm(b"L"), Part::Nonterm(b"L")]],
    }];
    assert!(rt; is_ambiguous(&answer(alloc, &arena, &list, b"")?));
    Ok(())
}

#[test]
fn two_alternatives_with_one_text_are_two_trees(rt: HostRuntime) -> Result<(), Fail> {
    let alloc = rt.alloc();
    let arena = Bump::new(alloc);
    let list = [Production {
        name: b"S",
        alternatives: &[
            &[Part::Literal(b"x")],
            &[Part::Literal(b"y")],
            &[Part::Literal(b"x")],
        ],
    }];
    assert!(rt; is_ambiguous(&answer(alloc, &arena, &list, b"x")?));
    assert!(rt; is_tree(&answer(alloc, &arena, &list, b"y")?, 0, 1, 1));
    Ok(())
}

#[test]
fn a_phrase_may_stand_before_one_that_needs_it(rt: HostRuntime) -> Result<(), Fail> {
    let alloc = rt.alloc();
    let arena = Bump::new(alloc);
    let list = [
        Production {
            name: b"S",
            alternatives: &[&[
                Part::Nonterm(b"E"),
                Part::Nonterm(b"A"),
                Part::Nonterm(b"B"),
            ]],
        },
        Production {
            name: b"E",
            alternatives: &[&[]],
        },
        Production {
            name: b"A",
            alternatives: &[&[]],
        },
        Production {
            name: b"B",
            alternatives: &[&[Part::Nonterm(b"F"), Part::Nonterm(b"A")]],
        },
        Production {
            name: b"F",
            alternatives: &[&[]],
        },
    ];
    let nothing = answer(alloc, &arena, &list, b"")?;
    assert!(rt; is_tree(&nothing, 0, 0, 0));
    let Picked::One(tree) = nothing else {
        return Err("no tree")?;
    };
    let Some(last) = below(&tree, 2) else {
        return Err("no last phrase")?;
    };
    assert!(rt; is_node(last, 3, 0, 0, 0));
    assert_eq!(rt; last.parts.len(), 2);
    Ok(())
}

#[test]
fn four_hundred_levels_have_a_tree(rt: HostRuntime) -> Result<(), Fail> {
    let alloc = rt.alloc();
    let arena = Bump::new(alloc);
    let list = [Production {
        name: b"E",
        alternatives: &[
            &[
                Part::Literal(b"("),
                Part::Nonterm(b"E"),
                Part::Literal(b")"),
            ],
            &[Part::Numeral],
        ],
    }];
    let mut source = [b'('; 801];
    source[400] = b'1';
    for k in 401..801 {
        source[k] = b')';
    }
    assert!(rt; is_tree(&answer(alloc, &arena, &list, &source)?, 0, 0, 801));
    let opened = [b'('; 800];
    assert!(rt; is_none(&answer(alloc, &arena, &list, &opened)?));
    Ok(())
}
