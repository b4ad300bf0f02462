//! Spans of small sources.
use acg_base::Memory;
use bumpalo::Bump;
use chart_parse::Chart;
use chart_parse::filling::chart;
use gram_form::{Grammar, Part, Production};
use source_lex::scan;
use std::alloc::Global;
use std::test::Fail;

// The chart of a source, by a grammar of fewer than 100 productions and literals.
fn charted<'a>(
    alloc: Global,
    arena: &'a Bump,
    grammar: &Grammar<'_>,
    source: &[u8],
) -> Result<Chart<'a>, Fail> {
    if grammar.literals.len() >= 100 || grammar.productions.len() >= 100 || source.len() >= 10000 {
        return Err(Memory)?;
    }
    let lexemes = scan(alloc, arena, grammar, source)?;
    Ok(chart(alloc, arena, grammar, &lexemes)?)
}

// Whether the chart has the nonterminal over a span, which is to lie within its lexemes.
fn spans(chart: &Chart<'_>, nonterminal: u32, i: u32, j: u32) -> bool {
    i <= chart.count() && j <= chart.count() && chart.has(nonterminal, i, j)
}

#[test]
fn sums_have_every_span(rt: HostRuntime) -> Result<(), Fail> {
    let alloc = rt.alloc();
    let arena = Bump::new(alloc);
    let list = [Production {
        name: b"E",
        alternatives: &[
            &[
                Part::Nonterm(b"E"),
                Part::Literal(b"+"),
                Part::Nonterm(b"E"),
            ],
            &[Part::Numeral],
        ],
    }];
    let grammar = Grammar::build(alloc, &arena, &list)?;
    let sum = charted(alloc, &arena, &grammar, b"1+2+3")?;
    assert_eq!(rt; sum.count(), 5);
    assert!(rt; spans(&sum, 0, 0, 1));
    assert!(rt; spans(&sum, 0, 0, 3));
    assert!(rt; spans(&sum, 0, 0, 5));
    assert!(rt; spans(&sum, 0, 2, 5));
    assert!(rt; !spans(&sum, 0, 0, 2));
    assert!(rt; !spans(&sum, 0, 1, 3));
    assert!(rt; !spans(&sum, 0, 0, 0));
    let nothing = charted(alloc, &arena, &grammar, b"")?;
    assert!(rt; !spans(&nothing, 0, 0, 0));
    Ok(())
}

#[test]
fn lists_may_be_empty(rt: HostRuntime) -> Result<(), Fail> {
    let alloc = rt.alloc();
    let arena = Bump::new(alloc);
    let list = [Production {
        name: b"L",
        alternatives: &[&[], &[Part::Nonterm(b"L"), Part::Literal(b"x")]],
    }];
    let grammar = Grammar::build(alloc, &arena, &list)?;
    let none = charted(alloc, &arena, &grammar, b"")?;
    assert!(rt; spans(&none, 0, 0, 0));
    let two = charted(alloc, &arena, &grammar, b"x x")?;
    assert!(rt; spans(&two, 0, 0, 2));
    assert!(rt; spans(&two, 0, 1, 2));
    assert!(rt; spans(&two, 0, 1, 1));
    assert!(rt; spans(&two, 0, 2, 2));
    Ok(())
}

#[test]
fn an_empty_phrase_may_stand_in_its_own_span(rt: HostRuntime) -> Result<(), Fail> {
    let alloc = rt.alloc();
    let arena = Bump::new(alloc);
    let list = [Production {
        name: b"L",
        alternatives: &[
            &[Part::Nonterm(b"L"), Part::Nonterm(b"L")],
            &[Part::Literal(b"x")],
            &[],
        ],
    }];
    let grammar = Grammar::build(alloc, &arena, &list)?;
    let three = charted(alloc, &arena, &grammar, b"x x x")?;
    assert!(rt; spans(&three, 0, 0, 0));
    assert!(rt; spans(&three, 0, 0, 3));
    assert!(rt; spans(&three, 0, 1, 3));
    Ok(())
}

#[test]
fn grows_where_a_phrase_can_begin_another(rt: HostRuntime) -> Result<(), Fail> {
    let alloc = rt.alloc();
    let arena = Bump::new(alloc);
    let list = [
        Production {
            name: b"S",
            alternatives: &[&[Part::Nonterm(b"E"), Part::Literal(b";")]],
        },
        Production {
            name: b"E",
            alternatives: &[
                &[Part::Nonterm(b"E"), Part::Literal(b"+"), Part::Numeral],
                &[Part::Numeral],
            ],
        },
    ];
    let grammar = Grammar::build(alloc, &arena, &list)?;
    let sum = charted(alloc, &arena, &grammar, b"1+2;")?;
    if sum.count() != 4 || sum.nonterminals() != 2 {
        return Err("other counts than 4 lexemes and 2 nonterminals")?;
    }
    assert!(rt; sum.grows(1, 1, 1, 3));
    assert!(rt; sum.grows(1, 1, 0, 4));
    assert!(rt; sum.grows(1, 3, 0, 4));
    assert!(rt; sum.grows(1, 1, 1, 1));
    assert!(rt; !sum.grows(1, 1, 0, 3));
    assert!(rt; !sum.grows(0, 1, 1, 3));
    let ends = sum.ends(alloc, 1, 0)?;
    assert!(rt; ends.as_slice() == [1, 3].as_slice());
    Ok(())
}

// More than 64 places, so that a row has more than one word.
const MANY: &[u8] = b"x x x x x x x x x x x x x x x x x x x x x x x x x x x x x x x x x \
    x x x x x x x x x x x x x x x x x x x x x x x x x x x x x x x x x";

#[test]
fn lists_on_the_right_reach_over_words_of_a_row(rt: HostRuntime) -> Result<(), Fail> {
    let alloc = rt.alloc();
    let arena = Bump::new(alloc);
    let list = [
        Production {
            name: b"S",
            alternatives: &[&[Part::Nonterm(b"L")]],
        },
        Production {
            name: b"L",
            alternatives: &[&[], &[Part::Literal(b"x"), Part::Nonterm(b"L")]],
        },
    ];
    let grammar = Grammar::build(alloc, &arena, &list)?;
    let many = charted(alloc, &arena, &grammar, MANY)?;
    assert_eq!(rt; many.count(), 66);
    assert!(rt; spans(&many, 0, 0, 66));
    assert!(rt; spans(&many, 0, 0, 64));
    assert!(rt; spans(&many, 1, 63, 65));
    assert!(rt; spans(&many, 1, 66, 66));
    assert!(rt; !spans(&many, 1, 65, 64));
    Ok(())
}
