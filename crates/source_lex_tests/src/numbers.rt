//! Grammars with numbers in the place of names and literals.
use bumpalo::Bump;
use gram_form::{Grammar, Part, Production};
use source_lex::{LexKind, NumberedGrammar, Symbol};
use std::test::Fail;

#[test]
fn numbers_names_and_literals(rt: HostRuntime) -> Result<(), Fail> {
    let alloc = rt.alloc();
    let arena = Bump::new(alloc);
    let list = [
        Production {
            name: b"P",
            alternatives: &[&[Part::Nonterm(b"E"), Part::Literal(b";")]],
        },
        Production {
            name: b"E",
            alternatives: &[
                &[Part::Nonterm(b"E"), Part::Literal(b"+"), Part::Identifier],
                &[Part::Numeral],
            ],
        },
    ];
    let grammar = Grammar::build(alloc, &arena, &list)?;
    if grammar.literals.len() >= 100 || grammar.productions.len() >= 100 {
        return Ok(());
    }
    let numbered = NumberedGrammar::new(alloc, &arena, &grammar)?;
    let nonterminals = numbered.nonterminals;
    assert_eq!(rt; nonterminals.len(), 2);
    assert_eq!(rt; nonterminals[0].len(), 1);
    let first = nonterminals[0][0];
    assert!(rt; first == [Symbol::Phrase(1), Symbol::Word(LexKind::Literal(0))].as_slice());
    assert_eq!(rt; nonterminals[1].len(), 2);
    let second = nonterminals[1][0];
    let sum = [
        Symbol::Phrase(1),
        Symbol::Word(LexKind::Literal(1)),
        Symbol::Word(LexKind::Identifier),
    ];
    assert!(rt; second == sum.as_slice());
    let last = nonterminals[1][1];
    assert!(rt; last == [Symbol::Word(LexKind::Numeral)].as_slice());
    Ok(())
}
