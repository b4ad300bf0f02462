//! The rules of a grammar, by what they read of a chart.
ghost use Rattle.std.specs.Prelude.{◌≡◌, ◌⊎◌, ◌↔◌, Contains, Some, slice_get, IfOk, OnOk};
ghost use Rattle.chart_parse.specs.Places.{alternatives_in, class_of, grammar_of, AreLists, IsOfClass, HasClassOf, HasClass};

use crate::source::Source;
use acg_base::Memory;
use source_lex::Symbol;
use std::alloc::Global;

/// An alternative of a nonterminal.
#[derive(Clone, Copy)]
pub struct Rule<'s> {
    pub nonterminal: usize,
    pub parts: &'s [Symbol],
}

/// Which lists of a chart the rule of an alternative reads.
#[derive(Clone, Copy, Debug, PartialEq, Eq)]
pub enum Class {
    /// Lists of later places alone.
    Behind,
    /// Lists of its own place too.
    Here,
    /// What grows from its nonterminal at its own place: the alternative has no parts.
    Empty,
}

/// The rules of a grammar: those that read later places alone, and all others, of which those
/// without parts are the last.
#[derive(Drop)]
pub struct RuleLists<'s> {
    pub behind: Vec<Rule<'s>>,
    pub here: Vec<Rule<'s>>,
}

// Which lists the rule of the parts reads.
fn class_of(parts: &[Symbol]) -> Class
    ensures { result ≡ class_of parts.now }
{
    match parts {
        [] => Class::Empty,
        [Symbol::Word(_), ..] => Class::Behind,
        [Symbol::Phrase(_), Symbol::Word(_), ..] => Class::Behind,
        _ => Class::Here,
    }
}

// Adds the rule, if it is of the class.
fn add_rule<'s>(list: &mut Vec<Rule<'s>>, rule: Rule<'s>, class: Class) -> Result<(), Memory>
    ensures { OnOk result ((x : Rule) → Contains list.new.items x ↔ (Contains list.old.items x
        ⊎ ((class_of rule.entry.parts.now ≡ class) × (rule.entry ≡ x)))) }
{
    if class_of(rule.parts) == class {
        list.push(rule)?;
    }
    Ok(())
}

// Adds the rules of the class that a nonterminal has.
fn add_rules_of<'s>(
    list: &mut Vec<Rule<'s>>,
    source: &Source<'s>,
    nonterminal: usize,
    alternatives: &'s [&'s [Symbol]],
    class: Class,
) -> Result<(), Memory>
    requires { slice_get (grammar_of source.now) nonterminal ≡ Some (alternatives_in
        alternatives.now) }
    ensures longer { OnOk result ((x : Rule) → Contains list.old.items x
        → Contains list.new.items x) }
    ensures rules { OnOk result ((x : Rule) → Contains list.new.items x
        → Contains list.old.items x ⊎ IsOfClass (grammar_of source.now) class x) }
    ensures has { OnOk result (HasClassOf (grammar_of source.now) class list.new.items
        nonterminal) }
{
    for a in 0..alternatives.len() {
        let rule = Rule {
            nonterminal,
            parts: alternatives[a],
        };
        add_rule(list, rule, class)?;
    }
    Ok(())
}

// Adds the rules of the class.
fn add_rules<'s>(list: &mut Vec<Rule<'s>>, source: &Source<'s>, class: Class) -> Result<(), Memory>
    ensures longer { OnOk result ((x : Rule) → Contains list.old.items x
        → Contains list.new.items x) }
    ensures rules { OnOk result ((x : Rule) → Contains list.new.items x
        → Contains list.old.items x ⊎ IsOfClass (grammar_of source.now) class x) }
    ensures has { OnOk result (HasClass (grammar_of source.now) class list.new.items) }
{
    for nonterminal in 0..source.nonterminals.len() {
        let alternatives = source.nonterminals[nonterminal];
        add_rules_of(list, source, nonterminal, alternatives, class)?;
    }
    Ok(())
}

/// The rules of the grammar of a source.
pub fn rule_lists<'s>(alloc: Global, source: &Source<'s>) -> Result<RuleLists<'s>, Memory>
    ensures { IfOk result (λ r. AreLists (grammar_of source.now) r.behind.items r.here.items) }
{
    let mut behind = Vec::new(alloc);
    add_rules(&mut behind, source, Class::Behind)?;
    let mut here = Vec::new(alloc);
    add_rules(&mut here, source, Class::Here)?;
    add_rules(&mut here, source, Class::Empty)?;
    Ok(RuleLists { behind, here })
}
