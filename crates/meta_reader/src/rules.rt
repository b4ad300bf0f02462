//! Reading declarations and equations.
ghost use Rattle.std.specs.Prelude.{◌≡◌, ◌≤◌, drop, length, map, None, option_map, slice_range, IfOk, MatchOption, Some};
ghost use Rattle.meta_terms.specs.PlainItems.{plain_declaration, plain_equation, plain_item, plain_pattern_part};
ghost use Rattle.action_text.specs.Answers.{token_bytes};
ghost use Rattle.action_text.specs.Texts.{texts};
ghost use Rattle.meta_reader.specs.ItemForms.{IsEquation, IsOfSemantics};
ghost use Rattle.meta_reader.specs.Parsing.{Finds, declaration_of, head_of};

use crate::patterns::read_pattern;
use crate::single::is_token;
use action_text::template_reader::{TemplateError, read_template};
use action_text::{is_function, is_variable};
use bumpalo::Bump;
use meta_lex::token::Token;
use meta_lex::token_list::Tokens;
use meta_terms::{Declaration, Equation, Item, PatternPart};
use std::alloc::{AllocError, Global};

// What stands in front of the action of an equation.
#[derive(Clone, Copy)]
struct Head<'a> {
    function: &'a [u8],
    pattern: &'a [PatternPart<'a>],
    // The place in the run where the action begins.
    action: usize,
}

// The declaration that a run is.
fn read_declaration<'a>(run: &[Token<'a>]) -> Option<Declaration<'a>>
    ensures { option_map plain_declaration result ≡ declaration_of (texts run.now) }
{
    if run.len() != 4 || !is_function(&run[0]) || !is_variable(&run[3]) {
        return None;
    }
    if !is_token(&run[1], b"_") || !is_token(&run[2], b":") {
        return None;
    }
    Some(Declaration {
        function: run[0].bytes,
        nonterminal: run[3].bytes,
    })
}

// The function and the pattern of the equation that a run is, whatever its action.
fn read_head<'a>(
    alloc: Global,
    arena: &'a Bump,
    run: &[Token<'a>],
) -> Result<Option<Head<'a>>, AllocError>
    ensures within { IfOk result (λ o. MatchOption o Unit (λ h. h.action ≤ length run.now)) }
    ensures head { let all = texts run.now in
        IfOk result (λ o. MatchOption o (head_of all ≡ None) (λ h. head_of all ≡ Some (record {
          function = h.function.now;
          pattern = map plain_pattern_part h.pattern.now;
          action_tokens = drop h.action all;
        }))) }
{
    if run.len() < 2 || !is_function(&run[0]) || !is_token(&run[1], b"[[") {
        return Ok(None);
    }
    let Some((pattern, next)) = read_pattern(alloc, arena, run, 2)? else {
        return Ok(None);
    };
    if next == run.len() || !is_token(&run[next], b"=") {
        return Ok(None);
    }
    Ok(Some(Head {
        function: run[0].bytes,
        pattern,
        action: next + 1,
    }))
}

// The equation that the tokens from the one place to the other are.
fn read_equation<'a>(
    alloc: Global,
    arena: &'a Bump,
    tokens: &Tokens<'a>,
    from: u32,
    to: u32,
) -> Result<Option<Equation<'a>>, AllocError>
    requires ordered { from ≤ to }
    requires within { to ≤ length tokens.now }
    ensures { let run = slice_range (token_bytes tokens.now) from to in
        IfOk result (λ o. Finds (IsEquation run) (option_map plain_equation o)) }
{
    let list = tokens.list;
    let Some(head) = read_head(alloc, arena, &list[from as usize..to as usize])? else {
        return Ok(None);
    };
    let start = from + head.action as u32;
    match read_template(alloc, arena, tokens, start, to) {
        Ok(action) => Ok(Some(Equation {
            function: head.function,
            pattern: head.pattern,
            action,
        })),
        Err(TemplateError::Memory) => Err(AllocError),
        Err(TemplateError::At { .. }) => Ok(None),
    }
}

/// The declaration or equation that the tokens from the one place to the other are.
pub fn read_rule<'a>(
    alloc: Global,
    arena: &'a Bump,
    tokens: &Tokens<'a>,
    from: u32,
    to: u32,
) -> Result<Option<Item<'a>>, AllocError>
    requires ordered { from ≤ to }
    requires within { to ≤ length tokens.now }
    ensures { let run = slice_range (token_bytes tokens.now) from to in
        IfOk result (λ o. Finds (IsOfSemantics run) (option_map plain_item o)) }
{
    let list = tokens.list;
    if let Some(declaration) = read_declaration(&list[from as usize..to as usize]) {
        return Ok(Some(Item::Declaration(declaration)));
    }
    match read_equation(alloc, arena, tokens, from, to)? {
        Some(equation) => Ok(Some(Item::Equation(equation))),
        None => Ok(None),
    }
}
