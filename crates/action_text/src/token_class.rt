//! The class of a token, by its bytes.
ghost use Rattle.std.specs.Prelude.{◌≡◌, ◌∷◌, codes, ◌↔◌, IsTrue, IfOk, map};
ghost use Rattle.meta_terms.specs.Words.{words, same_bytes};
ghost use Rattle.meta_lex.specs.Forms.{is_word};
ghost use Rattle.action_text.specs.Numbers.{class_number};
ghost use Rattle.action_text.specs.Classes.{word_class, class_of, parameter_class, class_among, spelled_class};
ghost use Rattle.meta_terms.specs.Names.{is_function, is_variable, is_among, other_words, begins_small};
ghost use Rattle.action_text.specs.ActionTable.{class_in};
ghost use Rattle.action_text.specs.Texts.{texts};

use crate::classes::Class;
use acg_base::read_decimal;
use meta_lex::token::{Token, TokenKind};
use std::alloc::{AllocError, Global};

/// The words and symbols of action texts, each with its class.
static WORDS: [(Class, &str); 60] = [
    (Class::Or, "or"),
    (Class::And, "and"),
    (Class::Then, "then"),
    (Class::Trap, "trap"),
    (Class::Hence, "hence"),
    (Class::Moreover, "moreover"),
    (Class::Before, "before"),
    (Class::OpenParen, "("),
    (Class::CloseParen, ")"),
    (Class::Comma, ","),
    (Class::Hash, "#"),
    (Class::Unfolding, "unfolding"),
    (Class::Furthermore, "furthermore"),
    (Class::Complete, "complete"),
    (Class::Fail, "fail"),
    (Class::Escape, "escape"),
    (Class::Commit, "commit"),
    (Class::Regive, "regive"),
    (Class::Rebind, "rebind"),
    (Class::Give, "give"),
    (Class::With, "with"),
    (Class::Check, "check"),
    (Class::Bind, "bind"),
    (Class::To, "to"),
    (Class::Recursively, "recursively"),
    (Class::Closure, "closure"),
    (Class::Abstraction, "abstraction"),
    (Class::Of, "of"),
    (Class::Store, "store"),
    (Class::In, "in"),
    (Class::Allocate, "allocate"),
    (Class::A, "a"),
    (Class::Cell, "cell"),
    (Class::Send, "send"),
    (Class::Receive, "receive"),
    (Class::An, "an"),
    (Class::Integer, "integer"),
    (Class::Enact, "enact"),
    (Class::Application, "application"),
    (Class::Unfold, "unfold"),
    (Class::Them, "them"),
    (Class::True, "true"),
    (Class::False, "false"),
    (Class::The, "the"),
    (Class::Given, "given"),
    (Class::Bound, "bound"),
    (Class::Stored, "stored"),
    (Class::TruthValue, "truth-value"),
    (Class::Sum, "sum"),
    (Class::Difference, "difference"),
    (Class::Product, "product"),
    (Class::IntegerQuotient, "integer-quotient"),
    (Class::IntegerRemainder, "integer-remainder"),
    (Class::Is, "is"),
    (Class::Less, "less"),
    (Class::Than, "than"),
    (Class::Both, "both"),
    (Class::Either, "either"),
    (Class::Negation, "negation"),
    (Class::Not, "not"),
];

// Tells whether two texts are the same.
fn is_same(word: &[u8], bytes: &[u8]) -> bool
    ensures { IsTrue result ↔ (word.now ≡ bytes.now) }
{
    word == bytes
}

// The class of the word among these that the bytes are, or `Class::Other`.
fn class_among(words: &[(Class, &str)], bytes: &[u8]) -> Class
    ensures { class_number result ≡ class_among (map spelled_class words.now) bytes.now }
{
    for (class, word) in words {
        if is_same(word.as_bytes(), bytes) {
            return *class;
        }
    }
    Class::Other
}

/// The class of a word or symbol, or `Class::Other` for another one.
pub fn word_class(bytes: &[u8]) -> Class
    ensures { class_number result ≡ word_class 0 words bytes.now }
{
    class_among(&WORDS, bytes)
}

/// The class of a token.
pub fn class_of(token: &Token<'_>) -> Class
    ensures { class_number result ≡ class_of token.now.bytes.now }
{
    match token.kind {
        TokenKind::Quoted => Class::Quoted,
        TokenKind::Number => match read_decimal(token.bytes) {
            Some(1..=64) => Class::Place,
            Some(_) => Class::Number,
            None => word_class(token.bytes),
        },
        TokenKind::Word | TokenKind::Symbol => word_class(token.bytes),
    }
}

// Tells whether two texts are the same, as a test.
fn same(word: &[u8], bytes: &[u8]) -> bool
    ensures { result ≡ same_bytes word.now bytes.now }
{
    is_same(word, bytes)
}

// Tells whether a word is reserved besides those of action texts.
fn is_other_word(bytes: &[u8]) -> bool
    ensures { result ≡ is_among other_words bytes.now }
{
    let parameter = same(b"value", bytes) || same(b"token", bytes);
    let heading = same(b"grammar", bytes) || same(b"semantics", bytes);
    let item = same(b"end", bytes) || same(b"identifier", bytes);
    parameter || heading || item || same(b"numeral", bytes)
}

// Tells whether a word begins with a lower-case letter.
fn begins_small(bytes: &[u8]) -> bool
    ensures { result ≡ begins_small bytes.now }
{
    match bytes {
        [first, ..] => *first >= b'a',
        [] => false,
    }
}

// Tells whether the bytes are among the words of action texts.
fn is_action_word(bytes: &[u8]) -> bool
    ensures { result ≡ is_among words bytes.now }
{
    !word_class(bytes).is(Class::Other)
}

// Tells whether a token is a word.
fn is_word(token: &Token<'_>) -> bool
    ensures { result ≡ is_word token.now.bytes.now }
{
    token.kind == TokenKind::Word
}

/// Tells whether a token is the name of a function: a word that begins with a lower-case letter and
/// isn't reserved.
pub fn is_function(token: &Token<'_>) -> bool
    ensures { result ≡ is_function token.now.bytes.now }
{
    let word = is_word(token);
    let small = begins_small(token.bytes);
    let action = is_action_word(token.bytes);
    let other = is_other_word(token.bytes);
    word && small && !action && !other
}

/// Tells whether a token is a variable, or the name of a nonterminal: a word that begins with an
/// upper-case letter.
pub fn is_variable(token: &Token<'_>) -> bool
    ensures { result ≡ is_variable token.now.bytes.now }
{
    let word = is_word(token);
    let small = begins_small(token.bytes);
    word && !small
}

// The class of a token that a template can have and an action text can't.
fn parameter_class(token: &Token<'_>) -> Class
    ensures { class_number result ≡ parameter_class token.now.bytes.now }
{
    let value = same(b"value", token.bytes);
    let of_token = same(b"token", token.bytes);
    let function = is_function(token);
    let variable = is_variable(token);
    if value {
        Class::Value
    } else if of_token {
        Class::Token
    } else if function {
        Class::Function
    } else if variable {
        Class::Variable
    } else {
        Class::Other
    }
}

// The class of a token of a text with parameters or without.
fn class_in(parameters: bool, token: &Token<'_>) -> Class
    ensures { class_number result ≡ class_in parameters token.now.bytes.now }
{
    let class = class_of(token);
    if parameters && class.is(Class::Other) {
        parameter_class(token)
    } else {
        class
    }
}

/// The class of each token.
pub fn classes_of(
    alloc: Global,
    tokens: &[Token<'_>],
    parameters: bool,
) -> Result<Vec<Class>, AllocError>
    ensures { IfOk result
        (λ v. map class_number v.items ≡ map (class_in parameters) (texts tokens.now)) }
{
    let mut list = Vec::new(alloc);
    for token in tokens {
        list.push(class_in(parameters, token))?;
    }
    Ok(list)
}
