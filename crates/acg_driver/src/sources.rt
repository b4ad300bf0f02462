//! Compiling a source by the description of its language.

ghost use Rattle.std.specs.Prelude.{◌≡◌, ◌<◌, ◌≤◌, ℕ, List, length, IfOk, IfErr};
ghost use Rattle.acg_base.specs.declared.limits.TheConstants.{LIMIT_SOURCE, LIMIT_LEXEMES};
ghost use Rattle.gram_form.specs.GrammarErrors.{AreFew};
ghost use Rattle.gram_form.specs.Trees.{plain_tree};
ghost use Rattle.source_lex.specs.Lexemes.{AreLexemes};
ghost use Rattle.source_lex.specs.Numbered.{numbered};
ghost use Rattle.source_lex.specs.Trees.{IsOneTree, kinds_of};
ghost use Rattle.tree_pick.specs.Picked.{IsTreeError};
ghost use Rattle.tree_pick.specs.Uniform.{IsUniform};
ghost use Rattle.action_terms.specs.Numbering.{Listed};
ghost use Rattle.sort_rules.specs.Tables.{MarkedTable};
ghost use Rattle.acg_words.specs.Settings.{IsCapacity};
ghost use Rattle.acg_driver.specs.Compiling.{IsCompiled};
ghost use Rattle.acg_driver.specs.Descriptions.{Describes};
ghost use Rattle.acg_driver.specs.Sources.{Gives, IsSourceRefused, RefusesSource, SourceGives};
ghost use Rattle.acg_driver.specs.declared.sources.SourceError.TheVariants as error;

use crate::compiling::{Built, CompileError, compile_action};
use crate::descriptions::read_description;
use acg_base::{Capacity, LIMIT_SOURCE, Memory};
use action_terms::Graph;
use bumpalo::Bump;
use chart_parse::filling::chart;
use equation_expand::{ExpandError, expand};
use gram_form::{Grammar, Tree};
use meta_check::Description;
use source_lex::{Lexemes, ScanError, scan};
use std::alloc::Global;
use thiserror::Error;
use tree_pick::{TreeError, pick};

/// Why a description and a source aren't compiled, in the order in which it is looked at.
#[derive(Clone, Copy, Debug, PartialEq, Eq, Drop, Error)]
pub enum SourceError {
    /// Want of memory.
    #[error("out of memory")]
    Memory,
    /// The description has more than `LIMIT_DESCRIPTION` bytes.
    #[error("the description is too long")]
    LimitDescription,
    /// No token of the description begins at a byte.
    #[error("no token begins at byte {offset} of the description")]
    DescriptionByte {
        /// How many bytes of the description stand before it.
        offset: u32,
    },
    /// An item of the description has no form of an item, or stands where it may not.
    #[error("item {index} is none of a description")]
    DescriptionItem {
        /// The number of the item, from 0.
        index: u32,
    },
    /// An item of the description breaks a rule.
    #[error("item {item} of the description breaks rule {rule}")]
    DescriptionRule {
        /// The number of the first rule that is broken, from 1.
        rule: u8,
        /// The number of the first item that breaks it, from 0.
        item: u32,
    },
    /// The source has more than `LIMIT_SOURCE` bytes.
    #[error("the source is too long")]
    LimitSource,
    /// No lexeme of the source begins at a byte.
    #[error("no lexeme begins at byte {offset} of the source")]
    SourceByte {
        /// How many bytes of the source stand before it.
        offset: u32,
    },
    /// The source has more than `LIMIT_LEXEMES` lexemes.
    #[error("the source has too many lexemes")]
    LimitLexemes,
    /// No tree stands over the whole source.
    #[error("the source has no tree")]
    NoTree,
    /// Two different trees stand over the whole source.
    #[error("the source has two different trees")]
    Ambiguous,
    /// An application has no equation. Each number counts from 0.
    #[error("no equation of function {function} for alternative {alternative} of production {production}")]
    Uncovered {
        /// The number of the function among those that are declared.
        function: u32,
        /// The number of the production.
        production: u32,
        /// The number of the alternative within the production.
        alternative: u32,
    },
    /// The value of a numeral passes 64 signed bits.
    #[error("the numeral at byte {offset} of the source is too large")]
    BigNumeral {
        /// How many bytes of the source stand before it.
        offset: u32,
    },
    /// The action has more nodes than `LIMIT_NODES`.
    #[error("the action has too many nodes")]
    LimitNodes,
    /// An `unfold` of the action has no `unfolding` around it.
    #[error("the unfold of node {node} has no unfolding around it")]
    StrayUnfold {
        /// The number of the first such node, in preorder from 0.
        node: u32,
    },
    /// No table of sorts is admissible for the action.
    #[error("ill-sorted at node {node}")]
    IllSorted {
        /// The least node with a clash in the least marked table.
        node: u32,
    },
    /// The action is well-sorted, and a node of it has no code yet.
    #[error("no code yet for node {node}")]
    Unbuilt {
        /// The least such node.
        node: u32,
    },
}

impl From<Memory> for SourceError {
    ghost from_gives = { λ _ e. e ≡ error.Memory };

    fn from(_error: Memory) -> SourceError {
        SourceError::Memory
    }
}

// The lexemes of a source, which has no more bytes than its limit.
fn lexemes_of<'a>(
    alloc: Global,
    arena: &'a Bump,
    description: &Description<'_>,
    bytes: &[u8],
) -> Result<Lexemes<'a>, SourceError>
    requires within { length bytes.now ≤ LIMIT_SOURCE }
    requires few { length description.now.grammar.literals < 4294967296 }
    ensures lexemes { IfOk result (λ ls. AreLexemes description.now.grammar.literals bytes.now ls) }
    ensures count { IfOk result (λ ls. length ls ≤ LIMIT_LEXEMES) }
    ensures refused { IfErr result (RefusesSource description.now bytes.now) }
{
    match scan(alloc, arena, &description.grammar, bytes) {
        Ok(lexemes) => Ok(lexemes),
        Err(ScanError::Memory) => Err(SourceError::Memory),
        Err(ScanError::BadByte { offset }) => Err(SourceError::SourceByte { offset }),
        Err(ScanError::Count) => Err(SourceError::LimitLexemes),
    }
}

// The one tree over the lexemes.
fn tree_of<'a>(
    alloc: Global,
    arena: &'a Bump,
    grammar: &Grammar<'_>,
    lexemes: &Lexemes<'_>,
) -> Result<Tree<'a>, TreeError>
    requires few { AreFew grammar.now.productions }
    requires literals { length grammar.now.literals < 4294967296 }
    requires count { length lexemes.now ≤ LIMIT_LEXEMES }
    ensures one { IfOk result (λ t. IsOneTree (numbered grammar.now) (kinds_of lexemes.now)
        (plain_tree t)) }
    ensures uniform { IfOk result (λ t. IsUniform (plain_tree t)) }
    ensures refused { IfErr result (IsTreeError (numbered grammar.now) (kinds_of lexemes.now)) }
{
    let chart = chart(alloc, arena, grammar, lexemes)?;
    pick(alloc, arena, grammar, lexemes, &chart)
}

/// Reads a source by a description, and answers the graph of its action, which lies in the arena. `alloc` is for what is
/// given back before the answer.
///
/// The errors that come are `SourceError::Memory` and those from `SourceError::LimitSource` to `SourceError::StrayUnfold`, each
/// only where none before it does.
pub(crate) fn read_source<'a>(
    alloc: Global,
    arena: &'a Bump,
    description: &Description<'_>,
    bytes: &[u8],
) -> Result<Graph<'a>, SourceError>
    requires described { (text : List ℕ) × Describes text description.now }
    ensures graph { IfOk result (λ g. SourceGives description.now bytes.now g) }
    ensures refused { IfErr result (RefusesSource description.now bytes.now) }
{
    if bytes.len() > LIMIT_SOURCE as usize {
        return Err(SourceError::LimitSource);
    }
    let lexemes = lexemes_of(alloc, arena, description, bytes)?;
    let tree = match tree_of(alloc, arena, &description.grammar, &lexemes) {
        Ok(tree) => tree,
        Err(TreeError::Memory) => return Err(SourceError::Memory),
        Err(TreeError::NoTree) => return Err(SourceError::NoTree),
        Err(TreeError::Ambiguous) => return Err(SourceError::Ambiguous),
    };
    match expand(alloc, arena, description, &lexemes, &tree) {
        Ok(graph) => Ok(graph),
        Err(ExpandError::Memory) => Err(SourceError::Memory),
        Err(
            ExpandError::Uncovered {
                function,
                production,
                alternative,
            },
        ) => Err(SourceError::Uncovered {
            function,
            production,
            alternative,
        }),
        Err(ExpandError::BigNumeral { offset }) => Err(SourceError::BigNumeral { offset }),
        Err(ExpandError::Nodes) => Err(SourceError::LimitNodes),
        Err(ExpandError::StrayUnfold { node }) => Err(SourceError::StrayUnfold { node }),
    }
}

/// Compiles a source by the description of its language to the bytes of an image for the capacity, in memory of its own. The
/// words of the capacity, of 8 bytes, are from 1 to 16777216, and its units, of 16 bytes, from 1 to 4194304.
///
/// The causes of errors are looked at in the order in which `SourceError` lists them, and each error comes only where its cause
/// holds. `SourceError::Memory` may stand in place of all else.
pub fn compile_source(
    alloc: Global,
    description: &[u8],
    source: &[u8],
    capacity: Capacity,
) -> Result<Built, SourceError>
    requires { IsCapacity capacity }

    // The description and the source give a graph. The bytes are exactly the file of its code's image, and right for its
    // action, the least table of its sorts and the capacity; the factor is that of the action by this table.
    ensures built { IfOk result (λ built. (g : Listed) × (t : MarkedTable)
        × Gives description.now source.now g × IsCompiled g t capacity built) }

    // When each error comes.
    ensures refused { IfErr result (IsSourceRefused description.now source.now) }
{
    let arena = Bump::new(alloc);
    let language = read_description(alloc, &arena, description)?;
    let graph = read_source(alloc, &arena, &language, source)?;
    match compile_action(alloc, &graph, capacity) {
        Ok(built) => Ok(built),
        Err(CompileError::Memory) => Err(SourceError::Memory),
        Err(CompileError::IllSorted { node }) => Err(SourceError::IllSorted { node }),
        Err(CompileError::Unbuilt { node }) => Err(SourceError::Unbuilt { node }),
    }
}
