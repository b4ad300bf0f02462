//! Templates: actions in which meanings of parts, values of numerals and bytes of identifiers stand.
ghost use Rattle.std.specs.Prelude.{◌≡◌, [], ◌∷◌, true, map};
ghost use Rattle.action_terms.specs.Labels.{AnAction};
ghost use Rattle.meta_terms.specs.Templates.{fills};
ghost use Rattle.meta_terms.specs.Nodes.{label_of};

use action_terms::pushed::{NewAction, NewYielder};

/// A node of a template.
#[derive(Clone, Copy, Debug, PartialEq, Eq)]
pub enum TemplateNode<'a> {
    /// An action node.
    Action(NewAction<'a>),
    /// A yielder.
    Yielder(NewYielder<'a>),
    /// An action node whose token is `token of V`, the bytes of an identifier.
    ActionTokenOf {
        /// The node, with an empty token.
        node: NewAction<'a>,
        /// The variable V.
        variable: &'a [u8],
    },
    /// A yielder whose token is `token of V`, the bytes of an identifier.
    YielderTokenOf {
        /// The yielder, with an empty token.
        node: NewYielder<'a>,
        /// The variable V.
        variable: &'a [u8],
    },
    /// `f V`, the meaning of a part.
    Apply {
        /// The function f.
        function: &'a [u8],
        /// The variable V.
        variable: &'a [u8],
    },
    /// `value of V`, the value of a numeral.
    ValueOf {
        /// The variable V.
        variable: &'a [u8],
    },
}

/// A template: its nodes in preorder, each before its yielders and its action parts in the order of
/// the text.
#[derive(Clone, Copy, Debug)]
pub struct Template<'a> {
    /// The nodes.
    pub list: &'a [TemplateNode<'a>],
    // They are those of exactly one template.
    pub ghost whole: { fills (AnAction ∷ []) (map label_of list.now) ≡ true },
}
