//! What is proved of the nodes of templates. The function does nothing: it carries its law as a contract.
ghost use Rattle.std.specs.Prelude.{◌≡◌, List, [], ◌∷◌, true};
ghost use Rattle.action_terms.specs.Labels.{AnAction};
ghost use Rattle.action_terms.specs.Trees.{preorder};
ghost use Rattle.meta_terms.specs.Templates.{Label, Tree, IsAction, fills};

/// Nodes that are whole, as those of a [`crate::Template`] are, are the preorder of one template and
/// of no other.
pub fn whole_nodes_are_one_template()
    ensures some { (labels : List Label) → fills (AnAction ∷ []) labels ≡ true
        → (t : Tree) × IsAction t × (preorder t ≡ labels) }
    ensures one { (t : Tree) → (u : Tree) → IsAction t → IsAction u → preorder t ≡ preorder u
        → t ≡ u }
{}
