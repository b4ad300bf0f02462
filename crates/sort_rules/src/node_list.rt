//! Some nodes of an action, and for each node whether it is one of them.
ghost use Rattle.std.specs.Prelude.{◌≡◌, ◌<◌, All, IfOk};
ghost use Rattle.sort_rules.specs.Numbers.{is_listed, AreFlagged};

use acg_base::Memory;
use std::alloc::Global;
use std::marker::Model;

/// Nodes of an action, in an order.
#[derive(Drop)]
pub struct NodeList {
    numbers: Vec<u32>,
    flags: Vec<bool>,
}

impl Model for NodeList {
    ghost use Rattle.std.specs.Prelude.{ℕ, List};
    ghost use Rattle.sort_rules.specs.Numbers.{AreFlagged};

    ghost Value = { List ℕ };

    ghost view = { λ l. l.numbers.items };

    ghost invariant = { λ l. AreFlagged l.flags.items l.numbers.items };
}

// of so many nodes, which are in the list
fn flags_of(alloc: Global, numbers: &[u32], count: usize) -> Result<Vec<bool>, Memory>
    requires { All (λ n. n < count) numbers.now }
    ensures { IfOk result (λ flags. AreFlagged flags.items numbers.now) }
{
    let mut flags = vec![in alloc; false; count]?;
    for i in 0..numbers.len() {
        flags[numbers[i] as usize] = true;
    }
    Ok(flags)
}

impl NodeList {
    /// These nodes, of so many.
    pub fn make(alloc: Global, numbers: Vec<u32>, count: usize) -> Result<NodeList, Memory>
        requires { All (λ n. n < count) numbers.items }
        ensures { IfOk result (λ l. l ≡ numbers.items) }
    {
        let flags = flags_of(alloc, numbers.as_slice(), count)?;
        Ok(NodeList { numbers, flags })
    }

    /// Their numbers.
    pub fn numbers(&self) -> &[u32]
        ensures { result.now ≡ self.now }
    {
        self.numbers.as_slice()
    }

    /// Whether a node is one of them.
    pub fn has(&self, node: u32) -> bool
        ensures { result ≡ is_listed node self.now }
    {
        let node = node as usize;
        node < self.flags.len() && self.flags[node]
    }
}
