//! The words of a command line.

ghost use Rattle.std.specs.Prelude.{◌≡◌, map, string_bytes};

use std::marker::Model;

/// The words of a command line without the program's name. A contract sees the list of their bytes.
#[derive(Debug, Drop)]
pub struct Words {
    list: Vec<String>,
}

impl Model for Words {
    ghost use Rattle.std.specs.Prelude.{ℕ, List, map, string_bytes};
    ghost use Rattle.std.specs.declared.alloc.Global.{Global};

    ghost Value = { List (List ℕ) };

    ghost view = { λ words. map string_bytes words.list.items };
}

impl Words {
    /// The words of a list, in its order.
    pub fn new(list: Vec<String>) -> Words
        ensures { result ≡ map string_bytes list.items }
    {
        Words { list }
    }

    /// Lends the words.
    pub fn list(&self) -> &[String]
        ensures { map string_bytes result.now ≡ self.now }
    {
        self.list.as_slice()
    }
}
