//! The writes of an entry, in order.

ghost use Rattle.std.specs.Prelude.{◌≡◌, length};

use ib_map::Write;
use std::marker::Model;

/// The writes of an entry, in order.
#[derive(Debug, Drop)]
pub struct Writes {
    list: Vec<Write>,
}

impl Model for Writes {
    ghost use Rattle.std.specs.Prelude.{List};
    ghost use Rattle.ib_map.specs.declared.write.Write.{Write};

    ghost Value = { List Write };

    ghost view = { λ w. w.list.items };
}

impl Writes {
    /// These writes. It takes no memory.
    pub fn from_vec(list: Vec<Write>) -> Self
        ensures { result ≡ list.items }
    {
        Writes { list }
    }

    /// The list again. It takes no memory.
    pub fn into_vec(self) -> Vec<Write>
        ensures { result.items ≡ self }
    {
        let Writes { list } = self;
        list
    }

    /// The writes, in order.
    pub fn as_slice(&self) -> &[Write]
        ensures { result.now ≡ self.now }
    {
        &self.list
    }
}
