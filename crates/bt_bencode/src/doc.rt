//! A value that is known to have a canonical spelling (BEP 3), as `parse` gives it.
ghost use Rattle.std.specs.Prelude.{◌≡◌};

use crate::value::Value;
use std::marker::Model;

/// A value that has a canonical spelling: its keys ascend strictly as raw bytes at every level, and
/// at most [`crate::MAX_NESTING`] lists and dictionaries lie in one another.
#[derive(Debug, Drop)]
pub struct Doc {
    value: Value,
}

impl Model for Doc {
    ghost use Rattle.std.specs.Coded.{codes};
    ghost use Rattle.bt_bencode.specs.declared.value.Value.{Value as Shown};
    ghost use Rattle.bt_bencode.specs.contracts.value.Value as the_value;
    ghost use Rattle.bt_bencode.specs.Value.{data_of};
    ghost use Rattle.bt_bencode.specs.Doc.{IsCanonical};

    ghost Value = { Shown };

    ghost coded = { Prim.hlevel (codes, the_value.the_row.coded) };

    ghost view = { λ d. d.value };

    ghost invariant = { λ d. IsCanonical (data_of d.value) };
}

impl Doc {
    ghost use Rattle.bt_bencode.specs.Value.{data_of};
    ghost use Rattle.bt_bencode.specs.Doc.{IsCanonical};

    pub(crate) fn new(value: Value) -> Self
        requires { IsCanonical (data_of value) }
        ensures { result ≡ value }
    {
        Doc { value }
    }

    /// The value.
    pub fn value(&self) -> &Value
        ensures same { result.now ≡ self.now }
        ensures canonical { IsCanonical (data_of self.now) }
    {
        &self.value
    }
}
