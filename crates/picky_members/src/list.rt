// Lists.
ghost use Rattle.std.specs.Prelude.{List, map, ◌+◌};
ghost use Rattle.picky_members.specs.Members.{IsList};
ghost use Rattle.picky_members.specs.Writing.{list_tree};
ghost use Rattle.picky_members.specs.laws.Once.{list_once};
ghost use Rattle.picky_members.specs.laws.Lists.{list_not_null, list_written};
ghost use Rattle.picky_members.specs.laws.Shallow.{shallow_list};

use crate::form::{FormError, JsonForm};
use serde_json::Value;
use std::alloc::{AllocError, Global};

/// A JSON array whose items tell the elements, in order.
impl<T: JsonForm> JsonForm for Vec<T> {
    ghost Abstract = { List T.Abstract };

    ghost stands_for = { λ v. map T.stands_for v.items };

    ghost Tells = { IsList T.Tells };

    ghost tree_of = { list_tree T.tree_of };

    ghost levels = { T.levels + 1 };

    fn from_tree(alloc: Global, tree: &Value) -> Result<Vec<T>, FormError> {
        let Some(items) = tree.as_array() else {
            return Err(FormError::NotOfForm);
        };
        let mut values = Vec::new(alloc);
        for item in items {
            values.push(T::from_tree(alloc, item)?)?;
        }
        Ok(values)
    }

    fn to_tree(&self, alloc: Global) -> Result<Value, AllocError> {
        let mut items = Vec::new(alloc);
        for value in self {
            items.push(value.to_tree(alloc)?)?;
        }
        Ok(Value::Array(items))
    }

    ghost once = { list_once T.Tells T.once };

    ghost not_null = { list_not_null T.Tells };

    ghost reads_back = { list_written T.Tells T.tree_of T.reads_back };

    ghost shallow = { shallow_list T.tree_of T.levels T.shallow };
}
