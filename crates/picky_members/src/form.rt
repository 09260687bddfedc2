// Types whose values are told by a JSON tree.
ghost use Rattle.std.specs.Prelude.{◌≡◌, ◌≤◌, ℕ, IfOk};
ghost use Rattle.serde_json.specs.Data.{Data, null, depth};
ghost use Rattle.serde_json.specs.View.{view};
ghost use Rattle.picky_members.specs.Reading.{Reads};

use serde_json::Value;
use std::alloc::{AllocError, AllocFailed, Global};

/// Why a value isn't read from a tree.
#[derive(Debug, Drop)]
pub enum FormError {
    /// The tree isn't of the value's form.
    NotOfForm,
    /// Memory ran out.
    OutOfMemory,
}

impl From<AllocError> for FormError {
    ghost use Rattle.picky_members.specs.declared.form.FormError.TheVariants.{OutOfMemory};

    ghost from_gives = { λ _ e. e ≡ OutOfMemory };

    fn from(_error: AllocError) -> FormError {
        FormError::OutOfMemory
    }
}

impl<T: Drop> From<AllocFailed<T>> for FormError {
    ghost use Rattle.picky_members.specs.declared.form.FormError.TheVariants.{OutOfMemory};

    ghost from_gives = { λ _ e. e ≡ OutOfMemory };

    fn from(_error: AllocFailed<T>) -> FormError {
        FormError::OutOfMemory
    }
}

/// A type whose values are told by trees: which tree tells which value, and the tree as which a value is written.
pub trait JsonForm: Drop {
    /// The values without where they lie in memory.
    ghost Abstract: { Type 0 };

    ghost stands_for: { Self → Abstract };

    /// Which value a tree tells.
    ghost Tells: { Data → Abstract → Type 0 };

    /// The tree as which a value is written.
    ghost tree_of: { Abstract → Data };

    /// How deep arrays and objects of what is written nest at most.
    ghost levels: { ℕ };

    /// The value that the tree tells.
    ///
    /// `NotOfForm` exactly where it tells none; else only want of memory.
    fn from_tree(alloc: Global, tree: &Value) -> Result<Self, FormError>
        ensures { Reads stands_for (Tells (view tree.now)) result };

    /// The tree of the value. Refused for want of memory alone.
    fn to_tree(&self, alloc: Global) -> Result<Value, AllocError>
        ensures { IfOk result (λ t. view t ≡ tree_of (stands_for self.now)) };

    /// A tree tells one value at most.
    ghost once: { (d : Data) (x y : Abstract) → Tells d x → Tells d y → y ≡ x };

    /// `null` tells none.
    ghost not_null: { (x : Abstract) → ¬ (Tells null x) };

    /// What is written tells the value.
    ghost reads_back: { (x : Abstract) → Tells (tree_of x) x };

    /// What is written is that shallow.
    ghost shallow: { (x : Abstract) → depth (tree_of x) ≤ levels };
}
