// Compact texts.
ghost use Rattle.std.specs.Prelude.{◌≡◌, IfOk, string_bytes};
ghost use Rattle.serde_json.specs.View.{view};
ghost use Rattle.serde_json.specs.Written.{compact_text};
ghost use Rattle.picky_json.specs.Tree.{FloatFree};
ghost use Rattle.picky_json.specs.Text.{json_text};

use serde_json::Value;
use std::alloc::{AllocError, Global};

/// The compact text of a float-free tree: no white space, members in the order of their names' bytes.
pub fn compact(alloc: Global, tree: &Value) -> Result<String, AllocError>
    requires { FloatFree (view tree.now) }
    ensures { IfOk result (λ s. string_bytes s ≡ compact_text (view tree.now)) }
{
    tree.to_string(alloc)
}

/// A text as JSON: in quotes, escaped.
#[tactic(auto, unfolding(crate::specs::Text::json_text))]
pub fn json_text_of(alloc: Global, text: &str) -> Result<String, AllocError>
    ensures { IfOk result (λ s. string_bytes s ≡ json_text text.now) }
{
    Value::try_from_str(alloc, text)?.to_string(alloc)
}
