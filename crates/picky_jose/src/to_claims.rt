// Types that claims are written from.
ghost use Rattle.std.specs.Prelude.{◌≡◌, IfOk};
ghost use Rattle.serde_json.specs.Data.{Data};
ghost use Rattle.serde_json.specs.View.{view};

use serde_json::Value;
use std::alloc::{AllocError, Global};

/// A type that the claims of a token are written from (RFC 7519, section 4): which tree of claims a value is written as.
///
/// `serde_json::Value` is one, which is written as it is.
pub trait ToClaims: Drop {
    /// The tree as which a value is written.
    ghost claims_tree: { Self → Data };

    /// The tree of the value.
    fn to_claims(&self, alloc: Global) -> Result<Value, AllocError>
        ensures { IfOk result (λ t. view t ≡ claims_tree self.now) };
}

/// The tree as it is.
impl ToClaims for Value {
    ghost use Rattle.serde_json.specs.View.{view};

    ghost claims_tree = { view };

    fn to_claims(&self, _alloc: Global) -> Result<Value, AllocError> {
        self.clone()
    }
}
