// Types that claims are read as.
ghost use Rattle.std.specs.Prelude.{IfOk};
ghost use Rattle.serde_json.specs.Data.{Data};
ghost use Rattle.serde_json.specs.View.{view};
ghost use Rattle.picky_contract.specs.Refusals.{Finds};

use serde_json::Value;
use std::alloc::{AllocError, Global};

/// A type that the claims of a token are read as (RFC 7519, section 4): which tree of claims tells which value.
///
/// `serde_json::Value` is one, which takes the tree as it is.
pub trait FromClaims: Drop {
    /// The values without where they lie in memory.
    ghost Claims: { Type 0 };

    ghost claims_view: { Self → Claims };

    /// Which value a tree tells.
    ghost TellsClaims: { Data → Claims → Type 0 };

    /// The value that the tree tells; `None` exactly where it tells none.
    fn from_claims(alloc: Global, claims: Value) -> Result<Option<Self>, AllocError>
        ensures { IfOk result (Finds claims_view (TellsClaims (view claims))) };
}

/// The tree as it is.
impl FromClaims for Value {
    ghost use Rattle.serde_json.specs.Data.{Data};
    ghost use Rattle.serde_json.specs.View.{view};
    ghost use Rattle.picky_jose.specs.Claims.{IsItself};

    ghost Claims = { Data };

    ghost claims_view = { view };

    ghost TellsClaims = { IsItself };

    fn from_claims(_alloc: Global, claims: Value) -> Result<Option<Value>, AllocError> {
        Ok(Some(claims))
    }
}
