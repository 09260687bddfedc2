//! Laws of names: each is the contract of a function without a body.
ghost use Rattle.std.specs.Prelude.{◌≡◌};
ghost use Rattle.picky_jwk_names.specs.declared.jwa.Jwa.{Jwa};
ghost use Rattle.picky_jwk_names.specs.Names.{jwa_name};

/// No two algorithms of any kind have one name.
pub fn algorithms_are_told_apart()
    ensures { (a b : Jwa) → jwa_name a ≡ jwa_name b → b ≡ a }
{}
