//! Laws of AlgorithmIdentifier, each the contract of a function that does nothing.
ghost use Rattle.picky_der.specs.Form.{IsWrittenInForm, NestsAtMost};

use crate::algorithm::AlgorithmIdentifier;
use picky_der::DerForm;

/// Each AlgorithmIdentifier that is written is in form.
#[tactic(auto, using(crate::specs::Algorithm::algorithm_formed))]
pub fn algorithms_are_written_in_form()
    ensures { IsWrittenInForm ⟦<AlgorithmIdentifier as DerForm>⟧.form }
{}

/// A spelling of an AlgorithmIdentifier nests one reader.
#[tactic(auto, using(crate::specs::Algorithm::algorithm_nests))]
pub fn algorithms_nest_one_reader()
    ensures { NestsAtMost 1 ⟦<AlgorithmIdentifier as DerForm>⟧.form }
{}
