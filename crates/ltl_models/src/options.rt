//! The simplifications that a translation leaves out.

use std::marker::Model;

/// The simplifications that a translation leaves out. The language is the same in any case.
#[derive(Clone, Copy, Debug, PartialEq, Eq)]
pub struct Options {
    /// Transitions that another one subsumes are kept.
    pub keep_implied: bool,
    /// States with the same edges as another one are kept: no states are merged.
    pub keep_equal: bool,
}

impl Model for Options {
    ghost use Rattle.ltl_spec.specs.Construction.Translation as spec;
    ghost use Rattle.ltl_models.specs.OptionsView.{options_code};

    ghost Value = { spec.Options };

    ghost coded = { options_code };

    ghost view = { λ o. record { keep_implied = o.keep_implied; keep_equal = o.keep_equal } };

    ghost inverse = { λ o. record { keep_implied = o.keep_implied; keep_equal = o.keep_equal } };
}
