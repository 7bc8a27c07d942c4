//! What is told of each token of an expression while its tree is read.

ghost use Rattle.std.specs.Prelude.{◌≡◌, Option, OnOk, option_map};
ghost use Rattle.spdx_requirement.specs.Ids.{id_row};
ghost use Rattle.spdx_requirement.specs.Rows.{LicenseRow};
ghost use Rattle.spdx_lexer.specs.Code.{word_of};
ghost use Rattle.spdx_lexer.specs.Words.{Word};

use spdx_catalogue::LicenseId;
use spdx_lexer::token::Token;
use std::alloc::{AllocError, Global};

/// Hears the tokens of an expression one after another, and its end.
pub trait Listener {
    // What a word makes of the listener, or the end, directly behind a listed licence or not.
    ghost Hears: { Self → Option LicenseRow → Option Word → Self → Type 0 };

    /// Hears the next token, or the end where there is none; `behind` is the listed licence that
    /// stands directly before it.
    fn hear(
        &mut self,
        alloc: Global,
        behind: Option<LicenseId<'_>>,
        token: Option<Token<'_, '_>>,
    ) -> Result<(), AllocError>
        ensures { OnOk result (Hears self.old (option_map id_row behind.entry)
            (option_map word_of token.entry) self.new) };
}

/// Hears nothing.
#[derive(Drop)]
pub(crate) struct Deaf;

impl Listener for Deaf {
    ghost Hears = { λ _ _ _ _. Unit {0} };

    fn hear(
        &mut self,
        _alloc: Global,
        _behind: Option<LicenseId<'_>>,
        _token: Option<Token<'_, '_>>,
    ) -> Result<(), AllocError> {
        Ok(())
    }
}
