// Why no page is written.

ghost use Rattle.std.specs.Prelude.{◌≡◌};

use std::alloc::AllocError;

/// Why no page is written.
#[derive(Clone, Copy, Debug)]
pub enum PageError<'t> {
    /// Memory was refused.
    Memory,
    /// The text of this name is no UTF-8, which pages of HTML and of JSON are.
    NotUtf8(&'t str),
}

impl From<AllocError> for PageError<'_> {
    ghost use Rattle.notice_forms.specs.declared.errors.PageError.TheVariants as variant;

    ghost from_gives = { λ _ e. e ≡ variant.Memory };

    fn from(_error: AllocError) -> Self {
        PageError::Memory
    }
}
