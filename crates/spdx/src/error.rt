//! Why a call gives nothing.

pub use spdx_catalogue::{CatalogueError, Failure, Field, List, ReadFault};
pub use spdx_lexer::error::{ParseError, Reason};
pub use spdx_minimize::{Error, MinimizeError};
