//! What a program reads besides its words and its input: files, folders and variables, as a trait.
//!
//! ```rust
//! // crates/list_program/src/named.rt
//! match shelf.read(alloc, path) {
//! ```
//!
//! A shelf tells what a path holds, and what a program then says of it is proved for every shelf. `SystemShelf` is the
//! system's, whose word is trusted; `Held` is a shelf of values, for rows. `OpenShelf` is a shelf whose files are also read
//! piece by piece, as files of lines are: `OpenSystem` is the system's, and `Held` is one too. It stands on `line_engine`.
#![tactic(auto)]

mod held;
mod held_bytes;
pub mod open;
mod open_system;
pub mod path;
pub mod shelf;
mod system;

pub use crate::held::{Held, HeldFile, HeldFolder, HeldLink, HeldVariable};
pub use crate::held_bytes::HeldBytes;
pub use crate::open::OpenShelf;
pub use crate::open_system::OpenSystem;
pub use crate::path::{bytes_at, is_input, told_path};
pub use crate::shelf::{Entries, Entry, Kind, Shelf, Stamp, Stamped, VariableFault};
pub use crate::system::SystemShelf;
