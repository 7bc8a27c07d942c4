// Lists that are made of SPDX's files, and the real list, made again.
//
// Behind a line `= made` a row is `LICENCES | EXCEPTIONS | EXTRAS => WANTED`: three JSON texts, of which the last two may be
// empty for those that hold nothing, and the tables or the fault. Behind `= instead` it is `EXTRAS | NAME => WANTED`. `!` is a
// byte that no text has. A line that begins with `#` says something to readers.

mod real;
mod rows;
pub(crate) mod shown;

pub(crate) use crate::made::real::real;
pub(crate) use crate::made::rows::try_rows;
