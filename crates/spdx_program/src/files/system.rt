// What the program asks of the system.

use std::io::Input;
use std::random::RandomSource;
use std::rt::{Env, Files};

/// Files, standard input, the environment, random bytes and memory.
pub trait System: Env + Files + Input + RandomSource + AllocGlobal + Clone + Drop {}

impl<R: Env + Files + Input + RandomSource + AllocGlobal + Clone + Drop> System for R {}
