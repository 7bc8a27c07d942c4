// What `serve` answers.

use spdx_lines::program::serve;
use spdx_lines::{Input, Output};
use std::alloc::{AllocError, Global};

/// The status, and what stands in the output and in the faults.
#[derive(Drop)]
pub struct Served {
    pub status: u8,
    pub output: Vec<u8>,
    pub faults: Vec<u8>,
}

/// Serves these words, over the bytes of a catalogue and of an input.
pub(crate) fn serve_over(
    alloc: Global,
    words: &[&str],
    catalogue: Option<&[u8]>,
    input: &[u8],
) -> Served {
    let mut input = Input::new(input);
    let mut output = Output::new(Vec::new(alloc));
    let mut faults = Output::new(Vec::new(alloc));
    let status = serve(
        alloc,
        Some(words),
        catalogue,
        &mut input,
        &mut output,
        &mut faults,
    );
    Served {
        status,
        output: output.into_inner(),
        faults: faults.into_inner(),
    }
}

/// The words with commas between.
pub(crate) fn words_of(alloc: Global, text: &str) -> Result<Vec<&str>, AllocError> {
    let mut words = Vec::new(alloc);
    for word in text.split(',') {
        if !word.is_empty() {
            words.push(word)?;
        }
    }
    Ok(words)
}
