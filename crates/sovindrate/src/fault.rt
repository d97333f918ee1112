// Why a run of the program ended early.
use std::alloc::AllocError;
use std::io;
use thiserror::Error;

#[derive(Debug, Drop, Error)]
pub enum Fault {
    #[error("out of memory")]
    Memory(#[from(alloc)] AllocError),
    #[error(transparent)]
    Io(#[from] io::Error),
    // a line that says nothing the program knows, and what it should have said
    #[error("line {number}: expected {expected}")]
    Line {
        number: usize,
        expected: &'static str,
    },
    // a file that a line names could not be read or written
    #[error("line {number}: {error}")]
    File {
        number: usize,
        error: io::Error,
    },
    // the store did not answer every call of a script: a bug of the program
    #[error("a call was not answered")]
    Unanswered,
}
