// What stops a session.
use scripts::ReadError;
use std::alloc::AllocError;
use std::io;
use thiserror::Error;

/// Why a line of a script stops its session.
#[derive(Debug, Drop, Error)]
pub enum Trouble {
    /// The line cannot be read.
    #[error("{0}")]
    Unread(#[from] ReadError),
    /// No slip with this serial is held.
    #[error("slip {0} is not held (expected one that was opened and neither entered nor scrapped)")]
    NotHeld(u64),
    /// No slip is held at all.
    #[error("no slip is held (expected open before it)")]
    NoneHeld,
    /// An algebra was named behind the first command.
    #[error("the algebra is named too late (expected in the first command)")]
    LateAlgebra,
    /// The command is one that the program does not know how to do yet.
    #[error("this command is not there yet (expected open, line, enter, scrap, withdraw or entry, with the algebra of counts)")]
    NotYet,
    /// A file of codes, or the script itself, cannot be read, or an answer not be written.
    #[error(transparent)]
    System(#[from] io::Error),
    /// There is no memory left.
    #[error("there is no memory left")]
    NoMemory(#[from(alloc)] AllocError),
}
