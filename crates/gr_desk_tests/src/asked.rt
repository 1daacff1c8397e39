//! What a machine of the tests is asked for. It stands outside of the tests, since the definition
//! in `specs/Hosts.antt` names it, and that is read without them too.

/// What a machine was asked for and gave.
#[derive(Drop)]
pub enum Asked {
    /// A file was opened.
    Opens(String),

    /// A file was made, with sums on its pages or without.
    Makes(String, bool),

    /// A roll file was read.
    Reads(String),

    /// A port was listened at.
    Listens(u16),
}
