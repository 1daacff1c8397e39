//! What a line leaves of the connection to its file.
use sqlite::Connection;
use sqlite_trees::store::Alter;

/// What a line leaves of the connection to its file, and what is to become of it. Its caller closes
/// it, since a method of a trait that takes a connection by value was not proved at its
/// implementation. So a contract can also say what a close leaves of the connection, and the line
/// of a failure is on error output before the file is closed. Its exit status is the same.
#[derive(Drop)]
pub enum Ending<S: Alter> {
    /// There is none.
    Nothing,

    /// It is to be closed, so that the file has all of the desk by itself.
    Close(Connection<S>),

    /// It is to be let go, and the file stays as it is: its log may have some of the desk.
    LetGo(Connection<S>),
}
