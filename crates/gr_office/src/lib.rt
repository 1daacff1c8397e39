//! The office: a desk that is kept in a database, until a fault closes it.
//!
//! [`Office::create`] makes a new desk and [`Office::open`] finds the one that a database has.
//! [`Office::act`] carries out a command, [`Office::run`] a list of them, and [`Office::sheet`]
//! shows how the desk reads. [`Office::close`] hands the connection back. What the office could not
//! do is a [`Fault`].
#![tactic(auto)]

mod fault;
pub mod laws;
mod office;
mod run;

pub use fault::{ActFault, SheetFault};
pub use gr_sheet::Kind;
pub use gr_store::{Fault, NotOpened};
pub use office::Office;
pub use run::{Answer, Stopped};
