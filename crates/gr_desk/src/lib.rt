//! The voting desk of a Project Secretary, as its program has it: a desk in a file, its acts by
//! HTTP on loopback, by standard input or by roll files, and its sheets. The program itself is the
//! crate `gr_main`, which calls [`run_machine`](program::run_machine).
#![tactic(auto)]

mod any_store;
mod blank;
pub mod clock;
mod csv_file;
pub mod ending;
mod error_output;
pub mod failure;
pub mod file;
mod help;
pub mod host;
pub mod import;
mod in_memory;
pub mod init;
pub mod life;
pub mod limits;
pub mod line;
pub mod migrate;
pub mod no_office;
pub mod once;
mod open;
pub mod program;
pub mod restart;
pub mod serve;
pub mod show;
pub mod steps;
mod subcommands;
pub mod system;
pub mod timed;
pub mod version;
pub mod watch;
pub mod words;
