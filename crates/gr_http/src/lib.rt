//! One HTTP request in and one response out, over any reader and writer (RFC 9112).
//!
//! [`answer`](answer::answer) reads a request, does at an office what it asks, and writes the
//! response to it.
#![tactic(auto)]

pub mod answer;
mod body;
mod demand;
pub mod door;
pub mod field;
mod form;
mod head;
pub mod in_memory;
pub mod input;
mod length;
pub mod limits;
pub mod line;
pub mod memory_door;
pub mod memory_input;
pub mod method;
mod number;
pub mod output;
mod pieces;
pub mod problem;
mod records;
pub mod reopening;
mod request;
pub mod response;
pub mod roll_file;
pub mod route;
pub mod secrecy;
pub mod serve;
pub mod streams;
