//! Command lines: what a subcommand is to do, and why words are none.
ghost use Rattle.std.specs.Prelude.{◌≡◌, ◌⊎◌};
ghost use Rattle.clap.specs.Values.{kind_of};
ghost use Rattle.clap.specs.declared.error.kind.ErrorKind.TheVariants as kinds;
ghost use Rattle.gr_desk.specs.Program.{file_of, wants_a_file};
ghost use Rattle.gr_desk.specs.Words.{IsHelp, IsWrong};
ghost use Rattle.gr_desk.specs.declared.line.NoLine.TheVariants as no_lines;

use clap::error::ErrorKind;
use gr_office::Kind;
use std::alloc::{AllocError, Global};

/// What a subcommand is to do, with a desk in a file. The name `:memory:` stands for a new desk in
/// memory.
#[derive(Clone, Copy, Debug, PartialEq, Eq)]
pub enum Line<'a> {
    /// Make a desk.
    Init {
        /// The file.
        file: &'a str,

        /// Whether each page of the file is to end in its sum.
        has_sums: bool,
    },

    /// Answer one request from standard input.
    Once {
        /// The file.
        file: &'a str,

        /// The moment, in seconds since 1970-01-01T00:00:00Z, at most
        /// [`MAX_AT`](crate::limits::MAX_AT); the clock's where there is none.
        at: Option<u64>,
    },

    /// Serve connections on 127.0.0.1.
    Serve {
        /// The file.
        file: &'a str,

        /// The port, from 1.
        port: u16,

        /// How many connections, from 1 to [`MAX_COUNT`](crate::limits::MAX_COUNT).
        count: u32,

        /// The moment of every request, as for [`Line::Once`].
        at: Option<u64>,
    },

    /// Import a roll file.
    Import {
        /// The file.
        file: &'a str,

        /// The roll file.
        roll: &'a str,

        /// The moment, as for [`Line::Once`].
        at: Option<u64>,
    },

    /// Print a sheet.
    Show {
        /// The file.
        file: &'a str,

        /// Which sheet.
        kind: Kind,

        /// The number of the resolution, from 1 to [`MAX_NUMBER`](crate::limits::MAX_NUMBER); 0 for
        /// the roll, which is of none.
        number: u32,
    },

    /// Upgrade the file to the program's version.
    Migrate {
        /// The file.
        file: &'a str,
    },
}

impl<'a> Line<'a> {
    /// The name of the desk's file.
    pub fn file(&self) -> &'a str
        ensures { result.now ≡ file_of self.now }
    {
        match self {
            Line::Init { file, .. }
            | Line::Once { file, .. }
            | Line::Serve { file, .. }
            | Line::Import { file, .. }
            | Line::Show { file, .. }
            | Line::Migrate { file } => file,
        }
    }

    /// Whether it wants a desk in a file, and does nothing with one in memory.
    pub fn wants_a_file(&self) -> bool
        ensures { result ≡ wants_a_file self.now }
    {
        matches!(self, Line::Init { .. } | Line::Migrate { .. })
    }
}

/// Why there is no line. It is not an error in Rust's sense: wrong words and a wish for help have
/// the text of `clap`, and the program decides to which stream it goes.
#[derive(Debug, Drop)]
pub enum NoLine {
    /// The words are wrong, as this text says.
    Words(String),

    /// Help was asked for, or the version, and is this text.
    Help(String),

    /// The memory to read them was refused.
    Memory,
}

impl NoLine {
    /// What `clap` says of the words.
    pub(crate) fn of(alloc: Global, error: &clap::Error) -> NoLine
        ensures help { IsHelp result → (kind_of error.now ≡ kinds.DisplayHelp)
            ⊎ (kind_of error.now ≡ kinds.DisplayVersion) }
        ensures wrong { IsWrong result → ¬ (kind_of error.now ≡ kinds.OutOfMemory) }
    {
        if error.kind() == ErrorKind::OutOfMemory {
            return NoLine::Memory;
        }
        let Ok(text) = text_of(alloc, error) else {
            return NoLine::Memory;
        };
        if error.use_stderr() {
            NoLine::Words(text)
        } else {
            NoLine::Help(text)
        }
    }
}

fn text_of(alloc: Global, error: &clap::Error) -> Result<String, AllocError> {
    format!(in alloc; "{error}")
}

impl From<AllocError> for NoLine {
    ghost from_gives = { λ _ no_line. no_line ≡ no_lines.Memory };

    fn from(_error: AllocError) -> NoLine {
        NoLine::Memory
    }
}
