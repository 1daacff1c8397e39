//! Failures: why a line was not done, what error output says of it, and the exit status.
ghost use Rattle.std.specs.Prelude.{◌≡◌, ◌-◌, ◌^◌, ◌<◌, Some};
ghost use Rattle.gr_desk.specs.ErrorOutput.{Says};
ghost use Rattle.gr_desk.specs.Failure.{exit_of, failure_of_act, failure_of_sheet, line_of};
ghost use Rattle.gr_desk.specs.declared.failure.Failure.TheVariants as failures;

use crate::error_output::say;
use gr_core::Refusal;
use gr_http::line::{problem_line, refusal_line};
use gr_http::output::Output;
use gr_http::problem::Problem;
use gr_http::response::fault_line;
use gr_office::{ActFault, Fault, SheetFault};

/// The exit status of the program where something was refused.
pub(crate) const REFUSED_STATUS: u8 = 1;

/// The exit status of the program where the words are wrong.
pub const WRONG_WORDS_STATUS: u8 = 2;

/// The exit status of the program where something failed.
pub(crate) const FAILED_STATUS: u8 = 3;

/// Why a line was not done.
#[derive(Clone, Copy, Debug, PartialEq, Eq)]
pub enum Failure {
    /// The desk does not accept the command, or does not show the sheet.
    Refused(Refusal),

    /// The roll file has more bytes than the body of a request may have.
    TooLarge,

    /// The record with this number is the first of the roll file that is not of its form.
    BadRoll(usize),

    /// The desk could not be opened or made, or could not do what was asked.
    Fault(Fault),

    /// There is no such file; or a desk in memory was named where one in a file is wanted.
    NoFile,

    /// The roll file cannot be read.
    CannotRead,

    /// The port cannot be listened on.
    CannotListen,

    /// A connection could not be accepted.
    CannotAccept,

    /// A read or a write of the program's streams failed.
    Lost,
}

impl Failure {
    /// The exit status of the program: 1 where something was refused, and else 3.
    pub fn exit_status(self) -> u8
        ensures { result ≡ exit_of self }
    {
        match self {
            Failure::Refused(_) | Failure::TooLarge | Failure::BadRoll(_) => REFUSED_STATUS,
            Failure::Fault(_)
            | Failure::NoFile
            | Failure::CannotRead
            | Failure::CannotListen
            | Failure::CannotAccept
            | Failure::Lost => FAILED_STATUS,
        }
    }

    /// Says why, by a line, ended by a line feed. Takes no memory, since running out of memory is
    /// one of the failures. Where a write fails, that is passed over, and the rest of the line is
    /// left out.
    ///
    /// The line is written piece by piece, and not by `Display`: no clause of the toolchain says
    /// what printing leaves after a failed write. For pieces a clause says that only a beginning of
    /// the line is on error output then.
    pub(crate) fn say<E: Output>(self, errors: &mut E)
        requires { E.failed errors.old < 2 ^ 64 - 1 }
        ensures { Says (E.written errors.old) (E.written errors.new) (E.failed errors.old)
            (E.failed errors.new) (Some (line_of self)) }
    {
        match self {
            Failure::Refused(refusal) => say(errors, &[refusal_line(refusal).as_str()]),
            Failure::TooLarge => say(errors, &[problem_line(Problem::TooLarge).as_str()]),
            Failure::BadRoll(record) => {
                say(errors, &[problem_line(Problem::BadRoll(record)).as_str()])
            }
            Failure::Fault(fault) => say(errors, &[fault_line(fault)]),
            Failure::NoFile => say(errors, &["no file\n"]),
            Failure::CannotRead => say(errors, &["cannot read\n"]),
            Failure::CannotListen | Failure::CannotAccept => say(errors, &["cannot listen\n"]),
            Failure::Lost => say(errors, &["lost\n"]),
        }
    }
}

impl From<Fault> for Failure {
    ghost from_gives = { λ fault failure. failure ≡ failures.Fault fault };

    fn from(fault: Fault) -> Failure {
        Failure::Fault(fault)
    }
}

impl From<ActFault> for Failure {
    ghost from_gives = { λ fault failure. failure ≡ failure_of_act fault };

    fn from(fault: ActFault) -> Failure {
        match fault {
            ActFault::Refused(refusal) => Failure::Refused(refusal),
            ActFault::Fault(fault) => Failure::Fault(fault),
        }
    }
}

impl From<SheetFault> for Failure {
    ghost from_gives = { λ fault failure. failure ≡ failure_of_sheet fault };

    fn from(fault: SheetFault) -> Failure {
        match fault {
            SheetFault::Refused(refusal) => Failure::Refused(refusal),
            SheetFault::Fault(fault) => Failure::Fault(fault),
        }
    }
}
