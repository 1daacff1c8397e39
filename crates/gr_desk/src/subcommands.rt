//! The subcommands as `clap` reads them: their arguments, limits and help.
ghost use Rattle.std.specs.Prelude.{◌≡◌, IfOk, codes, false, map};
ghost use Rattle.clap.specs.Simple.{app_of, new_app};
ghost use Rattle.clap.specs.Walk.{rule_of};
ghost use Rattle.gr_desk.specs.Words.{file_app, init_app, once_app, port_app, serve_app, csv_app, import_app, sheet_app, subcommands};
ghost use Rattle.gr_desk.specs.Words.{word_rule, sums_rule, file_rule, csv_rule, number_rule, port_rule, count_rule, at_rule};

use crate::help;
use crate::limits::{MAX_AT, MAX_COUNT, MAX_NUMBER, MAX_PORT, MIN_COUNT, MIN_NUMBER, MIN_PORT};
use clap::{Arg, ArgAction, Command, value_parser};
use std::alloc::{AllocError, Global};

/// `init FILE [--sums]`.
pub(crate) fn init<'a>(alloc: Global) -> Result<Command<'a>, AllocError>
    ensures { IfOk result (λ c. app_of c ≡ init_app) }
{
    over_file(alloc, "init")?
        .about(help::INIT)
        .after_help(help::AFTER_INIT)
        .arg(sums(alloc))
}

/// `once FILE [--at M]`.
pub(crate) fn once<'a>(alloc: Global) -> Result<Command<'a>, AllocError>
    ensures { IfOk result (λ c. app_of c ≡ once_app) }
{
    over_file(alloc, "once")?
        .about(help::ONCE)
        .after_help(help::AFTER_ONCE)
        .arg(at(alloc))
}

/// `serve FILE --port P --count N [--at M]`.
pub(crate) fn serve<'a>(alloc: Global) -> Result<Command<'a>, AllocError>
    ensures { IfOk result (λ c. app_of c ≡ serve_app) }
{
    on_port(alloc)?
        .about(help::SERVE)
        .after_help(help::AFTER_SERVE)
        .arg(count(alloc))?
        .arg(at(alloc))
}

/// `import FILE CSV [--at M]`.
pub(crate) fn import<'a>(alloc: Global) -> Result<Command<'a>, AllocError>
    ensures { IfOk result (λ c. app_of c ≡ import_app) }
{
    of_roll_file(alloc)?
        .about(help::IMPORT)
        .after_help(help::AFTER_IMPORT)
        .arg(at(alloc))
}

/// `roll FILE`.
pub(crate) fn roll<'a>(alloc: Global) -> Result<Command<'a>, AllocError>
    ensures { IfOk result (λ c. app_of c ≡ file_app (codes "roll")) }
{
    Ok(
        over_file(alloc, "roll")?
            .about(help::ROLL)
            .after_help(help::AFTER_ROLL),
    )
}

/// `status FILE R`.
pub(crate) fn status<'a>(alloc: Global) -> Result<Command<'a>, AllocError>
    ensures { IfOk result (λ c. app_of c ≡ sheet_app (codes "status")) }
{
    Ok(
        over_resolution(alloc, "status")?
            .about(help::STATUS)
            .after_help(help::AFTER_STATUS),
    )
}

/// `tally FILE R`.
pub(crate) fn tally<'a>(alloc: Global) -> Result<Command<'a>, AllocError>
    ensures { IfOk result (λ c. app_of c ≡ sheet_app (codes "tally")) }
{
    Ok(
        over_resolution(alloc, "tally")?
            .about(help::TALLY)
            .after_help(help::AFTER_TALLY),
    )
}

/// `result FILE R`.
pub(crate) fn result<'a>(alloc: Global) -> Result<Command<'a>, AllocError>
    ensures { IfOk result (λ c. app_of c ≡ sheet_app (codes "result")) }
{
    Ok(
        over_resolution(alloc, "result")?
            .about(help::RESULT)
            .after_help(help::AFTER_RESULT),
    )
}

/// `migrate FILE`.
pub(crate) fn migrate<'a>(alloc: Global) -> Result<Command<'a>, AllocError>
    ensures { IfOk result (λ c. app_of c ≡ file_app (codes "migrate")) }
{
    Ok(
        over_file(alloc, "migrate")?
            .about(help::MIGRATE)
            .after_help(help::AFTER_MIGRATE),
    )
}

/// The program with all its subcommands, for its help and for words that name none of them.
pub(crate) fn program<'a>(alloc: Global) -> Result<Command<'a>, AllocError>
    ensures { IfOk result (λ c. (app_of c).subs ≡ map (λ named. named.1.top) subcommands) }
{
    Command::new(alloc, "gr_desk")
        .about(help::PROGRAM)
        .after_help(help::AFTER_PROGRAM)
        .no_binary_name(true)
        .subcommand_required(true)
        .disable_help_subcommand(true)
        .subcommand(init(alloc)?)?
        .subcommand(once(alloc)?)?
        .subcommand(serve(alloc)?)?
        .subcommand(import(alloc)?)?
        .subcommand(roll(alloc)?)?
        .subcommand(status(alloc)?)?
        .subcommand(tally(alloc)?)?
        .subcommand(result(alloc)?)?
        .subcommand(migrate(alloc)?)
}

/// `serve FILE --port P`.
fn on_port<'a>(alloc: Global) -> Result<Command<'a>, AllocError>
    ensures { IfOk result (λ c. app_of c ≡ port_app) }
{
    over_file(alloc, "serve")?.arg(port(alloc))
}

/// `import FILE CSV`.
fn of_roll_file<'a>(alloc: Global) -> Result<Command<'a>, AllocError>
    ensures { IfOk result (λ c. app_of c ≡ csv_app) }
{
    over_file(alloc, "import")?.arg(roll_file(alloc))
}

/// A subcommand with FILE and R.
fn over_resolution<'a>(alloc: Global, name: &'a str) -> Result<Command<'a>, AllocError>
    ensures { IfOk result (λ c. app_of c ≡ sheet_app name.entry.now) }
{
    over_file(alloc, name)?.arg(number(alloc))
}

/// A subcommand with FILE.
fn over_file<'a>(alloc: Global, name: &'a str) -> Result<Command<'a>, AllocError>
    ensures { IfOk result (λ c. app_of c ≡ file_app name.entry.now) }
{
    named(alloc, name)?.arg(file(alloc))
}

/// A subcommand, which its help names behind the program.
fn named<'a>(alloc: Global, name: &'a str) -> Result<Command<'a>, AllocError>
    ensures { IfOk result (λ c. app_of c ≡ new_app name.entry.now) }
{
    let whole = format!(in alloc; "gr_desk {name}")?;
    Command::new(alloc, name).bin_name(whole.as_str())
}

fn file<'a>(alloc: Global) -> Arg<'a>
    ensures { (rule_of result ≡ file_rule) × (result.global ≡ false) }
{
    text(alloc, "file", "FILE").help(help::FILE)
}

fn roll_file<'a>(alloc: Global) -> Arg<'a>
    ensures { (rule_of result ≡ csv_rule) × (result.global ≡ false) }
{
    text(alloc, "csv", "CSV").help(help::CSV)
}

/// A required word.
fn text<'a>(alloc: Global, id: &'a str, shown: &'a str) -> Arg<'a>
    ensures { (rule_of result ≡ word_rule id.entry.now) × (result.global ≡ false) }
{
    Arg::new(alloc, id)
        .value_name(shown)
        .required(true)
        .action(ArgAction::Set)
}

fn number<'a>(alloc: Global) -> Arg<'a>
    ensures { (rule_of result ≡ number_rule) × (result.global ≡ false) }
{
    text(alloc, "number", "R").help(help::NUMBER).value_parser(value_parser!(u32).range(
        MIN_NUMBER as i64..=MAX_NUMBER as i64,
    ))
}

fn port<'a>(alloc: Global) -> Arg<'a>
    ensures { (rule_of result ≡ port_rule) × (result.global ≡ false) }
{
    text(alloc, "port", "P")
        .long("port")
        .help(help::PORT)
        .value_parser(value_parser!(u16).range(MIN_PORT as i64..=MAX_PORT as i64))
}

fn count<'a>(alloc: Global) -> Arg<'a>
    ensures { (rule_of result ≡ count_rule) × (result.global ≡ false) }
{
    text(alloc, "count", "N")
        .long("count")
        .help(help::COUNT)
        .value_parser(value_parser!(u32).range(MIN_COUNT as i64..=MAX_COUNT as i64))
}

fn at<'a>(alloc: Global) -> Arg<'a>
    ensures { (rule_of result ≡ at_rule) × (result.global ≡ false) }
{
    Arg::new(alloc, "at")
        .value_name("M")
        .long("at")
        .help(help::AT)
        .action(ArgAction::Set)
        .value_parser(value_parser!(u64).range(0..=MAX_AT as i64))
}

fn sums<'a>(alloc: Global) -> Arg<'a>
    ensures { (rule_of result ≡ sums_rule) × (result.global ≡ false) }
{
    Arg::new(alloc, "sums")
        .long("sums")
        .help(help::SUMS)
        .action(ArgAction::SetTrue)
}
