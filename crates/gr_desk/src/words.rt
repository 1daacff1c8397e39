//! The words of a command line.
ghost use Rattle.std.specs.Prelude.{◌≡◌, ◌<◌, ◌^◌, ℕ, map, codes, string_bytes, true, false, IfErr, IfOk, IsTrue};
ghost use Rattle.clap.specs.Built.{IsParsedFrom};
ghost use Rattle.clap.specs.Faults.{is_simple_and_free};
ghost use Rattle.clap.specs.Matches.{found_of};
ghost use Rattle.clap.specs.Simple.{HasMatchesOf, app_of};
ghost use Rattle.clap.specs.Takes.{takes};
ghost use Rattle.clap.specs.Walk.{rows_of};
ghost use Rattle.gr_desk.specs.Words.{AskFor, AskForHelp, AskForNone, AskForVersion, AsksItsHelp, BeginsWith, HasFlag, HasMoment, HasNumber, HasText, IsHelp, IsWrong, ShowsResolution, TellsVersion};
ghost use Rattle.gr_desk.specs.Words.{HasSomeMoment, HasSomeNumber, HasSomeText};
ghost use Rattle.gr_desk.specs.Words.{file_app, import_app, init_app, once_app, serve_app, sheet_app};

use crate::limits::{MAX_NUMBER, MIN_NUMBER};
use crate::line::{Line, NoLine};
use crate::subcommands;
use crate::version::VERSION;
use clap::{ArgMatches, Command};
use gr_office::Kind;
use std::alloc::{AllocError, Global};

/// What the words of a command line, the program's name left out, ask for.
///
/// [`NoLine::Words`]: they are wrong. [`NoLine::Help`]: they ask for help, or for the version. All
/// but [`VERSION`] are texts of `clap`. [`NoLine::Memory`]: the memory to read them was refused.
pub fn read_line<'a>(alloc: Global, words: &'a [String]) -> Result<Line<'a>, NoLine>
    ensures line { IfOk result (AskFor (map string_bytes words.now)) }
    ensures help { IfErr result (λ e. IsHelp e → AskForHelp (map string_bytes words.now)) }
    ensures version { IfErr result (λ e.
        AskForVersion (map string_bytes words.now) → TellsVersion e) }
    ensures wrong { IfErr result (λ e. IsWrong e → AskForNone (map string_bytes words.now)) }
{
    if ask_for_version(words) {
        return Err(version(alloc));
    }
    subcommand(alloc, words)
}

/// Whether the words ask for the version.
fn ask_for_version(words: &[String]) -> bool
    ensures asked { IsTrue result → AskForVersion (map string_bytes words.now) }
    ensures found { AskForVersion (map string_bytes words.now) → IsTrue result }
{
    match words.first() {
        Some(word) => matches!(word.as_str(), "--version"),
        None => false,
    }
}

/// The version, or [`NoLine::Memory`] where there is no memory for its text.
fn version(alloc: Global) -> NoLine
    ensures { TellsVersion result }
{
    match String::from_str(alloc, VERSION) {
        Ok(text) => NoLine::Help(text),
        Err(_) => NoLine::Memory,
    }
}

/// The line of a subcommand that the words ask for. `subcommands::program` has each of them too,
/// for its help. Its clause and `help` here go by one list, `subcommands` of specs/Words.antt.
fn subcommand<'a>(alloc: Global, words: &'a [String]) -> Result<Line<'a>, NoLine>
    ensures line { IfOk result (AskFor (map string_bytes words.now)) }
    ensures help { IfErr result (λ e. IsHelp e → AskForHelp (map string_bytes words.now)) }
    ensures wrong { IfErr result (λ e. IsWrong e → AskForNone (map string_bytes words.now)) }
{
    let Some(name) = words.first() else {
        return Err(missing(alloc));
    };
    match name.as_str() {
        "init" => init(alloc, words),
        "once" => once(alloc, words),
        "serve" => serve(alloc, words),
        "import" => import(alloc, words),
        "roll" => roll(alloc, words),
        "status" => status(alloc, words),
        "tally" => tally(alloc, words),
        "result" => result(alloc, words),
        "migrate" => migrate(alloc, words),
        other => Err(no_line(alloc, other, words)),
    }
}

fn init<'a>(alloc: Global, words: &'a [String]) -> Result<Line<'a>, NoLine>
    requires { BeginsWith (codes "init") (map string_bytes words.now) }
    ensures begins { BeginsWith (codes "init") (map string_bytes words.now) }
    ensures line { IfOk result (AskFor (map string_bytes words.now)) }
    ensures help { IfErr result (λ e. IsHelp e
        → AsksItsHelp init_app (map string_bytes words.now)) }
    ensures wrong { IfErr result (λ e. IsWrong e → AskForNone (map string_bytes words.now)) }
{
    let matches = matches_of(alloc, subcommands::init(alloc)?, words)?;
    Ok(Line::Init {
        file: text(&matches, "file"),
        has_sums: flag(&matches, "sums"),
    })
}

fn once<'a>(alloc: Global, words: &'a [String]) -> Result<Line<'a>, NoLine>
    requires { BeginsWith (codes "once") (map string_bytes words.now) }
    ensures begins { BeginsWith (codes "once") (map string_bytes words.now) }
    ensures line { IfOk result (AskFor (map string_bytes words.now)) }
    ensures help { IfErr result (λ e. IsHelp e
        → AsksItsHelp once_app (map string_bytes words.now)) }
    ensures wrong { IfErr result (λ e. IsWrong e → AskForNone (map string_bytes words.now)) }
{
    let matches = matches_of(alloc, subcommands::once(alloc)?, words)?;
    Ok(Line::Once {
        file: text(&matches, "file"),
        at: moment(&matches),
    })
}

fn serve<'a>(alloc: Global, words: &'a [String]) -> Result<Line<'a>, NoLine>
    requires { BeginsWith (codes "serve") (map string_bytes words.now) }
    ensures begins { BeginsWith (codes "serve") (map string_bytes words.now) }
    ensures line { IfOk result (AskFor (map string_bytes words.now)) }
    ensures help { IfErr result (λ e. IsHelp e
        → AsksItsHelp serve_app (map string_bytes words.now)) }
    ensures wrong { IfErr result (λ e. IsWrong e → AskForNone (map string_bytes words.now)) }
{
    let matches = matches_of(alloc, subcommands::serve(alloc)?, words)?;
    Ok(Line::Serve {
        file: text(&matches, "file"),
        port: number(&matches, "port") as u16,
        count: number(&matches, "count") as u32,
        at: moment(&matches),
    })
}

fn import<'a>(alloc: Global, words: &'a [String]) -> Result<Line<'a>, NoLine>
    requires { BeginsWith (codes "import") (map string_bytes words.now) }
    ensures begins { BeginsWith (codes "import") (map string_bytes words.now) }
    ensures line { IfOk result (AskFor (map string_bytes words.now)) }
    ensures help { IfErr result (λ e. IsHelp e
        → AsksItsHelp import_app (map string_bytes words.now)) }
    ensures wrong { IfErr result (λ e. IsWrong e → AskForNone (map string_bytes words.now)) }
{
    let matches = matches_of(alloc, subcommands::import(alloc)?, words)?;
    Ok(Line::Import {
        file: text(&matches, "file"),
        roll: text(&matches, "csv"),
        at: moment(&matches),
    })
}

fn roll<'a>(alloc: Global, words: &'a [String]) -> Result<Line<'a>, NoLine>
    requires { BeginsWith (codes "roll") (map string_bytes words.now) }
    ensures begins { BeginsWith (codes "roll") (map string_bytes words.now) }
    ensures line { IfOk result (AskFor (map string_bytes words.now)) }
    ensures help { IfErr result (λ e. IsHelp e
        → AsksItsHelp (file_app (codes "roll")) (map string_bytes words.now)) }
    ensures wrong { IfErr result (λ e. IsWrong e → AskForNone (map string_bytes words.now)) }
{
    let matches = matches_of(alloc, subcommands::roll(alloc)?, words)?;
    Ok(Line::Show {
        file: text(&matches, "file"),
        kind: Kind::Roll,
        number: 0,
    })
}

fn status<'a>(alloc: Global, words: &'a [String]) -> Result<Line<'a>, NoLine>
    requires { BeginsWith (codes "status") (map string_bytes words.now) }
    ensures begins { BeginsWith (codes "status") (map string_bytes words.now) }
    ensures line { IfOk result (AskFor (map string_bytes words.now)) }
    ensures help { IfErr result (λ e. IsHelp e
        → AsksItsHelp (sheet_app (codes "status")) (map string_bytes words.now)) }
    ensures wrong { IfErr result (λ e. IsWrong e → AskForNone (map string_bytes words.now)) }
{
    let matches = matches_of(alloc, subcommands::status(alloc)?, words)?;
    Ok(sheet(&matches, Kind::Status))
}

fn tally<'a>(alloc: Global, words: &'a [String]) -> Result<Line<'a>, NoLine>
    requires { BeginsWith (codes "tally") (map string_bytes words.now) }
    ensures begins { BeginsWith (codes "tally") (map string_bytes words.now) }
    ensures line { IfOk result (AskFor (map string_bytes words.now)) }
    ensures help { IfErr result (λ e. IsHelp e
        → AsksItsHelp (sheet_app (codes "tally")) (map string_bytes words.now)) }
    ensures wrong { IfErr result (λ e. IsWrong e → AskForNone (map string_bytes words.now)) }
{
    let matches = matches_of(alloc, subcommands::tally(alloc)?, words)?;
    Ok(sheet(&matches, Kind::Tally))
}

fn result<'a>(alloc: Global, words: &'a [String]) -> Result<Line<'a>, NoLine>
    requires { BeginsWith (codes "result") (map string_bytes words.now) }
    ensures begins { BeginsWith (codes "result") (map string_bytes words.now) }
    ensures line { IfOk result (AskFor (map string_bytes words.now)) }
    ensures help { IfErr result (λ e. IsHelp e
        → AsksItsHelp (sheet_app (codes "result")) (map string_bytes words.now)) }
    ensures wrong { IfErr result (λ e. IsWrong e → AskForNone (map string_bytes words.now)) }
{
    let matches = matches_of(alloc, subcommands::result(alloc)?, words)?;
    Ok(sheet(&matches, Kind::Result))
}

/// The line of a sheet of a resolution.
fn sheet<'a>(matches: &ArgMatches<'a>, kind: Kind) -> Line<'a>
    requires file { HasSomeText (rows_of (found_of matches.now)) (codes "file") }
    requires number { HasSomeNumber MIN_NUMBER MAX_NUMBER (rows_of (found_of matches.now))
        (codes "number") }
    ensures { ShowsResolution (rows_of (found_of matches.now)) kind result }
{
    Line::Show {
        file: text(matches, "file"),
        kind,
        number: number(matches, "number") as u32,
    }
}

fn migrate<'a>(alloc: Global, words: &'a [String]) -> Result<Line<'a>, NoLine>
    requires { BeginsWith (codes "migrate") (map string_bytes words.now) }
    ensures begins { BeginsWith (codes "migrate") (map string_bytes words.now) }
    ensures line { IfOk result (AskFor (map string_bytes words.now)) }
    ensures help { IfErr result (λ e. IsHelp e
        → AsksItsHelp (file_app (codes "migrate")) (map string_bytes words.now)) }
    ensures wrong { IfErr result (λ e. IsWrong e → AskForNone (map string_bytes words.now)) }
{
    let matches = matches_of(alloc, subcommands::migrate(alloc)?, words)?;
    Ok(Line::Migrate {
        file: text(&matches, "file"),
    })
}

/// What `clap` makes of the words of a subcommand, the first of which is its name.
fn matches_of<'a>(
    alloc: Global,
    command: Command<'a>,
    words: &'a [String],
) -> Result<ArgMatches<'a>, NoLine>
    ensures matches { IfOk result
        (HasMatchesOf (app_of command.entry) (map string_bytes words.now)) }
    ensures parsed { IfOk result (IsParsedFrom command.entry) }
    ensures help { is_simple_and_free (app_of command.entry) ≡ true → IfErr result (λ e. IsHelp e
        → AsksItsHelp (app_of command.entry) (map string_bytes words.now)) }
    ensures wrong { IfErr result (λ e. IsWrong e
        → takes (app_of command.entry) (map string_bytes words.now) ≡ false) }
{
    match command.try_get_matches_from(words) {
        Ok(matches) => Ok(matches),
        Err(error) => Err(NoLine::of(alloc, &error)),
    }
}

/// The text of a word that is required.
fn text<'a>(matches: &ArgMatches<'a>, id: &str) -> &'a str
    requires { HasSomeText (rows_of (found_of matches.now)) id.now }
    ensures { HasText (rows_of (found_of matches.now)) id.now result.now }
{
    let Some(text) = matches.get_str(id) else {
        unreachable!()
    };
    text
}

/// Whether a flag is among the words.
fn flag(matches: &ArgMatches<'_>, id: &str) -> bool
    ensures { HasFlag (rows_of (found_of matches.now)) id.now result }
{
    match matches.get_str(id) {
        Some(value) => value == "true",
        None => false,
    }
}

/// The number of a word that is required.
fn number(matches: &ArgMatches<'_>, id: &str) -> u64
    requires { (number : ℕ) × HasNumber (rows_of (found_of matches.now)) id.now number
        × (number < 2 ^ 64) }
    ensures { HasNumber (rows_of (found_of matches.now)) id.now result }
{
    let Some(number) = matches.get_one(id) else {
        unreachable!()
    };
    number
}

/// The moment, where the words have one.
fn moment(matches: &ArgMatches<'_>) -> Option<u64>
    requires { HasSomeMoment (rows_of (found_of matches.now)) }
    ensures { HasMoment (rows_of (found_of matches.now)) result }
{
    matches.get_one("at")
}

/// The answer where no word names a subcommand. It is never seen: with no words the program does
/// not call this, and `clap` takes no words without a subcommand, though no clause says so.
fn missing(alloc: Global) -> NoLine
    ensures { ¬ (IsHelp result) }
{
    match missing_text(alloc) {
        Ok(text) => NoLine::Words(text),
        Err(_) => NoLine::Memory,
    }
}

fn missing_text(alloc: Global) -> Result<String, AllocError> {
    String::from_str(alloc, "error: a wrong value for 'subcommand'\n")
}

/// What `clap` says of words whose first one, which is this, names no subcommand. They ask for help
/// where that begins with a dash.
fn no_line(alloc: Global, first: &str, words: &[String]) -> NoLine
    requires { BeginsWith first.now (map string_bytes words.now) }
    ensures { IsHelp result → AskForHelp (map string_bytes words.now) }
{
    let said = no_subcommand(alloc, words);
    if first.starts_with("-") {
        said
    } else {
        wrong(said)
    }
}

/// The same of words that do not ask for help. `clap` shows none for these, but none of its clauses
/// says so. If it ever did, the text would be reported as one of wrong words.
fn wrong(no_line: NoLine) -> NoLine
    ensures { ¬ (IsHelp result) }
{
    match no_line {
        NoLine::Help(text) => NoLine::Words(text),
        other => other,
    }
}

/// What `clap` says of words that name no subcommand.
fn no_subcommand(alloc: Global, words: &[String]) -> NoLine {
    match said_of(alloc, words) {
        Ok(no_line) => no_line,
        Err(_) => NoLine::Memory,
    }
}

fn said_of(alloc: Global, words: &[String]) -> Result<NoLine, AllocError> {
    match subcommands::program(alloc)?.try_get_matches_from(words) {
        Ok(_) => Ok(missing(alloc)),
        Err(error) => Ok(NoLine::of(alloc, &error)),
    }
}
