//! The sheet of the roll.
ghost use Rattle.std.specs.Prelude.{◌≡◌, ◌++◌, IfOk, OnOk, string_bytes};
ghost use Rattle.gr_core.specs.Parts.Developer.{developer_model};
ghost use Rattle.gr_sheet.specs.RollSheet.{developer_line, roll_sheet};

use gr_core::{Desk, Developer, Memory};
use std::alloc::{AllocError, Global};

/// The roll as text: how many developers it has and how many of them are current, and then a line
/// for each with the login, the standing and the name, in the order of the logins' bytes. Each line
/// ends with a line feed.
///
/// [`Memory`]: the memory for the text was refused. It fails for no other reason, so its error is
/// no `NoSheet`.
pub fn roll_text(alloc: Global, desk: &Desk) -> Result<String, Memory>
    ensures { IfOk result (λ text. string_bytes text ≡ roll_sheet desk.now) }
{
    let developers = desk.developers();
    let all = developers.len();
    let current = desk.current_count();
    let mut text = format!(in alloc; "Developers: {all}\nCurrent: {current}\n")?;
    for (login, developer) in developers {
        add_line(&mut text, login.as_str(), developer)?;
    }
    Ok(text)
}

fn add_line(text: &mut String, login: &str, developer: &Developer) -> Result<(), AllocError>
    ensures { OnOk result (string_bytes text.new
        ≡ string_bytes text.old ++ developer_line (login.now, developer_model developer.now)) }
{
    let standing = developer.standing.word();
    let name = developer.name.as_str();
    write!(text, "D: {login} {standing} {name}\n")
}
