//! What a request asks of the office.
ghost use Rattle.std.specs.Prelude.{◌≡◌, ℕ, Ok};
ghost use Rattle.std.specs.Str.{bytes_eq};
ghost use Rattle.gr_core.specs.Parts.Choice.{wording_of};
ghost use Rattle.gr_http.specs.Method.{method_of};
ghost use Rattle.gr_http.specs.Problem.{Understands};
ghost use Rattle.gr_http.specs.Route.{choice_in, wording_in};
ghost use Rattle.gr_http.specs.Demand.{asked_of, demand_of, demand_view};

use crate::field::Field;
use crate::form::Form;
use crate::method::AllowedMethod;
use crate::problem::{NoDemand, Problem};
use crate::request::Request;
use crate::roll_file::read_roll;
use crate::route::{Route, Routes, path_of};
use gr_core::{ChoiceKey, Command, Wording};
use gr_office::Kind;
use std::alloc::Global;

/// What a request asks of the office.
#[derive(Debug, Drop)]
pub enum Demand {
    /// To carry out a command.
    Do(Command),

    /// To show the sheet of this kind, of the resolution with this number; for the roll the number
    /// is not looked at.
    Show(Kind, u32),
}

/// What the request asks: its path is looked at, then its method, then what its body says, the
/// fields of a form in their order.
pub fn understand(alloc: Global, routes: &Routes, request: &Request) -> Result<Demand, NoDemand>
    ensures { Understands demand_view (demand_of (Ok request.now)) result }
{
    let Some((route, resolution)) = routes.find(path_of(request.target())) else {
        return Err(NoDemand::Problem(Problem::NotFound));
    };
    let allowed = route.method();
    if !is_allowed(request.method(), allowed) {
        return Err(NoDemand::Problem(Problem::MethodNotAllowed(allowed)));
    }
    asked(alloc, route, resolution, request.body())
}

fn is_allowed(method: &[u8], allowed: AllowedMethod) -> bool
    ensures { result ≡ bytes_eq method.now (method_of allowed) }
{
    method == allowed.method().as_str().as_bytes()
}

/// What a route asks with this body, where its path names this resolution: the table of the routes.
fn asked(alloc: Global, route: Route, resolution: u32, body: &[u8]) -> Result<Demand, NoDemand>
    ensures { Understands demand_view (asked_of route resolution body.now) result }
{
    match route {
        Route::Roll => Ok(Demand::Show(Kind::Roll, resolution)),
        Route::Status => Ok(Demand::Show(Kind::Status, resolution)),
        Route::Tally => Ok(Demand::Show(Kind::Tally, resolution)),
        Route::Result => Ok(Demand::Show(Kind::Result, resolution)),
        Route::Developers => set_developer(alloc, body),
        Route::Import => import_roll(alloc, body),
        Route::Resolutions => propose(alloc, body),
        Route::Choice => add_choice(alloc, resolution, body),
        Route::Sponsor => sponsor(alloc, resolution, body),
        Route::Unsponsor => unsponsor(alloc, resolution, body),
        Route::Withdraw => withdraw(alloc, resolution, body),
        Route::Adopt => adopt(alloc, resolution, body),
        Route::Amend => amend(alloc, resolution, body),
        Route::Vary => vary(alloc, resolution, body),
        Route::Call => call(alloc, resolution, body),
        Route::Vote => vote(alloc, resolution, body),
        Route::Close => Ok(Demand::Do(Command::Close { resolution })),
        Route::Cast => cast(alloc, resolution, body),
    }
}

fn set_developer(alloc: Global, body: &[u8]) -> Result<Demand, NoDemand>
    ensures { (resolution : ℕ) → Understands demand_view
        (asked_of Route.Developers resolution body.now) result }
{
    let form = Form::read(alloc, body)?;
    Ok(Demand::Do(Command::SetDeveloper {
        login: form.text(Field::Login)?,
        name: form.text(Field::Name)?,
        standing: form.standing(Field::Status)?,
    }))
}

fn import_roll(alloc: Global, file: &[u8]) -> Result<Demand, NoDemand>
    ensures { (resolution : ℕ) → Understands demand_view
        (asked_of Route.Import resolution file.now) result }
{
    let rows = read_roll(alloc, file)?;
    Ok(Demand::Do(Command::ImportRoll { rows }))
}

fn propose(alloc: Global, body: &[u8]) -> Result<Demand, NoDemand>
    ensures { (resolution : ℕ) → Understands demand_view
        (asked_of Route.Resolutions resolution body.now) result }
{
    let form = Form::read(alloc, body)?;
    Ok(Demand::Do(Command::Propose {
        proposer: form.proposer(Field::Author)?,
        wording: wording(&form)?,
        ratio: form.number(Field::Ratio)?,
    }))
}

fn add_choice(alloc: Global, resolution: u32, body: &[u8]) -> Result<Demand, NoDemand>
    ensures { Understands demand_view (asked_of Route.Choice resolution body.now) result }
{
    let form = Form::read(alloc, body)?;
    Ok(Demand::Do(Command::AddChoice {
        resolution,
        proposer: form.proposer(Field::Author)?,
        wording: wording(&form)?,
        ratio: form.number(Field::Ratio)?,
    }))
}

fn sponsor(alloc: Global, resolution: u32, body: &[u8]) -> Result<Demand, NoDemand>
    ensures { Understands demand_view (asked_of Route.Sponsor resolution body.now) result }
{
    let form = Form::read(alloc, body)?;
    Ok(Demand::Do(Command::Sponsor {
        choice: choice(&form, resolution)?,
        login: form.text(Field::Login)?,
    }))
}

fn unsponsor(alloc: Global, resolution: u32, body: &[u8]) -> Result<Demand, NoDemand>
    ensures { Understands demand_view (asked_of Route.Unsponsor resolution body.now) result }
{
    let form = Form::read(alloc, body)?;
    Ok(Demand::Do(Command::Unsponsor {
        choice: choice(&form, resolution)?,
        login: form.text(Field::Login)?,
    }))
}

fn withdraw(alloc: Global, resolution: u32, body: &[u8]) -> Result<Demand, NoDemand>
    ensures { Understands demand_view (asked_of Route.Withdraw resolution body.now) result }
{
    let form = Form::read(alloc, body)?;
    Ok(Demand::Do(Command::Withdraw {
        choice: choice(&form, resolution)?,
    }))
}

fn adopt(alloc: Global, resolution: u32, body: &[u8]) -> Result<Demand, NoDemand>
    ensures { Understands demand_view (asked_of Route.Adopt resolution body.now) result }
{
    let form = Form::read(alloc, body)?;
    Ok(Demand::Do(Command::Adopt {
        choice: choice(&form, resolution)?,
        proposer: form.proposer(Field::Author)?,
    }))
}

fn amend(alloc: Global, resolution: u32, body: &[u8]) -> Result<Demand, NoDemand>
    ensures { Understands demand_view (asked_of Route.Amend resolution body.now) result }
{
    let form = Form::read(alloc, body)?;
    Ok(Demand::Do(Command::Amend {
        choice: choice(&form, resolution)?,
        amendment: form.amendment(Field::Minor)?,
        wording: wording(&form)?,
    }))
}

fn vary(alloc: Global, resolution: u32, body: &[u8]) -> Result<Demand, NoDemand>
    ensures { Understands demand_view (asked_of Route.Vary resolution body.now) result }
{
    let form = Form::read(alloc, body)?;
    Ok(Demand::Do(Command::Vary {
        resolution,
        days: form.signed_number(Field::Days)?,
    }))
}

fn call(alloc: Global, resolution: u32, body: &[u8]) -> Result<Demand, NoDemand>
    ensures { Understands demand_view (asked_of Route.Call resolution body.now) result }
{
    let form = Form::read(alloc, body)?;
    Ok(Demand::Do(Command::Call {
        resolution,
        days: form.signed_number(Field::Days)?,
    }))
}

fn vote(alloc: Global, resolution: u32, body: &[u8]) -> Result<Demand, NoDemand>
    ensures { Understands demand_view (asked_of Route.Vote resolution body.now) result }
{
    let form = Form::read(alloc, body)?;
    Ok(Demand::Do(Command::Vote {
        resolution,
        login: form.text(Field::Login)?,
        ranks: form.text(Field::Ranks)?,
        token: form.text(Field::Token)?,
    }))
}

fn cast(alloc: Global, resolution: u32, body: &[u8]) -> Result<Demand, NoDemand>
    ensures { Understands demand_view (asked_of Route.Cast resolution body.now) result }
{
    let form = Form::read(alloc, body)?;
    Ok(Demand::Do(Command::Cast {
        resolution,
        place: form.number(Field::Place)?,
    }))
}

/// The choice of this resolution that a form names.
fn choice(form: &Form<'_>, resolution: u32) -> Result<ChoiceKey, NoDemand>
    ensures { Understands (λ choice. choice) (choice_in resolution form.now) result }
{
    let number = form.number(Field::Choice)?;
    Ok(ChoiceKey { resolution, number })
}

/// The summary and the text of a choice.
fn wording(form: &Form<'_>) -> Result<Wording, NoDemand>
    ensures { Understands wording_of (wording_in form.now) result }
{
    Ok(Wording {
        summary: form.text(Field::Summary)?,
        text: form.text(Field::Text)?,
    })
}
