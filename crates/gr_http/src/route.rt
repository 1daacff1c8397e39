//! The routes: which paths the desk knows, and by which method.
ghost use Rattle.std.specs.Prelude.{◌≡◌, true, ◌∷◌, IfOk, IfSome, MatchOption, OnOk, false, option_map};
ghost use Rattle.std.specs.Option.{option_copied};
ghost use Rattle.gr_http.specs.Route.{entry_of, route_of, resolution_in, path_of, paths, are_distinct, segments, segments_behind};
ghost use Rattle.gr_http.specs.Route.{PathsHaveOneRoute, RoutesAreInTheTable};
ghost use Rattle.gr_http.specs.declared.route.Shape.TheVariants.{Plain, OfResolution, InResolution};
ghost use Rattle.gr_http.specs.PathWords.{IsTable, IsFree, Adds, routes_of, path_word, said_in, route_with};

use crate::method::AllowedMethod;
use crate::number::number_said;
use gr_core::Memory;
use matchit::{InsertError, Router};
use std::alloc::Global;

/// The word of the path of resolutions, and the first one of each path that goes on from there.
const RESOLUTIONS: &str = "resolutions";

/// What a path names. Where it has the number of a resolution, `{r}` stands for it here.
#[derive(Clone, Copy, Debug, PartialEq, Eq)]
pub enum Route {
    /// `/roll`: the sheet of the roll.
    Roll,

    /// `/status/{r}`: the sheet of a resolution's state.
    Status,

    /// `/tally/{r}`: the sheet of its ballots.
    Tally,

    /// `/result/{r}`: the sheet of its result.
    Result,

    /// `/developers`: to put a developer on the roll.
    Developers,

    /// `/import`: to import a roll.
    Import,

    /// `/resolutions`: to propose a resolution.
    Resolutions,

    /// `/resolutions/{r}/choice`: to add a choice.
    Choice,

    /// `/resolutions/{r}/sponsor`: to sponsor a choice.
    Sponsor,

    /// `/resolutions/{r}/unsponsor`: to sponsor it no more.
    Unsponsor,

    /// `/resolutions/{r}/withdraw`: to withdraw as the proposer of a choice.
    Withdraw,

    /// `/resolutions/{r}/adopt`: to step forward as the proposer of a choice.
    Adopt,

    /// `/resolutions/{r}/amend`: to amend a choice.
    Amend,

    /// `/resolutions/{r}/vary`: to vary the length of the discussion.
    Vary,

    /// `/resolutions/{r}/call`: to call for the vote.
    Call,

    /// `/resolutions/{r}/vote`: to vote.
    Vote,

    /// `/resolutions/{r}/close`: to close the vote.
    Close,

    /// `/resolutions/{r}/cast`: to give the casting vote.
    Cast,
}

impl Route {
    /// The method by which the route is asked, and the word of its path. The definition has what is
    /// read from a body beside them, in one table (`entry_of`). A function cannot be a value of a
    /// table here, so `asked` of `demand` has that, with an arm for each route.
    fn entry(&self) -> (AllowedMethod, &'static str)
        ensures method { result.0 ≡ (entry_of self.now).method }
        ensures word { result.1.now ≡ path_word self.now }
    {
        use AllowedMethod::{Get, Post};
        match self {
            Route::Roll => (Get, "roll"),
            Route::Status => (Get, "status"),
            Route::Tally => (Get, "tally"),
            Route::Result => (Get, "result"),
            Route::Developers => (Post, "developers"),
            Route::Import => (Post, "import"),
            Route::Resolutions => (Post, RESOLUTIONS),
            Route::Choice => (Post, "choice"),
            Route::Sponsor => (Post, "sponsor"),
            Route::Unsponsor => (Post, "unsponsor"),
            Route::Withdraw => (Post, "withdraw"),
            Route::Adopt => (Post, "adopt"),
            Route::Amend => (Post, "amend"),
            Route::Vary => (Post, "vary"),
            Route::Call => (Post, "call"),
            Route::Vote => (Post, "vote"),
            Route::Close => (Post, "close"),
            Route::Cast => (Post, "cast"),
        }
    }

    /// The method by which the route is asked.
    pub fn method(&self) -> AllowedMethod
        ensures { result ≡ (entry_of self.now).method }
    {
        self.entry().0
    }
}

/// The shape of a path: where the number of a resolution stands beside its word.
#[derive(Clone, Copy)]
enum Shape {
    /// `/word`, with no number.
    Plain,

    /// `/word/{r}`.
    OfResolution,

    /// `/resolutions/{r}/word`.
    InResolution,
}

impl Shape {
    const PLAIN: [Route; 4] = [
        Route::Developers,
        Route::Import,
        Route::Resolutions,
        Route::Roll,
    ];

    const OF_RESOLUTION: [Route; 3] = [Route::Result, Route::Status, Route::Tally];

    const IN_RESOLUTION: [Route; 11] = [
        Route::Adopt,
        Route::Amend,
        Route::Call,
        Route::Cast,
        Route::Choice,
        Route::Close,
        Route::Sponsor,
        Route::Unsponsor,
        Route::Vary,
        Route::Vote,
        Route::Withdraw,
    ];

    /// The routes whose paths have the shape, in the order of their words.
    fn routes(self) -> &'static [Route]
        ensures { result.now ≡ routes_of self }
    {
        match self {
            Shape::Plain => &Shape::PLAIN,
            Shape::OfResolution => &Shape::OF_RESOLUTION,
            Shape::InResolution => &Shape::IN_RESOLUTION,
        }
    }
}

/// The table of routes: those of each shape by their words, as they stand, so finding one takes no
/// memory. A pattern of `matchit` with a parameter takes any text for the number, and its contract
/// says what it finds by the steps of a search. For words that search is a look-up.
#[derive(Drop)]
pub struct Routes {
    plain: Router<Route>,
    of_resolution: Router<Route>,
    in_resolution: Router<Route>,
    ghost plain_table: { IsTable Plain plain },
    ghost of_resolution_table: { IsTable OfResolution of_resolution },
    ghost in_resolution_table: { IsTable InResolution in_resolution },
}

impl Routes {
    /// The table of all routes. No two of them conflict. [`Memory`]: the memory for it was refused.
    pub fn new(alloc: Global) -> Result<Routes, Memory>
        ensures { are_distinct paths ≡ true }
    {
        Ok(Routes {
            plain: table(alloc, Shape::Plain)?,
            of_resolution: table(alloc, Shape::OfResolution)?,
            in_resolution: table(alloc, Shape::InResolution)?,
        })
    }

    /// The route of a path, which compares byte by byte, and the number of the resolution that the
    /// path names. Takes no memory.
    ///
    /// The number is 0 where the path names none: what is asked by these four routes does not look
    /// at it, nor does [`Office::sheet`](gr_office::Office::sheet) for the roll. An `Option` would
    /// have each of the other fourteen ask for what its path always has.
    pub fn find(&self, path: &str) -> Option<(Route, u32)>
        ensures { result
            ≡ option_map (λ route. (route, resolution_in path.now)) (route_of path.now) }
    {
        let said = read_path(path)?;
        let route = self.at(said.shape, said.word)?;
        Some((route, said.resolution))
    }

    /// The route of this shape with this word.
    fn at(&self, shape: Shape, word: &str) -> Option<Route>
        ensures { result ≡ route_with shape word.now }
    {
        let router = match shape {
            Shape::Plain => &self.plain,
            Shape::OfResolution => &self.of_resolution,
            Shape::InResolution => &self.in_resolution,
        };
        match router.at(word) {
            Ok(found) => Some(*found.value),
            Err(_) => None,
        }
    }
}

/// A router of the routes of a shape. [`Memory`]: the memory for it was refused.
fn table(alloc: Global, shape: Shape) -> Result<Router<Route>, Memory>
    ensures { IfOk result (IsTable shape) }
{
    let mut router = Router::new(alloc);
    for route in shape.routes() {
        insert(&mut router, *route)?;
    }
    Ok(router)
}

/// Adds a route that conflicts with none. [`Memory`]: the memory for it was refused.
fn insert(router: &mut Router<Route>, route: Route) -> Result<(), Memory>
    requires { IsFree (path_word route) router.old }
    ensures { OnOk result (Adds (path_word route) route router.old router.new) }
{
    let (_, word) = route.entry();
    match router.insert(word, route) {
        Ok(()) => Ok(()),
        Err(InsertError::OutOfMemory) => Err(Memory),
        Err(_) => unreachable!(),
    }
}

/// What a path says: its word, its shape, and the resolution that it names, 0 for none.
#[derive(Clone, Copy)]
struct Said<'a> {
    shape: Shape,
    word: &'a str,
    resolution: u32,
}

/// Reads a path. `None`: it has none of the shapes, or another text for the number.
#[tactic(auto, using(crate::proofs::RouteLemmas::segments_some), unfolding(crate::specs::Route::resolution_in))]
fn read_path(path: &str) -> Option<Said<'_>>
    ensures said { MatchOption result ((said_in (segments path.now)).2 ≡ false)
        (λ said. said_in (segments path.now) ≡ (said.shape, said.word.now, true)) }
    ensures resolution { IfSome result (λ said. said.resolution ≡ resolution_in path.now) }
{
    let (before, more) = first_segment(path);
    if !before.is_empty() {
        return None;
    }
    let (first, more) = first_segment(more?);
    let Some(more) = more else {
        return Some(Said {
            shape: Shape::Plain,
            word: first,
            resolution: 0,
        });
    };
    let (second, more) = first_segment(more);
    let resolution = number_said(second)?;
    let Some(more) = more else {
        return Some(Said {
            shape: Shape::OfResolution,
            word: first,
            resolution,
        });
    };
    let (word, more) = first_segment(more);
    if first != RESOLUTIONS || more.is_some() {
        return None;
    }
    Some(Said {
        shape: Shape::InResolution,
        word,
        resolution,
    })
}

/// The first segment of a path, and what is after its slash, where there is one.
fn first_segment(path: &str) -> (&str, Option<&str>)
    ensures { segments path.now ≡ result.0.now ∷ segments_behind (option_copied result.1) }
{
    match path.split_once('/') {
        Some((segment, rest)) => (segment, Some(rest)),
        None => (path, None),
    }
}

/// The path of a target: what stands before its first question mark.
pub fn path_of(target: &str) -> &str
    ensures { result.now ≡ path_of target.now }
{
    match target.split_once('?') {
        Some((path, _)) => path,
        None => target,
    }
}

/// No path is one of two routes, and each route stands in the table, whatever its order.
pub fn paths_have_one_route()
    ensures one { PathsHaveOneRoute }
    ensures all { RoutesAreInTheTable }
{}
