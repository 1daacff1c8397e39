//! The paths and methods of requests: each route by each method, and paths that are none.
use super::follow;
use std::alloc::AllocError;
use std::test::Fail;

#[test]
fn looks_at_the_path_and_then_at_the_method(rt: HostRuntime) -> Result<(), Fail> {
    let mut steps = String::new(rt.alloc());
    for route in ROUTES.trim().lines() {
        add_route(&mut steps, route.trim())?;
    }
    follow(&rt, rt.alloc(), steps.as_str())
}

/// The methods of requests, separated by spaces.
const METHODS: &str = "GET HEAD POST PUT DELETE CONNECT OPTIONS TRACE PATCH get post X GETS POS";

/// What an office with an empty desk answers to a request without a body: the method of the route,
/// its path, and the status and body of the response.
const ROUTES: &str = "
    GET /roll 200 OK|Developers: 0␊Current: 0␊
    GET /status/0 409 Conflict|refused 9 NoResolution␊
    GET /status/1 409 Conflict|refused 9 NoResolution␊
    GET /status/999999999 409 Conflict|refused 9 NoResolution␊
    GET /tally/0 409 Conflict|refused 9 NoResolution␊
    GET /tally/20 409 Conflict|refused 9 NoResolution␊
    GET /result/0 409 Conflict|refused 9 NoResolution␊
    GET /result/123456789 409 Conflict|refused 9 NoResolution␊
    POST /developers 400 Bad Request|bad field login␊
    POST /import 400 Bad Request|bad roll 1␊
    POST /resolutions 400 Bad Request|bad field author␊
    POST /resolutions/1/choice 400 Bad Request|bad field author␊
    POST /resolutions/0/sponsor 400 Bad Request|bad field choice␊
    POST /resolutions/1/unsponsor 400 Bad Request|bad field choice␊
    POST /resolutions/999999999/withdraw 400 Bad Request|bad field choice␊
    POST /resolutions/1/adopt 400 Bad Request|bad field choice␊
    POST /resolutions/1/amend 400 Bad Request|bad field choice␊
    POST /resolutions/1/vary 400 Bad Request|bad field days␊
    POST /resolutions/1/call 400 Bad Request|bad field days␊
    POST /resolutions/1/vote 400 Bad Request|bad field login␊
    POST /resolutions/0/close 409 Conflict|refused 9 NoResolution␊
    POST /resolutions/1/close 409 Conflict|refused 9 NoResolution␊
    POST /resolutions/200/cast 400 Bad Request|bad field place␊
    ";

/// Adds what is answered to each method on the path of this route.
fn add_route(steps: &mut String, route: &str) -> Result<(), Fail> {
    let Some((allowed, rest)) = route.split_once(' ') else {
        return Err("no path".into());
    };
    let Some((path, told)) = rest.split_once(' ') else {
        return Err("no answer".into());
    };
    for method in METHODS.split(' ') {
        if method == allowed {
            add_queries(steps, method, path, told)?;
        } else {
            add_queries(steps, method, path, not_allowed(allowed))?;
        }
    }
    Ok(())
}

/// What is told where another method is allowed than that of the request.
fn not_allowed(allowed: &str) -> &'static str {
    match allowed {
        "GET" => "405 Method Not Allowed⏎Allow: GET|method not allowed␊",
        _ => "405 Method Not Allowed⏎Allow: POST|method not allowed␊",
    }
}

/// Adds that this is answered to the method and the path, with each query.
fn add_queries(steps: &mut String, method: &str, path: &str, told: &str) -> Result<(), AllocError> {
    for query in ["", "?", "?login=a", "?/roll?"] {
        write!(
            steps,
            "NEW_YEAR raw {method} {path}{query} HTTP/1.1⏎⏎ -> {told}\n"
        )?;
    }
    Ok(())
}

#[test]
fn finds_no_other_path(rt: HostRuntime) -> Result<(), Fail> {
    let mut steps = String::new(rt.alloc());
    for path in NO_ROUTES.split_whitespace() {
        for method in ["GET", "POST", "HEAD"] {
            add_queries(&mut steps, method, path, "404 Not Found|not found␊")?;
        }
    }
    follow(&rt, rt.alloc(), steps.as_str())
}

/// Paths that are near a route, and that are none.
const NO_ROUTES: &str = "
    / // * roll /0 /0/0 /1/1/1 http://localhost/roll
    /rolls /rol /roll/ //roll /./roll /Roll /ROLL /%72oll /roll%20 /roll# /roll#a /roll/0 /roll/5
    /status /status/ /status/1/ /status/1/1 /status//1 /statu/1 /Status/1 /status/1#a
    /status/{r} /status/:r /status/01 /status/00 /status/+1 /status/-1 /status/-0 /status/a
    /status/1a /status/1.0 /status/1,0 /status/%31 /status/1000000000 /status/0000000001
    /status/4294967297 /status/18446744073709551617
    /tally /tally/ /tally/01 /tally/+1 /tally/{r} /tally/1000000000 /tally/1/close
    /result /result/ /result/01 /result/-1 /result/{r} /result/9999999999 /results/1
    /developers/ /developers/0 /developers/7 /developer /import/ /import/0 /imports
    /resolutions/ /resolutions/0 /resolutions/1 /resolutions/1/ /resolution/1/vote
    /resolutions/choice /resolutions//choice /resolutions/{r}/choice /resolutions/01/choice
    /resolutions/+1/sponsor /resolutions/-1/unsponsor /resolutions/a/withdraw
    /resolutions/1000000000/adopt /resolutions/1/amend/ /resolutions/1/vary/1
    /resolutions/1/call# /resolutions/1/Vote /resolutions/1/votes /resolutions/1//vote
    /resolutions/%31/close /resolutions/1/%63ast /resolutions/1/1 /resolutions/1/0
    /resolutions/1/roll /resolutions/0/status /1/resolutions/vote
    ";
