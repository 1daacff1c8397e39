//! The methods by which routes are asked.
ghost use Rattle.std.specs.Prelude.{◌≡◌};
ghost use Rattle.gr_http.specs.Method.{method_of};

use http::Method;

/// A method by which a route is asked (RFC 9110, section 9.3).
#[derive(Clone, Copy, Debug, PartialEq, Eq)]
pub enum AllowedMethod {
    /// `GET`: to show a sheet.
    Get,

    /// `POST`: to carry out a command.
    Post,
}

impl AllowedMethod {
    /// The method.
    pub fn method(&self) -> Method
        ensures { result ≡ method_of self.now }
    {
        match self {
            AllowedMethod::Get => Method::GET,
            AllowedMethod::Post => Method::POST,
        }
    }
}
