//! Why a request is answered without a command.
ghost use Rattle.std.specs.Prelude.{◌≡◌, option_map};
ghost use Rattle.toll_protocol.specs.Failures.{allowed_after, status_of_failure, word_of_failure};

use crate::http_messages::verb::Verb;
use http::StatusCode;

/// Why a request is answered without a command: which check of the request it fails.
#[derive(Clone, Copy, PartialEq, Eq)]
pub enum Failure {
    /// The head, a field or the body can't be read.
    BadRequest,
    /// No owner that was added has this name and key.
    Forbidden,
    /// The target has no route.
    NoRoute,
    /// The target is served only with the other method, which is given here.
    MethodNotAllowed(Verb),
    /// The body is larger than the server reads.
    TooLarge,
    /// A transfer coding, or a method that no target is served with.
    NotImplemented,
}

impl Failure {
    /// The status code (RFC 9110, section 15).
    pub fn status(&self) -> StatusCode
        ensures { result ≡ status_of_failure self.now }
    {
        match self {
            Failure::BadRequest => StatusCode::BAD_REQUEST,
            Failure::Forbidden => StatusCode::FORBIDDEN,
            Failure::NoRoute => StatusCode::NOT_FOUND,
            Failure::MethodNotAllowed(_) => StatusCode::METHOD_NOT_ALLOWED,
            Failure::TooLarge => StatusCode::PAYLOAD_TOO_LARGE,
            Failure::NotImplemented => StatusCode::NOT_IMPLEMENTED,
        }
    }

    /// The word of the body; `None` if there is no body.
    pub fn word(&self) -> Option<&'static str>
        ensures { option_map (λ word. word.now) result ≡ word_of_failure self.now }
    {
        match self {
            Failure::BadRequest => Some("BadRequest"),
            Failure::Forbidden => Some("Forbidden"),
            Failure::NoRoute => Some("NoRoute"),
            Failure::MethodNotAllowed(_) => Some("MethodNotAllowed"),
            Failure::TooLarge => Some("TooLarge"),
            Failure::NotImplemented => None,
        }
    }

    /// The method that is allowed in place of the request's.
    pub fn allowed(&self) -> Option<Verb>
        ensures { result ≡ allowed_after self.now }
    {
        match self {
            Failure::MethodNotAllowed(verb) => Some(*verb),
            _ => None,
        }
    }
}
