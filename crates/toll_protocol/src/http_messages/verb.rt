//! The methods that the office serves.
ghost use Rattle.std.specs.Prelude.{◌≡◌, codes};
ghost use Rattle.toll_protocol.specs.Verbs.{verb_of};

use http::Method;

/// A method that the office serves (RFC 9110, section 9.3).
#[derive(Clone, Copy, PartialEq, Eq)]
pub enum Verb {
    Get,
    Post,
}

impl Verb {
    /// The verb that a method names, exactly as written; `None` for every other method.
    pub fn of(method: &[u8]) -> Option<Self>
        ensures { result ≡ verb_of method.now }
    {
        if method == Method::GET.as_str().as_bytes() {
            Some(Verb::Get)
        } else if method == Method::POST.as_str().as_bytes() {
            Some(Verb::Post)
        } else {
            None
        }
    }
}
