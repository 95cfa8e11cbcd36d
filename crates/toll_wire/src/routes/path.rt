//! The endpoint of a path.
ghost use Rattle.std.specs.Prelude.{◌≡◌, ◌==◌, position};
ghost use Rattle.toll_wire.specs.Places.{PathLeadsTo, path_of};
ghost use Rattle.toll_wire.specs.Routers.{IsOffice};
ghost use Rattle.toll_wire.specs.Routes.{routes};

use crate::routes::route::Endpoint;
use crate::routes::values::Values;
use matchit::Router;
use std::str::from_utf8;

/// The target up to its first question mark (RFC 9112, section 3.2.1).
pub fn path_of(target: &[u8]) -> &[u8]
    ensures { result.now ≡ path_of target.now }
{
    match query_start(target) {
        Some(end) => &target[..end],
        None => target,
    }
}

fn query_start(target: &[u8]) -> Option<usize>
    ensures { result ≡ position (λ b. b == 63) target.now }
{
    target.iter().position(|b| *b == b'?')
}

/// The endpoint of a path by the router of the office, with the values that the path has there; `None` if the
/// path has no route.
pub fn endpoint_of(router: &Router<Endpoint>, path: &[u8]) -> Option<(Endpoint, Values)>
    requires { IsOffice router.now }
    ensures { PathLeadsTo routes path.now result }
{
    let found = router.at(from_utf8(path).ok()?).ok()?;
    let values = found.value.parts.read(found.params.iter())?;
    Some((*found.value, values))
}
