//! The router of the office.
ghost use Rattle.std.specs.Prelude.{IfOk, IfSome, Option};
ghost use Rattle.toll_wire.specs.Routers.{IsOffice, OfficeRows};

use crate::routes::route::{Endpoint, ROUTES};
use matchit::{InsertError, Router};
use std::alloc::{AllocError, Global};
use std::marker::Model;

/// The router of the office, which routes many requests: the first of them builds it.
#[derive(Drop)]
pub struct OfficeRouter {
    built: Option<Router<Endpoint>>,
}

impl Model for OfficeRouter {
    ghost Value = { Option OfficeRows };

    ghost view = { λ router. router.built };

    ghost invariant = { λ router. IfSome router.built IsOffice };
}

impl OfficeRouter {
    /// A router that isn't built yet. It takes no memory.
    pub fn new() -> Self {
        OfficeRouter { built: None }
    }

    /// The router, which is built now if it wasn't before. An `Err` means that there was no memory for it;
    /// the next request tries again.
    pub fn built(&mut self, alloc: Global) -> Result<&Router<Endpoint>, AllocError>
        ensures { IfOk result (λ router. IsOffice router.now) }
    {
        if self.built.is_none() {
            self.built = Some(build(alloc)?);
        }
        Ok(self.built.as_ref().unwrap())
    }
}

// Builds the router.
fn build(alloc: Global) -> Result<Router<Endpoint>, AllocError>
    ensures { IfOk result IsOffice }
{
    let mut router = Router::new(alloc);
    for route in &ROUTES {
        if let Err(error) = router.insert(route.pattern, route.endpoint) {
            prove!(matches!(&error, InsertError::OutOfMemory));
            return Err(AllocError);
        }
    }
    Ok(router)
}
