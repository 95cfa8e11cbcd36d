//! Laws of all requests.
ghost use Rattle.toll_wire.specs.Addresses.{AskForOneThing, HaveAddresses, HaveRoutes};

/// A method, a target and a body ask for one thing.
pub fn a_request_asks_for_one_thing()
    ensures { AskForOneThing }
{}

/// Each request whose names are names and whose numbers are those of batches has a method and a path that ask
/// for it, with any query and any body; an order is asked for by a body that asks for it.
pub fn each_request_has_its_route()
    ensures { HaveRoutes }
{}

/// What asks for a request has its method, and a target of its path and any query. The request's names are
/// names, and its numbers are those of batches; an order is the one that the body asks for.
pub fn a_request_has_its_address()
    ensures { HaveAddresses }
{}
