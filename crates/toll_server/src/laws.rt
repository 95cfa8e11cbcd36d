//! Laws of what a server does.
ghost use Rattle.std.specs.Prelude.{◌≡◌, List};
ghost use Rattle.toll_server.specs.Connections.{most_submitted};
ghost use Rattle.toll_server.specs.Rounds.{IsServedInRounds};
ghost use Rattle.toll_server.specs.ServerEvents.{ServerEvent};
ghost use Rattle.toll_server.specs.declared.connection.TheConstants.{MOST_MILLISECONDS};
ghost use Rattle.toll_server.specs.declared.connections.TheConstants.{MOST_ACCEPTS, PAUSE_MILLISECONDS, PLACES_FOR_EACH};
ghost use Rattle.toll_server.specs.declared.expiry.TheConstants.{PLANT_RESERVE};
ghost use Rattle.toll_server.specs.declared.network.TheConstants.{MOST_OPEN_CONNECTIONS, MOST_READY};

use crate::listener::Listener;
use crate::network::Network;
use crate::service::Service;
use toll_protocol::Stream;

/// The limits of a server are those in its documentation. 900 connections are open at once at most. A client has
/// 10,000 milliseconds to send its request, and again to read the reply. 8 connections are kept for the plant, so
/// owners may have 892 that sent their requests. A party has two places in the queue for each connection that may
/// still send. Without resources none is accepted for 1,000 milliseconds. Between two waits 64 are accepted and
/// 4,096 advance at most.
pub fn limits_are_those_defined()
    ensures open { MOST_OPEN_CONNECTIONS ≡ 900 }
    ensures time { MOST_MILLISECONDS ≡ 10000 }
    ensures reserve { PLANT_RESERVE ≡ 8 }
    ensures owners { most_submitted MOST_OPEN_CONNECTIONS Listener.Owners ≡ 892 }
    ensures places { PLACES_FOR_EACH ≡ 2 }
    ensures pause { PAUSE_MILLISECONDS ≡ 1000 }
    ensures accepts { MOST_ACCEPTS ≡ 64 }
    ensures ready { MOST_READY ≡ 4096 }
{}

/// What a server does is done in rounds. In each, one wait ends, all connections that are ready advance, those
/// whose time is over are closed, and the service takes one turn for the connection that has waited longest. A
/// request that is whole joins the queue and is handed to the service once, or waits for its turn, or its connection
/// is closed because its party has its share.
/// Connections that are reading are closed in the end only after the last owner was accepted.
pub fn what_is_served_is_served_in_rounds<S: Stream, O: Service>()
    ensures { (events : List (ServerEvent S O.Task O.Party)) → IsServedInRounds O.Party.eq O.is_by O.answers O.resumes S.Source S.Sink events }
{}
