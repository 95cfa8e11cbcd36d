//! Serving over a keep, and over an office in a file.
ghost use Rattle.std.specs.Prelude.{◌≡◌, ◌<◌, ℕ, IfOk, OnErr, OnOk};
ghost use Rattle.toll_server.specs.Networks.{EndsSo, Tallies};
ghost use Rattle.toll_server.specs.Queues.{IsServedInTurn};
ghost use Rattle.toll_server.specs.Rounds.{ListensTill};
ghost use Rattle.toll_server.specs.ServerEvents.{IsServed};
ghost use Rattle.toll_service.specs.Parties.{IsBy};
ghost use Rattle.toll_service.specs.FileServing.{IsFileServed};
ghost use Rattle.toll_service.specs.Serving.{AnswersOver, HasServed, ResumesOver};

use crate::keep_service::KeepService;
use crate::office_path::{KeepOpener, OfficePath};
use crate::office_service::OfficeService;
use crate::party::Party;
use std::alloc::Global;
use std::io;
use toll_keep::Keep;
use toll_server::{Network, ServingEnd, serve};

/// Serves this number of owners side by side over a keep, and the plant meanwhile. The plant's imports go on
/// group by group, with other turns in between. All that clients ask is a list of events, in the order in
/// which they were done, and nothing else changes the keep. So it is a run, in which each owner's replies are
/// those that its own events give by themselves. Only tests call it: the program serves a file, with
/// [`serve_file`].
pub fn serve_keep<W: Network, K: Keep>(
    alloc: Global,
    network: &mut W,
    service: &mut KeepService<K>,
    count: u64,
) -> ServingEnd
    ensures in_turn { IsServedInTurn ⟦<Party as PartialEq>⟧.eq IsBy
        (AnswersOver K.meaning (λ service. service.keep)) (ResumesOver K.meaning (λ service. service.keep)) service.old service.new }
    ensures events { (most : ℕ) × IsServed ⟦<Party as PartialEq>⟧.eq W.Stream.Source W.Stream.Sink most IsBy
        (AnswersOver K.meaning (λ service. service.keep)) (ResumesOver K.meaning (λ service. service.keep)) (W.limit network.old) count
        (result ≡ ServingEnd.All) service.old service.new (W.tally network.old) (W.tally network.new) }
    ensures served { HasServed K.meaning service.old.keep service.new.keep (result ≡ ServingEnd.All) }
    ensures end { Tallies (EndsSo result count) (W.tally network.old) (W.tally network.new) }
    ensures listens { Tallies (ListensTill count) (W.tally network.old) (W.tally network.new) }
    ensures asks { Tallies (λ t u. 0 < count → t.accepts < u.accepts) (W.tally network.old) (W.tally network.new) }
{
    serve(alloc, network, service, count)
}

/// A network that announces that it listens.
pub trait Announcing: Network {
    /// Announces that clients may connect, to the program or user that started the server. An `Err` if it can't.
    fn announce(&self, rt: &HostRuntime) -> io::Result<()>;
}

/// Serves this number of owners side by side over the office at this path, and the plant meanwhile. If its
/// file is there, the office is opened before the network announces that it listens, and otherwise for the
/// first request. It stays open between requests while no other program changes it, and is closed in the end.
/// All that clients ask is served by turns of an [`OfficeService`] that had served nobody before, each in turn,
/// and by nothing else. An `Err` if the network can't announce that it listens: no client was served.
pub fn serve_file<W: Announcing, K: Keep + Drop, O: KeepOpener<K>>(
    network: &mut W,
    office_path: OfficePath<'_, O>,
    count: u64,
) -> io::Result<ServingEnd>
    ensures served { IfOk result (λ end. IsFileServed K.meaning O.is_opened O.is_found O.has_damaged O.openings
        ⟦<Party as PartialEq>⟧.eq W.Stream.Source W.Stream.Sink (W.limit network.old) count office_path.entry.opener
        (W.tally network.old) (W.tally network.new) (end ≡ ServingEnd.All)) }
    ensures end { IfOk result (λ end. Tallies (EndsSo end count) (W.tally network.old) (W.tally network.new)) }
    ensures listens { OnOk result (Tallies (ListensTill count) (W.tally network.old) (W.tally network.new)) }
    ensures asks { OnOk result (Tallies (λ t u. 0 < count → t.accepts < u.accepts) (W.tally network.old) (W.tally network.new)) }
    ensures err { OnErr result (network.new ≡ network.old) }
{
    let rt = office_path.rt;
    let mut service = OfficeService::new(office_path);
    service.open_ahead();
    if let Err(fault) = network.announce(rt) {
        service.close();
        return Err(fault);
    }
    let served = serve(rt.alloc(), network, &mut service, count);
    service.close();
    Ok(served)
}
