//! A network in memory, in which a wait gives the next of some events, or else is over at once.
mod crowd;
mod script;
mod wire;

use crate::connections::crowd::Crowd;
use crate::connections::script::{Scribe, Script};
use crate::connections::wire::{Ends, Log, Pace, Plan, Takes};
use std::alloc::Global;
use toll_server::{Listener, ServingEnd, serve};

/// A request of the plant, in three pieces: the content `0`.
const PLANT: Plan = Plan {
    listener: Listener::Plant,
    pieces: &[b"\0\0", b"\0\x01", b"0"],
    ends: Ends::Silent,
    takes: Takes::All,
    mark: b'0',
};

const FIRST_OWNER: Plan = Plan {
    listener: Listener::Owners,
    pieces: &[b"GET /1 HT", b"TP/1.1\r\nhost: a\r\n", b"\r\n"],
    ends: Ends::Silent,
    takes: Takes::All,
    mark: b'1',
};

const SECOND_OWNER: Plan = Plan {
    listener: Listener::Owners,
    pieces: &[
        b"POST /2 HTTP/1.1\r\nhost: a\r\ncontent-length: 2\r",
        b"\n\r\n{",
        b"}",
    ],
    ends: Ends::Silent,
    takes: Takes::All,
    mark: b'2',
};

/// Two requests of the plant, each at once.
const SEVENTH: Plan = Plan {
    listener: Listener::Plant,
    pieces: &[b"\0\0\0\x017"],
    ends: Ends::Silent,
    takes: Takes::All,
    mark: b'7',
};

const EIGHTH: Plan = Plan {
    listener: Listener::Plant,
    pieces: &[b"\0\0\0\x018"],
    ends: Ends::Silent,
    takes: Takes::All,
    mark: b'8',
};

/// All of a request at once.
const WHOLE: Plan = Plan {
    listener: Listener::Owners,
    pieces: &[b"GET /1 HTTP/1.1\r\nhost: a\r\n\r\n"],
    ends: Ends::Silent,
    takes: Takes::All,
    mark: b'1',
};

const HALF: Plan = Plan {
    listener: Listener::Owners,
    pieces: &[b"GET /1 HTTP/1.1\r\nho"],
    ends: Ends::Silent,
    takes: Takes::All,
    mark: b'1',
};

const SILENT: Plan = Plan {
    listener: Listener::Owners,
    pieces: &[],
    ends: Ends::Silent,
    takes: Takes::All,
    mark: b'1',
};

/// The outcome of serving.
#[derive(Clone, Copy, Debug, PartialEq, Eq)]
struct Outcome {
    served: ServingEnd,
    /// How many requests were answered, and how many bytes of their replies were written.
    answered: u64,
    replied: u64,
    late: u64,
}

// The outcome of serving this many owners, if these come (or none can be accepted), and these advance one
// after another.
fn outcome_of(
    alloc: Global,
    count: u64,
    coming: &[Option<Plan>],
    order: &[usize],
    log: &Log,
) -> Outcome {
    let mut network = Script::new(coming, order, log);
    let mut office = Scribe::new(log);
    let served = serve(alloc, &mut network, &mut office, count);
    Outcome {
        served,
        answered: office.answered,
        replied: log.replied.get(),
        late: log.clock.get(),
    }
}

// The outcome of serving this many owners, if these come in groups of this size.
fn outcome_of_crowd(
    alloc: Global,
    count: u64,
    coming: &[Plan],
    groups: &[usize],
    log: &Log,
) -> Outcome {
    let mut network = Crowd::new(alloc, coming, groups, log);
    let mut office = Scribe::new(log);
    let served = serve(alloc, &mut network, &mut office, count);
    Outcome {
        served,
        answered: office.answered,
        replied: log.replied.get(),
        late: log.clock.get(),
    }
}

fn all_with(answered: u64, replied: u64, late: u64) -> Outcome {
    Outcome {
        served: ServingEnd::All,
        answered,
        replied,
        late,
    }
}

// The order of nine events that a number below 3^9 stands for, if each of three clients has three.
fn order_of(code: usize) -> Option<[usize; 9]> {
    let mut order = [0; 9];
    let mut counts = [0u8; 3];
    let mut rest = code;
    for place in &mut order {
        *place = rest % 3;
        counts[rest % 3] = counts[rest % 3].saturating_add(1);
        rest /= 3;
    }
    if counts == [3, 3, 3] {
        Some(order)
    } else {
        None
    }
}

#[test]
fn three_clients_are_answered_whatever_order_their_bytes_come_in(rt: HostRuntime) {
    let coming = [Some(PLANT), Some(FIRST_OWNER), Some(SECOND_OWNER)];
    let mut orders = 0u64;
    for code in 0..19_683 {
        let Some(order) = order_of(code) else {
            continue;
        };
        let log = Log::new();
        let outcome = outcome_of(rt.alloc(), 2, &coming, &order, &log);
        // the plant is closed once both owners were answered, if it has not sent all by then
        let expected = if order[8] == 0 {
            all_with(2, 6, 0)
        } else {
            all_with(3, 9, 0)
        };
        assert_eq!(rt; outcome, expected);
        assert!(rt; !log.wrong.get());
        orders = orders.saturating_add(1);
    }
    assert_eq!(rt; orders, 1680);
}

const SLOW: Plan = Plan {
    takes: Takes::One,
    ..WHOLE
};

const BROKEN: Plan = Plan {
    takes: Takes::Broken,
    ..WHOLE
};

const FULL: Plan = Plan {
    takes: Takes::Nothing,
    ..WHOLE
};

const RESET: Plan = Plan {
    ends: Ends::Reset,
    ..HALF
};

const CLOSED: Plan = Plan {
    ends: Ends::Closed,
    ..HALF
};

/// How the one owner is, how often it goes on, how many requests are answered, how many bytes of their replies
/// are written, and at which millisecond serving ends.
type Alone = (Plan, &'static [usize], (u64, u64, u64));

// A reply is taken a byte at a time. A client leaves before its request is whole, after half of it, or before
// its reply. A client's time is over if it sends nothing or half of its request, or takes nothing of its
// reply.
const ALONE: &[Alone] = &[
    (SLOW, &[0, 0, 0], (1, 3, 0)),
    (SLOW, &[0, 0], (1, 2, 10_000)),
    (RESET, &[0, 0], (0, 0, 0)),
    (CLOSED, &[0, 0], (1, 3, 0)),
    (BROKEN, &[0], (1, 0, 0)),
    (SILENT, &[], (0, 0, 10_000)),
    (HALF, &[0], (0, 0, 10_000)),
    (FULL, &[0], (1, 0, 10_000)),
];

#[test]
fn one_client_is_answered_once_and_has_its_time(rt: HostRuntime) {
    for row in ALONE {
        let (plan, order, (answered, replied, late)) = *row;
        let outcome = outcome_of(rt.alloc(), 1, &[Some(plan)], order, &Log::new());
        assert_eq!(rt; outcome, all_with(answered, replied, late));
    }
}

#[test]
fn a_silent_client_blocks_no_other(rt: HostRuntime) {
    let coming = [Some(WHOLE), Some(SILENT), Some(WHOLE)];
    let outcome = outcome_of(rt.alloc(), 3, &coming, &[2, 0], &Log::new());
    assert_eq!(rt; outcome, all_with(2, 6, 10_000));
}

#[test]
fn the_oldest_is_evicted_from_a_full_server(rt: HostRuntime) {
    let coming = [Some(WHOLE); 901];
    let outcome = outcome_of(rt.alloc(), 901, &coming, &[0, 1, 900], &Log::new());
    assert_eq!(rt; outcome, all_with(2, 6, 10_000));
}

// This many of the plant and this many owners connect and send nothing, after one of the plant that asks once
// all have come. Returns how many requests are answered.
fn answered_beside(alloc: Global, plants: usize, owners: usize) -> u64 {
    let idle = Plan {
        listener: Listener::Plant,
        ..SILENT
    };
    let mut coming = [Some(SILENT); 901];
    coming[0] = Some(SEVENTH);
    for i in 1..901 {
        if i <= plants {
            coming[i] = Some(idle);
        }
    }
    outcome_of(alloc, owners as u64, &coming, &[0], &Log::new()).answered
}

#[test]
fn owners_do_not_evict_the_plant_within_its_reserve(rt: HostRuntime) {
    assert_eq!(rt; answered_beside(rt.alloc(), 0, 900), 1);
    assert_eq!(rt; answered_beside(rt.alloc(), 7, 893), 1);
    assert_eq!(rt; answered_beside(rt.alloc(), 8, 892), 0);
}

// While none has a turn, one party's requests join the queue until it has two places for each connection that
// is left to others, of 892: 595. Another party's request joins after them.
#[test]
fn a_party_fills_two_thirds_of_the_queue_at_most(rt: HostRuntime) {
    let mut coming = [WHOLE; 701];
    coming[700] = asked_by(1);
    let outcome = outcome_of_crowd(rt.alloc(), 701, &coming, &[701], &Log::new());
    assert_eq!(rt; outcome, all_with(596, 1788, 0));
}

#[test]
fn none_is_closed_for_want_of_resources_before_it_was_heard(rt: HostRuntime) {
    let coming = [Some(WHOLE), None, Some(WHOLE)];
    let outcome = outcome_of(rt.alloc(), 2, &coming, &[0, 1], &Log::new());
    assert_eq!(rt; outcome, all_with(2, 6, 0));
    let alone = outcome_of(rt.alloc(), 1, &[None, Some(SILENT)], &[], &Log::new());
    assert_eq!(rt; alone, all_with(0, 0, 11_000));
}

#[test]
fn a_network_that_fails_ends_serving(rt: HostRuntime) {
    let outcome = outcome_of(rt.alloc(), 1, &[], &[], &Log::new());
    assert_eq!(rt; outcome.served, ServingEnd::Fault);
}

#[test]
fn others_are_answered_between_the_turns_of_one(rt: HostRuntime) {
    let log = Log::at(Pace {
        turns: 4,
        milliseconds: 0,
    });
    let coming = [Some(SEVENTH), Some(FIRST_OWNER), Some(SECOND_OWNER)];
    let order = [1, 1, 2, 2, 0, 1, 2];
    let outcome = outcome_of(rt.alloc(), 2, &coming, &order, &log);
    assert_eq!(rt; outcome, all_with(3, 9, 0));
    assert_eq!(rt; log.turns.get(), 771_727);
    assert!(rt; !log.wrong.get());
}

#[test]
fn two_tasks_are_done_side_by_side(rt: HostRuntime) {
    let log = Log::at(Pace {
        turns: 3,
        milliseconds: 0,
    });
    let coming = [Some(SEVENTH), Some(EIGHTH), Some(WHOLE)];
    let outcome = outcome_of(rt.alloc(), 1, &coming, &[1, 0, 2], &log);
    assert_eq!(rt; outcome, all_with(3, 9, 0));
    // the eighth has waited since its turn, before the owner came, and the seventh since a later one
    assert_eq!(rt; log.turns.get(), 8_878_177);
    assert!(rt; !log.wrong.get());
}

#[test]
fn a_task_is_done_though_its_socket_has_failed(rt: HostRuntime) {
    let log = Log::at(Pace {
        turns: 3,
        milliseconds: 0,
    });
    let breaks = Plan {
        ends: Ends::Reset,
        takes: Takes::Broken,
        ..SEVENTH
    };
    let coming = [Some(breaks), Some(WHOLE)];
    let outcome = outcome_of(rt.alloc(), 1, &coming, &[0, 0, 1], &log);
    assert_eq!(rt; outcome, all_with(2, 3, 0));
    assert_eq!(rt; log.turns.get(), 7771);
}

#[test]
fn a_client_with_a_task_does_not_expire(rt: HostRuntime) {
    let log = Log::at(Pace {
        turns: 3,
        milliseconds: 20_000,
    });
    let coming = [Some(SEVENTH), Some(HALF)];
    let outcome = outcome_of(rt.alloc(), 1, &coming, &[0, 1], &log);
    assert_eq!(rt; outcome, all_with(1, 3, 40_000));
}

// A byte of the reply is taken after the turn, and two when its client advances; otherwise its time is over.
#[test]
fn the_time_of_a_reply_begins_when_its_turn_is_over(rt: HostRuntime) {
    let pace = Pace {
        turns: 2,
        milliseconds: 11_000,
    };
    let slow = Plan {
        takes: Takes::One,
        ..SEVENTH
    };
    let coming = [Some(slow), Some(WHOLE)];
    let outcome = outcome_of(rt.alloc(), 1, &coming, &[0, 1, 0, 0], &Log::at(pace));
    assert_eq!(rt; outcome, all_with(2, 6, 11_000));
    let outcome = outcome_of(rt.alloc(), 1, &coming, &[0, 1, 0], &Log::at(pace));
    assert_eq!(rt; outcome, all_with(2, 5, 21_000));
}

// The others come in fifteen rounds, while the one has its turns; two of them are too many.
#[test]
fn a_client_with_a_task_is_not_evicted(rt: HostRuntime) {
    let log = Log::at(Pace {
        turns: 40,
        milliseconds: 100,
    });
    let mut coming = [SILENT; 902];
    coming[0] = SEVENTH;
    let outcome = outcome_of_crowd(rt.alloc(), 901, &coming, &[1, 901], &log);
    assert_eq!(rt; outcome, all_with(1, 3, 11_400));
}

#[test]
fn a_newcomer_is_heard_at_a_freed_key(rt: HostRuntime) {
    let outcome = outcome_of_crowd(rt.alloc(), 3, &[WHOLE; 3], &[2, 1], &Log::new());
    assert_eq!(rt; outcome, all_with(3, 9, 0));
}

#[test]
fn all_ready_clients_are_heard_after_a_wait(rt: HostRuntime) {
    let outcome = outcome_of_crowd(rt.alloc(), 500, &[WHOLE; 500], &[500], &Log::new());
    assert_eq!(rt; outcome, all_with(500, 1500, 0));
}

#[test]
fn the_plant_holds_up_no_end_by_sending_nothing(rt: HostRuntime) {
    let idle = Plan {
        listener: Listener::Plant,
        ..SILENT
    };
    let outcome = outcome_of_crowd(rt.alloc(), 1, &[idle, WHOLE], &[2], &Log::new());
    assert_eq!(rt; outcome, all_with(1, 3, 0));
    let outcome = outcome_of_crowd(rt.alloc(), 2, &[idle, WHOLE, HALF], &[3], &Log::new());
    assert_eq!(rt; outcome, all_with(1, 3, 10_000));
}

#[test]
fn a_client_closed_before_it_is_accepted_blocks_nobody(rt: HostRuntime) {
    let log = Log::new();
    log.aborted.set(1000);
    let outcome = outcome_of_crowd(rt.alloc(), 1, &[WHOLE], &[1], &log);
    assert_eq!(rt; outcome, all_with(1, 3, 0));
    assert_eq!(rt; log.aborted.get(), 0);
}

#[test]
fn the_oldest_is_evicted_where_the_network_has_room_for_few(rt: HostRuntime) {
    let log = Log::new();
    log.most.set(2);
    let coming = [Some(SILENT), Some(WHOLE), Some(WHOLE)];
    let outcome = outcome_of(rt.alloc(), 3, &coming, &[0, 1, 2], &log);
    assert_eq!(rt; outcome, all_with(2, 6, 0));
}

// The last client comes once the two before were reported ready. These two are as many owners as are served.
#[test]
fn nobody_is_accepted_behind_the_last_owner(rt: HostRuntime) {
    let log = Log::new();
    let outcome = outcome_of_crowd(rt.alloc(), 2, &[WHOLE; 3], &[1, 1, 1], &log);
    assert_eq!(rt; outcome, all_with(2, 6, 0));
    assert_eq!(rt; log.closed.get(), Some(2));
    let open = Log::new();
    let outcome = outcome_of_crowd(rt.alloc(), 2, &[WHOLE], &[1], &open);
    assert_eq!(rt; outcome.served, ServingEnd::Fault);
    assert_eq!(rt; open.closed.get(), None);
}

#[test]
fn the_longest_reader_goes_where_there_are_no_resources(rt: HostRuntime) {
    let coming = [Some(SILENT), None, None, Some(WHOLE)];
    let outcome = outcome_of(rt.alloc(), 2, &coming, &[0], &Log::new());
    assert_eq!(rt; outcome, all_with(1, 3, 0));
}

// There are no resources for the second client while the first has a task, or takes nothing of its reply. It is
// accepted as soon as the first is answered, or the time of the first is over, and not once a pause is.
#[test]
fn none_is_accepted_without_resources_until_one_has_left(rt: HostRuntime) {
    let log = Log::at(Pace {
        turns: 3,
        milliseconds: 0,
    });
    log.refused.set(1);
    let outcome = outcome_of_crowd(rt.alloc(), 1, &[SEVENTH, WHOLE], &[1, 1], &log);
    assert_eq!(rt; outcome, all_with(2, 6, 0));
    let log = Log::at(Pace {
        turns: 2,
        milliseconds: 500,
    });
    log.refused.set(11);
    let full = Plan {
        takes: Takes::Nothing,
        ..SEVENTH
    };
    let outcome = outcome_of_crowd(rt.alloc(), 1, &[full, WHOLE], &[1, 1], &log);
    assert_eq!(rt; outcome, all_with(2, 3, 10_500));
}

// The request of one of three parties.
fn asked_by(party: usize) -> Plan {
    match party {
        0 => WHOLE,
        1 => Plan {
            pieces: &[b"GET /2 HTTP/1.1\r\nhost: a\r\n\r\n"],
            mark: b'2',
            ..WHOLE
        },
        _ => Plan {
            pieces: &[b"GET /3 HTTP/1.1\r\nhost: a\r\n\r\n"],
            mark: b'3',
            ..WHOLE
        },
    }
}

// The parties' turns, a digit each, if their requests come in this order. Each party that waits has one in
// turn, in the order in which they came.
fn turns_of(order: &[usize]) -> u64 {
    let mut turns = 0u64;
    for pass in 1..=3 {
        let mut counts = [0usize; 3];
        let mut firsts = [false; 3];
        for party in order {
            let p = *party % 3;
            counts[p] = counts[p].saturating_add(1);
        }
        for party in order {
            let p = *party % 3;
            if !firsts[p] && counts[p] >= pass {
                turns = turns.saturating_mul(10).saturating_add(p as u64 + 1);
            }
            firsts[p] = true;
        }
    }
    turns
}

// Every order, except for the parties' names: the first client is of the first party.
#[test]
fn parties_have_turns_in_every_order_of_arrival(rt: HostRuntime) {
    let mut orders = 0u64;
    for code in 0..19_683 {
        let Some(order) = order_of(code) else {
            continue;
        };
        if order[0] != 0 {
            continue;
        }
        let mut coming = [WHOLE; 9];
        for (i, party) in order.iter().enumerate() {
            coming[i] = asked_by(*party);
        }
        let log = Log::new();
        let outcome = outcome_of_crowd(rt.alloc(), 9, &coming, &[9], &log);
        assert_eq!(rt; outcome, all_with(9, 27, 0));
        assert_eq!(rt; log.turns.get(), turns_of(&order));
        assert!(rt; !log.wrong.get());
        orders = orders.saturating_add(1);
    }
    assert_eq!(rt; orders, 560);
}

// The clients of the first party have gone: it has its turns, and nothing is written to it.
#[test]
fn a_party_that_goes_while_it_waits_holds_up_no_other(rt: HostRuntime) {
    let gone = Plan {
        takes: Takes::Broken,
        ..asked_by(0)
    };
    let coming = [gone, asked_by(1), gone, asked_by(2)];
    let log = Log::new();
    let outcome = outcome_of_crowd(rt.alloc(), 4, &coming, &[4], &log);
    assert_eq!(rt; outcome, all_with(4, 6, 0));
    assert_eq!(rt; log.turns.get(), 1231);
    assert!(rt; !log.wrong.get());
}
