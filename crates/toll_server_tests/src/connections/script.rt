//! A network by a script, and a service that writes down what it is asked.
use crate::connections::wire::{Log, Plan, Wire};
use std::alloc::Global;
use toll_server::{
    Accepted, Listener, MOST_OPEN_CONNECTIONS, Network, NetworkFault, Poll, RequestBuffer, Service,
};

/// The clients that come, and those that advance, one after another. If none does, a wait is as long as it
/// may be. A wait without time sees clients that advance while the office has a task, and no others.
#[derive(Drop)]
pub struct Script<'l> {
    coming: &'l [Option<Plan>],
    order: &'l [usize],
    ready: Option<usize>,
    log: &'l Log,
}

impl<'l> Script<'l> {
    /// No client has come yet. `None` among them is a time when none can be accepted.
    pub fn new(coming: &'l [Option<Plan>], order: &'l [usize], log: &'l Log) -> Self {
        Script {
            coming,
            order,
            ready: None,
            log,
        }
    }
}

impl<'l> Network for Script<'l> {
    type Stream = Wire<'l>;

    fn most_connections(&self) -> usize {
        self.log.most.get().clamp(1, MOST_OPEN_CONNECTIONS)
    }

    fn wait(&mut self, most: Option<u64>) -> Result<u64, NetworkFault> {
        if most == Some(0) && self.log.tasks.get() == 0 {
            return Ok(self.log.clock.get());
        }
        match (self.order.split_first(), most) {
            (Some((key, rest)), _) => {
                self.ready = Some(*key);
                self.order = rest;
            }
            (None, Some(most)) => self.log.pass(most),
            (None, None) => return Err(NetworkFault),
        }
        Ok(self.log.clock.get())
    }

    fn next_ready(&mut self) -> Option<usize> {
        self.ready.take()
    }

    fn accept_next(&mut self, _key: usize) -> Result<Accepted<Wire<'l>>, NetworkFault> {
        match self.coming.split_first() {
            Some((Some(plan), rest)) => {
                self.coming = rest;
                Ok(Accepted::Connected(plan.listener, Wire::new(*plan, self.log)))
            }
            Some((None, rest)) => {
                self.coming = rest;
                Ok(Accepted::NoResources)
            }
            None => Ok(Accepted::NoneWaiting),
        }
    }

    fn close_listeners(&mut self) {
        self.coming = &[];
    }

    fn now(&mut self) -> u64 {
        self.log.clock.get()
    }
}

/// Answers each request with its first digit, three times: an owner's in one turn.
#[derive(Drop)]
pub struct Scribe<'l> {
    pub answered: u64,
    log: &'l Log,
}

impl<'l> Scribe<'l> {
    /// Nothing was asked yet.
    pub fn new(log: &'l Log) -> Self {
        Scribe { answered: 0, log }
    }

    // The outcome of this turn, after which this many are left.
    fn turn(&self, alloc: Global, digit: u8, left: u64) -> Poll<Chore> {
        self.log.note(digit);
        if left > 0 {
            return Poll::Pending(Chore { digit, left });
        }
        Poll::Ready(vec![in alloc; digit; 3].unwrap_or(Vec::new(alloc)))
    }
}

/// A digit that is the reply after this many turns.
#[derive(Drop)]
pub struct Chore {
    digit: u8,
    left: u64,
}

impl Service for Scribe<'_> {
    ghost use Rattle.std.specs.Prelude.{⊤};

    type Task = Chore;

    type Party = u8;

    ghost is_by = { λ listener requested party. ⊤ };

    ghost answers = { λ old listener requested poll new. ⊤ };

    ghost resumes = { λ old task poll new. ⊤ };

    // The first digit of a request is its party.
    fn party(request: &RequestBuffer) -> u8
        ensures { ⊤ }
    {
        match request.bytes().iter().find(|byte| byte.is_ascii_digit()) {
            Some(digit) => *digit,
            None => 0,
        }
    }

    fn answer(&mut self, alloc: Global, request: &RequestBuffer) -> Poll<Chore> {
        self.answered = self.answered.saturating_add(1);
        let Some(digit) = request.bytes().iter().find(|byte| byte.is_ascii_digit()) else {
            self.log.wrong.set(true);
            return Poll::Ready(Vec::new(alloc));
        };
        let left = match request.listener() {
            Listener::Owners => 0,
            Listener::Plant => self.log.pace.turns.saturating_sub(1),
        };
        let begun = u64::from(left > 0);
        self.log
            .tasks
            .set(self.log.tasks.get().saturating_add(begun));
        self.turn(alloc, *digit, left)
    }

    fn resume(&mut self, alloc: Global, task: Chore) -> Poll<Chore> {
        self.log.pass(self.log.pace.milliseconds);
        let left = task.left.saturating_sub(1);
        let ended = u64::from(left == 0);
        self.log
            .tasks
            .set(self.log.tasks.get().saturating_sub(ended));
        self.turn(alloc, task.digit, left)
    }
}
