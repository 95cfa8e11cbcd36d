//! A network in memory whose clients come in groups. All of a group are ready at once, and are reported once,
//! by the keys under which the server knows them.
use crate::connections::wire::{Log, Plan, Wire};
use std::alloc::Global;
use toll_server::{Accepted, MOST_OPEN_CONNECTIONS, Network, NetworkFault};

/// The clients that come, one after another, in groups of this size. The next group comes once the one before
/// was reported.
#[derive(Drop)]
pub struct Crowd<'l> {
    coming: &'l [Plan],
    groups: &'l [usize],
    /// How many clients have come, and how many of them were accepted.
    at_door: usize,
    came: usize,
    keys: Vec<usize>,
    /// How many keys were reported ready, and how many of them were handed out.
    replied: usize,
    handed: usize,
    log: &'l Log,
}

impl<'l> Crowd<'l> {
    /// No client has come yet.
    pub fn new(alloc: Global, coming: &'l [Plan], groups: &'l [usize], log: &'l Log) -> Self {
        let mut crowd = Crowd {
            coming,
            groups,
            at_door: 0,
            came: 0,
            keys: Vec::new(alloc),
            replied: 0,
            handed: 0,
            log,
        };
        crowd.let_next_come();
        crowd
    }

    // Whether none can be accepted now, after the first client.
    fn is_refused(&self) -> bool {
        match self.log.refused.get().checked_sub(1) {
            Some(rest) if self.came > 0 => {
                self.log.refused.set(rest);
                true
            }
            _ => false,
        }
    }

    fn let_next_come(&mut self) {
        if let Some((next, rest)) = self.groups.split_first() {
            self.at_door = self.at_door.saturating_add(*next);
            self.groups = rest;
        }
    }
}

impl<'l> Network for Crowd<'l> {
    type Stream = Wire<'l>;

    fn most_connections(&self) -> usize {
        self.log.most.get().clamp(1, MOST_OPEN_CONNECTIONS)
    }

    fn wait(&mut self, most: Option<u64>) -> Result<u64, NetworkFault> {
        self.handed = self.replied;
        let is_whole = self.came == self.at_door;
        if is_whole && self.replied < self.keys.len() {
            self.replied = self.keys.len();
            self.let_next_come();
            return Ok(self.log.clock.get());
        }
        match most {
            Some(most) => self.log.pass(most),
            None => return Err(NetworkFault),
        }
        Ok(self.log.clock.get())
    }

    fn next_ready(&mut self) -> Option<usize> {
        if self.handed == self.replied {
            return None;
        }
        let key = self.keys.get(self.handed)?;
        self.handed = self.handed.saturating_add(1);
        Some(*key)
    }

    fn accept_next(&mut self, key: usize) -> Result<Accepted<Wire<'l>>, NetworkFault> {
        if let Some(rest) = self.log.aborted.get().checked_sub(1) {
            self.log.aborted.set(rest);
            return Ok(Accepted::Aborted);
        }
        if self.came == self.at_door {
            return Ok(Accepted::NoneWaiting);
        }
        if self.is_refused() {
            return Ok(Accepted::NoResources);
        }
        let Some(plan) = self.coming.get(self.came) else {
            return Ok(Accepted::NoneWaiting);
        };
        if self.keys.push(key).is_err() {
            return Err(NetworkFault);
        }
        self.came = self.came.saturating_add(1);
        Ok(Accepted::Connected(plan.listener, Wire::new(*plan, self.log)))
    }

    fn close_listeners(&mut self) {
        self.log.close(self.came);
    }

    fn now(&mut self) -> u64 {
        self.log.clock.get()
    }
}
