//! Lists in one piece of memory, with room at both ends.
ghost use Rattle.std.specs.Prelude.{◌≡◌, ◌≢◌, ℕ, ◌+◌, ◌-◌, ◌<◌, ◌≤◌, List, [], length, drop, vec_len, OnOk, OnErr, IfOk};
ghost use Rattle.std.specs.List.{insert, slice_set};

use std::alloc::{AllocError, Global};
use std::marker::Model;

/// A double-ended vector: a list in one piece, with room behind it and, once it was needed, in front.
/// To insert an item, it moves the items on the shorter side: a quarter of them on average.
pub struct DoubleEnded<T: Copy> {
    // The items, behind `front` other ones.
    room: Vec<T>,
    front: usize,
}

/// Written by hand: a derived `Drop` is expanded at every exit of every function that owns a list.
impl<T: Copy> Drop for DoubleEnded<T> {
    fn drop(self) {
        let DoubleEnded { room: _, front: _ } = self;
    }
}

impl<T: Copy> Model for DoubleEnded<T> {
    ghost use Rattle.std.specs.Prelude.{List, drop, length, ◌≤◌};

    ghost Value = { List T };

    ghost view = { λ d. drop d.front d.room.items };

    ghost invariant = { λ d. d.front ≤ length d.room.items };
}

impl<T: Copy> DoubleEnded<T> {
    /// No items. It takes no memory yet.
    pub fn new(alloc: Global) -> Self
        ensures { result ≡ [] }
    {
        DoubleEnded {
            room: Vec::new(alloc),
            front: 0,
        }
    }

    /// These items. It fails only if memory runs out.
    pub fn from_slice(alloc: Global, items: &[T]) -> Result<Self, AllocError>
        ensures { IfOk result (λ list. list ≡ items.now) }
    {
        let room = Vec::from_slice(alloc, items)?;
        Ok(DoubleEnded { room, front: 0 })
    }

    /// The items in order.
    pub fn as_slice(&self) -> &[T]
        ensures { result.now ≡ self.now }
    {
        &self.room[self.front..]
    }

    /// Replaces the item at this place.
    pub fn set(&mut self, at: usize, item: T)
        requires { at < length self.old }
        ensures { self.new ≡ slice_set self.old at item }
    {
        self.room[self.front + at] = item;
    }

    /// Inserts the item in front of the one at this place, or behind all. If memory runs out, nothing
    /// changes.
    pub fn insert(&mut self, at: usize, item: T) -> Result<(), AllocError>
        requires { at ≤ length self.old }
        ensures ok { OnOk result (self.new ≡ insert self.old at item) }
        ensures err { OnErr result (self.new ≡ self.old) }
    {
        if at < self.as_slice().len() / 2 {
            if self.front == 0 {
                self.front = open_front(&mut self.room)?;
            }
            insert_in_front(&mut self.room, self.front, at, item);
            self.front -= 1;
            Ok(())
        } else {
            Ok(self.room.insert(self.front + at, item)?)
        }
    }
}

// Doubles the items. Returns how many of them are now in front of the second copy.
fn open_front<T: Copy>(room: &mut Vec<T>) -> Result<usize, AllocError>
    ensures items { IfOk result (λ front. drop front room.new.items ≡ room.old.items) }
    ensures front { IfOk result (λ front. front ≡ vec_len room.old) }
    ensures err { OnErr result (room.new.items ≡ room.old.items) }
{
    let front = room.len();
    room.extend_from_within(..)?;
    Ok(front)
}

// Moves `at` items one place down, and puts the item behind them.
fn insert_in_front<T: Copy>(room: &mut [T], front: usize, at: usize, item: T)
    requires room { 1 ≤ front }
    requires place { front + at ≤ length room.old }
    ensures items { drop (front - 1) room.new ≡ insert (drop front room.old) at item }
    ensures len { length room.new ≡ length room.old }
{
    room.copy_within(front..front + at, front - 1);
    room[front - 1 + at] = item;
}
