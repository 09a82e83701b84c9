//! The index: entries at the front of a room that its owner lends.
ghost use Rattle.std.specs.Prelude.{◌≡◌};
ghost use Rattle.index.specs.Nearest.{nearest_after, nearest_up_to, NearestAfter, NearestUpTo};
ghost use Rattle.index.specs.Entries.{entries, lines_with, Entered, SameRoom};

use crate::entry::{Entry, Full};
use crate::key::Key;

/// The first `used` entries of a lent room.
// Both stay: no memory is asked for, so the room is its owner's. A model would hide which loan the room is, and clauses name it.
#[derive(Drop)]
pub struct Index<'a, K> {
    room: &'a mut [Entry<K>],
    used: usize,
}

impl<'a, K: Key> Index<'a, K> {
    /// An index over a lent room, with no entry yet.
    pub fn new(room: &'a mut [Entry<K>]) -> Index<'a, K>
        ensures empty { result.used ≡ 0 }
        ensures room { result.room.now ≡ room.old }
        ensures lent { result.room.ghost_name ≡ room.entry.ghost_name }
    {
        Index { room, used: 0 }
    }

    /// Enters a line under a key, unless the room is full.
    pub fn enter(&mut self, key: K, line: usize) -> Result<(), Full>
        ensures entered { Entered self.old (record { key = key; line = line }) self.new result }
        ensures same { SameRoom self.old self.new }
    {
        if self.used >= self.room.len() {
            return Err(Full);
        }
        self.room[self.used] = Entry { key, line };
        self.used += 1;
        Ok(())
    }

    // These two share a chain but for its test and its end, and no function could hand that chain out: there is no `impl Iterator` as a result.
    // They end by `reduce`, not by `min` or `max`: which of two lines is the nearer then stands here, where an edit can drop the choice.

    /// The nearest line above `line` that was entered under the key.
    pub fn after(&self, text: &[u8], key: &K, line: usize) -> Option<usize>
        ensures value { result ≡ nearest_after line (lines_with (K.same text.now) key.now (entries self.now)) }
        ensures nearest { NearestAfter line (lines_with (K.same text.now) key.now (entries self.now)) result }
    {
        self.entries()
            .iter()
            .filter(|e| e.line > line && e.key.is(key, text))
            .map(|e| e.line)
            .reduce(|nearest, line| nearest.min(line))
    }

    /// The nearest line at or before `line` that was entered under the key.
    pub fn up_to(&self, text: &[u8], key: &K, line: usize) -> Option<usize>
        ensures value { result ≡ nearest_up_to line (lines_with (K.same text.now) key.now (entries self.now)) }
        ensures nearest { NearestUpTo line (lines_with (K.same text.now) key.now (entries self.now)) result }
    {
        self.entries()
            .iter()
            .filter(|e| e.line <= line && e.key.is(key, text))
            .map(|e| e.line)
            .reduce(|nearest, line| nearest.max(line))
    }

    /// The entries so far.
    fn entries(&self) -> &[Entry<K>]
        ensures value { result.now ≡ entries self.now }
    {
        self.room.get(..self.used).unwrap_or(self.room)
    }
}
