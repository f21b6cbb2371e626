//! Who is told of a classification while it goes on.

use pg_sat::{SearchWatcher, Silent};
use pg_type::Kind;

/// Is told of each question before it is asked, and of the search for an answer to it. It answers nothing, and nothing is lent to it
/// that the findings are made of, so that they are the same whoever watches.
pub trait Watcher: SearchWatcher {
    /// The question of a kind of the instruction of this name is next; with it, so many are left.
    fn asks(&mut self, name: &[u8], kind: Kind, left: usize);
}

impl Watcher for Silent {
    fn asks(&mut self, _name: &[u8], _kind: Kind, _left: usize) {}
}
