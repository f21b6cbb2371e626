//! A watcher that says nothing of what it is told.

use pg_cert_migrate::ReadWatcher;
use pg_classify::{SearchWatcher, Watcher};
use pg_cmd_base::{Stop, StopWatcher};
use pg_cmd_certs::{JudgedMachine, VerdictWatcher};
use pg_type::Kind;

/// Says nothing of what it is told.
#[derive(Clone, Copy, Debug)]
pub struct Silent;

impl SearchWatcher for Silent {
    fn goes_on(&mut self, _learned: usize, _budget: u32) {}
}

impl Watcher for Silent {
    fn asks(&mut self, _name: &[u8], _kind: Kind, _left: usize) {}
}

impl ReadWatcher for Silent {
    fn reads(&mut self, _done: usize, _all: usize) {}
}

impl StopWatcher for Silent {
    fn stops(&mut self, _stop: &Stop) {}
}

impl VerdictWatcher for Silent {
    fn unsaved(&mut self, _judged: &JudgedMachine) {}
}
