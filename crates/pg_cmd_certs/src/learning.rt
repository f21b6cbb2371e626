//! A machine learns words of the images of its guests.

ghost use Rattle.std.specs.Prelude.{◌≡◌};
ghost use Rattle.pg_cmd_certs.specs.Views.{judged};

use crate::machine::JudgedMachine;
use crate::telling::is_accepted;
use pg_image::Image;
use pg_mach_words::learned;
use std::alloc::Global;

impl JudgedMachine {
    /// The same, whose machine knows words of the images of guests that each do so many steps, where its verdict lets them run.
    pub fn learned(self, alloc: Global, images: &[Image], steps: u64) -> JudgedMachine
        ensures { judged result ≡ judged self }
    {
        if !is_accepted(self.report.verdict()) {
            return self;
        }
        JudgedMachine {
            machine: learned(alloc, self.machine, images, steps),
            report: self.report,
        }
    }
}
