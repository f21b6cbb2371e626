//! What a command line asks for, and why there is nothing that it asks for.
//!
//! Contracts see a request as plain data: the names in it as their bytes, and the numbers as what they are.
use crate::asm::AsmWords;
use crate::bare::BareWords;
use crate::check::CheckWords;
use crate::disasm::DisasmWords;
use crate::generating::GenWords;
use crate::migrate::MigrateWords;
use crate::nest::NestWords;
use crate::print::PrintWords;
use crate::replay::ReplayWords;
use crate::resume::ResumeWords;
use crate::run::RunWords;
use crate::save::SaveWords;
use crate::verify::VerifyWords;

/// What the words ask for.
#[derive(Drop)]
pub enum Request {
    /// `bare`: run an image on a bare machine.
    Bare(BareWords),
    /// `check`: classify each instruction of a description, and save the certificate.
    Check(CheckWords),
    /// `verify`: check a certificate against a description.
    Verify(VerifyWords),
    /// `replay`: show the states of a certificate, each with the step from it.
    Replay(ReplayWords),
    /// `run`: run images as guests under a monitor.
    Run(RunWords),
    /// `print`: print a description.
    Print(PrintWords),
    /// `gen`: make a large description of a number, classify it, and run guests on it.
    Gen(GenWords),
    /// `migrate`: make a new certificate of one that is there, and save it.
    Migrate(MigrateWords),
    /// `hcheck`: classify each instruction by the kinds of hybrid machines, and save the certificate.
    Hcheck(CheckWords),
    /// `hybrid`: run images as guests under a hybrid monitor.
    Hybrid(RunWords),
    /// `nest`: run an image under one to four monitors, each but the outermost on the guest of the one below it.
    Nest(NestWords),
    /// `asm`: assemble a source into an image.
    Asm(AsmWords),
    /// `disasm`: write an image as a source.
    Disasm(DisasmWords),
    /// `save`: run an image as a guest, and save the state that it reaches.
    Save(SaveWords),
    /// `resume`: let a saved guest go on.
    Resume(ResumeWords),
}

/// Why there is no request.
#[derive(Clone, Copy, Debug, Drop, PartialEq, Eq)]
pub enum Fault {
    /// The words are none that the program takes.
    Refused,
    /// There was no memory to read them.
    Memory,
}
