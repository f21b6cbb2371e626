//! The commands of the program by their names, and the table of how each is called.
//!
//! A command more is a variant, a name in the list, and a row of the table.
ghost use Rattle.std.specs.Prelude.{◌≡◌};
ghost use Rattle.pg_cli_table.specs.Commands as spec;
ghost use Rattle.pg_cli_table.specs.Synopses.{synopsis_of, usage};

use crate::asm::ASM;
use crate::bare::BARE;
use crate::check::CHECK;
use crate::disasm::DISASM;
use crate::generating::GEN;
use crate::hcheck::HCHECK;
use crate::hybrid::HYBRID;
use crate::migrate::MIGRATE;
use crate::nest::NEST;
use crate::print::PRINT;
use crate::replay::REPLAY;
use crate::resume::RESUME;
use crate::run::RUN;
use crate::save::SAVE;
use crate::synopsis::Synopsis;
use crate::verify::VERIFY;

/// A command of the program.
#[derive(Clone, Copy, Drop)]
pub enum CommandName {
    /// `bare`
    Bare,
    /// `check`
    Check,
    /// `verify`
    Verify,
    /// `replay`
    Replay,
    /// `run`
    Run,
    /// `print`
    Print,
    /// `gen`
    Gen,
    /// `migrate`
    Migrate,
    /// `hcheck`
    Hcheck,
    /// `hybrid`
    Hybrid,
    /// `nest`
    Nest,
    /// `asm`
    Asm,
    /// `disasm`
    Disasm,
    /// `save`
    Save,
    /// `resume`
    Resume,
}

/// All the commands, in the order in which they are told.
pub fn commands() -> &'static [CommandName]
    ensures { result.now ≡ spec.commands }
{
    &[
        CommandName::Bare,
        CommandName::Check,
        CommandName::Verify,
        CommandName::Replay,
        CommandName::Run,
        CommandName::Print,
        CommandName::Gen,
        CommandName::Migrate,
        CommandName::Hcheck,
        CommandName::Hybrid,
        CommandName::Nest,
        CommandName::Asm,
        CommandName::Disasm,
        CommandName::Save,
        CommandName::Resume,
    ]
}

impl CommandName {
    /// The command of this name.
    pub fn named(name: &str) -> Option<CommandName>
        ensures { result ≡ spec.named spec.commands name.now }
    {
        for command in commands() {
            if command.synopsis().name == name {
                return Some(*command);
            }
        }
        None
    }

    /// How the command is called.
    pub fn synopsis(self) -> Synopsis
        ensures called { synopsis_of result ≡ spec.synopsis self }
        // the line of usage is the one that the name and the arguments make
        ensures usage { result.usage.now ≡ usage (spec.synopsis self) }
    {
        match self {
            CommandName::Bare => BARE,
            CommandName::Check => CHECK,
            CommandName::Verify => VERIFY,
            CommandName::Replay => REPLAY,
            CommandName::Run => RUN,
            CommandName::Print => PRINT,
            CommandName::Gen => GEN,
            CommandName::Migrate => MIGRATE,
            CommandName::Hcheck => HCHECK,
            CommandName::Hybrid => HYBRID,
            CommandName::Nest => NEST,
            CommandName::Asm => ASM,
            CommandName::Disasm => DISASM,
            CommandName::Save => SAVE,
            CommandName::Resume => RESUME,
        }
    }
}
