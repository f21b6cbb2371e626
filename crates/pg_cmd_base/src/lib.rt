//! What a command is, and how its steps join: the base of every family of commands.
//!
//! A command (`specs/Commands.antt`) is what its steps come to by the told files, and what its work may leave. `Carries` says, of
//! any command, what is then left of files, sink and hardware, by the class of the status; `Exactly`, that what is due comes.
//! Nothing here names a command or a certificate.
//!
//! - `status`: how a command ends. `refusal`, `stop`: why one goes no further, and how that is told. `watching`: who is told of it
//!   besides.
//! - `usage`: how a program beside `pgv` answers words that it does not take.
//! - `loading`: files to bytes. `load`: a file is loaded, and what it holds is a machine, an image, or refused in the line that is due;
//!   `described`, `imaged`: bytes to machines and images. `room`: the room that is wanted, and the room that there is.
//!
//! What surrounds a command, shelf, sink and hardware, is one `World` in the contracts (`specs/World.antt`): a shelf `F`, a sink
//! `S` and a hardware `H` as they are lent are `around F.Shelf S.Sink H.Hardware shelf out hw`.
#![tactic(auto)]

mod described;
mod imaged;
mod load;
mod loading;
mod refusal;
mod room;
mod status;
mod stop;
mod usage;
mod watching;

pub use load::{load_image, load_images, load_machine};
pub use loading::{load_file, stop_of};
pub use refusal::{Refusal, Stop};
pub use room::{no_room, try_room};
pub use status::Status;
pub use stop::stopped;
pub use usage::tell_usage;
pub use watching::StopWatcher;
