//! How a command is called, as plain data: its name, its arguments in order, and the line of usage that these make.

/// The range of a number, with both ends.
#[derive(Clone, Copy, Drop)]
pub struct Range {
    /// The least number.
    pub least: u64,
    /// The greatest number.
    pub most: u64,
}

/// An argument of a command.
#[derive(Clone, Copy, Drop)]
pub enum Argument {
    /// The name of a file, in its place.
    File(&'static str),
    /// The names of files, one or more, in their place.
    Files(&'static str),
    /// A number of the range, in its place.
    Number(&'static str, Range),
    /// The name of a file after `--name`, which has to be there. The line of usage has the second word for it.
    FileOption(&'static str, &'static str),
    /// A number of the range after `--name`, which has to be there.
    NumberOption(&'static str, &'static str, Range),
    /// A number of the range after `--name`, which may be left out.
    OptionalNumber(&'static str, &'static str, Range),
}

/// How a command is called.
#[derive(Clone, Copy, Drop)]
pub struct Synopsis {
    /// The name of the command.
    pub name: &'static str,
    /// Its arguments. Those in places stand among the words in this order.
    pub arguments: &'static [Argument],
    /// The line that says how it is called, with its LF.
    pub usage: &'static str,
}
