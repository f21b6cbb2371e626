//! What is told of a guest in place of its state, and not beside it. Behind bytes stands a line feed, so that what follows begins a line.

ghost use Rattle.std.specs.Prelude.{◌<◌, ◌≤◌};

/// Cells of a storage: those from one address on, up to another one.
#[derive(Clone, Copy)]
pub struct Span {
    /// The address of the first.
    pub from: u32,
    /// The address behind the last.
    pub to: u32,
    /// There is a cell.
    pub ghost ordered: { from < to },
}

/// How many bytes of each cell are told, the low ones: 1 to 8.
#[derive(Clone, Copy)]
pub struct ByteCount {
    /// The number.
    pub count: u32,
    /// There is one.
    pub ghost some: { 1 ≤ count },
    /// A cell has no more.
    pub ghost few: { count ≤ 8 },
}

/// What is told of a guest in place of its state.
#[derive(Clone, Copy)]
pub enum View {
    /// The words of cells, in lines.
    Cells(Span),
    /// The low bytes of each cell, as a line of text.
    Bytes(Span, ByteCount),
}
