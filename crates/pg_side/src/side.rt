//! The programs and their names.

use pg_cli_says::Program;

/// A program beside `pgv`.
#[derive(Clone, Copy)]
pub enum Side {
    /// `pg_explain`.
    Explain,
    /// `pg_trace`.
    Trace,
    /// `pg_go`.
    Go,
    /// `pg_dimacs`.
    Dimacs,
    /// `pg_solve`.
    Solve,
    /// `pg_import`.
    Import,
    /// `pg_export`.
    Export,
}

/// A call of a program.
#[derive(Clone, Copy)]
pub struct Call {
    /// The program.
    pub side: Side,
    /// Whether the first word names it; else the name that was called.
    pub by_word: bool,
}

impl Side {
    /// The program, as one that speaks on standard error.
    pub fn program(self) -> Program {
        match self {
            Side::Explain => Program::Explain,
            Side::Trace => Program::Trace,
            Side::Go => Program::Go,
            Side::Dimacs => Program::Dimacs,
            Side::Solve => Program::Solve,
            Side::Import => Program::Import,
            Side::Export => Program::Export,
        }
    }

    /// The program of a name.
    pub fn of_name(name: &[u8]) -> Option<Side> {
        match name {
            b"pg_explain" => Some(Side::Explain),
            b"pg_trace" => Some(Side::Trace),
            b"pg_go" => Some(Side::Go),
            b"pg_dimacs" => Some(Side::Dimacs),
            b"pg_solve" => Some(Side::Solve),
            b"pg_import" => Some(Side::Import),
            b"pg_export" => Some(Side::Export),
            _ => None,
        }
    }
}

/// The last part of a path: what stands behind every `/`.
pub fn last_part(path: &[u8]) -> &[u8] {
    match path.iter().rposition(|&byte| byte == b'/') {
        Some(place) => &path[place + 1..],
        None => path,
    }
}
