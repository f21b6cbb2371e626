//! The programs that speak.

ghost use Rattle.std.specs.Prelude.{◌≤◌, length};

/// A program of the command line.
#[derive(Debug, Clone, Copy, PartialEq, Eq)]
pub enum Program {
    /// `pgv`.
    Pgv,
    /// `pg_explain`.
    Explain,
    /// `pg_trace`.
    Trace,
    /// `pg_go`.
    Go,
    /// `pg_dimacs`.
    Dimacs,
    /// `pg_solve`.
    Solve,
    /// `pg_import`.
    Import,
    /// `pg_export`.
    Export,
}

impl Program {
    /// Its name, with which its lines begin.
    pub fn name(self) -> &'static str
        ensures { length result.now ≤ 32 }
    {
        match self {
            Program::Pgv => "pgv",
            Program::Explain => "pg_explain",
            Program::Trace => "pg_trace",
            Program::Go => "pg_go",
            Program::Dimacs => "pg_dimacs",
            Program::Solve => "pg_solve",
            Program::Import => "pg_import",
            Program::Export => "pg_export",
        }
    }

    /// What its warnings begin with.
    pub fn warning(self) -> &'static str
        ensures { length result.now ≤ 32 }
    {
        match self {
            Program::Pgv => "pgv: warning",
            Program::Explain => "pg_explain: warning",
            Program::Trace => "pg_trace: warning",
            Program::Go => "pg_go: warning",
            Program::Dimacs => "pg_dimacs: warning",
            Program::Solve => "pg_solve: warning",
            Program::Import => "pg_import: warning",
            Program::Export => "pg_export: warning",
        }
    }
}
