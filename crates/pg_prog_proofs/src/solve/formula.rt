//! Formulas in the format DIMACS CNF.
//!
//! A file has lines of comment that begin with `c`, one head `p cnf VARIABLES CLAUSES`, and then words: a literal is a number
//! other than 0, and a 0 ends its clause. A word `%` or the end of the text ends the formula.

ghost use Rattle.std.specs.Prelude.{◌≡◌, ◌+◌, ◌*◌, ◌<◌, ◌^◌, ◌/◌, ◌++◌, ◌∷◌, [], nat_abs, IfOk, IfSome, OnOk};
ghost use Rattle.pg_cnf.specs.Literals.{IsClause};

use pg_cnf::{Clause, Cnf};
use smallvec::SmallVec;
use std::alloc::{AllocError, Global};
use thiserror::Error;

/// Why a text is no formula.
#[derive(Debug, Drop, Error)]
pub enum DimacsFault {
    /// There is no head, or it is none of fewer than 2^31 variables and clauses.
    #[error("no head `p cnf VARIABLES CLAUSES`")]
    Head,
    /// A word is no literal of one of the variables.
    #[error("a word that is no literal")]
    Literal,
    /// The last clause has no end.
    #[error("a clause with no end")]
    Open,
    /// There are more or fewer clauses than the head says.
    #[error("another number of clauses than the head says")]
    Count,
    /// Memory ran out.
    #[error("out of memory")]
    Memory,
}

impl From<AllocError> for DimacsFault {
    fn from(_error: AllocError) -> DimacsFault {
        DimacsFault::Memory
    }
}

/// The formula of a text. A literal that stands twice in a clause is taken once, and a clause with both literals of a variable
/// is left out. It takes time in the length of the text, but for the order of each clause's literals.
pub fn read(alloc: Global, text: &str) -> Result<Cnf, DimacsFault> {
    let mut draft = None;
    for line in text.lines() {
        match line.split_whitespace().next() {
            None => {}
            Some("%") => break,
            Some(word) if word.starts_with('c') => {}
            Some(_) => match &mut draft {
                None => draft = Some(Draft::new(alloc, line)?),
                Some(begun) => begun.read_line(alloc, line)?,
            },
        }
    }
    match draft {
        None => Err(DimacsFault::Head),
        Some(whole) => whole.finish(),
    }
}

/// A formula of which a part is read.
#[derive(Drop)]
struct Draft {
    cnf: Cnf,
    /// How many clauses are still due.
    due: u32,
    /// The literals of the clause at hand, 2 v for variable v and 2 v + 1 for its negation.
    codes: Vec<u32>,
}

impl Draft {
    /// No clause yet, under the head of a text.
    fn new(alloc: Global, line: &str) -> Result<Draft, DimacsFault> {
        let mut words = line.split_whitespace();
        let Some(("p", "cnf")) = words.next().zip(words.next()) else {
            return Err(DimacsFault::Head);
        };
        let Some((variables, due)) = number(words.next()).zip(number(words.next())) else {
            return Err(DimacsFault::Head);
        };
        if words.next().is_some() {
            return Err(DimacsFault::Head);
        }
        Ok(Draft {
            cnf: Cnf::new(alloc, variables),
            due,
            codes: Vec::new(alloc),
        })
    }

    /// Reads the words of a line.
    fn read_line(&mut self, alloc: Global, line: &str) -> Result<(), DimacsFault> {
        for word in line.split_whitespace() {
            match word.parse::<i32>() {
                Ok(0) => self.end_clause(alloc)?,
                Ok(i32::MIN) => return Err(DimacsFault::Literal),
                Ok(literal) => self.add(code_of(literal))?,
                Err(_) => return Err(DimacsFault::Literal),
            }
        }
        Ok(())
    }

    /// One literal more in the clause at hand.
    fn add(&mut self, code: u32) -> Result<(), AllocError> {
        self.codes.push(code)?;
        Ok(())
    }

    /// The clause at hand has all its literals.
    fn end_clause(&mut self, alloc: Global) -> Result<(), DimacsFault> {
        if self.due == 0 {
            return Err(DimacsFault::Count);
        }
        self.due -= 1;
        self.codes.as_mut_slice().sort_unstable();
        let literals = literals_of(alloc, self.codes.as_slice(), self.cnf.variables)?;
        self.codes.clear();
        if let Some(literals) = literals {
            self.hold(literals)?;
        }
        Ok(())
    }

    /// Holds a clause of some literals.
    fn hold(&mut self, literals: SmallVec<i32, 3>) -> Result<(), DimacsFault>
        requires { IsClause self.old.cnf.variables literals.items }
    {
        if self.cnf.clauses.len() >= i32::MAX as usize - 1 {
            return Err(DimacsFault::Count);
        }
        self.cnf.push(Clause::new(literals))?;
        Ok(())
    }

    /// The formula, where it is whole.
    fn finish(self) -> Result<Cnf, DimacsFault> {
        let Draft { cnf, due, codes } = self;
        if !codes.is_empty() {
            return Err(DimacsFault::Open);
        }
        if due > 0 {
            return Err(DimacsFault::Count);
        }
        Ok(cnf)
    }
}

/// The number, below 2^31, that a word is.
fn number(word: Option<&str>) -> Option<u32>
    ensures { IfSome result (λ n. n < 2 ^ 31) }
{
    match word?.parse::<u32>() {
        Ok(n) if n <= i32::MAX as u32 => Some(n),
        _ => None,
    }
}

/// 2 v for variable v, and 2 v + 1 for its negation.
fn code_of(literal: i32) -> u32
    requires { nat_abs literal < 2 ^ 31 }
{
    let first = 2 * literal.unsigned_abs();
    if literal < 0 { first + 1 } else { first }
}

/// The literal with a code of a variable.
fn literal_of(code: u32) -> i32
    ensures { nat_abs result ≡ code / 2 }
{
    let variable = (code / 2) as i32;
    if code % 2 == 1 { -variable } else { variable }
}

/// One literal more.
fn push(literals: &mut SmallVec<i32, 3>, literal: i32) -> Result<(), AllocError>
    ensures { OnOk result (literals.new.items ≡ literals.old.items ++ literal ∷ []) }
{
    literals.push(literal)?;
    Ok(())
}

/// The clause of literals that ascend by their codes: none where it has both literals of a variable.
fn literals_of(
    alloc: Global,
    codes: &[u32],
    variables: u32,
) -> Result<Option<SmallVec<i32, 3>>, DimacsFault>
    requires { variables < 2 ^ 31 }
    ensures { IfOk result (λ found. IfSome found (λ literals. IsClause variables literals.items)) }
{
    let mut literals = SmallVec::new(alloc);
    let mut last = 0;
    for &code in codes {
        if code == last {
            continue;
        }
        if code / 2 > variables {
            return Err(DimacsFault::Literal);
        }
        if code / 2 <= last / 2 {
            return Ok(None);
        }
        push(&mut literals, literal_of(code))?;
        last = code;
    }
    Ok(Some(literals))
}
