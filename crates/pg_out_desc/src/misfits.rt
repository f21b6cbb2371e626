//! Statements whose widths do not fit.
//!
//! The table of widths is that of `pg_lang_valid`, which is asked for each expression. All statements are gone over in the order of the
//! text, also behind one that breaks the table: a let that breaks it has no width, and what needs that width is passed over. Each
//! error is out of memory.

ghost use Rattle.std.specs.Prelude.{◌≤◌, length};

use pg_ast::{Desc, Expr, Instr, Stmt};
use pg_lang_valid::{Judged, LetWidths, WidthClash, width_of};
use std::alloc::{AllocError, Global};

/// What an expression is for.
#[derive(Clone, Copy, Debug)]
pub enum Use {
    /// The address of a cell.
    Address,
    /// What a cell gets.
    Cell,
    /// What `pc` gets.
    Pc,
    /// What `rel` gets.
    Rel,
    /// What `bound` gets.
    Bound,
    /// What `mode` gets.
    Mode,
    /// A condition.
    Condition,
    /// What a let gets, or a side of something: any width may stand there.
    Any,
}

/// An expression of a statement, and what it is for.
#[derive(Clone, Copy, Debug)]
pub struct Part {
    /// Its number among those of the statement, counted from 0 in the order of the text.
    pub number: u64,
    /// What it is for.
    pub by: Use,
}

/// A statement that breaks the table of widths.
#[derive(Clone, Copy, Debug)]
pub struct Misfit {
    /// The instruction, counted from 0.
    pub instr: usize,
    /// The statement, counted from 0.
    pub stmt: usize,
    /// The first part that breaks the table.
    pub part: Part,
    /// How it does.
    pub how: WidthClash,
}

/// The statements that break the table: the first ones, and how many more.
#[derive(Drop)]
pub struct Misfits {
    /// The first ones, in the order of the text.
    pub found: Vec<Misfit>,
    /// How many more.
    pub left: u64,
}

/// How many expressions there are in one, itself counted.
fn count(e: &Expr) -> u64 {
    match e {
        Expr::Load(x) | Expr::Not(x) => count(x.get()).saturating_add(1),
        Expr::Cut(x, _, _) | Expr::Ext(x, _) | Expr::Sext(x, _) => count(x.get()).saturating_add(1),
        Expr::Bin(_, x, y) | Expr::Cat(x, y) => count(x.get())
            .saturating_add(count(y.get()))
            .saturating_add(1),
        Expr::Sel(c, x, y) => count(c.get())
            .saturating_add(count(x.get()))
            .saturating_add(count(y.get()))
            .saturating_add(1),
        Expr::Lit(_, _) | Expr::Name(_) | Expr::Pc | Expr::Mode | Expr::Rel | Expr::Bound => 1,
    }
}

/// A part so many expressions behind another, which may have any width.
fn behind(part: Part, by: u64) -> Part {
    Part {
        number: part.number.saturating_add(by),
        by: Use::Any,
    }
}

/// The part right behind another, for this use.
fn next(part: Part, by: Use) -> Part {
    Part {
        number: part.number.saturating_add(1),
        by,
    }
}

/// An instruction whose expressions are asked for their widths.
#[derive(Clone, Copy)]
struct Asked<'d> {
    desc: &'d Desc,
    instr: &'d Instr,
}

impl<'d> Asked<'d> {
    /// The width of an expression.
    fn width(self, e: &Expr, lets: &LetWidths<'_>) -> Judged {
        width_of(self.desc, self.instr, e, lets)
    }

    /// Whether an expression and its parts keep the table.
    fn fits(self, e: &Expr, lets: &LetWidths<'_>) -> bool {
        self.width(e, lets).is_ok()
    }

    /// The part of an expression that breaks the table; the expression where it is itself that does, or does not fit its use.
    fn culprit(self, e: &Expr, part: Part, lets: &LetWidths<'_>) -> Part {
        if self.fits(e, lets) {
            return part;
        }
        match e {
            Expr::Load(x) => self.culprit(x.get(), next(part, Use::Address), lets),
            Expr::Not(x) => self.culprit(x.get(), behind(part, 1), lets),
            Expr::Cut(x, _, _) | Expr::Ext(x, _) | Expr::Sext(x, _) => {
                if self.fits(x.get(), lets) {
                    part
                } else {
                    self.culprit(x.get(), behind(part, 1), lets)
                }
            }
            Expr::Bin(_, x, y) | Expr::Cat(x, y) => {
                if !self.fits(x.get(), lets) {
                    self.culprit(x.get(), behind(part, 1), lets)
                } else if !self.fits(y.get(), lets) {
                    self.culprit(y.get(), behind(behind(part, 1), count(x.get())), lets)
                } else {
                    part
                }
            }
            Expr::Sel(c, x, y) => {
                let first = behind(behind(part, 1), count(c.get()));
                if !self.fits(c.get(), lets) {
                    self.culprit(c.get(), next(part, Use::Condition), lets)
                } else if !self.fits(x.get(), lets) {
                    self.culprit(x.get(), first, lets)
                } else if !self.fits(y.get(), lets) {
                    self.culprit(y.get(), behind(first, count(x.get())), lets)
                } else if self.width(c.get(), lets) == Ok(1) {
                    first
                } else {
                    next(part, Use::Condition)
                }
            }
            Expr::Lit(_, _) | Expr::Name(_) | Expr::Pc | Expr::Mode | Expr::Rel | Expr::Bound =>
                part,
        }
    }
}

/// A walk over the statements of an instruction.
#[derive(Drop)]
struct Walk<'d, 'f> {
    asked: Asked<'d>,
    number: usize,
    next: usize,
    lets: LetWidths<'d>,
    found: &'f mut Misfits,
    most: usize,
}

impl<'d, 'f> Walk<'d, 'f> {
    /// Keeps that a statement breaks the table, or counts it; passes over what needs the width of a let that has none.
    fn keep(
        &mut self,
        stmt: usize,
        e: &Expr,
        part: Part,
        how: WidthClash,
    ) -> Result<(), AllocError> {
        if how == WidthClash::Unnamed {
            return Ok(());
        }
        if self.found.found.len() < self.most {
            let part = self.asked.culprit(e, part, &self.lets);
            self.found.found.push(Misfit {
                instr: self.number,
                stmt,
                part,
                how,
            })?;
        } else {
            self.found.left = self.found.left.saturating_add(1);
        }
        Ok(())
    }

    /// Whether an expression has the width that is wanted; that it has not is kept.
    fn wants(
        &mut self,
        stmt: usize,
        e: &Expr,
        part: Part,
        wanted: u64,
    ) -> Result<bool, AllocError> {
        match self.asked.width(e, &self.lets) {
            Ok(width) => {
                if width == wanted {
                    return Ok(true);
                }
                self.keep(stmt, e, part, WidthClash::Wanted(wanted, width))?;
            }
            Err(how) => self.keep(stmt, e, part, how)?,
        }
        Ok(false)
    }

    /// The number of the statement that is next, which is passed over.
    fn number_next(&mut self) -> usize {
        let at = self.next;
        self.next = at.saturating_add(1);
        at
    }

    /// Looks at a statement that assigns this expression.
    fn assigned(&mut self, e: &Expr, by: Use, wanted: u64) -> Result<(), AllocError> {
        let at = self.number_next();
        self.wants(at, e, Part { number: 0, by }, wanted)?;
        Ok(())
    }

    /// Looks at a store.
    fn stored(&mut self, address: &Expr, e: &Expr) -> Result<(), AllocError> {
        let at = self.number_next();
        let of = Part {
            number: 0,
            by: Use::Address,
        };
        if self.wants(at, address, of, self.asked.desc.address)? {
            let value = Part {
                number: count(address),
                by: Use::Cell,
            };
            self.wants(at, e, value, self.asked.desc.word)?;
        }
        Ok(())
    }

    /// Looks at a let, which is visible from then on where it has a width.
    fn bound(&mut self, name: &'d [u8], e: &Expr) -> Result<(), AllocError> {
        let at = self.number_next();
        match self.asked.width(e, &self.lets) {
            Ok(width) => self.lets.push(name, width),
            Err(how) => self.keep(
                at,
                e,
                Part {
                    number: 0,
                    by: Use::Any,
                },
                how,
            ),
        }
    }

    /// Looks at the statements of a block, whose lets end with it.
    #[cycle(walk)]
    fn block(&mut self, stmts: &'d [Stmt]) -> Result<(), AllocError> {
        let outer = self.lets.len();
        for stmt in stmts {
            self.statement(stmt)?;
        }
        if outer <= self.lets.len() {
            self.lets.truncate(outer);
        }
        Ok(())
    }

    /// Looks at a statement, and at those inside it.
    #[cycle(walk)]
    fn statement(&mut self, stmt: &'d Stmt) -> Result<(), AllocError> {
        let address = self.asked.desc.address;
        match stmt {
            Stmt::Let(name, e) => self.bound(name.as_bytes(), e),
            Stmt::Store(a, e) => self.stored(a, e),
            Stmt::Pc(e) => self.assigned(e, Use::Pc, address),
            Stmt::Rel(e) => self.assigned(e, Use::Rel, address),
            Stmt::Bound(e) => self.assigned(e, Use::Bound, address),
            Stmt::Mode(e) => self.assigned(e, Use::Mode, 1),
            Stmt::Trap => {
                self.number_next();
                Ok(())
            }
            Stmt::If(c, held, other) => {
                self.assigned(c, Use::Condition, 1)?;
                self.block(held.as_slice())?;
                match other {
                    None => Ok(()),
                    Some(stmts) => self.block(stmts.as_slice()),
                }
            }
        }
    }
}

/// The statements of a description that break the table of widths: the first of them, at most so many, and how many more.
pub fn find_misfits(alloc: Global, desc: &Desc, most: usize) -> Result<Misfits, AllocError> {
    let mut found = Misfits {
        found: Vec::new(alloc),
        left: 0,
    };
    for (number, instr) in desc.instrs.as_slice().iter().enumerate() {
        let mut walk = Walk {
            asked: Asked { desc, instr },
            number,
            next: 0,
            lets: LetWidths::new(alloc),
            found: &mut found,
            most,
        };
        walk.block(instr.body.as_slice())?;
    }
    Ok(found)
}
