//! Widths of expressions.
//!
//! The seventh class of validity. In the definitions of what a body does each value carries its width; a body without a
//! fault of this class never meets a width that does not fit, which is what code and gates of it rest on. The small
//! functions are the rows of the table of widths; an error says how an expression or a part of it breaks it. Statements are
//! gone over in the order of the text with the visible lets and their widths, and the lets of a block end with it; they
//! are counted in that order from 0, an if before those inside it, and a fault has the place of the first whose own
//! expressions break the table. The names are known already, by the class before. The list of lets alone takes memory.

ghost use Rattle.std.specs.Prelude.{◌≡◌, ◌+◌, ◌^◌, ◌==◌, nat_lt, map, IfOk, OnOk};
ghost use Rattle.pg_lang_meaning.specs.Patterns.{field_of};
ghost use Rattle.pg_lang_valid.specs.declared.fault.WidthClash.TheVariants as clash;
ghost use Rattle.pg_lang_valid.specs.Fares.{fare_as, Grows};
ghost use Rattle.pg_lang_valid.specs.Widths.{LetWidths as Visible, setting_of, field_or_let_width, where_holds, judged, with_judged, literal_width, op_width, joined_width, cut_width, widened_width, choice_width, choice_clash, judged_of, wants, binds, then_fares, after_block, fares_in_order, fare_of, width_broken_in, width_broken};

use crate::fault::WidthClash;
use crate::let_widths::LetWidths;
use pg_ast::{Desc, Expr, Instr, Name, Op, Stmt};
use pg_lang_meaning::field_of;
use std::alloc::{AllocError, Global};

/// Whether a number has no bit from bit `bits` on.
pub fn below_power(number: u64, bits: u64) -> bool
    ensures { result ≡ nat_lt number (2 ^ bits) }
{
    if bits < 64 { number < 1 << bits } else { true }
}

/// A width, or how the table of widths is broken.
pub type Judged = Result<u64, WidthClash>;

/// The width of a literal: 1 to 64 bits, which hold the number.
fn literal_width(number: u64, bits: u64) -> Judged
    ensures { result ≡ judged (literal_width number bits) (clash.Number number bits) }
{
    if 1 <= bits && bits <= 64 && below_power(number, bits) {
        Ok(bits)
    } else {
        Err(WidthClash::Number(number, bits))
    }
}

/// The width of a name: that of its field, or of the newest visible let.
fn name_width(pattern: &[u8], name: &[u8], lets: &LetWidths<'_>) -> Judged
    ensures { result ≡ judged (field_or_let_width (field_of pattern.now name.now) lets.now name.now) clash.Unnamed }
{
    match field_of(pattern, name) {
        None => match lets.width(name) {
            None => Err(WidthClash::Unnamed),
            Some(width) => Ok(width),
        },
        Some(field) => Ok(field.width),
    }
}

/// The width of a load, whose address has the width of an address.
fn load_width(desc: &Desc, address: Judged) -> Judged
    ensures { result ≡ with_judged address (λ n. judged (where_holds (n == desc.now.address) desc.now.word) (clash.Wanted desc.now.address n)) }
{
    match address {
        Err(how) => Err(how),
        Ok(n) => {
            if n == desc.address {
                Ok(desc.word)
            } else {
                Err(WidthClash::Wanted(desc.address, n))
            }
        }
    }
}

/// The width of an operator's answer on two sides of these widths.
fn op_width(op: Op, left: u64, right: u64) -> Judged
    ensures { result ≡ judged (op_width op left right) (clash.Sides left right) }
{
    let clash = WidthClash::Sides(left, right);
    let same = left == right;
    match op {
        Op::Add | Op::Sub | Op::Mul | Op::And | Op::Or | Op::Xor => {
            if same { Ok(left) } else { Err(clash) }
        }
        Op::Eq | Op::Lt => { if same { Ok(1) } else { Err(clash) } }
        Op::Shl | Op::Shr => Ok(left),
    }
}

/// The same, where the sides have widths.
fn bin_width(op: Op, left: Judged, right: Judged) -> Judged
    ensures { result ≡ with_judged left (λ x. with_judged right (λ y. judged (op_width op x y) (clash.Sides x y))) }
{
    match left {
        Err(how) => Err(how),
        Ok(x) => match right {
            Err(how) => Err(how),
            Ok(y) => op_width(op, x, y),
        },
    }
}

/// The width of two sides joined: at most 64 bits.
fn joined_width(left: u64, right: u64) -> Judged
    ensures { result ≡ judged (joined_width left right) (clash.Joined left right) }
{
    if left <= 64 && right <= 64 - left {
        Ok(left + right)
    } else {
        Err(WidthClash::Joined(left, right))
    }
}

/// The same, where the sides have widths.
fn cat_width(left: Judged, right: Judged) -> Judged
    ensures { result ≡ with_judged left (λ x. with_judged right (λ y. judged (joined_width x y) (clash.Joined x y))) }
{
    match left {
        Err(how) => Err(how),
        Ok(x) => match right {
            Err(how) => Err(how),
            Ok(y) => joined_width(x, y),
        },
    }
}

/// The width of bits `low` to `high` of an expression.
fn cut_width(width: Judged, high: u64, low: u64) -> Judged
    ensures { result ≡ with_judged width (λ n. judged (cut_width n high low) (clash.Cut n high low)) }
{
    match width {
        Err(how) => Err(how),
        Ok(n) => {
            if low <= high && high < n {
                Ok(high - low + 1)
            } else {
                Err(WidthClash::Cut(n, high, low))
            }
        }
    }
}

/// The width of an expression widened to at most 64 bits.
fn widened_width(width: Judged, to: u64) -> Judged
    ensures { result ≡ with_judged width (λ n. judged (widened_width n to) (clash.Widened n to)) }
{
    match width {
        Err(how) => Err(how),
        Ok(n) => {
            if n <= to && to <= 64 {
                Ok(to)
            } else {
                Err(WidthClash::Widened(n, to))
            }
        }
    }
}

/// The width of a choice between two sides: a condition of one bit, and two sides of one width.
fn chosen_width(test: u64, left: u64, right: u64) -> Judged
    ensures { result ≡ judged (choice_width test left right) (choice_clash test left right) }
{
    if test == 1 {
        if left == right {
            Ok(left)
        } else {
            Err(WidthClash::Choices(left, right))
        }
    } else {
        Err(WidthClash::Wanted(1, test))
    }
}

/// The same, where all three have widths.
fn choice_width(test: Judged, left: Judged, right: Judged) -> Judged
    ensures { result ≡ with_judged test (λ c. with_judged left (λ x. with_judged right (λ y. judged (choice_width c x y) (choice_clash c x y)))) }
{
    match test {
        Err(how) => Err(how),
        Ok(c) => match left {
            Err(how) => Err(how),
            Ok(x) => match right {
                Err(how) => Err(how),
                Ok(y) => chosen_width(c, x, y),
            },
        },
    }
}

/// The width of an expression of an instruction, where lets are visible. The error is how the first part of it that breaks
/// the table of widths does; the parts of an expression come before it, from the left.
#[tactic(auto, using(crate::proofs::WidthEquations::judged_rules))]
pub fn width_of(desc: &Desc, instr: &Instr, expr: &Expr, lets: &LetWidths<'_>) -> Judged
    ensures { result ≡ judged_of (setting_of desc.now instr.now) expr.now lets.now }
{
    match expr {
        Expr::Lit(number, bits) => literal_width(*number, *bits),
        Expr::Name(name) => name_width(instr.pattern.bytes.as_slice(), name.as_bytes(), lets),
        Expr::Pc | Expr::Rel | Expr::Bound => Ok(desc.address),
        Expr::Mode => Ok(1),
        Expr::Load(e) => load_width(desc, width_of(desc, instr, e.get(), lets)),
        Expr::Not(e) => width_of(desc, instr, e.get(), lets),
        Expr::Bin(op, x, y) => bin_width(
            *op,
            width_of(desc, instr, x.get(), lets),
            width_of(desc, instr, y.get(), lets),
        ),
        Expr::Cat(x, y) => cat_width(
            width_of(desc, instr, x.get(), lets),
            width_of(desc, instr, y.get(), lets),
        ),
        Expr::Cut(e, high, low) => cut_width(width_of(desc, instr, e.get(), lets), *high, *low),
        Expr::Ext(e, to) | Expr::Sext(e, to) => widened_width(
            width_of(desc, instr, e.get(), lets),
            *to,
        ),
        Expr::Sel(c, x, y) => choice_width(
            width_of(desc, instr, c.get(), lets),
            width_of(desc, instr, x.get(), lets),
            width_of(desc, instr, y.get(), lets),
        ),
    }
}

/// How statements fare: the place of the first that breaks the table of widths, or the place after them.
#[derive(Clone, Copy, Debug)]
enum Fare {
    /// The place of the first that breaks it, and how.
    Breaks(usize, WidthClash),
    /// The place after them, where all keep it.
    Keeps(usize),
}

/// The place after this one. The error is out of memory, which would have come before so many statements.
fn next_place(place: usize) -> Result<usize, AllocError>
    ensures { IfOk result (λ next. next ≡ place + 1) }
{
    match place.checked_add(1) {
        None => Err(AllocError),
        Some(next) => Ok(next),
    }
}

/// How an expression fares from which this width is wanted. The error is that of `next_place`.
fn wants(wanted: u64, width: Judged, place: usize) -> Result<Fare, AllocError>
    ensures { IfOk result (λ fare. (lets : Visible) → fare_as fare lets ≡ wants wanted width place lets) }
{
    match width {
        Err(how) => Ok(Fare::Breaks(place, how)),
        Ok(n) => {
            if n != wanted {
                return Ok(Fare::Breaks(place, WidthClash::Wanted(wanted, n)));
            }
            match next_place(place) {
                Err(error) => Err(error),
                Ok(next) => Ok(Fare::Keeps(next)),
            }
        }
    }
}

/// How a let fares, which may have any width and is visible after it.
#[tactic(auto, using(crate::proofs::GrowLemmas::grow_rules))]
fn binds<'m>(
    name: &'m Name,
    width: Judged,
    place: usize,
    lets: &mut LetWidths<'m>,
) -> Result<Fare, AllocError>
    ensures kept { OnOk result (Grows lets.old lets.new) }
    ensures fare { IfOk result (λ fare. fare_as fare lets.new ≡ binds name.now.bytes width place lets.old) }
{
    match width {
        Err(how) => Ok(Fare::Breaks(place, how)),
        Ok(n) => {
            match lets.push(name.as_bytes(), n) {
                Err(error) => return Err(error),
                Ok(()) => {}
            }
            match next_place(place) {
                Err(error) => Err(error),
                Ok(next) => Ok(Fare::Keeps(next)),
            }
        }
    }
}

/// How a store fares, with the widths of its address and of what it stores. The error is that of `next_place`.
fn store_fare(desc: &Desc, address: Judged, cell: Judged, place: usize) -> Result<Fare, AllocError>
    ensures { IfOk result (λ fare. (lets : Visible) → fare_as fare lets ≡ then_fares (wants desc.now.address address place lets) (λ next same. wants desc.now.word cell place lets)) }
{
    match wants(desc.address, address, place) {
        Err(error) => Err(error),
        Ok(Fare::Breaks(at, how)) => Ok(Fare::Breaks(at, how)),
        Ok(Fare::Keeps(_)) => wants(desc.word, cell, place),
    }
}

/// How a statement at a place fares. A let is visible after it.
#[cycle(fare)]
#[tactic(auto, using(crate::proofs::FareEquations::fare_rules, crate::proofs::GrowLemmas::grow_rules))]
fn fare_of<'m>(
    desc: &Desc,
    instr: &Instr,
    stmt: &'m Stmt,
    place: usize,
    lets: &mut LetWidths<'m>,
) -> Result<Fare, AllocError>
    ensures fare { IfOk result (λ fare. fare_as fare lets.new ≡ fare_of (setting_of desc.now instr.now) stmt.now place lets.old) }
    ensures kept { OnOk result (Grows lets.old lets.new) }
{
    match stmt {
        Stmt::Let(name, e) => {
            let width = width_of(desc, instr, e, lets);
            binds(name, width, place, lets)
        }
        Stmt::Store(a, e) => store_fare(
            desc,
            width_of(desc, instr, a, lets),
            width_of(desc, instr, e, lets),
            place,
        ),
        Stmt::Pc(e) | Stmt::Rel(e) | Stmt::Bound(e) => wants(
            desc.address,
            width_of(desc, instr, e, lets),
            place,
        ),
        Stmt::Mode(e) => wants(1, width_of(desc, instr, e, lets), place),
        Stmt::Trap => next_place(place).map(Fare::Keeps),
        Stmt::If(c, held, other) => match wants(1, width_of(desc, instr, c, lets), place) {
            Ok(Fare::Keeps(next)) => match fares_in_block(
                desc,
                instr,
                held.as_slice(),
                next,
                lets,
            ) {
                Ok(Fare::Keeps(later)) => match other {
                    None => Ok(Fare::Keeps(later)),
                    Some(stmts) => fares_in_block(desc, instr, stmts.as_slice(), later, lets),
                },
                broken => broken,
            },
            broken => broken,
        },
    }
}

/// How the statements of a block fare, whose lets end with it.
#[cycle(fare)]
#[tactic(auto, using(crate::proofs::GrowLemmas::grow_rules))]
fn fares_in_block<'m>(
    desc: &Desc,
    instr: &Instr,
    stmts: &'m [Stmt],
    place: usize,
    lets: &mut LetWidths<'m>,
) -> Result<Fare, AllocError>
    ensures fare { IfOk result (λ fare. fare_as fare lets.new ≡ after_block lets.old (fares_in_order (map (fare_of (setting_of desc.now instr.now)) stmts.now) place lets.old)) }
    ensures after { OnOk result (lets.new ≡ lets.old) }
{
    let outer = lets.len();
    match fares_in_order(desc, instr, stmts, place, lets) {
        Err(error) => Err(error),
        Ok(fare) => {
            lets.truncate(outer);
            Ok(fare)
        }
    }
}

/// How statements fare in the order of the text.
#[cycle(fare)]
#[tactic(auto, using(crate::proofs::GrowLemmas::grow_rules), unfolding(crate::specs::Widths::fares_in_order))]
fn fares_in_order<'m>(
    desc: &Desc,
    instr: &Instr,
    stmts: &'m [Stmt],
    place: usize,
    lets: &mut LetWidths<'m>,
) -> Result<Fare, AllocError>
    ensures fare { IfOk result (λ fare. fare_as fare lets.new ≡ fares_in_order (map (fare_of (setting_of desc.now instr.now)) stmts.now) place lets.old) }
    ensures kept { OnOk result (Grows lets.old lets.new) }
{
    let mut next = place;
    for stmt in stmts {
        match fare_of(desc, instr, stmt, next, lets) {
            Err(error) => return Err(error),
            Ok(Fare::Breaks(at, how)) => return Ok(Fare::Breaks(at, how)),
            Ok(Fare::Keeps(after)) => next = after,
        }
    }
    Ok(Fare::Keeps(next))
}

/// The first statement of an instruction whose own expressions break the table of widths, and how.
fn width_broken_in(
    alloc: Global,
    desc: &Desc,
    instr: &Instr,
) -> Result<Option<(usize, WidthClash)>, AllocError>
    ensures { IfOk result (λ found. found ≡ width_broken_in desc.now instr.now) }
{
    let mut lets = LetWidths::new(alloc);
    match fares_in_order(desc, instr, instr.body.as_slice(), 0, &mut lets) {
        Err(error) => Err(error),
        Ok(Fare::Breaks(at, how)) => Ok(Some((at, how))),
        Ok(Fare::Keeps(_)) => Ok(None),
    }
}

/// The first instruction with such a statement, its first such statement, and how that breaks the table.
#[tactic(auto, unfolding(crate::specs::Widths::width_broken))]
pub fn width_broken(
    alloc: Global,
    desc: &Desc,
) -> Result<Option<(usize, (usize, WidthClash))>, AllocError>
    ensures { IfOk result (λ found. found ≡ width_broken desc.now 0 desc.now.instrs) }
{
    for (k, instr) in desc.instrs.as_slice().iter().enumerate() {
        match width_broken_in(alloc, desc, instr) {
            Err(error) => return Err(error),
            Ok(Some(broken)) => return Ok(Some((k, broken))),
            Ok(None) => {}
        }
    }
    Ok(None)
}
