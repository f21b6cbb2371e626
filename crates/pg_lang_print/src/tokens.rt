//! The tokens of a tree, in order.
//!
//! `print` calls `desc_tokens`. There is one function for each kind of tree, which puts its tokens at
//! the end of one list, and each is the definition of `pg_ast` for that kind (`expr_tokens`,
//! `stmt_tokens`, `tokens_of`). They recurse as the tree does: the type of an instruction keeps its
//! body to `BLOCK_LEVELS` of blocks and `EXPR_LEVELS` of expressions. Words and patterns are copied into the list.

ghost use Rattle.std.specs.Prelude.{◌≡◌, ◌++◌, ◌∷◌, [], map, codes, OnOk, IfOk};
ghost use Rattle.pg_lang_token.specs.declared.tok.Tok.TheVariants.{Word, Number, Pattern};
ghost use Rattle.pg_lang_token.specs.declared.tok.Tok.TheVariants as toks;
ghost use Rattle.pg_lang_token.specs.declared.tok.Sign.TheVariants.{OpenParen, CloseParen, OpenBracket, CloseBracket, Comma, Colon, Semicolon, Equals};
ghost use Rattle.pg_ast.specs.declared.tree.Expr.TheVariants.{Load, Not, Bin, Cat, Cut, Sel};
ghost use Rattle.pg_ast.specs.ExprTokens.{sign_of, expr_tokens};
ghost use Rattle.pg_ast.specs.Tokens.{block_tokens, assign_tokens, stmt_tokens, instr_tokens, head_line, causes_tokens, head_tokens, tokens_of};

use pg_ast::{Desc, Expr, Instr, Op, Stmt};
use pg_lang_token::{Sign, Tok};
use sqlite_items::Items;
use std::alloc::{AllocError, Global};

/// A word.
fn put_word(alloc: Global, list: &mut Items<Tok>, bytes: &[u8]) -> Result<(), AllocError>
    ensures { OnOk result (list.new ≡ list.old ++ Word bytes.now ∷ []) }
{
    let bytes = Items::from_slice(alloc, bytes)?;
    list.push(Tok::Word(bytes))
}

/// A pattern.
fn put_pattern(alloc: Global, list: &mut Items<Tok>, bytes: &[u8]) -> Result<(), AllocError>
    ensures { OnOk result (list.new ≡ list.old ++ Pattern bytes.now ∷ []) }
{
    let bytes = Items::from_slice(alloc, bytes)?;
    list.push(Tok::Pattern(bytes))
}

/// A number.
fn put_number(list: &mut Items<Tok>, value: u64) -> Result<(), AllocError>
    ensures { OnOk result (list.new ≡ list.old ++ Number value ∷ []) }
{
    list.push(Tok::Number(value))
}

/// A sign.
fn put_sign(list: &mut Items<Tok>, sign: Sign) -> Result<(), AllocError>
    ensures { OnOk result (list.new ≡ list.old ++ toks.Sign sign ∷ []) }
{
    list.push(Tok::Sign(sign))
}

/// A value and its width.
fn put_lit(list: &mut Items<Tok>, value: u64, width: u64) -> Result<(), AllocError>
    ensures { OnOk result (list.new ≡ list.old ++ Number value ∷ toks.Sign Colon ∷ Number width ∷ []) }
{
    put_number(list, value)?;
    put_sign(list, Sign::Colon)?;
    put_number(list, width)
}

/// A word and the parenthesis behind it.
fn put_call(alloc: Global, list: &mut Items<Tok>, bytes: &[u8]) -> Result<(), AllocError>
    ensures { OnOk result (list.new ≡ list.old ++ Word bytes.now ∷ toks.Sign OpenParen ∷ []) }
{
    put_word(alloc, list, bytes)?;
    put_sign(list, Sign::OpenParen)
}

/// A comma and the number behind it.
fn put_next(list: &mut Items<Tok>, value: u64) -> Result<(), AllocError>
    ensures { OnOk result (list.new ≡ list.old ++ toks.Sign Comma ∷ Number value ∷ []) }
{
    put_sign(list, Sign::Comma)?;
    put_number(list, value)
}

/// The sign of an operator.
fn sign_of(op: Op) -> Sign
    ensures { result ≡ sign_of op }
{
    match op {
        Op::Add => Sign::Plus,
        Op::Sub => Sign::Minus,
        Op::Mul => Sign::Star,
        Op::And => Sign::Ampersand,
        Op::Or => Sign::Bar,
        Op::Xor => Sign::Caret,
        Op::Eq => Sign::DoubleEquals,
        Op::Lt => Sign::LessThan,
        Op::Shl => Sign::DoubleLess,
        Op::Shr => Sign::DoubleGreater,
    }
}

/// The tokens of an expression, by its form.
#[tactic(auto, using(pg_ast::proofs::ExprEquations::expr_tokens_rules, pg_ast::proofs::ExprEquations::depth_of_rules, std::proofs::lemmas::List::append_assoc))]
#[cycle(exprs)]
fn put_expr(alloc: Global, list: &mut Items<Tok>, expr: &Expr) -> Result<(), AllocError>
    ensures { OnOk result (list.new ≡ list.old ++ expr_tokens expr.now) }
{
    match expr {
        Expr::Lit(value, width) => put_lit(list, *value, *width),
        Expr::Name(name) => put_word(alloc, list, name.as_bytes()),
        Expr::Pc => put_word(alloc, list, b"pc"),
        Expr::Mode => put_word(alloc, list, b"mode"),
        Expr::Rel => put_word(alloc, list, b"rel"),
        Expr::Bound => put_word(alloc, list, b"bound"),
        Expr::Load(e) => put_load(alloc, list, e.get()),
        Expr::Not(e) => put_not(alloc, list, e.get()),
        Expr::Bin(op, x, y) => put_bin(alloc, list, *op, x.get(), y.get()),
        Expr::Cat(x, y) => put_cat(alloc, list, x.get(), y.get()),
        Expr::Cut(e, h, k) => put_cut(alloc, list, e.get(), *h, *k),
        Expr::Ext(e, n) => put_extended(alloc, list, b"ext", e.get(), *n),
        Expr::Sext(e, n) => put_extended(alloc, list, b"sext", e.get(), *n),
        Expr::Sel(c, x, y) => put_sel(alloc, list, c.get(), x.get(), y.get()),
    }
}

/// The tokens of `mem[e]`.
#[tactic(auto, using(pg_ast::proofs::ExprEquations::expr_tokens_rules, pg_ast::proofs::ExprEquations::depth_of_rules, std::proofs::lemmas::List::append_assoc))]
#[cycle(exprs)]
fn put_load(alloc: Global, list: &mut Items<Tok>, e: &Expr) -> Result<(), AllocError>
    ensures { OnOk result (list.new ≡ list.old ++ expr_tokens (Load e.now)) }
{
    put_word(alloc, list, b"mem")?;
    put_sign(list, Sign::OpenBracket)?;
    put_expr(alloc, list, e)?;
    put_sign(list, Sign::CloseBracket)
}

/// The tokens of `~e`.
#[tactic(auto, using(pg_ast::proofs::ExprEquations::expr_tokens_rules, pg_ast::proofs::ExprEquations::depth_of_rules, std::proofs::lemmas::List::append_assoc))]
#[cycle(exprs)]
fn put_not(alloc: Global, list: &mut Items<Tok>, e: &Expr) -> Result<(), AllocError>
    ensures { OnOk result (list.new ≡ list.old ++ expr_tokens (Not e.now)) }
{
    put_sign(list, Sign::Tilde)?;
    put_expr(alloc, list, e)
}

/// The tokens of two expressions with an operator between.
#[tactic(auto, using(pg_ast::proofs::ExprEquations::expr_tokens_rules, pg_ast::proofs::ExprEquations::depth_of_rules, std::proofs::lemmas::List::append_assoc))]
#[cycle(exprs)]
fn put_bin(
    alloc: Global,
    list: &mut Items<Tok>,
    op: Op,
    x: &Expr,
    y: &Expr,
) -> Result<(), AllocError>
    ensures { OnOk result (list.new ≡ list.old ++ expr_tokens (Bin op x.now y.now)) }
{
    put_sign(list, Sign::OpenParen)?;
    put_expr(alloc, list, x)?;
    put_sign(list, sign_of(op))?;
    put_expr(alloc, list, y)?;
    put_sign(list, Sign::CloseParen)
}

/// The tokens of `cat(x, y)`.
#[tactic(auto, using(pg_ast::proofs::ExprEquations::expr_tokens_rules, pg_ast::proofs::ExprEquations::depth_of_rules, std::proofs::lemmas::List::append_assoc))]
#[cycle(exprs)]
fn put_cat(alloc: Global, list: &mut Items<Tok>, x: &Expr, y: &Expr) -> Result<(), AllocError>
    ensures { OnOk result (list.new ≡ list.old ++ expr_tokens (Cat x.now y.now)) }
{
    put_call(alloc, list, b"cat")?;
    put_expr(alloc, list, x)?;
    put_sign(list, Sign::Comma)?;
    put_expr(alloc, list, y)?;
    put_sign(list, Sign::CloseParen)
}

/// The tokens of `cut(e, h, k)`.
#[tactic(auto, using(pg_ast::proofs::ExprEquations::expr_tokens_rules, pg_ast::proofs::ExprEquations::depth_of_rules, std::proofs::lemmas::List::append_assoc))]
#[cycle(exprs)]
fn put_cut(alloc: Global, list: &mut Items<Tok>, e: &Expr, h: u64, k: u64) -> Result<(), AllocError>
    ensures { OnOk result (list.new ≡ list.old ++ expr_tokens (Cut e.now h k)) }
{
    put_call(alloc, list, b"cut")?;
    put_expr(alloc, list, e)?;
    put_next(list, h)?;
    put_next(list, k)?;
    put_sign(list, Sign::CloseParen)
}

/// The tokens of `ext(e, n)`, or of `sext(e, n)`, by the word.
#[tactic(auto, using(pg_ast::proofs::ExprEquations::depth_of_rules, std::proofs::lemmas::List::append_assoc))]
#[cycle(exprs)]
fn put_extended(
    alloc: Global,
    list: &mut Items<Tok>,
    word: &[u8],
    e: &Expr,
    n: u64,
) -> Result<(), AllocError>
    ensures { OnOk result (list.new ≡ list.old ++ Word word.now ∷ toks.Sign OpenParen ∷ expr_tokens e.now ++ toks.Sign Comma ∷ Number n ∷ toks.Sign CloseParen ∷ []) }
{
    put_call(alloc, list, word)?;
    put_expr(alloc, list, e)?;
    put_next(list, n)?;
    put_sign(list, Sign::CloseParen)
}

/// The tokens of `sel(c, x, y)`.
#[tactic(auto, using(pg_ast::proofs::ExprEquations::expr_tokens_rules, pg_ast::proofs::ExprEquations::depth_of_rules, std::proofs::lemmas::List::append_assoc))]
#[cycle(exprs)]
fn put_sel(
    alloc: Global,
    list: &mut Items<Tok>,
    c: &Expr,
    x: &Expr,
    y: &Expr,
) -> Result<(), AllocError>
    ensures { OnOk result (list.new ≡ list.old ++ expr_tokens (Sel c.now x.now y.now)) }
{
    put_call(alloc, list, b"sel")?;
    put_expr(alloc, list, c)?;
    put_sign(list, Sign::Comma)?;
    put_expr(alloc, list, x)?;
    put_sign(list, Sign::Comma)?;
    put_expr(alloc, list, y)?;
    put_sign(list, Sign::CloseParen)
}

/// An assignment of an expression to a register.
fn put_assign(
    alloc: Global,
    list: &mut Items<Tok>,
    register: &[u8],
    expr: &Expr,
) -> Result<(), AllocError>
    ensures { OnOk result (list.new ≡ list.old ++ assign_tokens register.now expr.now) }
{
    put_word(alloc, list, register)?;
    put_sign(list, Sign::Equals)?;
    put_expr(alloc, list, expr)?;
    put_sign(list, Sign::Semicolon)
}

/// A `let` of this name.
fn put_let(alloc: Global, list: &mut Items<Tok>, name: &[u8], expr: &Expr) -> Result<(), AllocError>
    ensures { OnOk result (list.new ≡ list.old ++ Word (codes "let") ∷ assign_tokens name.now expr.now) }
{
    put_word(alloc, list, b"let")?;
    put_assign(alloc, list, name, expr)
}

/// An assignment to a cell of memory, the address first.
fn put_store(alloc: Global, list: &mut Items<Tok>, at: &Expr, expr: &Expr) -> Result<(), AllocError>
    ensures { OnOk result (list.new ≡ list.old ++ Word (codes "mem") ∷ toks.Sign OpenBracket ∷ expr_tokens at.now ++ toks.Sign CloseBracket ∷ toks.Sign Equals ∷ expr_tokens expr.now ++ toks.Sign Semicolon ∷ []) }
{
    put_word(alloc, list, b"mem")?;
    put_sign(list, Sign::OpenBracket)?;
    put_expr(alloc, list, at)?;
    put_sign(list, Sign::CloseBracket)?;
    put_sign(list, Sign::Equals)?;
    put_expr(alloc, list, expr)?;
    put_sign(list, Sign::Semicolon)
}

/// A `trap`.
fn put_trap(alloc: Global, list: &mut Items<Tok>) -> Result<(), AllocError>
    ensures { OnOk result (list.new ≡ list.old ++ Word (codes "trap") ∷ toks.Sign Semicolon ∷ []) }
{
    put_word(alloc, list, b"trap")?;
    put_sign(list, Sign::Semicolon)
}

/// The tokens of a statement.
#[tactic(auto, using(pg_ast::proofs::StmtEquations::stmt_tokens_rules, std::proofs::lemmas::List::append_assoc))]
#[cycle(stmts)]
fn put_stmt(alloc: Global, list: &mut Items<Tok>, stmt: &Stmt) -> Result<(), AllocError>
    ensures { OnOk result (list.new ≡ list.old ++ stmt_tokens stmt.now) }
{
    match stmt {
        Stmt::Let(name, e) => put_let(alloc, list, name.as_bytes(), e),
        Stmt::Store(at, e) => put_store(alloc, list, at, e),
        Stmt::Pc(e) => put_assign(alloc, list, b"pc", e),
        Stmt::Mode(e) => put_assign(alloc, list, b"mode", e),
        Stmt::Rel(e) => put_assign(alloc, list, b"rel", e),
        Stmt::Bound(e) => put_assign(alloc, list, b"bound", e),
        Stmt::Trap => put_trap(alloc, list),
        Stmt::If(c, held, other) => {
            put_word(alloc, list, b"if")?;
            put_expr(alloc, list, c)?;
            put_block(alloc, list, held.as_slice())?;
            match other {
                None => Ok(()),
                Some(other) => {
                    put_word(alloc, list, b"else")?;
                    put_block(alloc, list, other.as_slice())
                }
            }
        }
    }
}

/// The tokens of a block.
#[tactic(auto, using(std::proofs::lemmas::List::append_assoc))]
#[cycle(stmts)]
fn put_block(alloc: Global, list: &mut Items<Tok>, stmts: &[Stmt]) -> Result<(), AllocError>
    ensures { OnOk result (list.new ≡ list.old ++ block_tokens (map stmt_tokens stmts.now)) }
{
    put_sign(list, Sign::OpenBrace)?;
    for stmt in stmts {
        put_stmt(alloc, list, stmt)?;
    }
    put_sign(list, Sign::CloseBrace)
}

/// The tokens of an instruction.
#[tactic(auto, unfolding(pg_ast::specs::Tokens::instr_tokens))]
fn put_instr(alloc: Global, list: &mut Items<Tok>, instr: &Instr) -> Result<(), AllocError>
    ensures { OnOk result (list.new ≡ list.old ++ instr_tokens instr.now) }
{
    put_word(alloc, list, b"instr")?;
    put_word(alloc, list, instr.name.as_bytes())?;
    put_pattern(alloc, list, instr.pattern.as_bytes())?;
    put_block(alloc, list, instr.body.as_slice())
}

/// A line of the head.
fn put_line(alloc: Global, list: &mut Items<Tok>, word: &[u8], value: u64) -> Result<(), AllocError>
    ensures { OnOk result (list.new ≡ list.old ++ head_line word.now value) }
{
    put_word(alloc, list, word)?;
    put_number(list, value)?;
    put_sign(list, Sign::Semicolon)
}

/// The last line of the head, where causes are on.
fn put_causes(alloc: Global, list: &mut Items<Tok>, causes: bool) -> Result<(), AllocError>
    ensures { OnOk result (list.new ≡ list.old ++ causes_tokens causes) }
{
    if causes {
        put_word(alloc, list, b"causes")?;
        put_word(alloc, list, b"on")?;
        put_sign(list, Sign::Semicolon)?;
    }
    Ok(())
}

/// The lines of the head that have numbers.
#[tactic(auto, using(std::proofs::lemmas::List::append_assoc))]
fn put_numbers(alloc: Global, list: &mut Items<Tok>, desc: &Desc) -> Result<(), AllocError>
    ensures { OnOk result (list.new ≡ list.old ++ head_line (codes "word") desc.now.word ++ head_line (codes "address") desc.now.address ++ head_line (codes "size") desc.now.size) }
{
    put_line(alloc, list, b"word", desc.word)?;
    put_line(alloc, list, b"address", desc.address)?;
    put_line(alloc, list, b"size", desc.size)
}

/// The head of a description.
#[tactic(auto, unfolding(pg_ast::specs::Tokens::head_tokens), using(std::proofs::lemmas::List::append_assoc))]
fn put_head(alloc: Global, list: &mut Items<Tok>, desc: &Desc) -> Result<(), AllocError>
    ensures { OnOk result (list.new ≡ list.old ++ head_tokens desc.now) }
{
    put_word(alloc, list, b"machine")?;
    put_sign(list, Sign::OpenBrace)?;
    put_numbers(alloc, list, desc)?;
    put_causes(alloc, list, desc.causes)?;
    put_sign(list, Sign::CloseBrace)
}

/// The tokens of a description, in order. `AllocError` comes where an allocation fails, and from
/// nothing else.
#[tactic(auto, unfolding(pg_ast::specs::Tokens::tokens_of))]
pub fn desc_tokens(alloc: Global, desc: &Desc) -> Result<Items<Tok>, AllocError>
    ensures { IfOk result (λ list. list ≡ tokens_of desc.now) }
{
    let mut list = Items::new(alloc);
    put_head(alloc, &mut list, desc)?;
    for instr in desc.instrs.as_slice() {
        put_instr(alloc, &mut list, instr)?;
    }
    Ok(list)
}
