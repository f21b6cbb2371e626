//! The bodies of instructions.

ghost use Rattle.std.specs.Prelude.{◌≡◌, [], ◌∷◌, ◌++◌, IfOk};
ghost use Rattle.pg_ast.specs.declared.tree.Expr.TheVariants.{Load as Loads, Bin as Binary, Ext as Widened, Rel as Relocation};
ghost use Rattle.pg_ast.specs.declared.tree.Stmt.TheVariants.{Store as Stores, Pc as Jumps};
ghost use Rattle.pg_cmd_gen.specs.Bodies.{field_x, cell_y, cell_z, jumps_where_equal, traps, traps_in_user_mode, loads_register, stores_relocation, body_of};
ghost use Rattle.pg_cmd_gen.specs.Letters.{letter_of, field_by};

use pg_ast::{Expr, Name, Op, Stmt, StmtList};
use sqlite_items::{Boxed, Items};
use std::alloc::{AllocError, Global};

/// A field of the patterns.
#[derive(Clone, Copy)]
enum Field {
    /// The highest of the three.
    X,
    /// The one between.
    Y,
    /// The lowest.
    Z,
}

impl Field {
    /// Its letter.
    fn letter(self) -> u8
        ensures { result ≡ letter_of self }
    {
        match self {
            Field::X => b'x',
            Field::Y => b'y',
            Field::Z => b'z',
        }
    }
}

/// A field, by its letter.
fn named(alloc: Global, field: Field) -> Result<Expr, AllocError>
    ensures { IfOk result (λ e. e ≡ field_by field) }
{
    let letter = Items::from_slice(alloc, &[field.letter()])?;
    Ok(Expr::Name(Name::new(letter)))
}

/// The cell at the address that a field holds.
fn cell(alloc: Global, field: Field) -> Result<Boxed<Expr>, AllocError>
    ensures { IfOk result (λ e. e ≡ Loads (field_by field)) }
{
    let name = named(alloc, field)?;
    let address = Boxed::new(alloc, name)?;
    Boxed::new(alloc, Expr::Load(address))
}

/// An operator between the cells at y and z.
fn of_cells(alloc: Global, op: Op) -> Result<Expr, AllocError>
    ensures { IfOk result (λ e. e ≡ Binary op cell_y cell_z) }
{
    let left = cell(alloc, Field::Y)?;
    let right = cell(alloc, Field::Z)?;
    Ok(Expr::Bin(op, left, right))
}

/// A block with one more statement at its end.
fn with_last(block: StmtList, stmt: Stmt) -> Result<StmtList, AllocError>
    ensures { IfOk result (λ longer. longer ≡ block ++ stmt ∷ []) }
{
    let mut longer = block;
    longer.push(stmt)?;
    Ok(longer)
}

/// A block of one statement.
fn block_of(alloc: Global, stmt: Stmt) -> Result<StmtList, AllocError>
    ensures { IfOk result (λ block. block ≡ stmt ∷ []) }
{
    with_last(Items::new(alloc), stmt)
}

/// `mem[x] = (mem[y] OP mem[z]);`
fn store_of_cells(alloc: Global, op: Op) -> Result<StmtList, AllocError>
    ensures { IfOk result (λ block. block ≡ Stores field_x (Binary op cell_y cell_z) ∷ []) }
{
    let address = named(alloc, Field::X)?;
    let value = of_cells(alloc, op)?;
    block_of(alloc, Stmt::Store(address, value))
}

/// `pc = x;`
fn jump(alloc: Global) -> Result<StmtList, AllocError>
    ensures { IfOk result (λ block. block ≡ Jumps field_x ∷ []) }
{
    let target = named(alloc, Field::X)?;
    block_of(alloc, Stmt::Pc(target))
}

/// `if (mem[y] == mem[z]) { pc = x; }`
fn jump_where_equal(alloc: Global) -> Result<StmtList, AllocError>
    ensures { IfOk result (λ block. block ≡ jumps_where_equal) }
{
    let are_equal = of_cells(alloc, Op::Eq)?;
    let held = jump(alloc)?;
    block_of(alloc, Stmt::If(are_equal, held, None))
}

/// `trap;`
fn trap(alloc: Global) -> Result<StmtList, AllocError>
    ensures { IfOk result (λ block. block ≡ traps) }
{
    block_of(alloc, Stmt::Trap)
}

/// `if mode { trap; }`
fn trap_in_user_mode(alloc: Global) -> Result<StmtList, AllocError>
    ensures { IfOk result (λ block. block ≡ traps_in_user_mode ∷ []) }
{
    let held = trap(alloc)?;
    block_of(alloc, Stmt::If(Expr::Mode, held, None))
}

/// `if mode { trap; } rel = x; bound = y;`
fn load_register(alloc: Global) -> Result<StmtList, AllocError>
    ensures { IfOk result (λ block. block ≡ loads_register) }
{
    let block = trap_in_user_mode(alloc)?;
    let rel = named(alloc, Field::X)?;
    let longer = with_last(block, Stmt::Rel(rel))?;
    let bound = named(alloc, Field::Y)?;
    with_last(longer, Stmt::Bound(bound))
}

/// `mem[x] = ext(rel, 32);`
fn store_of_relocation(alloc: Global) -> Result<Stmt, AllocError>
    ensures { IfOk result (λ stmt. stmt ≡ Stores field_x (Widened Relocation 32)) }
{
    let rel = Boxed::new(alloc, Expr::Rel)?;
    let address = named(alloc, Field::X)?;
    Ok(Stmt::Store(address, Expr::Ext(rel, 32)))
}

/// `if mode { trap; } mem[x] = ext(rel, 32);`
fn store_relocation(alloc: Global) -> Result<StmtList, AllocError>
    ensures { IfOk result (λ block. block ≡ stores_relocation) }
{
    let block = trap_in_user_mode(alloc)?;
    let store = store_of_relocation(alloc)?;
    with_last(block, store)
}

/// The body of this number, from 0 to 5.
#[tactic(auto, unfolding(crate::specs::Bodies::body_of))]
pub fn body(alloc: Global, number: u32) -> Result<StmtList, AllocError>
    ensures { IfOk result (λ body. body ≡ body_of number) }
{
    match number {
        0 => store_of_cells(alloc, Op::Add),
        1 => store_of_cells(alloc, Op::Xor),
        2 => jump_where_equal(alloc),
        3 => trap(alloc),
        4 => load_register(alloc),
        _ => store_relocation(alloc),
    }
}
