//! The nodes and the depth that statements have once written out, counted without writing them.
ghost use Rattle.std.specs.Prelude.{◌≡◌, ◌+◌, [], max, slice_index_or, IfOk};
ghost use Rattle.sgl_typed.specs.Sizes.{nodes_of, nodes_of_all, argument_nodes, statement_nodes, statements_nodes, statement_depth, statements_depth};
ghost use Rattle.sgl_expand.specs.Sizes.{capped, nodes_in, depths_in, capped_nodes, capped_depths};

use sgl_typed::{TExpr, TRoutine, TStmt};
use sgl_values::Memory;
use std::alloc::Global;

/// What statements come to once written out: their nodes, and how many blocks stand in one another in them. Each is the
/// greatest number of 64 bits where that is less.
#[derive(Clone, Copy, Debug, PartialEq, Eq)]
pub struct Size {
    pub nodes: u64,
    pub depth: u64,
}

/// The sum, or the greatest number of 64 bits where that is less.
pub fn add(a: u64, b: u64) -> u64
    ensures { result ≡ capped (a + b) }
{
    a.saturating_add(b)
}

fn greater(a: u64, b: u64) -> u64
    ensures { result ≡ max a b }
{
    a.max(b)
}

// The size of the body of a routine, or nothing where there is none of this number.
fn size_at(sizes: &[Size], routine: u32) -> Size
    ensures nodes { result.nodes ≡ slice_index_or (nodes_in sizes.now) routine 0 }
    ensures depth { result.depth ≡ slice_index_or (depths_in sizes.now) routine 0 }
{
    match sizes.get(routine as usize) {
        Some(size) => *size,
        None => Size { nodes: 0, depth: 0 },
    }
}

// The nodes of parts, put together.
macro_rules! together {
    ($parts:ident, $part:ident => $size:expr) => {{
        let mut size = 0;
        for $part in $parts {
            size = add(size, $size);
        }
        size
    }};
}

// The nodes of an expression.
#[cycle(expr_nodes)]
#[tactic(auto, using(crate::proofs::Capped::size_equations))]
fn count_expr(expr: &TExpr) -> u64
    ensures { result ≡ capped (nodes_of expr.now) }
{
    match expr {
        TExpr::Agg(call) => add(1, count_exprs(call.args.as_slice())),
        TExpr::Neg(inner) => add(1, count_expr(inner.get())),
        TExpr::Not(inner) => add(1, count_expr(inner.get())),
        TExpr::Binary { left, right, .. } => {
            add(1, add(count_expr(left.get()), count_expr(right.get())))
        }
        TExpr::Number(_) => 1,
        TExpr::Truth(_) => 1,
        TExpr::Slot(_) => 1,
        TExpr::Unit(_) => 1,
        TExpr::Target(_) => 1,
        TExpr::Combined(_) => 1,
        TExpr::Random(_) => 1,
    }
}

#[cycle(expr_nodes)]
#[tactic(auto, using(crate::proofs::Capped::size_equations))]
fn count_exprs(exprs: &[TExpr]) -> u64
    ensures { result ≡ capped (nodes_of_all exprs.now) }
{
    together!(exprs, expr => count_expr(expr))
}

// The nodes of a `let` for each argument.
#[tactic(auto, using(crate::proofs::Capped::size_equations))]
fn count_arguments(args: &[TExpr]) -> u64
    ensures { result ≡ capped (argument_nodes args.now) }
{
    together!(args, expr => add(1, count_expr(expr)))
}

// The size of a statement, by those of the bodies of routines.
#[cycle(statement_sizes)]
#[tactic(auto, using(crate::proofs::Capped::size_equations))]
fn measure_statement(sizes: &[Size], statement: &TStmt) -> Size
    ensures nodes { result.nodes ≡ capped (statement_nodes (nodes_in sizes.now) statement.now) }
    ensures depth { result.depth ≡ capped (statement_depth (depths_in sizes.now) statement.now) }
{
    match statement {
        TStmt::Let { value, .. } => Size {
            nodes: add(1, count_expr(value)),
            depth: 0,
        },
        TStmt::If { cond, yes, no, .. } => {
            let taken = measure_statements(sizes, yes.as_slice());
            let other = measure_statements(sizes, no.as_slice());
            let blocks = add(taken.nodes, other.nodes);
            let deeper = greater(taken.depth, other.depth);
            Size {
                nodes: add(add(1, count_expr(cond)), blocks),
                depth: add(1, deeper),
            }
        }
        TStmt::Act { args, .. } => Size {
            nodes: add(1, count_exprs(args.as_slice())),
            depth: 0,
        },
        TStmt::Call { routine, args, .. } => {
            let body = size_at(sizes, *routine);
            Size {
                nodes: add(count_arguments(args.as_slice()), body.nodes),
                depth: body.depth,
            }
        }
    }
}

/// The size of statements once routines are written out, by the sizes of the bodies of routines. It looks at each
/// statement once.
#[cycle(statement_sizes)]
#[tactic(auto, using(crate::proofs::Capped::size_equations))]
pub fn measure_statements(sizes: &[Size], statements: &[TStmt]) -> Size
    ensures nodes { result.nodes ≡ capped (statements_nodes (nodes_in sizes.now) statements.now) }
    ensures depth { result.depth ≡ capped (statements_depth (depths_in sizes.now) statements.now) }
{
    let mut nodes = 0;
    let mut depth = 0;
    for statement in statements {
        let size = measure_statement(sizes, statement);
        nodes = add(nodes, size.nodes);
        depth = greater(depth, size.depth);
    }
    Size { nodes, depth }
}

/// The size of the body of each routine, by those before it; refused for want of memory alone.
#[tactic(auto, using(crate::proofs::Capped::size_equations))]
pub fn measure_routines(alloc: Global, routines: &[TRoutine]) -> Result<Vec<Size>, Memory>
    ensures nodes { IfOk result (λ sizes. nodes_in sizes.items ≡ capped_nodes [] routines.now) }
    ensures depths { IfOk result (λ sizes. depths_in sizes.items ≡ capped_depths [] routines.now) }
{
    let mut sizes = Vec::new(alloc);
    for routine in routines {
        let size = measure_statements(sizes.as_slice(), routine.body.as_slice());
        sizes.push(size)?;
    }
    Ok(sizes)
}
