//! Copies of statements and routines.
ghost use Rattle.std.specs.Prelude.{◌≡◌, IfOk};

use crate::deep_copy::{DeepCopy, copied};
use crate::script::{TRoutine, TStmt};
use sgl_values::{List, Memory};
use std::alloc::Global;

impl DeepCopy for TStmt {
    #[cycle(statements)]
    fn deep_copy(&self, alloc: Global) -> Result<TStmt, Memory> {
        match self {
            TStmt::Let { slot, value, place } => {
                copied!(alloc => TStmt::Let { value }, slot, place)
            }
            TStmt::If {
                cond,
                place,
                yes,
                no,
            } => {
                let cond = cond.deep_copy(alloc)?;
                let yes = copy_stmts(alloc, yes.as_slice())?;
                let no = copy_stmts(alloc, no.as_slice())?;
                Ok(TStmt::If {
                    cond,
                    place: *place,
                    yes,
                    no,
                })
            }
            TStmt::Act {
                action,
                args,
                place,
            } => copied!(alloc => TStmt::Act { args }, action, place),
            TStmt::Call {
                routine,
                args,
                places,
            } => copied!(alloc => TStmt::Call { args, places }, routine),
        }
    }
}

// Copies of the statements of a block. A cycle of calls leads through no generic function, so this is not `copy_all`.
#[cycle(statements)]
fn copy_stmts(alloc: Global, stmts: &[TStmt]) -> Result<List<TStmt>, Memory>
    ensures { IfOk result (λ copies. copies ≡ stmts.now) }
{
    let mut copies = List::new(alloc);
    for stmt in stmts {
        copies.push(stmt.deep_copy(alloc)?)?;
    }
    Ok(copies)
}

impl DeepCopy for TRoutine {
    fn deep_copy(&self, alloc: Global) -> Result<TRoutine, Memory> {
        copied!(alloc, self => TRoutine { params, body })
    }
}
