//! Leaves out calls of routines that write nothing, and leads calls past routines that only call
//! another one.
ghost use Rattle.std.specs.Prelude.{◌≡◌, [], ◌++◌, ◌∷◌, slice_get, IfOk};
ghost use Rattle.std.specs.Option.{option_map};
ghost use Rattle.sgl_typed.specs.declared.script.TStmt.TheVariants.{Call};
ghost use Rattle.sgl_expand.specs.Pruned.{only_call, pruned, pruned_all, pruned_call, pruned_routines};

use sgl_typed::{DeepCopy, TRoutine, TStmt};
use sgl_values::{List, Memory};
use std::alloc::Global;

// The routine that is called without arguments, where these statements do nothing else.
fn only_call(statements: &[TStmt]) -> Option<u32>
    ensures { result ≡ only_call statements.now }
{
    match statements {
        [TStmt::Call { routine, args, .. }] => match args.as_slice() {
            [] => Some(*routine),
            _ => None,
        },
        _ => None,
    }
}

// The routine to be called in place of this one, without arguments: none where this one writes nothing, and the one that it
// only calls.
fn routine_for(done: &[TRoutine], routine: u32) -> Option<u32>
    ensures { option_map (λ other. Call other [] []) result ≡ pruned_call routine (slice_get done.now routine) }
{
    match done.get(routine as usize) {
        None => Some(routine),
        Some(called) => match called.body.as_slice() {
            [] => None,
            body => match called.params.as_slice() {
                [] => Some(only_call(body).unwrap_or(routine)),
                _ => Some(routine),
            },
        },
    }
}

// What stands for a call without arguments.
fn prune_call(alloc: Global, done: &[TRoutine], routine: u32) -> Option<TStmt>
    ensures { result ≡ pruned_call routine (slice_get done.now routine) }
{
    let routine = routine_for(done, routine)?;
    Some(TStmt::Call {
        routine,
        args: List::new(alloc),
        places: List::new(alloc),
    })
}

/// A copy of a statement without calls that write nothing, and with calls of routines that only call another one led to
/// that one, by routines that are pruned already; refused for want of memory alone.
#[cycle(pruning)]
fn prune_statement(
    alloc: Global,
    done: &[TRoutine],
    statement: &TStmt,
) -> Result<Option<TStmt>, Memory>
    ensures { IfOk result (λ short. short ≡ pruned done.now statement.now) }
{
    match statement {
        TStmt::Let { .. } => Ok(Some(statement.deep_copy(alloc)?)),
        TStmt::If {
            cond,
            place,
            yes,
            no,
        } => {
            let cond = cond.deep_copy(alloc)?;
            let yes = prune_statements(alloc, done, yes.as_slice())?;
            let no = prune_statements(alloc, done, no.as_slice())?;
            Ok(Some(TStmt::If {
                cond,
                place: *place,
                yes,
                no,
            }))
        }
        TStmt::Act { .. } => Ok(Some(statement.deep_copy(alloc)?)),
        TStmt::Call { routine, args, .. } => match args.as_slice() {
            [] => Ok(prune_call(alloc, done, *routine)),
            _ => Ok(Some(statement.deep_copy(alloc)?)),
        },
    }
}

/// Copies of statements, pruned in the same way; refused for want of memory alone.
#[cycle(pruning)]
pub fn prune_statements(
    alloc: Global,
    done: &[TRoutine],
    statements: &[TStmt],
) -> Result<List<TStmt>, Memory>
    ensures { IfOk result (λ short. short ≡ pruned_all done.now statements.now) }
{
    let mut short = List::new(alloc);
    for statement in statements {
        if let Some(pruned) = prune_statement(alloc, done, statement)? {
            short.push(pruned)?;
        }
    }
    Ok(short)
}

/// The routines, each pruned by those before it; refused for want of memory alone. The time is in proportion to their
/// size.
pub fn prune_routines(alloc: Global, routines: &[TRoutine]) -> Result<List<TRoutine>, Memory>
    ensures { IfOk result (λ done. done ≡ pruned_routines [] routines.now) }
{
    let mut done = List::new(alloc);
    for routine in routines {
        let params = routine.params.deep_copy(alloc)?;
        let body = prune_statements(alloc, done.as_slice(), routine.body.as_slice())?;
        done.push(TRoutine { params, body })?;
    }
    Ok(done)
}
