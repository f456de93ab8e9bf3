//! Writes out the statements of a block: a call becomes lets for its arguments and what the routine
//! says.
ghost use Rattle.std.specs.Prelude.{◌≡◌, ◌+◌, ◌++◌, ◌∷◌, [], true, length, drop, map, reverse, slice_get, IfOk, OnOk, MatchOption};
ghost use Rattle.std.specs.Option.{option_copied};
ghost use Rattle.sgl_expand.specs.Steps.{body_of, params_of, stand_of, Begins, Goes, IsClosed, Marked};
ghost use Rattle.sgl_typed.specs.declared.script.TStmt.TheVariants.{If, Let};
ghost use Rattle.sgl_expand.specs.Written.{written, argument_lets, first_place, lets, numbered_from, renumbered, written_all, writers_of};

use crate::numbers::Numbering;
use sgl_typed::{TExpr, TRoutine, TStmt, rename_expr, rename_exprs};
use sgl_values::{List, Memory, Place};
use std::alloc::Global;
use std::mem::replace;

/// A call that is being written out: its routine, the number of the next statement, and how many slots were known where
/// it stands.
#[derive(Clone, Copy, Debug, PartialEq, Eq)]
pub struct Frame {
    pub routine: u32,
    pub at: usize,
    pub known: usize,
}

/// What is written out of a block, with the calls that are being written, the innermost last.
#[derive(Drop)]
pub struct Writing {
    pub numbering: Numbering,
    alloc: Global,
    made: List<TStmt>,
    calls: Vec<Frame>,
}

fn begin_call(calls: &mut Vec<Frame>, frame: Frame) -> Result<(), Memory>
    ensures { OnOk result (reverse calls.new.items ≡ frame ∷ reverse calls.old.items) }
{
    calls.push(frame)?;
    Ok(())
}

fn end_call(calls: &mut Vec<Frame>) -> Option<Frame>
    ensures { MatchOption result ((reverse calls.old.items ≡ []) × (reverse calls.new.items ≡ [])) (λ frame. reverse calls.old.items ≡ frame ∷ reverse calls.new.items) }
{
    calls.pop()
}

fn number_behind(at: usize) -> Result<usize, Memory>
    ensures { IfOk result (λ next. next ≡ at + 1) }
{
    at.checked_add(1).ok_or(Memory)
}

// The statement of a routine with this number.
fn statement_at(routines: &[TRoutine], routine: u32, at: usize) -> Option<&TStmt>
    ensures { option_copied result ≡ slice_get (body_of (slice_get routines.now routine)) at }
{
    match routines.get(routine as usize) {
        Some(routine) => routine.body.get(at),
        None => None,
    }
}

// The place of an argument; no script lacks one.
fn place_at(places: &[Place], at: usize) -> Place
    ensures { result ≡ first_place (drop at places.now) }
{
    match places.get(at) {
        Some(place) => *place,
        None => Place { line: 0, col: 0 },
    }
}

// The slots of the parameters of a routine.
fn params_at(routines: &[TRoutine], routine: u32) -> &[u32]
    ensures { result.now ≡ params_of (slice_get routines.now routine) }
{
    match routines.get(routine as usize) {
        Some(routine) => routine.params.as_slice(),
        None => &[],
    }
}

impl Writing {
    /// Nothing is written out, and no slot is known.
    pub fn new(alloc: Global) -> Writing
        ensures known { result.numbering.known.items ≡ [] }
        ensures next { result.numbering.next ≡ 0 }
    {
        Writing {
            numbering: Numbering {
                known: Vec::new(alloc),
                next: 0,
            },
            alloc,
            made: List::new(alloc),
            calls: Vec::new(alloc),
        }
    }

    // Writes a `let` for each argument.
    fn write_arguments(&mut self, args: &[TExpr], places: &[Place]) -> Result<(), Memory>
        ensures made { OnOk result (self.new.made ≡ self.old.made ++ argument_lets places.now self.old.numbering.next (map (renumbered self.old.numbering.known.items) args.now)) }
        ensures next { OnOk result (self.new.numbering.next ≡ self.old.numbering.next + length args.now) }
        ensures known { self.new.numbering.known ≡ self.old.numbering.known }
        ensures calls { self.new.calls ≡ self.old.calls }
    {
        for (i, arg) in args.iter().enumerate() {
            let value = rename_expr(self.alloc, &self.numbering, arg)?;
            let slot = self.numbering.take_number()?;
            self.made.push(TStmt::Let {
                slot,
                value,
                place: place_at(places, i),
            })?;
        }
        Ok(())
    }

    // Begins a call: writes its arguments, and makes the parameters of the routine known.
    fn write_call(
        &mut self,
        routines: &[TRoutine],
        routine: u32,
        args: &[TExpr],
        places: &[Place],
    ) -> Result<(), Memory>
        ensures made { OnOk result (self.new.made ≡ self.old.made ++ argument_lets places.now self.old.numbering.next (map (renumbered self.old.numbering.known.items) args.now)) }
        ensures next { OnOk result (self.new.numbering.next ≡ self.old.numbering.next + length args.now) }
        ensures known { OnOk result (self.new.numbering.known.items ≡ self.old.numbering.known.items ++ numbered_from self.old.numbering.next (params_of (slice_get routines.now routine))) }
        ensures calls { OnOk result (reverse self.new.calls.items ≡ record { routine = routine; at = 0; known = length self.old.numbering.known.items } ∷ reverse self.old.calls.items) }
    {
        let first = self.numbering.next;
        let known = self.numbering.known.len();
        self.write_arguments(args, places)?;
        self.numbering
            .learn_all(params_at(routines, routine), first)?;
        begin_call(
            &mut self.calls,
            Frame {
                routine,
                at: 0,
                known,
            },
        )
    }

    // Writes out a `let`.
    fn write_let(&mut self, slot: u32, value: &TExpr, place: Place) -> Result<(), Memory>
        ensures made { OnOk result (self.new.made ≡ self.old.made ++ Let self.old.numbering.next (renumbered self.old.numbering.known.items value.now) place ∷ []) }
        ensures next { OnOk result (self.new.numbering.next ≡ self.old.numbering.next + 1) }
        ensures known { OnOk result (self.new.numbering.known.items ≡ self.old.numbering.known.items ++ record { slot = slot; number = self.old.numbering.next } ∷ []) }
        ensures calls { self.new.calls ≡ self.old.calls }
    {
        let value = rename_expr(self.alloc, &self.numbering, value)?;
        let number = self.numbering.take_number()?;
        self.numbering.learn(slot, number)?;
        self.made.push(TStmt::Let {
            slot: number,
            value,
            place,
        })
    }

    // Writes out an `if`, with its blocks.
    #[cycle(writing)]
    fn write_if(
        &mut self,
        routines: &[TRoutine],
        cond: &TExpr,
        place: Place,
        yes: &[TStmt],
        no: &[TStmt],
        levels: u64,
    ) -> Result<TStmt, Memory>
        requires { IsClosed routines.now }
        ensures made { IfOk result (λ made. made ∷ [] ≡ written (writers_of [] routines.now) (If cond.now place yes.now no.now) self.old.numbering.known.items self.old.numbering.next) }
        ensures next { IfOk result (λ made. self.new.numbering.next ≡ self.old.numbering.next + lets (made ∷ [])) }
        ensures known { OnOk result (self.new.numbering.known.items ≡ self.old.numbering.known.items) }
        ensures before { OnOk result (self.new.made ≡ self.old.made) }
        ensures calls { OnOk result (self.new.calls ≡ self.old.calls) }
    {
        let levels = levels.checked_sub(1).ok_or(Memory)?;
        let cond = rename_expr(self.alloc, &self.numbering, cond)?;
        let yes = self.write_block(routines, yes, levels)?;
        let no = self.write_block(routines, no, levels)?;
        Ok(TStmt::If {
            cond,
            place,
            yes,
            no,
        })
    }

    // Writes out a statement, or begins it where it is a call.
    #[cycle(writing)]
    fn write_statement(
        &mut self,
        routines: &[TRoutine],
        statement: &TStmt,
        levels: u64,
    ) -> Result<(), Memory>
        requires { IsClosed routines.now }
        ensures { OnOk result (Begins routines.now statement.now (stand_of self.old) (stand_of self.new)) }
    {
        match statement {
            TStmt::Let { slot, value, place } => {
                self.write_let(*slot, value, *place)?;
                Ok(())
            }
            TStmt::If {
                cond,
                place,
                yes,
                no,
            } => {
                let (yes, no) = (yes.as_slice(), no.as_slice());
                let block = self.write_if(routines, cond, *place, yes, no, levels)?;
                self.made.push(block)?;
                Ok(())
            }
            TStmt::Act {
                action,
                args,
                place,
            } => {
                let args = rename_exprs(self.alloc, &self.numbering, args.as_slice())?;
                self.made.push(TStmt::Act {
                    action: *action,
                    args,
                    place: *place,
                })
            }
            TStmt::Call {
                routine,
                args,
                places,
            } => {
                self.write_call(routines, *routine, args.as_slice(), places.as_slice())?;
                Ok(())
            }
        }
    }

    // Writes out the next statement of the innermost call, or ends the call where it has none; `true` where there is no
    // call.
    #[cycle(writing)]
    fn write_next(&mut self, routines: &[TRoutine], levels: u64) -> Result<bool, Memory>
        requires closed { IsClosed routines.now }
        requires marked { Marked (reverse self.old.calls.items) self.old.numbering.known.items }
        ensures goes { OnOk result (Goes routines.now (stand_of self.old) (stand_of self.new)) }
        ensures over { IfOk result (λ over. over ≡ true → reverse self.new.calls.items ≡ []) }
    {
        match end_call(&mut self.calls) {
            None => Ok(true),
            Some(frame) => {
                match statement_at(routines, frame.routine, frame.at) {
                    None => self.numbering.known.truncate(frame.known),
                    Some(statement) => {
                        let at = number_behind(frame.at)?;
                        begin_call(&mut self.calls, Frame { at, ..frame })?;
                        self.write_statement(routines, statement, levels)?;
                    }
                }
                Ok(false)
            }
        }
    }

    // Writes out all calls that are begun.
    #[cycle(writing)]
    fn write_calls(&mut self, routines: &[TRoutine], levels: u64) -> Result<(), Memory>
        requires closed { IsClosed routines.now }
        requires marked { Marked (reverse self.old.calls.items) self.old.numbering.known.items }
        ensures goes { OnOk result (Goes routines.now (stand_of self.old) (stand_of self.new)) }
        ensures over { OnOk result (reverse self.new.calls.items ≡ []) }
    {
        for _ in 0..u64::MAX {
            if self.write_next(routines, levels)? {
                return Ok(());
            }
        }
        Err(Memory)
    }

    /// Writes out the statements of a block, with their lets numbered from the next number on; what they make known is
    /// known in them alone. `levels` is how many blocks may stand in one another in it. It takes time and memory in
    /// proportion to what is written, to the calls on the way, and to the look-ups of slots. Refused for want of memory,
    /// and where more blocks stand in one another.
    #[cycle(writing)]
    pub fn write_block(
        &mut self,
        routines: &[TRoutine],
        statements: &[TStmt],
        levels: u64,
    ) -> Result<List<TStmt>, Memory>
        requires { IsClosed routines.now }
        ensures made { IfOk result (λ made. made ≡ written_all (writers_of [] routines.now) statements.now self.old.numbering.known.items self.old.numbering.next) }
        ensures next { IfOk result (λ made. self.new.numbering.next ≡ self.old.numbering.next + lets made) }
        ensures known { OnOk result (self.new.numbering.known.items ≡ self.old.numbering.known.items) }
        ensures before { OnOk result (self.new.made ≡ self.old.made) }
        ensures calls { OnOk result (self.new.calls ≡ self.old.calls) }
    {
        let known = self.numbering.known.len();
        let before = replace(&mut self.made, List::new(self.alloc));
        let calls = replace(&mut self.calls, Vec::new(self.alloc));
        for statement in statements {
            self.write_statement(routines, statement, levels)?;
            self.write_calls(routines, levels)?;
        }
        self.numbering.known.truncate(known);
        self.calls = calls;
        Ok(replace(&mut self.made, before))
    }
}
