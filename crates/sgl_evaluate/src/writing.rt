//! What a write gives.
ghost use Rattle.std.specs.Prelude.{◌≡◌, ℕ, option_map};
ghost use Rattle.sgl_values.specs.declared.fault.ArithFault.TheVariants as ArithFault;
ghost use Rattle.sgl_typed.specs.Aggregate.{simple_value};
ghost use Rattle.sgl_typed.specs.Items.{by_priority, by_written, priority_of, written};
ghost use Rattle.sgl_typed.specs.Value.{Context};
ghost use Rattle.sgl_evaluate.specs.Frame.{context_of, IsFrame};
ghost use Rattle.sgl_evaluate.specs.Writing.{item_of};

use crate::calls::NoCalls;
use crate::evaluator::evaluate;
use crate::frame::Frame;
use sgl_typed::TWrite;
use sgl_values::{Amount, ArithFault, Fault, Num, PRIORITY_MAX, Place, Val};

// An amount with this number as priority; `None` exactly where that is below 0 or above 1,000,000.
fn with_priority(value: Num, priority: Num) -> Option<Amount>
    ensures { result ≡ option_map (λ (n : ℕ). record { value = value; priority = n }) (priority_of priority) }
{
    let priority = priority.get();
    if priority >= 0 && priority <= i64::from(PRIORITY_MAX) {
        Amount::new(value, priority as u32)
    } else {
        None
    }
}

fn priority_fault(place: Place) -> Fault
    ensures { result ≡ record { kind = ArithFault.Priority; place = place } }
{
    Fault {
        kind: ArithFault::Priority,
        place,
    }
}

// What a write of this number with this priority gives: a fault at the word `by` below 0 and above 1,000,000.
fn ranked(value: Num, place: Place, priority: Val) -> Result<Amount, Fault>
    ensures { (c : Context) (row attr : ℕ) → item_of c row attr result ≡ by_priority c row attr value place priority }
{
    match priority {
        Val::N(number) => match with_priority(value, number) {
            Some(amount) => Ok(amount),
            None => Err(priority_fault(place)),
        },
        Val::B(_) => Ok(Amount::plain(value)),
        Val::F(fault) => Err(fault),
    }
}

// What a write of this number gives, by its priority, which is 0 where none is written.
fn amount_of(frame: &Frame, write: &TWrite, value: Num) -> Result<Amount, Fault>
    requires { IsFrame frame.now }
    ensures { item_of (context_of frame.now) frame.now.target write.now.effect result
        ≡ by_written (context_of frame.now) frame.now.target write.now.effect value write.now.by }
{
    match &write.by {
        None => Ok(Amount::plain(value)),
        Some((place, by)) => ranked(value, *place, evaluate(&NoCalls, frame, by)),
    }
}

// What a write of this value gives.
fn given_by(frame: &Frame, write: &TWrite, value: Val) -> Result<Amount, Fault>
    requires { IsFrame frame.now }
    ensures { item_of (context_of frame.now) frame.now.target write.now.effect result
        ≡ written (context_of frame.now) frame.now.target write.now value }
{
    match value {
        Val::N(number) => amount_of(frame, write, number),
        Val::B(_) => amount_of(frame, write, Num::zero()),
        Val::F(fault) => Err(fault),
    }
}

/// The amount that a write gives at the target of a frame, or the fault in its place. It takes no memory.
pub fn amount_given(frame: &Frame, write: &TWrite) -> Result<Amount, Fault>
    requires { IsFrame frame.now }
    ensures { item_of (context_of frame.now) frame.now.target write.now.effect result
        ≡ written (context_of frame.now) frame.now.target write.now (simple_value (context_of frame.now) write.now.amount) }
{
    given_by(frame, write, evaluate(&NoCalls, frame, &write.amount))
}
