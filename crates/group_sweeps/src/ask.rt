//! What the tests of an extreme ask for, with each row as the acting one.
ghost use Rattle.std.specs.Prelude.{◌≡◌, ℕ, ◌<◌, ◌≤◌, length, map, slice_index_or, None, IfOk};
ghost use Rattle.std.specs.Option.{ForSome};
ghost use Rattle.sgl_evaluate.specs.Frame.{context_of, IsFrame};
ghost use Rattle.sgl_evaluate.specs.Rights.{first_fault_of, right_of};
ghost use Rattle.test_boxes.specs.Forms.{AreTestForms, FitTests, IsAsking};
ghost use Rattle.group_sweeps.specs.declared.ask.Ask.{Ask as AskOf};
ghost use Rattle.group_sweeps.specs.Acting.{acting};
ghost use Rattle.group_sweeps.specs.Asks.{AreAsks, IsRowAsk, IsWindow, no_ask as nothing_asked, no_window as nowhere};

use extreme_sweep::Window;
use row_groups::{Groups, Means};
use sgl_evaluate::{Frame, NoCalls, Rights, TickContext, evaluate_args};
use sgl_typed::{TExpr, TTest, exprs_are_shared, scripts_are_shared, tests_are_shared};
use sgl_values::{Fault, Memory, Num, PARAMS_MAX, ROWS_MAX, Val};
use std::thread::Threads;
use test_boxes::{Asking, Reading, TestForms, asked_box, asked_key, other_asked, read_rights};
use thread_share::{for_each_mut, threads_for};

/// A thread is worth its start for so many rows whose right sides are evaluated.
pub(crate) const ROWS_A_THREAD: usize = 1024;

/// A thread is worth its start for so many rows of which each is but looked at or copied.
pub(crate) const MOVES_A_THREAD: usize = 16_384;

/// What a row asks for: nothing but the first fault of the right sides, or the window of a group.
#[derive(Clone, Copy, Debug)]
pub(crate) struct Ask {
    pub(crate) fault: Option<Fault>,
    pub(crate) group: u32,
    pub(crate) window: Window,
}

/// What rows ask by: the tests of a use with its arguments, over the groups of the rows of a world.
#[derive(Clone, Copy)]
pub(crate) struct Asker<'a> {
    pub(crate) tick: TickContext<'a>,
    pub(crate) tests: &'a [TTest],
    pub(crate) args: &'a [TExpr],
    pub(crate) groups: &'a Groups,
}

/// What an aggregate with these arguments asks for, with each row as the acting one. Right sides are evaluated once a row, by
/// their forms where they have any. At most so many threads share the rows; one where it is 0.
pub(crate) fn ask_rows<R: Threads + Sync>(means: &Means<R>, of: &Asker) -> Result<Vec<Ask>, Memory>
    requires { length of.now.args.now ≤ PARAMS_MAX }
    ensures few { IfOk result (λ asks. length asks.items ≤ ROWS_MAX) }
    ensures asks { IfOk result (λ asks. AreAsks of.now.tick.script.now of.now.tick.world.now.world of.now.tick.seed of.now.tests.now of.now.args.now of.now.groups.now (length of.now.tick.world.now.world.rows) asks.items) }
{
    let forms = TestForms::of(of.args, of.tests);
    let mut asks = vec![in means.alloc; no_ask(); of.tick.world.len() as usize]?;
    ask_beside(means, of, forms.as_ref(), asks.as_mut_slice());
    Ok(asks)
}

// Puts what each row asks for in its place, by threads.
fn ask_beside<R: Threads + Sync>(
    means: &Means<R>,
    of: &Asker,
    forms: Option<&TestForms>,
    asks: &mut [Ask],
)
    requires few { length of.now.args.now ≤ PARAMS_MAX }
    requires forms { ForSome forms (λ forms. AreTestForms forms.now of.now.args.now of.now.tests.now) }
    requires rows { length asks.old ≡ length of.now.tick.world.now.world.rows }
    ensures long { length asks.new ≡ length asks.old }
    ensures each { (row : ℕ) (d : AskOf) → row < length asks.old → IsRowAsk (acting of.now.tick.script.now of.now.tick.world.now.world of.now.tick.seed row of.now.args.now) of.now.tests.now of.now.groups.now (slice_index_or asks.new row d) }
{
    scripts_are_shared();
    exprs_are_shared();
    tests_are_shared();
    let threads = threads_for(means.threads, asks.len(), ROWS_A_THREAD);
    for_each_mut(
        means.rt,
        asks,
        threads,
        &|row, ask: &mut Ask|
            requires few { length of.now.args.now ≤ PARAMS_MAX }
            requires forms { ForSome forms (λ forms. AreTestForms forms.now of.now.args.now of.now.tests.now) }
            requires row { row < length of.now.tick.world.now.world.rows }
        {
            put_ask(of, forms, row, ask);
        },
    );
}

// Puts what one row asks for in its place.
fn put_ask(of: &Asker, forms: Option<&TestForms>, row: usize, ask: &mut Ask)
    requires few { length of.now.args.now ≤ PARAMS_MAX }
    requires forms { ForSome forms (λ forms. AreTestForms forms.now of.now.args.now of.now.tests.now) }
    requires row { row < length of.now.tick.world.now.world.rows }
    ensures { IsRowAsk (acting of.now.tick.script.now of.now.tick.world.now.world of.now.tick.seed row of.now.args.now) of.now.tests.now of.now.groups.now ask.new }
{
    let _ = of.tick.world.len();
    *ask = row_ask(of, forms, row as u32);
}

fn no_ask() -> Ask
    ensures { result ≡ nothing_asked }
{
    Ask {
        fault: None,
        group: 0,
        window: no_window(),
    }
}

// What one row asks for.
fn row_ask(of: &Asker, forms: Option<&TestForms>, row: u32) -> Ask
    requires few { length of.now.args.now ≤ PARAMS_MAX }
    requires forms { ForSome forms (λ forms. AreTestForms forms.now of.now.args.now of.now.tests.now) }
    requires row { row < length of.now.tick.world.now.world.rows }
    ensures { IsRowAsk (acting of.now.tick.script.now of.now.tick.world.now.world of.now.tick.seed row of.now.args.now) of.now.tests.now of.now.groups.now result }
{
    let frame = Frame {
        tick: of.tick,
        unit: row,
        slots: &[],
        target: row,
        combined: &[],
    };
    let mut buffer = [Val::N(Num::zero()); PARAMS_MAX];
    evaluate_args(&NoCalls, &frame, of.args, &mut buffer);
    frame_ask(
        &frame.with_slots(&buffer[..of.args.len()]),
        of.tests,
        forms,
        of.groups,
    )
}

// The same in a frame, whose slots are the arguments.
fn frame_ask(frame: &Frame, tests: &[TTest], forms: Option<&TestForms>, groups: &Groups) -> Ask
    requires frame { IsFrame frame.now }
    requires forms { ForSome forms (λ forms. FitTests forms.now frame.now.slots.now tests.now) }
    ensures { IsRowAsk (context_of frame.now) tests.now groups.now result }
{
    let mut rights = Rights::zero();
    match read_rights(frame, tests, forms, &mut rights) {
        Err(fault) => Ask {
            fault: Some(fault),
            group: 0,
            window: no_window(),
        },
        Ok(()) => {
            let asking = Asking {
                frame,
                rights: &rights,
                forms,
            };
            sound_ask(&asking, tests, groups)
        }
    }
}

// The same behind right sides without a fault.
fn sound_ask(asking: &Asking, tests: &[TTest], groups: &Groups) -> Ask
    requires asking { IsAsking asking.now tests.now }
    requires sound { first_fault_of (context_of asking.now.frame.now) tests.now ≡ None }
    ensures { IsRowAsk (context_of asking.now.frame.now) tests.now groups.now result }
{
    match groups.number(&asked_key(asking, tests, Reading::Away)) {
        None => Ask {
            fault: None,
            group: 0,
            window: no_window(),
        },
        Some(group) => Ask {
            fault: None,
            group,
            window: window_of(asking, tests),
        },
    }
}

/// A window in which nothing is.
pub(crate) fn no_window() -> Window
    ensures { result ≡ nowhere }
{
    Window {
        x1: 1,
        x2: 0,
        y1: 1,
        y2: 0,
        other_than: None,
    }
}

// The window that the range tests and the unequal test ask for.
fn window_of(asking: &Asking, tests: &[TTest]) -> Window
    requires { IsAsking asking.now tests.now }
    ensures { IsWindow (context_of asking.now.frame.now) tests.now result }
{
    let asked = asked_box(asking, tests);
    Window {
        x1: asked.across.low,
        x2: asked.across.high,
        y1: asked.down.low,
        y2: asked.down.high,
        other_than: other_asked(asking.frame, tests, asking.rights),
    }
}
