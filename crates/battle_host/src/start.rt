//! What a run starts with: the script and the units of two files, or those of a sample.
ghost use Rattle.std.specs.Prelude.{◌≡◌, ◌≤◌, ℕ, List, Some, IfOk, IfErr, IfSome, length};
ghost use Rattle.battle_host.specs.Source.{script_bytes, units_bytes};
ghost use Rattle.battle_host.specs.Start.{HasUnits, PassesScript, SampleRefused, ScriptStartRefused, ScriptTextRefused, StartRefused, UnitStartRefused, UnitTextRefused, no_schema};
ghost use Rattle.battle_maker.specs.Sample.{sample_script, units_text};
ghost use Rattle.battle_words.specs.Words.{AreWithin, settings};

use crate::reading::read_file;
use crate::status::{ScriptRefusal, Status, UnitRefusal};
use battle_compile::{Compiled, ScriptFault, compile};
use battle_maker::make;
use battle_words::{Input, RunSettings};
use env_table::World;
use sgl_outside::Folder;
use sgl_typed::Schema;
use sgl_values::{List, ROWS_MAX, SCRIPT_BYTES_MAX, UNITS_BYTES_MAX};
use std::alloc::Global;
use unit_csv::{UnitFault, read_units};

/// What a run starts with: a script whose routines are written out with its plan, and the world of tick 0.
#[derive(Drop)]
pub struct Opening {
    pub compiled: Compiled,
    pub world: World,
}

/// How a run ended, and the names that its line may tell: none where no script was read.
#[derive(Drop)]
pub struct Ended {
    pub status: Status,
    pub schema: Schema,
}

/// Reads the script and then the units of two files, or makes those of a sample; the first refusal ends it. For a sample
/// no file is begun.
pub fn start_battle<F: Folder>(
    alloc: Global,
    run: &RunSettings,
    folder: &mut F,
) -> Result<Opening, Ended>
    requires { AreWithin run.now }
    ensures script { IfOk result (λ b. IfSome (F.held folder.old) (λ files. PassesScript (script_bytes (settings run.now) files) b.compiled.script)) }
    ensures units { IfOk result (λ b. IfSome (F.held folder.old) (λ files. HasUnits b.compiled.script.schema (units_bytes (settings run.now) files) b.world)) }
    ensures width { IfOk result (λ b. b.world.width ≡ length b.compiled.script.schema.consts) }
    ensures first { IfOk result (λ b. b.world.world.tick ≡ 0) }
    ensures refused { IfErr result (λ e. StartRefused run.now.input run.now.seed (F.held folder.old) (F.faults folder.old) (F.faults folder.new) e.schema e.status) }
{
    match &run.input {
        Input::Files { script, units } => {
            start_files(alloc, script.as_str(), units.as_str(), folder)
        }
        Input::Sample(count) => start_sample(alloc, *count, run.seed),
    }
}

// Reads the script and then the units.
fn start_files<F: Folder>(
    alloc: Global,
    script_name: &str,
    units_name: &str,
    folder: &mut F,
) -> Result<Opening, Ended>
    ensures script { IfOk result (λ b. IfSome (F.held folder.old) (λ files. PassesScript (files script_name.now) b.compiled.script)) }
    ensures units { IfOk result (λ b. IfSome (F.held folder.old) (λ files. HasUnits b.compiled.script.schema (files units_name.now) b.world)) }
    ensures width { IfOk result (λ b. b.world.width ≡ length b.compiled.script.schema.consts) }
    ensures first { IfOk result (λ b. b.world.world.tick ≡ 0) }
    ensures refused { (seed : ℕ) → IfErr result (λ e. StartRefused (Input.Files script_name.now units_name.now) seed (F.held folder.old) (F.faults folder.old) (F.faults folder.new) e.schema e.status) }
{
    let compiled = match start_script(alloc, script_name, folder) {
        Ok(compiled) => compiled,
        Err(status) => return Err(unread(alloc, status)),
    };
    match start_units(alloc, &compiled.script.schema, units_name, folder) {
        Ok(world) => Ok(Opening { compiled, world }),
        Err(status) => Err(without_units(compiled, status)),
    }
}

// Makes the script and the units of a sample.
fn start_sample(alloc: Global, count: u32, seed: u64) -> Result<Opening, Ended>
    requires { count ≤ ROWS_MAX }
    ensures script { IfOk result (λ b. PassesScript (Some sample_script) b.compiled.script) }
    ensures units { IfOk result (λ b. HasUnits b.compiled.script.schema (Some (units_text count seed)) b.world) }
    ensures width { IfOk result (λ b. b.world.width ≡ length b.compiled.script.schema.consts) }
    ensures first { IfOk result (λ b. b.world.world.tick ≡ 0) }
    ensures refused { IfErr result (λ e. SampleRefused count seed e.schema e.status) }
{
    let Ok((script, units)) = make(alloc, count, seed) else {
        return Err(unread(alloc, Status::Memory));
    };
    let compiled = match script_of(alloc, script.as_slice()) {
        Ok(compiled) => compiled,
        Err(status) => return Err(unread(alloc, status)),
    };
    match table_of(alloc, &compiled.script.schema, units.as_slice()) {
        Ok(world) => Ok(Opening { compiled, world }),
        Err(status) => Err(without_units(compiled, status)),
    }
}

/// A run that ended before a script was read.
pub fn unread(alloc: Global, status: Status) -> Ended
    ensures status { result.status ≡ status }
    ensures schema { result.schema ≡ no_schema }
{
    Ended {
        status,
        schema: no_schema(alloc),
    }
}

// A run of a script that ended before a world was read.
fn without_units(compiled: Compiled, status: Status) -> Ended
    ensures status { result.status ≡ status }
    ensures schema { result.schema ≡ compiled.script.schema }
{
    let Compiled { script, .. } = compiled;
    Ended {
        status,
        schema: script.schema,
    }
}

/// The schema without attributes.
pub fn no_schema(alloc: Global) -> Schema
    ensures { result ≡ no_schema }
{
    Schema {
        consts: List::new(alloc),
        effects: List::new(alloc),
    }
}

// The script of a file.
fn start_script<F: Folder>(alloc: Global, name: &str, folder: &mut F) -> Result<Compiled, Status>
    ensures passes { IfOk result (λ c. IfSome (F.held folder.old) (λ files. PassesScript (files name.now) c.script)) }
    ensures refused { IfErr result (ScriptStartRefused (F.held folder.old) (F.faults folder.old) (F.faults folder.new) name.now) }
    ensures held { F.held folder.new ≡ F.held folder.old }
    ensures later { (other : List ℕ) → F.faults folder.old other ≤ F.faults folder.new other }
{
    match read_file(alloc, folder, name, SCRIPT_BYTES_MAX) {
        Ok(text) => script_of(alloc, &text),
        Err(refusal) => Err(refusal.status(Status::Script(ScriptRefusal::TooLong))),
    }
}

// The script of a text.
fn script_of(alloc: Global, text: &[u8]) -> Result<Compiled, Status>
    requires { length text.now ≤ SCRIPT_BYTES_MAX }
    ensures passes { IfOk result (λ c. PassesScript (Some text.now) c.script) }
    ensures refused { IfErr result (ScriptTextRefused text.now) }
{
    match compile(alloc, text) {
        Ok(compiled) => Ok(compiled),
        Err(ScriptFault::Memory) => Err(Status::Memory),
        Err(ScriptFault::Lex(fault)) => Err(script_refused(ScriptFault::Lex(fault))),
        Err(ScriptFault::Parse(fault)) => Err(script_refused(ScriptFault::Parse(fault))),
        Err(ScriptFault::Types(fault)) => Err(script_refused(ScriptFault::Types(fault))),
        Err(ScriptFault::TooLarge { nodes }) => {
            Err(script_refused(ScriptFault::TooLarge { nodes }))
        }
        Err(ScriptFault::TooNested { depth }) => {
            Err(script_refused(ScriptFault::TooNested { depth }))
        }
    }
}

fn script_refused(fault: ScriptFault) -> Status
    ensures { result ≡ Status.Script (ScriptRefusal.Fault fault) }
{
    Status::Script(ScriptRefusal::Fault(fault))
}

// The units of a file, for a script with these attributes.
fn start_units<F: Folder>(
    alloc: Global,
    schema: &Schema,
    name: &str,
    folder: &mut F,
) -> Result<World, Status>
    ensures units { IfOk result (λ world. IfSome (F.held folder.old) (λ files. HasUnits schema.now (files name.now) world)) }
    ensures width { IfOk result (λ world. world.width ≡ length schema.now.consts) }
    ensures first { IfOk result (λ world. world.world.tick ≡ 0) }
    ensures refused { IfErr result (UnitStartRefused (F.held folder.old) (F.faults folder.old) (F.faults folder.new) schema.now name.now) }
    ensures held { F.held folder.new ≡ F.held folder.old }
    ensures later { (other : List ℕ) → F.faults folder.old other ≤ F.faults folder.new other }
{
    match read_file(alloc, folder, name, UNITS_BYTES_MAX) {
        Ok(text) => table_of(alloc, schema, &text),
        Err(refusal) => Err(refusal.status(Status::Units(UnitRefusal::TooLong))),
    }
}

// The units of a text, for a script with these attributes.
fn table_of(alloc: Global, schema: &Schema, text: &[u8]) -> Result<World, Status>
    requires { length text.now ≤ UNITS_BYTES_MAX }
    ensures units { IfOk result (λ world. HasUnits schema.now (Some text.now) world) }
    ensures width { IfOk result (λ world. world.width ≡ length schema.now.consts) }
    ensures first { IfOk result (λ world. world.world.tick ≡ 0) }
    ensures refused { IfErr result (UnitTextRefused schema.now text.now) }
{
    match read_units(alloc, text, schema) {
        Ok(world) => Ok(world),
        Err(UnitFault::Memory) => Err(Status::Memory),
        Err(fault) => Err(Status::Units(UnitRefusal::Fault(fault))),
    }
}
