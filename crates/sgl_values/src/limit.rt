//! The limits of scripts, worlds and runs.

/// The greatest number of units of a world, which are its rows.
pub const ROWS_MAX: u32 = 65_536;

/// The greatest number of const attributes of a script.
pub const CONSTS_MAX: usize = 32;

/// The greatest number of effect attributes of a script.
pub const EFFECTS_MAX: usize = 16;

/// The greatest number of aggregates of a script.
pub const AGGREGATES_MAX: usize = 64;

/// The greatest number of `on` clauses of a script, over all its actions.
pub const CLAUSES_MAX: u32 = 64;

/// The greatest number of parameters behind the unit of a definition, and so of arguments of a call.
pub const PARAMS_MAX: usize = 16;

/// The greatest number of tests of an aggregate or a clause that an index answers.
pub const TESTS_MAX: usize = 16;

/// The greatest number of bytes of a script.
pub const SCRIPT_BYTES_MAX: usize = 1_048_576;

/// The greatest number of bytes of a unit table.
pub const UNITS_BYTES_MAX: usize = 16_777_216;

/// The greatest number of bytes of a name.
pub const NAME_BYTES_MAX: usize = 31;

/// The greatest number of digits of a number in a script.
pub const NUMBER_DIGITS_MAX: usize = 19;

/// The greatest index of a random number.
pub const RANDOM_INDEX_MAX: u64 = 65_535;

/// How deep operators, brackets and braces of a script may nest.
pub const NESTING_MAX: usize = 64;

/// The greatest number of nodes of `main` once routines are written out.
pub const NODES_MAX: u64 = 20_000;

/// How deep blocks may nest once routines are written out.
pub const DEPTH_MAX: u64 = 256;

/// The greatest number of ticks of a run.
pub const TICKS_MAX: u16 = 10_000;

/// The greatest number of items of a tick.
pub const ITEMS_MAX: u64 = 8_000_000;

/// The greatest number of workers of a tick.
pub const WORKERS_MAX: u32 = 64;

/// The number of rows of a task; the last task of a world may have fewer.
pub const TASK_ROWS: u32 = 64;

/// The greatest number of tasks that are run with one scratch.
pub const RUNS_MAX: u32 = 65_536;

/// The greatest number of cells of a batch.
pub const BATCH_CELLS_MAX: u32 = 256;

/// The greatest number of spectators of a run.
pub const SPECTATORS_MAX: u32 = 16;

/// The greatest number of looks of a spectator beside the ticks.
pub const LOOKS_MAX: u32 = 1_000;
