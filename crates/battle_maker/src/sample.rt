//! The texts of a sample.
ghost use Rattle.std.specs.Prelude.{◌≡◌, ◌<◌, ◌≤◌, ◌↔◌, length, IfOk, OnOk};
ghost use Rattle.battle_maker.specs.declared.fault.MakeFault.TheVariants.{TooMany};
ghost use Rattle.battle_maker.specs.Sample.{sample_script, units_text};

use crate::fault::MakeFault;
use crate::script::script_text;
use crate::units::units_text;
use sgl_values::{List, ROWS_MAX, SCRIPT_BYTES_MAX, UNITS_BYTES_MAX};
use std::alloc::Global;

/// The script of the sample, and its table of `n` units whose places and health are drawn with this number as the seed.
/// `TooMany` exactly where `n` is above 65,536. The texts are short enough for `lex` and for `read_units`.
pub fn make(alloc: Global, n: u32, number: u64) -> Result<(List<u8>, List<u8>), MakeFault>
    ensures script { IfOk result (λ texts. texts.0 ≡ sample_script) }
    ensures units { IfOk result (λ texts. texts.1 ≡ units_text n number) }
    ensures short_script { IfOk result (λ texts. length texts.0 ≤ SCRIPT_BYTES_MAX) }
    ensures short_units { IfOk result (λ texts. length texts.1 ≤ UNITS_BYTES_MAX) }

    ensures few { OnOk result (n ≤ ROWS_MAX) }
    ensures many { (result ≡ Err TooMany) ↔ (ROWS_MAX < n) }
{
    if n > ROWS_MAX {
        return Err(MakeFault::TooMany);
    }
    let script = script_text(alloc)?;
    let units = units_text(alloc, n, number)?;
    Ok((script, units))
}
