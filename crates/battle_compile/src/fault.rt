//! Why a text has no script.

use sgl_expand::ExpandFault;
use sgl_lexer::LexFault;
use sgl_parser::ParseFault;
use sgl_types::TypeFault;
use sgl_values::Memory;

/// Why a script is refused by its bytes.
#[derive(Clone, Copy, Debug, PartialEq, Eq)]
pub enum ScriptFault {
    /// The text is not a list of tokens: its first fault.
    Lex(LexFault),
    /// The tokens are no script: their fault.
    Parse(ParseFault),
    /// The script breaks a type rule: the first that it breaks.
    Types(TypeFault),
    /// With its routines written out, `main` has more than 20,000 nodes: so many, or `u64::MAX` where that is less.
    TooLarge { nodes: u64 },
    /// With its routines written out, the blocks of `main` stand more than 256 deep in one another: so deep.
    TooNested { depth: u64 },
    /// Want of memory.
    Memory,
}

// Want of memory is told alone, whoever wanted it.
impl From<LexFault> for ScriptFault {
    ghost use Rattle.std.specs.Prelude.{◌≡◌};
    ghost use Rattle.battle_compile.specs.ScriptText.{script_fault};

    ghost from_gives = { λ fault told. told ≡ script_fault fault };

    fn from(fault: LexFault) -> ScriptFault {
        match fault {
            LexFault::Memory => ScriptFault::Memory,
            fault => ScriptFault::Lex(fault),
        }
    }
}

impl From<ParseFault> for ScriptFault {
    ghost use Rattle.std.specs.Prelude.{◌≡◌};
    ghost use Rattle.battle_compile.specs.ScriptText.{parse_fault};

    ghost from_gives = { λ fault told. told ≡ parse_fault fault };

    fn from(fault: ParseFault) -> ScriptFault {
        match fault {
            ParseFault::Memory => ScriptFault::Memory,
            fault => ScriptFault::Parse(fault),
        }
    }
}

impl From<TypeFault> for ScriptFault {
    ghost use Rattle.std.specs.Prelude.{◌≡◌};
    ghost use Rattle.battle_compile.specs.ScriptText.{type_fault};

    ghost from_gives = { λ fault told. told ≡ type_fault fault };

    fn from(fault: TypeFault) -> ScriptFault {
        match fault {
            TypeFault::Memory => ScriptFault::Memory,
            fault => ScriptFault::Types(fault),
        }
    }
}

impl From<ExpandFault> for ScriptFault {
    ghost use Rattle.std.specs.Prelude.{◌≡◌};
    ghost use Rattle.battle_compile.specs.ScriptText.{expand_fault};

    ghost from_gives = { λ fault told. told ≡ expand_fault fault };

    fn from(fault: ExpandFault) -> ScriptFault {
        match fault {
            ExpandFault::TooLarge { nodes } => ScriptFault::TooLarge { nodes },
            ExpandFault::TooNested { depth } => ScriptFault::TooNested { depth },
            ExpandFault::Memory => ScriptFault::Memory,
        }
    }
}

impl From<Memory> for ScriptFault {
    ghost use Rattle.std.specs.Prelude.{◌≡◌};
    ghost use Rattle.battle_compile.specs.declared.fault.ScriptFault.TheVariants as faults;

    ghost from_gives = { λ _ told. told ≡ faults.Memory };

    fn from(_memory: Memory) -> ScriptFault {
        ScriptFault::Memory
    }
}
