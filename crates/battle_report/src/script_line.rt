//! The line of a script that is refused.
ghost use Rattle.std.specs.Prelude.{◌≡◌, ◌≤◌, length};
ghost use Rattle.sgl_outside.specs.Sinks.{Writes};
ghost use Rattle.battle_report.specs.FaultLines.{lex_line, parse_line, script_line, type_line};
ghost use Rattle.battle_report.specs.Lines.{place_line};

use crate::line::push_place;
use crate::words::kind_words;
use battle_compile::ScriptFault;
use sgl_lexer::LexFault;
use sgl_outside::{Failed, Sink, put};
use sgl_parser::ParseFault;
use sgl_types::TypeFault;
use sgl_values::Place;
use unit_csv::{Line, push_piece};

/// Writes the line of a script's fault. It takes no memory. Where the sink fails, a prefix of the line was written.
pub fn write_script_fault<S: Sink>(fault: &ScriptFault, out: &mut S) -> Result<(), Failed>
    ensures { Writes (S.written out.old) (S.written out.new) (S.faults out.old) (S.faults out.new) result (script_line fault.now) }
{
    match *fault {
        ScriptFault::Lex(fault) => write_lex_line(fault, out),
        ScriptFault::Parse(fault) => write_parse_line(fault, out),
        ScriptFault::Types(fault) => write_type_line(fault, out),
        ScriptFault::TooLarge { .. } => put(out, b"script: too large\n"),
        ScriptFault::TooNested { .. } => put(out, b"script: too nested\n"),
        ScriptFault::Memory => put(out, b"out of memory\n"),
    }
}

fn write_lex_line<S: Sink>(fault: LexFault, out: &mut S) -> Result<(), Failed>
    ensures { Writes (S.written out.old) (S.written out.new) (S.faults out.old) (S.faults out.new) result (lex_line fault) }
{
    match fault {
        LexFault::BadByte(place) => write_place_line(b"script: bad byte at ", place, out),
        LexFault::LongName(place) => write_place_line(b"script: long name at ", place, out),
        LexFault::LongNumber(place) => write_place_line(b"script: long number at ", place, out),
        LexFault::Memory => put(out, b"out of memory\n"),
    }
}

fn write_parse_line<S: Sink>(fault: ParseFault, out: &mut S) -> Result<(), Failed>
    ensures { Writes (S.written out.old) (S.written out.new) (S.faults out.old) (S.faults out.new) result (parse_line fault) }
{
    match fault {
        ParseFault::Syntax { place, .. } => write_place_line(b"script: syntax at ", place, out),
        ParseFault::TooDeep { place } => write_place_line(b"script: too deep at ", place, out),
        ParseFault::Memory => put(out, b"out of memory\n"),
    }
}

fn write_type_line<S: Sink>(fault: TypeFault, out: &mut S) -> Result<(), Failed>
    ensures { Writes (S.written out.old) (S.written out.new) (S.faults out.old) (S.faults out.new) result (type_line fault) }
{
    match fault {
        TypeFault::At { kind, place } => write_place_line(kind_words(kind), place, out),
        TypeFault::Memory => put(out, b"out of memory\n"),
    }
}

fn write_place_line<S: Sink>(words: &[u8], place: Place, out: &mut S) -> Result<(), Failed>
    requires { length words.now ≤ 100 }
    ensures { Writes (S.written out.old) (S.written out.new) (S.faults out.old) (S.faults out.new) result (place_line words.now place) }
{
    let line = line_with_place(words, place);
    put(out, &line)
}

fn line_with_place(words: &[u8], place: Place) -> Line
    requires { length words.now ≤ 100 }
    ensures { result.items ≡ place_line words.now place }
{
    let mut line = Line::new();
    push_piece(&mut line, words);
    push_place(&mut line, place);
    line.push(b'\n');
    line
}
