//! Fields without the blanks at their ends.
ghost use Rattle.std.specs.Prelude.{◌≡◌, ◌<◌, [], get_or, length, reverse};
ghost use Rattle.csv.specs.Records.{fields_of};
ghost use Rattle.unit_csv.specs.Fields.{is_blank, past_blanks, trimmed, trimmed_fields};

use csv::ByteRecord;

/// A field of a record, counted from 0, without the spaces and tabs at both its ends.
pub fn field_at(row: &ByteRecord, place: usize) -> &[u8]
    requires { place < length (fields_of row.now) }
    ensures { result.now ≡ get_or (trimmed_fields (fields_of row.now)) place [] }
{
    match row.get(place) {
        Some(field) => trimmed(field),
        None => &[],
    }
}

fn trimmed(text: &[u8]) -> &[u8]
    ensures { result.now ≡ trimmed text.now }
{
    before_blanks(past_blanks(text))
}

// Without the blanks at the start.
fn past_blanks(text: &[u8]) -> &[u8]
    ensures { result.now ≡ past_blanks text.now }
{
    let mut rest = text;
    'blanks: while !rest.is_empty() && is_blank(rest[0]) {
        rest = &rest[1..];
    }
    rest
}

// Without the blanks at the end.
fn before_blanks(text: &[u8]) -> &[u8]
    ensures { result.now ≡ reverse (past_blanks (reverse text.now)) }
{
    let mut rest = text;
    'blanks: while !rest.is_empty() && is_blank(rest[rest.len() - 1]) {
        rest = &rest[..rest.len() - 1];
    }
    rest
}

fn is_blank(byte: u8) -> bool
    ensures { result ≡ is_blank byte }
{
    byte == b' ' || byte == b'\t'
}
