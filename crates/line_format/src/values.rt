// Values, as a line has them after the `=`.
ghost use Rattle.std.specs.Prelude.{◌≡◌};
ghost use Rattle.line_format.specs.Values.{side_word, validity_word, number_value, worded, read_value};

use crate::columns::CellKind;
use orders::price::Price;
use sheets::cells::{read_number, read_price, read_type};

// The value of a cell, by its kind.
#[derive(Clone, Copy)]
pub(crate) enum Value {
    Number(u64),
    Byte(u8),
    Price(Price),
}

// The number of a side that is written as a word.
fn side_word(bytes: &[u8]) -> Option<u64>
    ensures { result ≡ side_word bytes.now }
{
    match bytes {
        b"buy" => Some(1),
        b"sell" => Some(2),
        _ => None,
    }
}

// The number of a validity that is written as a word.
fn validity_word(bytes: &[u8]) -> Option<u64>
    ensures { result ≡ validity_word bytes.now }
{
    match bytes {
        b"day" => Some(0),
        b"gtc" => Some(1),
        b"ioc" => Some(3),
        b"fok" => Some(4),
        _ => None,
    }
}

// A number, read as a number cell is.
fn number_value(bytes: &[u8]) -> Option<Value>
    ensures { result ≡ number_value bytes.now }
{
    read_number(bytes).ok().flatten().map(Value::Number)
}

// The number that a word stands for, or else the number that is written.
fn worded(word: Option<u64>, bytes: &[u8]) -> Option<Value>
    ensures { result ≡ worded word bytes.now }
{
    word.map(Value::Number).or_else(|| number_value(bytes))
}

// A value of a kind; none where it is empty or cannot be read.
pub(crate) fn read_value(kind: CellKind, bytes: &[u8]) -> Option<Value>
    ensures { result ≡ read_value kind bytes.now }
{
    match kind {
        CellKind::Number => number_value(bytes),
        CellKind::Side => worded(side_word(bytes), bytes),
        CellKind::OneByte => read_type(bytes).ok().flatten().map(Value::Byte),
        CellKind::Validity => worded(validity_word(bytes), bytes),
        CellKind::Price => read_price(bytes).ok().flatten().map(Value::Price),
    }
}
