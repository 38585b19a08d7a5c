// Numbers that tell where rows are looked for. No claim rests on them: rows are compared.
ghost use Rattle.std.specs.Prelude.{◌≡◌, fold};
ghost use Rattle.std.specs.Option.{option_copied};
ghost use Rattle.vt_memory.specs.Inside.Numbers.{mix, with_value, with_cell, number_of, number_in};

use vt_base::{Tuple, Value};

const START: u64 = 11400714819323198485;

const FACTOR: u128 = 11400714819323198485;

const HALF: u128 = 18446744073709551616;

/// The number of some values: each bit of each of them matters.
pub(crate) fn number_of(values: &[Value]) -> u64
    ensures { result ≡ number_of values.now }
{
    let mut number = START;
    for value in values {
        number = mix_value(number, value);
    }
    number
}

/// The number of the values that a row has in some columns.
pub(crate) fn number_in(columns: &[u16], row: &Tuple) -> u64
    ensures { result ≡ number_in columns.now row.now }
{
    let mut number = START;
    for column in columns {
        number = mix_cell(number, row.get(*column as usize));
    }
    number
}

// A cell that isn't there changes nothing.
fn mix_cell(number: u64, cell: Option<&Value>) -> u64
    ensures { result ≡ with_cell number (option_copied cell.entry) }
{
    match cell {
        Some(value) => mix_value(number, value),
        None => number,
    }
}

fn mix_value(number: u64, value: &Value) -> u64
    ensures { result ≡ with_value number value.now }
{
    match value {
        Value::Bool(b) => mix_word(number, if *b { 1 } else { 0 }),
        Value::Int(n) => mix_word(number, n.cast_unsigned()),
        Value::Text(text) => mix_bytes(number, text.as_str().as_bytes()),
        Value::Enum(e, l) => mix_word(mix_word(number, *e as u64), *l as u64),
        Value::Obj(o) => mix_word(number, o.0 as u64),
    }
}

fn mix_bytes(number: u64, bytes: &[u8]) -> u64
    ensures { result ≡ fold mix number bytes.now }
{
    let mut mixed = number;
    for byte in bytes {
        mixed = mix_word(mixed, *byte as u64);
    }
    mixed
}

// The halves of a product: each bit of it depends on all bits of the factors.
#[tactic(auto, unfolding(crate::specs::Inside::Numbers::mix))]
fn mix_word(number: u64, word: u64) -> u64
    ensures { result ≡ mix number word }
{
    let product = (number ^ word) as u128 * FACTOR;
    (product % HALF) as u64 ^ (product / HALF) as u64
}
