// Printing a value, and a tuple.
ghost use Rattle.std.specs.Prelude.{◌≡◌, ◌++◌, codes, Some, IfOk, OnOk, OnErr, string_bytes};
ghost use Rattle.std.specs.List.{join_by};
ghost use Rattle.serde_json.specs.Data.{string};
ghost use Rattle.serde_json.specs.Written.{compact_text};
ghost use Rattle.vt_base.specs.Names.{IsNamed, AreNamed, literal_names};
ghost use Rattle.vt_base.specs.Written.{value_text, tuple_text, literal_text, AppendsFront};
ghost use Rattle.vt_base.specs.Inside.Further.{further_text};

use crate::{List, Names, NoMemory, Text, Tuple, Value};
use itoa::Buffer;
use std::alloc::Global;

// The text of a string in JSON.
fn quoted(alloc: Global, text: &str) -> Result<String, NoMemory>
    ensures { IfOk result (λ t. string_bytes t ≡ compact_text (string text.now)) }
{
    let value = serde_json::Value::String(String::from_str(alloc, text)?);
    Ok(value.to_string(alloc)?)
}

// Three pieces, one after the other.
fn write_pieces(a: &[u8], b: &[u8], c: &[u8], out: &mut List<u8>) -> Result<(), NoMemory>
    ensures added { OnOk result (out.new ≡ out.old ++ (a.now ++ b.now ++ c.now)) }
    ensures front { OnErr result (AppendsFront out.old out.new (a.now ++ b.now ++ c.now)) }
{
    out.extend(a)?;
    out.extend(b)?;
    out.extend(c)
}

/// Appends the text of a value: `true` or `false`, a decimal number, a text as JSON writes a
/// string, `Enum::LITERAL`, or the name of the object.
pub fn write_value<N: Names>(
    alloc: Global,
    value: &Value,
    names: &N,
    out: &mut List<u8>,
) -> Result<(), NoMemory>
    requires named { IsNamed (N.enums names.now) (N.objects names.now) value.now }
    ensures added { OnOk result (out.new ≡ out.old ++ value_text (N.enums names.now) (N.objects names.now) value.now) }

    // After want of memory a front of the text may stand there.
    ensures front { OnErr result (AppendsFront out.old out.new (value_text (N.enums names.now) (N.objects names.now) value.now)) }
{
    match value {
        Value::Bool(true) => out.extend(b"true"),
        Value::Bool(false) => out.extend(b"false"),
        Value::Int(n) => out.extend(Buffer::new().format(*n).as_bytes()),
        Value::Text(text) => out.extend(quoted(alloc, text.as_str())?.as_bytes()),
        Value::Enum(e, l) => match names.literal_text(*e, *l) {
            Some((enum_name, literal)) => {
                write_pieces(
                    enum_name.as_str().as_bytes(),
                    b"::",
                    literal.as_str().as_bytes(),
                    out,
                )
            }
            None => Ok(()),
        },
        Value::Obj(o) => match names.object_text(*o) {
            Some(name) => out.extend(name.as_str().as_bytes()),
            None => Ok(()),
        },
    }
}

// A comma, a space and a value.
fn write_next<N: Names>(
    alloc: Global,
    value: &Value,
    names: &N,
    out: &mut List<u8>,
) -> Result<(), NoMemory>
    requires named { IsNamed (N.enums names.now) (N.objects names.now) value.now }
    ensures added { OnOk result
        (out.new ≡ out.old
        ++ (codes ", " ++ value_text (N.enums names.now) (N.objects names.now) value.now)) }
    ensures front { OnErr result
        (AppendsFront out.old out.new
        (codes ", " ++ value_text (N.enums names.now) (N.objects names.now) value.now)) }
{
    out.extend(b", ")?;
    write_value(alloc, value, names, out)
}

// Values after the first.
fn write_further<N: Names>(
    alloc: Global,
    values: &[Value],
    names: &N,
    out: &mut List<u8>,
) -> Result<(), NoMemory>
    requires named { AreNamed (N.enums names.now) (N.objects names.now) values.now }
    ensures added { OnOk result
        (out.new ≡ out.old ++ further_text (N.enums names.now) (N.objects names.now) values.now) }
    ensures front { OnErr result
        (AppendsFront out.old out.new
        (further_text (N.enums names.now) (N.objects names.now) values.now)) }
{
    for value in values {
        write_next(alloc, value, names, out)?;
    }
    Ok(())
}

// The values of a tuple, with a comma and a space between two.
fn write_values<N: Names>(
    alloc: Global,
    t: &Tuple,
    names: &N,
    out: &mut List<u8>,
) -> Result<(), NoMemory>
    requires named { AreNamed (N.enums names.now) (N.objects names.now) t.now }
    ensures added { OnOk result
        (out.new ≡ out.old
        ++ join_by (value_text (N.enums names.now) (N.objects names.now)) (codes ", ") t.now) }
    ensures front { OnErr result
        (AppendsFront out.old out.new
        (join_by (value_text (N.enums names.now) (N.objects names.now)) (codes ", ") t.now)) }
{
    match t.as_slice().split_first() {
        None => Ok(()),
        Some((first, rest)) => {
            write_value(alloc, first, names, out)?;
            write_further(alloc, rest, names, out)
        }
    }
}

/// Appends the text of a tuple: its values in round brackets, with a comma and a space between two.
pub fn write_tuple<N: Names>(
    alloc: Global,
    t: &Tuple,
    names: &N,
    out: &mut List<u8>,
) -> Result<(), NoMemory>
    requires named { AreNamed (N.enums names.now) (N.objects names.now) t.now }
    ensures added { OnOk result
        (out.new ≡ out.old ++ tuple_text (N.enums names.now) (N.objects names.now) t.now) }

    // After want of memory a front of the text may stand there.
    ensures front { OnErr result
        (AppendsFront out.old out.new
        (tuple_text (N.enums names.now) (N.objects names.now) t.now)) }
{
    out.extend(b"(")?;
    write_values(alloc, t, names, out)?;
    out.extend(b")")
}
