// What no clause says of a printed value and tuple: that they read as one expects.
ghost use Rattle.std.specs.Prelude.{◌≡◌, [], ◌∷◌, IfOk};
ghost use Rattle.vt_base.specs.Names.{IsNamed, AreNamed};

use std::alloc::Global;
use std::process::Abort;
use std::test::Fail;
use vt_base::{List, Names, NoMemory, ObjId, Text, Tuple, Value, write_tuple, write_value};

// An enum with two literals, and an object.
#[derive(Drop)]
struct Small {
    size: Text,
    small: Text,
    large: Text,
    number: ObjId,
    object: Text,
}

impl Names for Small {
    ghost enums = { λ s. record { name = s.size; literals = s.small ∷ s.large ∷ [] } ∷ [] };

    ghost objects = { λ s. record { object = s.number; name = s.object } ∷ [] };

    fn literal_named(&self, enum_name: &str, literal: &str) -> Option<(u16, u16)> {
        if enum_name != self.size.as_str() {
            None
        } else if literal == self.small.as_str() {
            Some((0, 0))
        } else if literal == self.large.as_str() {
            Some((0, 1))
        } else {
            None
        }
    }

    fn literal_text(&self, e: u16, l: u16) -> Option<(&Text, &Text)> {
        match (e, l) {
            (0, 0) => Some((&self.size, &self.small)),
            (0, 1) => Some((&self.size, &self.large)),
            _ => None,
        }
    }

    fn object_text(&self, o: ObjId) -> Option<&Text> {
        if self.number.0 == o.0 {
            Some(&self.object)
        } else {
            None
        }
    }
}

fn two_names(alloc: Global) -> Result<Small, NoMemory>
    ensures { IfOk result (λ names. names.number.0 ≡ 7) }
{
    Ok(Small {
        size: Text::new(alloc, "Size")?,
        small: Text::new(alloc, "SMALL")?,
        large: Text::new(alloc, "LARGE")?,
        number: ObjId(7),
        object: Text::new(alloc, "room.1")?,
    })
}

// Writes a value after a mark.
fn assert_printed<N: Names>(
    rt: &impl Abort,
    alloc: Global,
    names: &N,
    value: Value,
    text: &[u8],
) -> Result<(), NoMemory>
    requires { IsNamed (N.enums names.now) (N.objects names.now) value }
{
    let mut out = List::new(alloc);
    out.extend(b"> ")?;
    write_value(alloc, &value, names, &mut out)?;
    assert_eq!(rt; out.as_slice(), text);
    Ok(())
}

// Writes a tuple after a mark.
fn assert_tuple_printed<N: Names>(
    rt: &impl Abort,
    alloc: Global,
    names: &N,
    values: &[Value],
    text: &[u8],
) -> Result<(), NoMemory>
    requires { AreNamed (N.enums names.now) (N.objects names.now) values.now }
{
    let mut out = List::new(alloc);
    out.extend(b"> ")?;
    let t = Tuple::from_slice(alloc, values)?;
    write_tuple(alloc, &t, names, &mut out)?;
    assert_eq!(rt; out.as_slice(), text);
    Ok(())
}

// A text prints as JSON writes a string.
fn assert_texts_printed<N: Names>(
    rt: &impl Abort,
    alloc: Global,
    names: &N,
) -> Result<(), NoMemory> {
    let texts = [
        ("", r#"> """#),
        ("two words", r#"> "two words""#),
        // these are escaped
        ("\"\\", r#"> "\"\\""#),
        ("\u{8}\u{c}\n\r\t", r#"> "\b\f\n\r\t""#),
        ("\u{0}\u{1}\u{b}\u{1f}", r#"> "\u0000\u0001\u000b\u001f""#),
        // and these are not
        ("/ \u{7f} é \u{1f600}", "> \"/ \u{7f} é \u{1f600}\""),
    ];
    for (value, text) in texts {
        let value = Value::Text(Text::new(alloc, value)?);
        assert_printed(rt, alloc, names, value, text.as_bytes())?;
    }
    Ok(())
}

#[test]
fn values_and_tuples_print_as_their_texts(rt: HostRuntime) -> Result<(), Fail> {
    let alloc = rt.alloc();
    let names = two_names(alloc)?;
    assert_texts_printed(&rt, alloc, &names)?;
    for (value, text) in [(true, b"> true".as_slice()), (false, b"> false".as_slice())] {
        assert_printed(&rt, alloc, &names, Value::Bool(value), text)?;
    }
    let numbers = [
        (0, b"> 0".as_slice()),
        (-1, b"> -1".as_slice()),
        (i64::MAX, b"> 9223372036854775807".as_slice()),
        (i64::MIN, b"> -9223372036854775808".as_slice()),
    ];
    for (value, text) in numbers {
        assert_printed(&rt, alloc, &names, Value::Int(value), text)?;
    }
    assert_printed(&rt, alloc, &names, Value::Enum(0, 0), b"> Size::SMALL")?;
    assert_printed(&rt, alloc, &names, Value::Enum(0, 1), b"> Size::LARGE")?;
    assert_printed(&rt, alloc, &names, Value::Obj(ObjId(7)), b"> room.1")?;
    assert_tuple_printed(&rt, alloc, &names, &[], b"> ()")?;
    assert_tuple_printed(&rt, alloc, &names, &[Value::Int(-1)], b"> (-1)")?;
    let text = Value::Text(Text::new(alloc, "a, b")?);
    let values = [
        Value::Bool(true),
        text,
        Value::Enum(0, 1),
        Value::Obj(ObjId(7)),
    ];
    let printed = b"> (true, \"a, b\", Size::LARGE, room.1)";
    assert_tuple_printed(&rt, alloc, &names, &values, printed)?;
    Ok(())
}
