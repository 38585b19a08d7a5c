// Reports as text: `step 2 book[+y -x ~z] shelf[] touched[z]`.
use std::fmt::Write;
use std::test::Fail;
use vt_base::{ObjId, Rows, Value};
use vt_history::StepReport;
use vt_session::Session;

fn name_of(session: &Session, o: ObjId) -> &str {
    session.store().name_of(o).map_or("?", |name| name.as_str())
}

// Each row as the sign and the name of its object.
fn add_rows(text: &mut String, session: &Session, sign: &str, rows: &Rows) -> Result<(), Fail> {
    let mut walk = rows.walk();
    while let Some(row) = walk.next() {
        if !text.as_str().ends_with('[') {
            text.push_str(" ")?;
        }
        text.push_str(sign)?;
        if let [Value::Obj(o)] = row.as_slice() {
            text.push_str(name_of(session, *o))?;
        }
    }
    Ok(())
}

pub(super) fn add_report(
    text: &mut String,
    session: &Session,
    report: &StepReport,
) -> Result<(), Fail> {
    write!(text, "step {}", report.step)?;
    for events in report.events.as_slice() {
        let name = if events.pattern.0 == 0 {
            "book"
        } else {
            "shelf"
        };
        write!(text, " {name}[")?;
        add_rows(text, session, "+", &events.added)?;
        add_rows(text, session, "-", &events.removed)?;
        add_rows(text, session, "~", &events.updated)?;
        text.push_str("]")?;
    }
    text.push_str(" touched[")?;
    for o in report.touched.as_slice() {
        if !text.as_str().ends_with('[') {
            text.push_str(" ")?;
        }
        text.push_str(name_of(session, *o))?;
    }
    text.push_str("]\n")?;
    Ok(())
}
