//! The greatest numbers of parameters, constraints, variables and patterns.
use super::answer;
use std::alloc::Global;
use std::test::Fail;
use vt_vql::QueryFault;

// A pattern with so many typed parameters, and so often the constraint.
fn pattern_with(alloc: Global, params: u32, constraint: &str, times: u32) -> Result<String, Fail> {
    let mut text = String::from_str(alloc, "pattern p(a : Node")?;
    for i in 1..params {
        text.push_str(format!(in alloc; ", a{i} : Node")?.as_str())?;
    }
    text.push_str(") { ")?;
    for _ in 0..times {
        text.push_str(constraint)?;
    }
    text.push_str("}")?;
    Ok(text)
}

// So many patterns of different names.
fn patterns(alloc: Global, count: u32) -> Result<String, Fail> {
    let mut text = String::new(alloc);
    for i in 0..count {
        text.push_str(format!(in alloc; "pattern p{i}() {{ }}\n")?.as_str())?;
    }
    Ok(text)
}

// The fault of a file, or none where it is read.
fn fault_of(alloc: Global, text: &str) -> Result<Option<QueryFault>, Fail> {
    Ok(answer(alloc, text.as_bytes())?.err())
}

const READ: Option<QueryFault> = None;

const NOT_BUILT: Option<QueryFault> = Some(QueryFault::NotBuilt { place: 0 });

#[test]
fn the_limits_hold_and_one_more_is_refused(rt: HostRuntime) -> Result<(), Fail> {
    for (params, constraint, times, fault) in [
        (16, "", 0, READ),
        (17, "", 0, NOT_BUILT),
        // the declared types are among the constraints
        (1, "Node(a);", 127, READ),
        (1, "Node(a);", 128, NOT_BUILT),
        (16, "Node(a);", 112, READ),
        (16, "Node(a);", 113, NOT_BUILT),
        // each `_` is a variable
        (1, "Node(_);", 63, READ),
        (1, "Node(_);", 64, NOT_BUILT),
        (2, "Node.to(_, _);", 31, READ),
        (2, "Node.to(_, _);", 32, NOT_BUILT),
    ] {
        let text = pattern_with(rt.alloc(), params, constraint, times)?;
        assert_eq!(rt;
            fault_of(rt.alloc(), text.as_str())?,
            fault,
            "{params} {times}"
        );
    }
    let most = patterns(rt.alloc(), 512)?;
    assert_eq!(rt; fault_of(rt.alloc(), most.as_str())?, READ);
    let more = patterns(rt.alloc(), 513)?;
    assert_eq!(rt; fault_of(rt.alloc(), more.as_str())?, NOT_BUILT);
    Ok(())
}
