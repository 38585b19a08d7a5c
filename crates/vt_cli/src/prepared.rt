// What a command comes to before anything is written.
use crate::ending::Outcome;
use vt_base::List;
use vt_script::Line;
use vt_session::Session;

/// A session that has just begun, and the commands of its script.
#[derive(Drop)]
pub(crate) struct Run {
    pub(crate) session: Session,
    pub(crate) lines: List<Line>,
}

/// What a command comes to: an outcome with its whole text, or a run, whose text is written reply by
/// reply.
#[derive(Drop)]
pub(crate) enum Prepared {
    Told(Outcome),
    Begun(Run),
}
