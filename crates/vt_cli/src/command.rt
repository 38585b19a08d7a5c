// What the words ask for.
ghost use Rattle.std.specs.Prelude.{◌≡◌, option_map};
ghost use Rattle.vt_cli.specs.Command.{task_of, roles_of, command_of};
ghost use Rattle.vt_cli.specs.Inside.Seen.{seen};

use crate::ending::Role;
use vt_base::Text;

/// What a command does with its files.
#[derive(Clone, Copy)]
pub enum Task {
    Show,
    Matches,
    Run,
}

/// A command: what it does, what its files are to it, and their names.
#[derive(Clone, Copy)]
pub(crate) struct Command<'a> {
    pub(crate) task: Task,
    pub(crate) roles: &'static [Role],
    pub(crate) names: &'a [Text],
}

fn task_of(word: &Text) -> Option<Task>
    ensures { result ≡ task_of word.now }
{
    if word.is("show") {
        Some(Task::Show)
    } else if word.is("matches") {
        Some(Task::Matches)
    } else if word.is("run") {
        Some(Task::Run)
    } else {
        None
    }
}

fn roles_of(task: Task) -> &'static [Role]
    ensures { result.now ≡ roles_of task }
{
    match task {
        Task::Show => &[Role::Metamodel, Role::Model],
        Task::Matches => &[Role::Metamodel, Role::Model, Role::Queries],
        Task::Run => &[
            Role::Metamodel,
            Role::Model,
            Role::Queries,
            Role::Rules,
            Role::Script,
        ],
    }
}

/// The command that the words are. `None` is of words that are none.
pub(crate) fn parse(words: &[Text]) -> Option<Command<'_>>
    ensures { option_map seen result ≡ command_of words.now }
{
    let (word, names) = words.split_first()?;
    let task = task_of(word)?;
    let roles = roles_of(task);
    if names.len() != roles.len() {
        return None;
    }
    Some(Command { task, roles, names })
}
