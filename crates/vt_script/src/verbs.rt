// The words that begin commands, and those that begin changes.
ghost use Rattle.std.specs.Prelude.{◌≡◌};
ghost use Rattle.vt_script.specs.Commands.{verb_of, edit_of};

/// The first word of a command that has more behind it.
#[derive(Clone, Copy, Debug)]
pub(crate) enum Verb {
    Begin,
    Commit,
    Abort,
    Change,
    Fire,
    Swap,
    Matches,
    Activations,
    Group,
}

/// The first word of a change.
#[derive(Clone, Copy, Debug)]
pub(crate) enum Edit {
    Create,
    Delete,
    Set,
    Unset,
    Link,
    Unlink,
    Move,
}

#[tactic(auto, unfolding(crate::specs::Commands::verb_of))]
pub(crate) fn verb_named(word: &str) -> Option<Verb>
    ensures { result ≡ verb_of word.now }
{
    match word {
        "begin" => Some(Verb::Begin),
        "commit" => Some(Verb::Commit),
        "abort" => Some(Verb::Abort),
        "change" => Some(Verb::Change),
        "fire" => Some(Verb::Fire),
        "swap" => Some(Verb::Swap),
        "matches" => Some(Verb::Matches),
        "activations" => Some(Verb::Activations),
        "group" => Some(Verb::Group),
        _ => None,
    }
}

#[tactic(auto, unfolding(crate::specs::Commands::edit_of))]
pub(crate) fn edit_named(word: &str) -> Option<Edit>
    ensures { result ≡ edit_of word.now }
{
    match word {
        "create" => Some(Edit::Create),
        "delete" => Some(Edit::Delete),
        "set" => Some(Edit::Set),
        "unset" => Some(Edit::Unset),
        "link" => Some(Edit::Link),
        "unlink" => Some(Edit::Unlink),
        "move" => Some(Edit::Move),
        _ => None,
    }
}
