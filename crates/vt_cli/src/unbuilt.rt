// Commands that aren't built yet.
ghost use Rattle.std.specs.Prelude.{◌≡◌, position};
ghost use Rattle.vt_cli.specs.Unbuilt.{is_unbuilt, unbuilt};

use vt_script::Line;

fn is_unbuilt(line: &Line) -> bool
    ensures { result ≡ is_unbuilt line.now }
{
    match line {
        Line::Fire { .. } | Line::Swap { .. } | Line::Activations(_) | Line::Group { .. } => true,
        _ => false,
    }
}

fn first_place(lines: &[Line]) -> Option<usize>
    ensures { result ≡ position is_unbuilt lines.now }
{
    lines.iter().position(|line| is_unbuilt(line))
}

/// The number of the first command that isn't built, counted from 1.
pub(crate) fn first_unbuilt(lines: &[Line]) -> Option<u64>
    ensures { result ≡ unbuilt lines.now }
{
    match first_place(lines) {
        Some(place) => Some(place as u64 + 1),
        None => None,
    }
}
