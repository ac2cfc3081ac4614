// "the excludes inside W to W + N − 1": a window is named by its last position, W + N − 1.
ghost use Rattle.std.specs.Prelude.{◌≡◌};
ghost use Rattle.model.specs.Rules.{inside_window};
ghost use Rattle.strings.specs.Strings.{str_of};
ghost use Rattle.window.specs.Inside.{WindowSize};

use model::Position;

// Does a string of this span lie inside the window of n positions up to `last`?
pub fn is_inside(n: u32, last: Position, span: u32) -> bool
    requires { WindowSize n }
    ensures { result ≡ inside_window n last.0 (str_of span 0) }
{
    last.0 < strings::start_of(span).0 + n && strings::end_of(span) <= last
}
