// A span, start × 65,536 + end: taken apart and put together. No other function of the engine splits one.
ghost use Rattle.std.specs.Prelude.{◌≡◌, ◌+◌, ◌*◌, ◌/◌, ◌%◌, ◌<◌};
ghost use Rattle.model.specs.Limits.{radix};

use super::halves;
use model::{Position, RADIX};

// The start of a span.
pub fn start_of(span: u32) -> Position
    ensures { result.0 ≡ span / radix }
{
    Position(halves::upper(span))
}

// The end of a span.
pub fn end_of(span: u32) -> Position
    ensures { result.0 ≡ span % radix }
{
    Position(halves::lower(span))
}

// The span of a start and an end.
pub fn span_of(start: Position, end: Position) -> u32
    requires { (start.0 < radix) × (end.0 < radix) }
    ensures { result ≡ start.0 * radix + end.0 }
{
    start.0 * RADIX + end.0
}
