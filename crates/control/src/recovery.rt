// What each recovery request changes.
ghost use Rattle.std.specs.Prelude.{◌≡◌, cond};
ghost use Rattle.rules.specs.Held.{is_stopped};
ghost use Rattle.rules.specs.Stopping.{clears_pipe, clear_feature};

use outcomes::is_stopped;
use rules::fields::BULK_OUT;
use rules::{Bridge, Change, Direction, Phase};

// A pipe is cleared, the other halted or not. Of a stop, before a Mass Storage Reset nothing is, and it ends with the second.
fn clear_pipe(phase: Phase, direction: Direction, other: bool) -> Change
    ensures { result ≡ clears_pipe phase direction other }
{
    match phase {
        Phase::Stopped { reset: false } => Change::Nothing,
        Phase::Stopped { reset: true } if !other => Change::Ends,
        _ => Change::Clears(direction),
    }
}

pub(crate) fn clear_feature(index: u16, b: Bridge) -> Change
    ensures { result ≡ clear_feature index b }
{
    if index == BULK_OUT {
        clear_pipe(b.phase, Direction::Out, b.halts.inward)
    } else {
        clear_pipe(b.phase, Direction::In, b.halts.outward)
    }
}

// Not stopped, a bridge has a command awaited; what a stop makes of a reset is the request's.
pub(crate) fn reset(phase: Phase, stopped: Change) -> Change
    ensures { result ≡ cond (is_stopped phase) stopped Change.Resets }
{
    if is_stopped(phase) {
        stopped
    } else {
        Change::Resets
    }
}
