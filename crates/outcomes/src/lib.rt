// What every event is written with: its outcome, a change of the bridge made by value, and whether a phase is a stop. The bus reset is told by its
// outcome alone.
#![tactic(auto)]

ghost use Rattle.std.specs.Prelude.{◌≡◌, [], true, false, cond};
ghost use Rattle.outcomes.specs.Outcomes.{outcome, Answers};
ghost use Rattle.rules.specs.Held.{configuring, in_phase, halted as marked, halting, clearing, is_stopped};
ghost use Rattle.rules.specs.Changes.{made};
ghost use Rattle.rules.specs.Step.{BusReset};

use rules::refusals::Refusal;
use rules::{Bridge, Change, Direction, Halts, Phase};

// How many bytes or operations were handed out, or why the event was refused, by a `Refusal` in each event; and what is changed of the bridge.
#[derive(Clone, Copy)]
pub struct Outcome<R> {
    pub answer: Result<u16, R>,
    pub change: Change,
}

// By a refusal, or by any number that stands for one.
pub fn refused<R>(refusal: R) -> Outcome<R>
    ensures { result ≡ outcome (Err refusal) Change.Nothing }
{
    Outcome {
        answer: Err(refusal),
        change: Change::Nothing,
    }
}

impl From<Refusal> for Outcome<Refusal> {
    fn from(refusal: Refusal) -> Outcome<Refusal>
        ensures { result ≡ outcome (Err refusal) Change.Nothing }
    {
        refused(refusal)
    }
}

pub fn done(count: u16, change: Change) -> Outcome<Refusal>
    ensures { result ≡ outcome (Ok count) change }
{
    Outcome {
        answer: Ok(count),
        change,
    }
}

#[tactic(auto, unfolding(rules::specs::Step::step, rules::specs::Step::change))]
pub fn bus_reset() -> Outcome<Refusal>
    ensures { (b : Bridge) → Answers b (λ n. BusReset) [] result [] }
{
    done(0, Change::Sets(false))
}

// One `matches!`, and a function all the same: it is public, with its row in PROMISES and its edits.
pub fn is_stopped(phase: Phase) -> bool
    ensures { result ≡ is_stopped phase }
{
    matches!(phase, Phase::Stopped { .. })
}

// This and `halted` are words of the rules, and `fresh` is put together of them: one expression each.
fn in_phase(phase: Phase, b: Bridge) -> Bridge
    ensures { result ≡ in_phase phase b }
{
    Bridge { phase, ..b }
}

fn halted(outward: bool, inward: bool, b: Bridge) -> Bridge
    ensures { result ≡ marked outward inward b }
{
    Bridge {
        halts: Halts { outward, inward },
        ..b
    }
}

// The pipe of a direction is halted, or its halt is cleared.
fn with_halt(direction: Direction, halt: bool, b: Bridge) -> Bridge
    ensures { result ≡ cond halt (halting true direction b) (clearing direction b) }
{
    match direction {
        Direction::Out => halted(halt, b.halts.inward, b),
        Direction::In => halted(b.halts.outward, halt, b),
    }
}

// Awaiting, no halts.
fn fresh(configured: bool, b: Bridge) -> Bridge
    ensures { result ≡ configuring configured (in_phase Phase.Awaiting (marked false false b)) }
{
    Bridge {
        configured,
        ..Bridge::power_on(b.dock)
    }
}

// The bridge with a change made.
pub fn changed(change: Change, b: Bridge) -> Bridge
    ensures { result ≡ made change b }
{
    match change {
        Change::Nothing | Change::Drops => b,
        Change::Sets(configured) => fresh(configured, b),
        Change::Awaits | Change::Resets => in_phase(Phase::Awaiting, b),
        Change::Begins {
            direction,
            lun,
            tag,
            length,
        } => {
            let busy = Phase::Busy {
                direction,
                lun,
                tag,
                length,
            };
            in_phase(busy, b)
        }
        Change::Finishes {
            direction,
            halts,
            status,
            tag,
            residue,
        } => {
            let waiting = Phase::StatusWaiting {
                tag,
                residue,
                status,
            };
            let b = in_phase(waiting, b);
            if halts {
                with_halt(direction, true, b)
            } else {
                b
            }
        }
        Change::Stops => in_phase(Phase::Stopped { reset: false }, halted(true, true, b)),
        Change::Notes => in_phase(Phase::Stopped { reset: true }, b),
        Change::Clears(direction) => with_halt(direction, false, b),
        Change::Ends => fresh(b.configured, b),
    }
}
