// Drive reports: BOT's thirteen cases.
#![tactic(auto)]

ghost use Rattle.std.specs.Prelude.{◌≡◌, []};
ghost use Rattle.outcomes.specs.Outcomes.{Answers};
ghost use Rattle.rules.specs.Step.{Report};
ghost use Rattle.reports.specs.Said.{Says};

use outcomes::{Outcome, done};
use rules::refusals::Refusal;
use rules::{Bridge, Change, Direction, Phase, StatusPacket};

// What a report says that is not malformed: which way the drive moved data, if it did; whether it failed; and how much it moved.
#[derive(Clone, Copy)]
struct Said {
    moved: Option<Direction>,
    failed: bool,
    amount: u32,
}

impl Said {
    ghost use Rattle.rules.specs.Words.{one};
    ghost use Rattle.rules.specs.Reports.{mismatch, finished};
    ghost use Rattle.reports.specs.Said.{moved_number};

    // What these numbers say; None where they are malformed.
    #[tactic(auto, unfolding(rules::specs::Reports::malformed))]
    fn of(direction: u8, failed: u8, amount: u32) -> Option<Said>
        ensures { Says direction failed amount result }
    {
        let moved = match (direction, amount) {
            (0, 0) => None,
            (1, _) => Some(Direction::In),
            (2, _) => Some(Direction::Out),
            _ => return None,
        };
        let failed = match failed {
            0 => false,
            1 => true,
            _ => return None,
        };
        Some(Said {
            moved,
            failed,
            amount,
        })
    }

    // The direction as it is reported: 0 where nothing moved.
    fn direction(self) -> u8
        ensures { result ≡ moved_number self.moved }
    {
        match self.moved {
            None => 0,
            Some(direction) => u8::from(direction),
        }
    }

    // The drive moved data the wrong way, or more than the host asked for. With L = 0 any amount is more.
    #[tactic(auto, using(crate::proofs::Mismatches::mismatch_by))]
    fn is_mismatch(self, length: u32, host: Direction) -> bool
        ensures { result ≡ mismatch length host (moved_number self.moved) self.amount }
    {
        ((self.amount > 0) & (self.direction() != u8::from(host))) | (self.amount > length)
    }

    // What it changes, on a command of this direction, tag and L.
    #[tactic(auto, using(rules::proofs::Promises::amount_fits))]
    fn finish(self, host: Direction, tag: u32, length: u32) -> Change
        ensures { result ≡ finished (mismatch length host (moved_number self.moved) self.amount) host tag length (one self.failed) self.amount }
    {
        if self.is_mismatch(length, host) {
            return Change::Finishes {
                direction: host,
                halts: length > 0,
                status: StatusPacket::PHASE_ERROR,
                tag,
                residue: length,
            };
        }
        Change::Finishes {
            direction: host,
            halts: self.amount < length,
            status: self.failed as u8,
            tag,
            residue: length - self.amount,
        }
    }
}

#[tactic(auto, using(outcomes::proofs::Phases::not_busy), unfolding(rules::specs::Answers::report_answer, rules::specs::Step::step, rules::specs::Step::change))]
pub fn report(b: Bridge, direction: u8, failed: u8, amount: u32) -> Outcome<Refusal>
    ensures { Answers b (λ n. Report direction failed amount) [] result [] }
{
    if !b.configured {
        return Outcome::from(Refusal::Unconfigured);
    }
    let Phase::Busy {
        direction: host,
        tag,
        length,
        ..
    } = b.phase
    else {
        return Outcome::from(Refusal::WrongPhase);
    };
    let Some(said) = Said::of(direction, failed, amount) else {
        return Outcome::from(Refusal::Malformed);
    };
    done(0, said.finish(host, tag, length))
}
