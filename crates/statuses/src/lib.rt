// The status request: the packet that waits, written into the lent room.
#![tactic(auto)]

ghost use Rattle.std.specs.Prelude.{◌≡◌, ◌+◌, ◌≤◌, length};
ghost use Rattle.std.proofs.lemmas.List.Edits.{sets};
ghost use Rattle.statuses.specs.Waiting.{Waits};
ghost use Rattle.outcomes.specs.Outcomes.{Answers};
ghost use Rattle.rules.specs.Step.{StatusRequest};
ghost use Rattle.rules.specs.Words.{bytes4};

use outcomes::{Outcome, done};
use rules::refusals::Refusal;
use rules::{Bridge, Change, Phase, StatusPacket};

// The four bytes of a number from `at` on, low byte first. Stored in the room itself, by way of no array.
fn put_long(room: &mut [u8], at: usize, n: u32)
    requires { at + 4 ≤ length room.old }
    ensures { room.new ≡ sets room.old at (bytes4 n) }
{
    room[at] = (n % 256) as u8;
    room[at + 1] = (n / 256 % 256) as u8;
    room[at + 2] = (n / 65536 % 256) as u8;
    room[at + 3] = (n / 16777216 % 256) as u8;
}

// A status packet that waits on a pipe that is not halted, written at the front of the room.
#[tactic(auto, using(crate::proofs::Rows::packet_stored), unfolding(rules::specs::Answers::status_answer, rules::specs::Step::step, rules::specs::Step::change))]
fn handed_out(p: StatusPacket, reply: &mut [u8]) -> Outcome<Refusal>
    ensures { (b : Bridge) → Waits b p → Answers b StatusRequest reply.old result reply.new }
{
    if reply.len() < StatusPacket::LENGTH {
        return Outcome::from(Refusal::ReplyRoom);
    }
    put_long(reply, 0, StatusPacket::SIGNATURE);
    put_long(reply, 4, p.tag);
    put_long(reply, 8, p.residue);
    reply[12] = p.status;
    done(StatusPacket::LENGTH as u16, Change::Awaits)
}

#[tactic(auto, using(outcomes::proofs::Phases::not_status_waiting), unfolding(rules::specs::Answers::status_answer, rules::specs::Step::step, rules::specs::Step::change))]
pub fn status(b: Bridge, reply: &mut [u8]) -> Outcome<Refusal>
    ensures { Answers b StatusRequest reply.old result reply.new }
{
    if !b.configured {
        return Outcome::from(Refusal::Unconfigured);
    }
    if outcomes::is_stopped(b.phase) | b.halts.inward {
        return Outcome::from(Refusal::Halted);
    }
    let Phase::StatusWaiting {
        tag,
        residue,
        status,
    } = b.phase
    else {
        return Outcome::from(Refusal::WrongPhase);
    };
    let waiting = StatusPacket {
        tag,
        residue,
        status,
    };
    handed_out(waiting, reply)
}
