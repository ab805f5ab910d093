// Command packets: whether one is awaited, its validity, meaning and direction, and what it changes.
#![tactic(auto)]

ghost use Rattle.std.specs.Prelude.{◌≡◌, false, ltb, length};
ghost use Rattle.packets.specs.Awaited.{Awaits, damage_checks, meaning_of, taken_as};
ghost use Rattle.outcomes.specs.Outcomes.{AnswersOf};
ghost use Rattle.rules.specs.Numbered.{by_number, checked};
ghost use Rattle.rules.specs.Words.{first};
ghost use Rattle.rules.specs.Held.{drive_count};
ghost use Rattle.rules.specs.Answers.{unawaited_checks};
ghost use Rattle.rules.specs.Step.{Packet};
ghost use Rattle.rules.specs.Packets.{command_layout, command_of, valid, sensible, meaningful, direction_of, lun_of, begins, command_taken};

use outcomes::{Outcome, done};
use passthrough::Unmade;
use rules::refusals::Refusal;
use rules::{Bridge, Change, CommandPacket, Direction, Drives, Lun, Phase, StatusPacket};

// Length and signature, as the paper's "Valid" has them: so `command_of` asks for the length once more, where it could be an array's.
#[tactic(auto, unfolding(rules::specs::Packets::valid))]
fn is_valid(packet: &[u8]) -> bool
    ensures { result ≡ valid packet.now }
{
    if packet.len() != CommandPacket::LENGTH {
        return false;
    }
    lent::long(packet[0], packet[1], packet[2], packet[3]) == CommandPacket::SIGNATURE
}

// No `From`: it would be public, for one caller.
fn command_of(packet: &[u8]) -> CommandPacket
    requires { length packet.now ≡ command_layout.length }
    ensures { result ≡ command_of packet.now }
{
    CommandPacket {
        tag: lent::long(packet[4], packet[5], packet[6], packet[7]),
        length: lent::long(packet[8], packet[9], packet[10], packet[11]),
        flags: packet[12],
        lun: packet[13],
        block_length: packet[14],
    }
}

// What a packet says beside its LUN is meaningful.
#[tactic(auto, unfolding(rules::specs::Packets::sensible))]
fn is_sensible(c: CommandPacket) -> bool
    ensures { result ≡ sensible c }
{
    matches!(c.flags, 0x00 | 0x80) && matches!(c.block_length, 1..=16)
}

// The drive of a LUN byte, all of which counts: 0x10 is not 0, and 0x11 is not 1.
fn drive_of(drives: Drives, lun: u8) -> Option<Lun>
    ensures { result ≡ meaning_of (ltb lun (drive_count drives)) lun }
{
    match (lun, drives) {
        (0, _) => Some(Lun::Lun0),
        (1, Drives::Two) => Some(Lun::Lun1),
        _ => None,
    }
}

// The drive that a packet is for, if it is meaningful.
#[tactic(auto, unfolding(rules::specs::Packets::meaningful))]
fn meaning_of(drives: Drives, c: CommandPacket) -> Option<Lun>
    ensures { result ≡ meaning_of (meaningful drives c) c.lun }
{
    if is_sensible(c) {
        return drive_of(drives, c.lun);
    }
    None
}

// The command of a packet that is not damaged, and its drive.
#[tactic(auto, using(crate::proofs::Commands::thirty_one))]
fn undamaged(drives: Drives, packet: &[u8]) -> Result<(CommandPacket, Lun), Refusal>
    ensures { by_number result ≡ checked (command_of packet.now, lun_of (command_of packet.now)) (first (damage_checks drives packet.now)) }
{
    if !is_valid(packet) {
        return Err(Refusal::NotValid);
    }
    let c = command_of(packet);
    let lun = meaning_of(drives, c).ok_or(Refusal::NotMeaningful)?;
    Ok((c, lun))
}

fn direction_of(c: CommandPacket) -> Direction
    ensures { result ≡ direction_of c }
{
    if (c.length > 0) & (c.flags == 0x80) {
        Direction::In
    } else {
        Direction::Out
    }
}

fn begun(lun: Lun, c: CommandPacket) -> Change
    ensures { result ≡ begins lun c }
{
    Change::Begins {
        direction: direction_of(c),
        lun,
        tag: c.tag,
        length: c.length,
    }
}

// A block that is not recognised fails at once, and the pipe of its direction is halted.
fn failed(c: CommandPacket) -> Change
    ensures { result ≡ command_taken false c }
{
    Change::Finishes {
        direction: direction_of(c),
        halts: c.length > 0,
        status: StatusPacket::FAILED,
        tag: c.tag,
        residue: c.length,
    }
}

// What the judgement of its block makes of a meaningful packet.
fn taken(judgement: Result<u16, Unmade>, lun: Lun, c: CommandPacket) -> Outcome<Refusal>
    ensures { result ≡ taken_as judgement lun c }
{
    match judgement {
        Ok(count) => done(count, begun(lun, c)),
        Err(Unmade::Unrecognised) => done(0, failed(c)),
        Err(Unmade::NoRoom) => Outcome::from(Refusal::OperationRoom),
    }
}

// A command packet that a bridge awaits, in a dock with so many drives: its block is the part that starts at byte 15. `signature` is configuration
// byte 0x04.
#[tactic(auto, using(crate::proofs::Commands::thirty_one))]
pub fn awaited(
    drives: Drives,
    signature: u8,
    packet: &[u8],
    operations: &mut [u16],
) -> Outcome<Refusal>
    ensures { (b : Bridge) → Awaits drives b → AnswersOf b signature (Packet packet.now) operations.old result operations.new }
{
    match undamaged(drives, packet) {
        Ok((c, lun)) => {
            let judgement = passthrough::judge(
                &packet[15..CommandPacket::LENGTH],
                c.block_length,
                c.length,
                direction_of(c),
                lun,
                signature,
                operations,
            );
            taken(judgement, lun, c)
        }
        Err(refusal) => Outcome {
            answer: Err(refusal),
            change: Change::Stops,
        },
    }
}

// A packet that is not awaited is refused, whatever it is.
pub fn unawaited(b: Bridge) -> Result<(), Refusal>
    ensures { by_number result ≡ checked tt (first (unawaited_checks b)) }
{
    if !b.configured {
        return Err(Refusal::Unconfigured);
    }
    if outcomes::is_stopped(b.phase) | b.halts.outward {
        return Err(Refusal::Halted);
    }
    match b.phase {
        Phase::Awaiting => Ok(()),
        _ => Err(Refusal::WrongPhase),
    }
}

#[tactic(auto, using(rules::proofs::Promises::packet_unawaited, crate::proofs::Commands::checked_err, rules::proofs::Numbered::not_done))]
pub fn packet(b: Bridge, signature: u8, packet: &[u8], operations: &mut [u16]) -> Outcome<Refusal>
    ensures { AnswersOf b signature (Packet packet.now) operations.old result operations.new }
{
    match unawaited(b) {
        Ok(()) => awaited(b.dock.drives, signature, packet, operations),
        Err(refusal) => Outcome::from(refusal),
    }
}
