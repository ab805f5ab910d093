// Command packets for C: whole, or in bursts with an end mark.
ghost use Rattle.std.specs.Prelude.{[]};
ghost use Rattle.outcomes.specs.Outcomes.{outcome};
ghost use Rattle.rules.specs.Step.{Packet, Burst, EndMark};
ghost use Rattle.packets.specs.Awaited.{Awaits};
ghost use Rattle.image.specs.Image.{decode};
ghost use Rattle.thrandue.specs.Calls.{LeftInImage, CallTold};

use crate::leave;
use bridge::Outcome;
use image::IMAGE;
use rules::Change;
use rules::refusals::{Refusal, in_one_number};

// A packet that is not awaited is not looked at; what is held it drops, whole or at its end mark.
fn refuse(image: &mut [u8; IMAGE], refusal: Refusal) -> u32
    ensures { LeftInImage (outcome (Err refusal) Change.Drops) image.old result image.new }
{
    let o = Outcome {
        answer: Err(refusal),
        change: Change::Drops,
    };
    leave(image, o)
}

// A packet that is awaited: a whole one, or what is held at an end mark.
fn take(image: &mut [u8; IMAGE], packet: &[u8], operations: &mut [u16]) -> u32
    requires { Awaits (decode image.old).dock.drives (decode image.old) }
    ensures { CallTold image.old (Packet packet.now) operations.old result image.new operations.new }
{
    image::make(image, Change::Drops);
    let drives = image::drives_of(image);
    let signature = image::signature_of(image);
    leave(
        image,
        packets::awaited(drives, signature, packet, operations),
    )
}

// Each of the two calls asks whether a packet is awaited: asked in `take`, an end mark would copy what is held where it is refused, too.
#[unsafe(no_mangle)]
pub extern "C" fn thrandue_packet(
    image: &mut [u8; IMAGE],
    packet: &[u8],
    operations: &mut [u16],
) -> u32
    ensures { CallTold image.old (Packet packet.now) operations.old result image.new operations.new }
{
    match packets::unawaited(image::load(image)) {
        Ok(()) => take(image, packet, operations),
        Err(refusal) => refuse(image, refusal),
    }
}

#[tactic(auto, using(crate::proofs::Laws::whole_image), unfolding(rules::specs::Step::step, rules::specs::Step::change))]
#[unsafe(no_mangle)]
pub extern "C" fn thrandue_burst(image: &mut [u8; IMAGE], burst: &[u8]) -> u32
    ensures { CallTold image.old (λ n. Burst burst.now) [] result image.new [] }
{
    image::hold(image, burst);
    in_one_number(Ok(0))
}

#[unsafe(no_mangle)]
pub extern "C" fn thrandue_end_mark(image: &mut [u8; IMAGE], operations: &mut [u16]) -> u32
    ensures { CallTold image.old EndMark operations.old result image.new operations.new }
{
    match packets::unawaited(image::load(image)) {
        Ok(()) => {
            let held = image::held(image);
            take(image, held.bytes(), operations)
        }
        Err(refusal) => refuse(image, refusal),
    }
}
