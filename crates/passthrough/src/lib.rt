// The pass-through block, judged: whether its sixteen bytes are recognised, how many register operations they make, and the operations.
#![tactic(auto)]

ghost use Rattle.std.specs.Prelude.{◌≡◌};
ghost use Rattle.passthrough.specs.Judgements.{judgement, judged};

mod blocks;
mod operations;
mod rows;

use crate::blocks::Block;
use rules::{Direction, Lun};

// Why a block makes no operations: it is not recognised, or there is less room than they need.
#[derive(Clone, Copy)]
pub enum Unmade {
    Unrecognised,
    NoRoom,
}

// The operations of a recognised block with room enough go into the lent row, and how many they are is handed out. `expected` is the packet's
// length L, `size` its block length, and `lun` the drive that it is for: no more of a packet is told than the rules judge a block by, so one by one.
#[tactic(auto, using(crate::proofs::Counts::numbers))]
pub fn judge(
    block: &[u8],
    size: u8,
    expected: u32,
    direction: Direction,
    lun: Lun,
    signature: u8,
    operations: &mut [u16],
) -> Result<u16, Unmade>
    ensures { judgement result operations.new ≡ judged lun signature block.now size expected direction operations.old }
{
    let Ok(bytes) = <&[u8; 16]>::try_from(block) else {
        return Err(Unmade::Unrecognised);
    };
    let block = Block::new(bytes, expected, direction, lun);
    if !block.is_recognised(size, signature) {
        return Err(Unmade::Unrecognised);
    }
    if block.is_short(operations.len()) {
        return Err(Unmade::NoRoom);
    }
    Ok(block.make(operations) as u16)
}
