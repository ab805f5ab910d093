// A pass-through block: whether it is recognised, how many operations it makes, and the operations.
ghost use Rattle.std.specs.Prelude.{◌≡◌, ◌<◌, ◌≤◌, ◌+◌, ltb, length};
ghost use Rattle.rules.specs.Words.{byte, bit, bit_of, laid};
ghost use Rattle.rules.specs.Packets.{readable, recognised};

use crate::operations::{Operation, Register};
use crate::rows::Row;
use rules::{Direction, Lun};

// Where a block has its action, its selection of registers 0 to 7, and their contents.
const ACTION: usize = 2;

const SELECTION: usize = 3;

const CONTENTS: usize = 5;

// The bits of the action, by their names in source 001, each with its place.
#[derive(Clone, Copy)]
enum ActionBit {
    TaskFileRead = 0,
    DeviceSelectionOverride = 1,
    PollAltStatOverride = 2,
    PErrorOverride = 3,
    DErrorOverride = 4,
    DevOverride = 5,
    UdmaCommand = 6,
    IdentifyPacketDevice = 7,
}

// What is done to a register that is selected.
#[derive(Clone, Copy)]
enum Access {
    Write,
    Read,
}

// The bits of the device register that drives built to the early ATA standards expect to be one.
const DEVICE_ONES: u8 = 0xA0;

// The most operations that a block makes.
const MOST: usize = 11;

fn bit(byte: u8, k: u8) -> u8
    requires { k < 8 }
    ensures { result ≡ bit_of k byte }
{
    (byte >> k) % 2
}

// The sixteen bytes, with what their packet says beside them: the length L, the direction and the drive. Action and selection are read once: the
// compiler does not know that the row lies apart from the block, and tried without these fields it reads them again behind each store.
#[derive(Clone, Copy)]
pub(crate) struct Block<'a> {
    bytes: &'a [u8; 16],
    expected: u32,
    direction: Direction,
    lun: Lun,
    action: u8,
    selection: u8,
    ghost found_action: { action ≡ byte 2 bytes.now },
    ghost found_selection: { selection ≡ byte 3 bytes.now },
}

impl<'a> Block<'a> {
    ghost use Rattle.std.specs.Prelude.{◌∷◌, []};
    ghost use Rattle.rules.specs.Operations.{codes, polls, transfers, commanded, write_block, read_block};
    ghost use Rattle.passthrough.specs.Rows.{listed, after, Fits, rising};
    ghost use Rattle.passthrough.specs.Blocks.{accesses, bit_number, select_of, made_of};

    pub(crate) fn new(
        bytes: &'a [u8; 16],
        expected: u32,
        direction: Direction,
        lun: Lun,
    ) -> Block<'a>
        ensures { (result.bytes.now ≡ bytes.now) × (result.expected ≡ expected) × (result.direction ≡ direction) × (result.lun ≡ lun) }
    {
        Block {
            bytes,
            expected,
            direction,
            lun,
            action: bytes[ACTION],
            selection: bytes[SELECTION],
        }
    }

    // A bit of the action, as 0 or 1 and as a test.
    fn action_bit(&self, which: ActionBit) -> u8
        ensures { result ≡ bit_of (bit_number which) (byte 2 self.now.bytes.now) }
    {
        bit(self.action, which as u8)
    }

    fn acts(&self, which: ActionBit) -> bool
        ensures { result ≡ bit (bit_number which) (byte 2 self.now.bytes.now) }
    {
        self.action_bit(which) == 1
    }

    fn selects(&self, register: Register) -> bool
        ensures { result ≡ bit register.number (byte 3 self.now.bytes.now) }
    {
        bit(self.selection, register.number) == 1
    }

    fn content(&self, register: Register) -> u8
        ensures { result ≡ byte (5 + register.number) self.now.bytes.now }
    {
        self.bytes[CONTENTS + register.number as usize]
    }

    // What a block that reads registers must be.
    fn is_readable(&self) -> bool
        ensures { result ≡ readable (byte 2 self.now.bytes.now) self.now.expected self.now.direction }
    {
        !self.acts(ActionBit::PErrorOverride)
            & !self.acts(ActionBit::DErrorOverride)
            & (self.expected == 8)
            & self.direction.is_in()
    }

    #[tactic(auto, unfolding(rules::specs::Packets::recognised))]
    pub(crate) fn is_recognised(&self, size: u8, signature: u8) -> bool
        ensures { result ≡ recognised signature self.now.bytes.now size self.now.expected self.now.direction }
    {
        (size == 16)
            & (self.bytes[0] == signature)
            & (self.bytes[1] == 0x24)
            & (self.bytes[13] == 0)
            & (self.bytes[14] == 0)
            & (self.bytes[15] == 0)
            && (!self.acts(ActionBit::TaskFileRead) || self.is_readable())
    }

    #[tactic(auto, using(crate::proofs::Counts::counts))]
    fn count(&self) -> u8
        ensures { result ≡ length (made_of self.now) }
    {
        // Poll, select, and an operation for each register.
        let common = 2 - self.action_bit(ActionBit::PollAltStatOverride)
            + self.selection.count_ones() as u8;
        if self.acts(ActionBit::TaskFileRead) {
            return common;
        }
        // The read of register 7; register 6 is not written, since the select stands for it; the transfer.
        common + 1 - self.selects(Register::DEVICE) as u8 + (self.expected > 0) as u8
    }

    // There is less room than the operations need. A row with room for the most that a block makes is not counted for.
    #[tactic(auto, using(crate::proofs::Counts::counts))]
    pub(crate) fn is_short(&self, room: usize) -> bool
        ensures { result ≡ ltb room (length (made_of self.now)) }
    {
        room < MOST && room < self.count() as usize
    }

    // Unless action bit 2 is set.
    fn poll(&self) -> Option<Operation>
        ensures { listed result ≡ polls self.now.bytes.now }
    {
        (!self.acts(ActionBit::PollAltStatOverride)).then_some(Operation::Poll)
    }

    // The write or read of a register, if it is selected.
    fn accessed(&self, access: Access, register: Register) -> Option<Operation>
        ensures { listed result ≡ accesses access self.now.bytes.now (register.number ∷ []) }
    {
        let operation = match access {
            Access::Write => Operation::Write(register, self.content(register)),
            Access::Read => Operation::Read(register),
        };
        self.selects(register).then_some(operation)
    }

    // If L > 0.
    fn transfer(&self) -> Option<Operation>
        ensures { listed result ≡ transfers self.now.bytes.now self.now.expected self.now.direction }
    {
        let operand = self.direction.is_in() as u8
            + 2 * self.action_bit(ActionBit::UdmaCommand)
            + 4 * self.action_bit(ActionBit::DErrorOverride)
            + 8 * self.action_bit(ActionBit::PErrorOverride)
            + 16 * self.action_bit(ActionBit::IdentifyPacketDevice);
        (self.expected > 0).then_some(Operation::Transfer(operand))
    }

    // The operand of the select.
    fn select(&self) -> u8
        ensures { result ≡ select_of self.now }
    {
        let device = self.content(Register::DEVICE);
        let own = if self.acts(ActionBit::DevOverride) {
            bit(device, 4)
        } else {
            u8::from(self.lun)
        };
        let byte = if self.selects(Register::DEVICE) {
            device
        } else {
            DEVICE_ONES
        };
        byte - 16 * bit(byte, 4) + 16 * own
    }

    // Writes or reads of the selected registers below n, rising.
    #[tactic(auto, using(crate::proofs::Growing::rows, crate::proofs::Growing::accesses_next, crate::proofs::Growing::accesses_fit))]
    fn put_registers(&self, access: Access, n: u8, row: &mut Row)
        requires registers { n ≤ 8 }
        requires room { Fits (accesses access self.now.bytes.now (rising n)) row.old }
        ensures { row.new ≡ after (accesses access self.now.bytes.now (rising n)) row.old }
    {
        for number in 0..n {
            row.extend(self.accessed(access, Register { number }));
        }
    }

    // Select, then write 7 if selected. With action bit 1 set, the select follows the place of write 7 instead.
    #[tactic(auto, using(crate::proofs::Growing::rows))]
    fn put_command(&self, select: u8, row: &mut Row)
        requires { Fits (commanded select self.now.bytes.now) row.old }
        ensures { row.new ≡ after (commanded select self.now.bytes.now) row.old }
    {
        if self.acts(ActionBit::DeviceSelectionOverride) {
            row.extend(self.accessed(Access::Write, Register::COMMAND));
            row.put(Operation::Select(select));
        } else {
            row.put(Operation::Select(select));
            row.extend(self.accessed(Access::Write, Register::COMMAND));
        }
    }

    // Action bit 0 clear: poll; writes of selected 0 to 5; select and write 7; transfer; read 7.
    #[tactic(auto, using(crate::proofs::Growing::rows))]
    fn put_write_block(&self, select: u8, row: &mut Row)
        requires { Fits (write_block select self.now.bytes.now self.now.expected self.now.direction) row.old }
        ensures { row.new ≡ after (write_block select self.now.bytes.now self.now.expected self.now.direction) row.old }
    {
        row.extend(self.poll());
        self.put_registers(Access::Write, 6, row);
        self.put_command(select, row);
        row.extend(self.transfer());
        row.put(Operation::Read(Register::COMMAND));
    }

    // Action bit 0 set: poll, select, reads of selected 0 to 7.
    #[tactic(auto, using(crate::proofs::Growing::rows))]
    fn put_read_block(&self, select: u8, row: &mut Row)
        requires { Fits (read_block select self.now.bytes.now) row.old }
        ensures { row.new ≡ after (read_block select self.now.bytes.now) row.old }
    {
        row.extend(self.poll());
        row.put(Operation::Select(select));
        self.put_registers(Access::Read, 8, row);
    }

    // The select's operand is found before the row is begun: behind a store the block's bytes would be read again.
    #[tactic(auto, unfolding(rules::specs::Operations::operations_of))]
    fn put(&self, row: &mut Row)
        requires { Fits (made_of self.now) row.old }
        ensures { row.new ≡ after (made_of self.now) row.old }
    {
        let select = self.select();
        if self.acts(ActionBit::TaskFileRead) {
            self.put_read_block(select, row);
        } else {
            self.put_write_block(select, row);
        }
    }

    // The operations stand at the front of the lent room. Gives how many they are.
    #[tactic(auto, using(crate::proofs::Growing::whole_rows))]
    pub(crate) fn make(&self, room: &mut [u16]) -> usize
        requires { length (made_of self.now) ≤ length room.old }
        ensures { (result ≡ length (made_of self.now)) × (room.new ≡ laid (codes (made_of self.now)) room.old) }
    {
        let mut row = Row::new(room);
        self.put(&mut row);
        row.at
    }
}
