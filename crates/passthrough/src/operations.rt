// Register operations: 16 bits, the high byte the kind and the low byte the operand.
ghost use Rattle.std.specs.Prelude.{◌≡◌, ◌<◌};

// One of the registers 0 to 7.
#[derive(Clone, Copy)]
pub(crate) struct Register {
    pub(crate) number: u8,
    ghost one_of_eight: { number < 8 },
}

impl Register {
    // Those that the rules name: 1F6h and 1F7h.
    pub(crate) const DEVICE: Register = Register { number: 6 };

    pub(crate) const COMMAND: Register = Register { number: 7 };
}

#[derive(Clone, Copy)]
pub(crate) enum Operation {
    Poll,
    Select(u8),
    Transfer(u8),
    Write(Register, u8),
    Read(Register),
}

impl From<Operation> for u16 {
    ghost use Rattle.rules.specs.Operations.{code};
    ghost use Rattle.passthrough.specs.Rows.{seen};

    fn from(operation: Operation) -> u16
        ensures { result ≡ code (seen operation) }
    {
        let (kind, operand) = match operation {
            Operation::Poll => (0x01, 0),
            Operation::Select(operand) => (0x02, operand),
            Operation::Transfer(operand) => (0x03, operand),
            Operation::Write(register, content) => (0x10 + register.number, content),
            Operation::Read(register) => (0x20 + register.number, 0),
        };
        u16::from_le_bytes([operand, kind])
    }
}
