// What the fields of a setup may say: the two places, and the two bulk pipes; and of the configuration bytes the first that settings hold, the command
// signature, and the one that string index 0 uses as its index. Numbers and no enum: behind the judge `serve` promises of every other number too, as the
// rules' `in_memory` and `halt_of` have it.
pub const CONFIGURATION_BYTES: u16 = 0x0000;

pub const MEMORY: u16 = 0x0002;

pub const BULK_OUT: u16 = 0x01;

pub const BULK_IN: u16 = 0x82;

pub const FIRST_SETTING: usize = 0x02;

pub const SIGNATURE: usize = 0x04;

pub const FIRST_STRING: usize = 0x0E;
