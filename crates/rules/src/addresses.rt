// A string index and a byte address, which never stand in for each other: one conversion leads from the first to the second, and it doubles.
ghost use Rattle.std.specs.Prelude.{◌≡◌};
ghost use Rattle.rules.specs.Descriptors.{address_of, number_of};

#[derive(Clone, Copy)]
pub struct StringIndex(pub u8);

#[derive(Clone, Copy)]
pub struct Address(pub u16);

impl From<StringIndex> for Address {
    fn from(index: StringIndex) -> Address
        ensures { result ≡ address_of index }
    {
        Address(2 * index.0 as u16)
    }
}

impl From<Address> for u16 {
    fn from(address: Address) -> u16
        ensures { result ≡ number_of address }
    {
        address.0
    }
}
