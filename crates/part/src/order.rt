// What a write asks of the part.

#[derive(Clone, Copy)]
pub enum Order {
    // The address alone, to the user address.
    Poll,
    // Data for user memory, at a place.
    Row(usize),
    // A value for RF_MNGT_Dyn.
    Dynamic(u8),
    // The all-zero password.
    Password,
    // A value for a system register.
    Byte(usize, u8),
    SwitchOn,
    SwitchOff,
    // A write that no call makes. A variant and no Option around the others: `takes` says of it, as of each, whether the part takes it.
    Unknown,
}
