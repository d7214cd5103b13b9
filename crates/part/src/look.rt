// What a read asks of the part.

#[derive(Clone, Copy)]
pub enum Look {
    // User memory, from a place.
    Memory(usize),
    // RF_MNGT_Dyn, I2C_SSO_Dyn, IT_STS_Dyn.
    Dynamic,
    Session,
    Status,
    // A system register.
    Byte(usize),
    // MEM_SIZE to the end of the UID.
    Identity,
    // A read that no call makes. A variant and no Option around the others: `known` and `shown` say of it, as of each, what the part answers.
    Unknown,
}
