// What the part holds beside its memory and its identification.

// What the running write cycle programs: what a cut inside it leaves open.
#[derive(Clone, Copy)]
pub enum Cycle {
    // No cycle runs. It is a variant and no Option around two others: one match over the three is plainer.
    Nothing,
    // A row write: its place, and how many bytes.
    Row(usize, usize),
    // A system byte: its register, and what it held before.
    Byte(usize, u8),
}

#[derive(Clone, Copy)]
pub struct Registers {
    // The three system bytes: GPO1, RF_MNGT, I2C_CFG.
    pub gpo1: u8,
    pub mngt: u8,
    pub cfg: u8,
    // RF_MNGT_Dyn.
    pub rf: u8,
    // Bit 0 of I2C_SSO_Dyn: the password session is open.
    pub session: bool,
    // Bit 7 of IT_STS_Dyn: a phone's write is reported.
    pub reported: bool,
    // Milliseconds that are left of the write cycle.
    pub busy: u8,
    pub cycle: Cycle,
}
