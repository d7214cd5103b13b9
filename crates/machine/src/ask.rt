// A transfer, by what it is made of. `meant` in specs/Ask says which one.
#[derive(Clone, Copy)]
pub enum Ask {
    // An address-only write.
    Address(u8),
    // One byte into a register: device, register, value.
    Byte(u8, usize, u8),
    // The password, presented.
    Password,
    // A row of zeros at a place.
    Zeros(usize),
    // A row of the data that was lent: its place, where it begins in the data, how many bytes.
    Row(usize, usize, usize),
    // A read: device, place, how many bytes.
    Read(u8, usize, usize),
    // Milliseconds in which nothing is sent.
    Delay(u8),
}
