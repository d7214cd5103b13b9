// The capability container before the first block, and the access byte in it.
#![tactic(auto)]

ghost use Rattle.std.specs.Prelude.{◌≡◌};
ghost use Rattle.layout.specs.Container.{container_answer, read_only};

use layout::refusal::Refusal;

// The container of a tag whose area is `area` bytes, of which it counts whole blocks of eight. 4 over 524,287.
pub fn capability_container(area: usize) -> Result<[u8; 8], Refusal>
    ensures { result ≡ container_answer area }
{
    if 524287 < area {
        return Err(Refusal::AreaTooBig);
    }
    let blocks = area / 8;
    let [high, low] = (blocks as u16).to_be_bytes();
    Ok([0xE2, 0x40, 0x00, 0x01, 0x00, 0x00, high, low])
}

// Marks an image as one that a phone should not write to. Below two bytes there is no access byte, and nothing happens.
pub fn set_read_only(image: &mut [u8])
    ensures { image.new ≡ read_only image.old }
{
    if 1 < image.len() {
        image[1] = 0x43;
    }
}
