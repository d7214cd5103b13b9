// What a build answers, and a container, in the form in which C gets them: a number, and what it carries in a lent array.
#![tactic(auto)]

ghost use Rattle.std.specs.Prelude.{◌≡◌};
ghost use Rattle.layout.specs.Numbers.{values_of, verdict_number};
ghost use Rattle.layout.specs.Container.{container_answer, container_bytes};
ghost use Rattle.judging.specs.Judge.{built_number, built_values};
ghost use Rattle.tells.specs.Builds.{pair_of};

use layout::refusal::Refusal;

// What a refusal carries, and zeros after that.
fn carried(why: Refusal) -> [usize; 2]
    ensures { result ≡ pair_of (values_of why) }
{
    match why {
        Refusal::TooLong { needed, room } => [needed, room],
        Refusal::RecordTooLong(len) => [len, 0],
        Refusal::TypeTooLong | Refusal::AreaTooBig | Refusal::NotUtf8 => [0, 0],
    }
}

// A build's number: 0 and the place after the last byte written, or its refusal.
pub fn told(b: Result<usize, Refusal>, values: &mut [usize; 2]) -> u32
    ensures { (result ≡ built_number b) × (values.new ≡ pair_of (built_values b)) }
{
    match b {
        Ok(place) => {
            *values = [place, 0];
            0
        }
        Err(why) => {
            *values = carried(why);
            why.into()
        }
    }
}

// The container of a tag with this area: 0, or 4 and eight zeros.
pub fn capability_container(area: usize, container: &mut [u8; 8]) -> u32
    ensures { (result ≡ verdict_number (container_answer area)) × (container.new ≡ container_bytes (container_answer area)) }
{
    match container::capability_container(area) {
        Ok(bytes) => {
            *container = bytes;
            0
        }
        Err(why) => {
            *container = [0; 8];
            why.into()
        }
    }
}
