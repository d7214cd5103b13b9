// rf_off and rf_on: switch, look, and try again. The bool is whether RF is to be on, the number the tries left after this one. The code
// stands in `flipping`.
ghost use Rattle.std.specs.Prelude.{◌≡◌};
ghost use Rattle.protocol.specs.declared.answer.TagError.TheVariants.{RfStuck};
ghost use Rattle.machine.specs.Switch.{switch_new};

use protocol::answer::TagError;

#[derive(Clone, Copy)]
pub enum Switch {
    Flip(bool, u8),
    // Only for on: RF_MNGT_Dyn = 0.
    Clear(u8),
    Look(bool, u8),
    Rest(bool, u8),
}

// RF did not switch within the tries.
#[derive(Clone, Copy)]
pub struct Stuck;

impl From<Stuck> for TagError {
    ghost from_gives = { λ _ e. e ≡ RfStuck };

    fn from(_e: Stuck) -> TagError {
        TagError::RfStuck
    }
}

impl Switch {
    // Ten tries.
    pub fn new(on: bool) -> Switch
        ensures { result ≡ switch_new on }
    {
        Switch::Flip(on, 9)
    }
}
