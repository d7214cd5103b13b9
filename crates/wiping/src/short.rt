// What a reply leaves, where it goes by the short way.
use numbers::flat::Flat;
use wipe::scrub::Scrub;

#[derive(Clone, Copy)]
pub struct Next {
    // The state's numbers.
    pub flat: Flat,
    // Where the wipe is.
    pub wipe: Scrub,
}
