// How many cuts are tried.
#[derive(Clone, Copy)]
pub struct Plan {
    // The word that asks for it.
    pub name: &'static str,
    // Cut after one step in so many.
    pub every: u64,
    // Museum sessions.
    pub sessions: u64,
    // How many cuts there will be; where that is not known yet they are counted only.
    pub total: Option<u64>,
}
