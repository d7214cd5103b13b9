// Which operation of a session a line's first word means.

// Operations on the arrays alone.
#[derive(Clone, Copy)]
pub enum OnArrays {
    State,
    Transfer,
    Data,
    Out,
    Fill,
    Lend,
}

impl OnArrays {
    pub fn of(name: &[u8]) -> Option<OnArrays> {
        match name {
            b"state" => Some(OnArrays::State),
            b"transfer" => Some(OnArrays::Transfer),
            b"data" => Some(OnArrays::Data),
            b"out" => Some(OnArrays::Out),
            b"fill" => Some(OnArrays::Fill),
            b"lend" => Some(OnArrays::Lend),
            _ => None,
        }
    }
}

// Exports, by their names without `skp_`.
#[derive(Clone, Copy)]
pub enum Export {
    New,
    Dirty,
    Identify,
    Prepare,
    WaitReady,
    RfOff,
    RfOn,
    RfWrote,
    Scrub,
    Begin,
    GoLive,
    Finish,
    Write,
    ReadUser,
    ReadWhole,
    Next,
    Reply,
}

impl Export {
    pub fn of(name: &[u8]) -> Option<Export> {
        match name {
            b"tag_new" => Some(Export::New),
            b"tag_dirty" => Some(Export::Dirty),
            b"tag_identify" => Some(Export::Identify),
            b"tag_prepare" => Some(Export::Prepare),
            b"tag_wait_ready" => Some(Export::WaitReady),
            b"tag_rf_off" => Some(Export::RfOff),
            b"tag_rf_on" => Some(Export::RfOn),
            b"tag_rf_wrote" => Some(Export::RfWrote),
            b"tag_scrub" => Some(Export::Scrub),
            b"tag_begin" => Some(Export::Begin),
            b"tag_go_live" => Some(Export::GoLive),
            b"tag_finish" => Some(Export::Finish),
            b"tag_write" => Some(Export::Write),
            b"tag_read_user" => Some(Export::ReadUser),
            b"tag_read_whole" => Some(Export::ReadWhole),
            b"tag_next" => Some(Export::Next),
            b"tag_reply" => Some(Export::Reply),
            _ => None,
        }
    }
}
