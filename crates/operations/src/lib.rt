// The exports, on the parts of a session's arrays that are lent.
#![tactic(auto)]

use buffers::arrays::Parts;
use buffers::names::Export;
use cases::words::{number, word};
use skipnadur::replies::{skp_tag_dirty, skp_tag_new, skp_tag_next, skp_tag_reply};
use skipnadur::starts::{
    skp_tag_begin, skp_tag_finish, skp_tag_go_live, skp_tag_identify, skp_tag_prepare,
    skp_tag_read_user, skp_tag_read_whole, skp_tag_rf_off, skp_tag_rf_on, skp_tag_rf_wrote,
    skp_tag_scrub, skp_tag_wait_ready, skp_tag_write,
};

// The step that the export returns. The line's number is a mark, a place or a reply's acknowledgement.
pub fn step(line: &[u8], export: Export, lent: Parts<'_>) -> u64 {
    let Parts {
        state,
        transfer,
        reply,
        data,
        out,
    } = lent;
    match export {
        Export::New => skp_tag_new(state, number(word(line, 1))),
        Export::Dirty => skp_tag_dirty(state),
        Export::Identify => skp_tag_identify(state, transfer, reply),
        Export::Prepare => skp_tag_prepare(state, transfer, reply),
        Export::WaitReady => skp_tag_wait_ready(state, transfer, reply),
        Export::RfOff => skp_tag_rf_off(state, transfer, reply),
        Export::RfOn => skp_tag_rf_on(state, transfer, reply),
        Export::RfWrote => skp_tag_rf_wrote(state, transfer, reply),
        Export::Scrub => skp_tag_scrub(state, transfer, reply),
        Export::Begin => skp_tag_begin(state, transfer, reply),
        Export::GoLive => skp_tag_go_live(state, transfer, reply),
        Export::Finish => skp_tag_finish(state, transfer, reply),
        Export::Write => skp_tag_write(state, transfer, reply, number(word(line, 1)), data),
        Export::ReadUser => {
            skp_tag_read_user(state, transfer, reply, number(word(line, 1)), out)
        }
        Export::ReadWhole => skp_tag_read_whole(state, transfer, reply, out),
        Export::Next => skp_tag_next(state, transfer, reply, data, out),
        Export::Reply => {
            let ack = (number(word(line, 1)) % 0x1_0000_0000) as u32;
            skp_tag_reply(state, transfer, reply, data, out, ack)
        }
    }
}
