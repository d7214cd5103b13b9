// One turn of the bus: a phone may come first where RF is on; then the step that the session asks for is carried out on the simulated
// part, and the session gets its reply.
use skipnadur::replies::skp_tag_reply;
use stand::bench::{Bench, Session, Tile};
use stand::bus::{carried, perhaps};
use stand::step::Step;

// `data` and `out` are what the host lends to the call.
pub fn turn(
    b: Bench,
    tile: &mut Tile,
    session: &mut Session,
    data: &[u8],
    out: &mut [u8],
) -> Bench {
    let p = perhaps(b, tile);
    let t = carried(p, tile, session, out);
    let Session {
        state,
        transfer,
        reply,
    } = session;
    let step = skp_tag_reply(state, transfer, reply, data, out, u32::from(t.ack));
    p.advanced(t.registers, Step::from(step))
}
