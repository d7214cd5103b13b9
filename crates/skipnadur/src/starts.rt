// The session's entry points: a call is started, its transfers are asked for one by one, its replies given. Each returns the 64-bit
// step (telling/specs/Step) and leaves in the lent buffers what telling/specs/Left says, for all inputs.
ghost use Rattle.std.specs.Prelude.{length};
ghost use Rattle.protocol.specs.Call as call;
ghost use Rattle.telling.specs.Left.{Leaves, start_left};

use calling::Call;
use starting::start;

pub fn skp_tag_identify(state: &mut [u8], transfer: &mut [u8], reply: &mut [u8]) -> u64
    ensures { Leaves (start_left call.identify state.old transfer.old reply.old) result state.new transfer.new reply.new }
{
    start(state, transfer, reply, &[], Call::Identify)
}

pub fn skp_tag_prepare(state: &mut [u8], transfer: &mut [u8], reply: &mut [u8]) -> u64
    ensures { Leaves (start_left call.prepare state.old transfer.old reply.old) result state.new transfer.new reply.new }
{
    start(state, transfer, reply, &[], Call::Prepare)
}

pub fn skp_tag_wait_ready(state: &mut [u8], transfer: &mut [u8], reply: &mut [u8]) -> u64
    ensures { Leaves (start_left call.wait_ready state.old transfer.old reply.old) result state.new transfer.new reply.new }
{
    start(state, transfer, reply, &[], Call::WaitReady)
}

pub fn skp_tag_rf_off(state: &mut [u8], transfer: &mut [u8], reply: &mut [u8]) -> u64
    ensures { Leaves (start_left call.rf_off state.old transfer.old reply.old) result state.new transfer.new reply.new }
{
    start(state, transfer, reply, &[], Call::RfOff)
}

pub fn skp_tag_rf_on(state: &mut [u8], transfer: &mut [u8], reply: &mut [u8]) -> u64
    ensures { Leaves (start_left call.rf_on state.old transfer.old reply.old) result state.new transfer.new reply.new }
{
    start(state, transfer, reply, &[], Call::RfOn)
}

pub fn skp_tag_rf_wrote(state: &mut [u8], transfer: &mut [u8], reply: &mut [u8]) -> u64
    ensures { Leaves (start_left call.rf_wrote state.old transfer.old reply.old) result state.new transfer.new reply.new }
{
    start(state, transfer, reply, &[], Call::RfWrote)
}

pub fn skp_tag_scrub(state: &mut [u8], transfer: &mut [u8], reply: &mut [u8]) -> u64
    ensures { Leaves (start_left call.scrub state.old transfer.old reply.old) result state.new transfer.new reply.new }
{
    start(state, transfer, reply, &[], Call::Scrub)
}

pub fn skp_tag_begin(state: &mut [u8], transfer: &mut [u8], reply: &mut [u8]) -> u64
    ensures { Leaves (start_left call.begin state.old transfer.old reply.old) result state.new transfer.new reply.new }
{
    start(state, transfer, reply, &[], Call::Begin)
}

pub fn skp_tag_go_live(state: &mut [u8], transfer: &mut [u8], reply: &mut [u8]) -> u64
    ensures { Leaves (start_left call.go_live state.old transfer.old reply.old) result state.new transfer.new reply.new }
{
    start(state, transfer, reply, &[], Call::GoLive)
}

pub fn skp_tag_finish(state: &mut [u8], transfer: &mut [u8], reply: &mut [u8]) -> u64
    ensures { Leaves (start_left call.finish state.old transfer.old reply.old) result state.new transfer.new reply.new }
{
    start(state, transfer, reply, &[], Call::Finish)
}

// `out` is lent for its length alone: the host puts the bytes into it.
pub fn skp_tag_read_user(
    state: &mut [u8],
    transfer: &mut [u8],
    reply: &mut [u8],
    at: usize,
    out: &[u8],
) -> u64
    ensures { Leaves (start_left (call.read_user at (length out.now)) state.old transfer.old reply.old) result state.new transfer.new reply.new }
{
    start(state, transfer, reply, &[], Call::ReadUser(at, out.len()))
}

pub fn skp_tag_write(
    state: &mut [u8],
    transfer: &mut [u8],
    reply: &mut [u8],
    at: usize,
    lent: &[u8],
) -> u64
    ensures { Leaves (start_left (call.write at lent.now) state.old transfer.old reply.old) result state.new transfer.new reply.new }
{
    start(state, transfer, reply, lent, Call::Write(at))
}

pub fn skp_tag_read_whole(
    state: &mut [u8],
    transfer: &mut [u8],
    reply: &mut [u8],
    out: &[u8],
) -> u64
    ensures { Leaves (start_left (call.read_whole (length out.now)) state.old transfer.old reply.old) result state.new transfer.new reply.new }
{
    start(state, transfer, reply, &[], Call::ReadWhole(out.len()))
}
