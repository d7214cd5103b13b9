// A session's entry points for C: each export is the function of `skipnadur::starts` that has its name, with the same clauses.
ghost use Rattle.std.specs.Prelude.{length};
ghost use Rattle.protocol.specs.Call as call;
ghost use Rattle.telling.specs.Left.{Leaves, start_left};

#[unsafe(no_mangle)]
pub extern "C" fn skp_tag_identify(state: &mut [u8], transfer: &mut [u8], reply: &mut [u8]) -> u64
    ensures { Leaves (start_left call.identify state.old transfer.old reply.old) result state.new transfer.new reply.new }
{
    skipnadur::starts::skp_tag_identify(state, transfer, reply)
}

#[unsafe(no_mangle)]
pub extern "C" fn skp_tag_prepare(state: &mut [u8], transfer: &mut [u8], reply: &mut [u8]) -> u64
    ensures { Leaves (start_left call.prepare state.old transfer.old reply.old) result state.new transfer.new reply.new }
{
    skipnadur::starts::skp_tag_prepare(state, transfer, reply)
}

#[unsafe(no_mangle)]
pub extern "C" fn skp_tag_wait_ready(state: &mut [u8], transfer: &mut [u8], reply: &mut [u8]) -> u64
    ensures { Leaves (start_left call.wait_ready state.old transfer.old reply.old) result state.new transfer.new reply.new }
{
    skipnadur::starts::skp_tag_wait_ready(state, transfer, reply)
}

#[unsafe(no_mangle)]
pub extern "C" fn skp_tag_rf_off(state: &mut [u8], transfer: &mut [u8], reply: &mut [u8]) -> u64
    ensures { Leaves (start_left call.rf_off state.old transfer.old reply.old) result state.new transfer.new reply.new }
{
    skipnadur::starts::skp_tag_rf_off(state, transfer, reply)
}

#[unsafe(no_mangle)]
pub extern "C" fn skp_tag_rf_on(state: &mut [u8], transfer: &mut [u8], reply: &mut [u8]) -> u64
    ensures { Leaves (start_left call.rf_on state.old transfer.old reply.old) result state.new transfer.new reply.new }
{
    skipnadur::starts::skp_tag_rf_on(state, transfer, reply)
}

#[unsafe(no_mangle)]
pub extern "C" fn skp_tag_rf_wrote(state: &mut [u8], transfer: &mut [u8], reply: &mut [u8]) -> u64
    ensures { Leaves (start_left call.rf_wrote state.old transfer.old reply.old) result state.new transfer.new reply.new }
{
    skipnadur::starts::skp_tag_rf_wrote(state, transfer, reply)
}

#[unsafe(no_mangle)]
pub extern "C" fn skp_tag_scrub(state: &mut [u8], transfer: &mut [u8], reply: &mut [u8]) -> u64
    ensures { Leaves (start_left call.scrub state.old transfer.old reply.old) result state.new transfer.new reply.new }
{
    skipnadur::starts::skp_tag_scrub(state, transfer, reply)
}

#[unsafe(no_mangle)]
pub extern "C" fn skp_tag_begin(state: &mut [u8], transfer: &mut [u8], reply: &mut [u8]) -> u64
    ensures { Leaves (start_left call.begin state.old transfer.old reply.old) result state.new transfer.new reply.new }
{
    skipnadur::starts::skp_tag_begin(state, transfer, reply)
}

#[unsafe(no_mangle)]
pub extern "C" fn skp_tag_go_live(state: &mut [u8], transfer: &mut [u8], reply: &mut [u8]) -> u64
    ensures { Leaves (start_left call.go_live state.old transfer.old reply.old) result state.new transfer.new reply.new }
{
    skipnadur::starts::skp_tag_go_live(state, transfer, reply)
}

#[unsafe(no_mangle)]
pub extern "C" fn skp_tag_finish(state: &mut [u8], transfer: &mut [u8], reply: &mut [u8]) -> u64
    ensures { Leaves (start_left call.finish state.old transfer.old reply.old) result state.new transfer.new reply.new }
{
    skipnadur::starts::skp_tag_finish(state, transfer, reply)
}

#[unsafe(no_mangle)]
pub extern "C" fn skp_tag_read_user(
    state: &mut [u8],
    transfer: &mut [u8],
    reply: &mut [u8],
    at: usize,
    out: &[u8],
) -> u64
    ensures { Leaves (start_left (call.read_user at (length out.now)) state.old transfer.old reply.old) result state.new transfer.new reply.new }
{
    skipnadur::starts::skp_tag_read_user(state, transfer, reply, at, out)
}

#[unsafe(no_mangle)]
pub extern "C" fn skp_tag_write(
    state: &mut [u8],
    transfer: &mut [u8],
    reply: &mut [u8],
    at: usize,
    lent: &[u8],
) -> u64
    ensures { Leaves (start_left (call.write at lent.now) state.old transfer.old reply.old) result state.new transfer.new reply.new }
{
    skipnadur::starts::skp_tag_write(state, transfer, reply, at, lent)
}

#[unsafe(no_mangle)]
pub extern "C" fn skp_tag_read_whole(
    state: &mut [u8],
    transfer: &mut [u8],
    reply: &mut [u8],
    out: &[u8],
) -> u64
    ensures { Leaves (start_left (call.read_whole (length out.now)) state.old transfer.old reply.old) result state.new transfer.new reply.new }
{
    skipnadur::starts::skp_tag_read_whole(state, transfer, reply, out)
}
