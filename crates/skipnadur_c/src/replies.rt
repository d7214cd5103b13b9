// A session's replies for C: each export is the function of `skipnadur::replies` that has its name, with the same clauses.
ghost use Rattle.std.specs.Prelude.{◌≡◌};
ghost use Rattle.telling.specs.Left.{Leaves, reply_left, next_left, new_step, new_state, dirty_step};

#[unsafe(no_mangle)]
pub extern "C" fn skp_tag_reply(
    state: &mut [u8],
    transfer: &mut [u8],
    reply: &mut [u8],
    lent: &[u8],
    out: &[u8],
    ack: u32,
) -> u64
    ensures { Leaves (reply_left state.old transfer.old reply.old lent.now out.now ack) result state.new transfer.new reply.new }
{
    skipnadur::replies::skp_tag_reply(state, transfer, reply, lent, out, ack)
}

#[unsafe(no_mangle)]
pub extern "C" fn skp_tag_next(
    state: &[u8],
    transfer: &mut [u8],
    reply: &[u8],
    lent: &[u8],
    out: &[u8],
) -> u64
    ensures { Leaves (next_left state.now transfer.old reply.now lent.now out.now) result state.now transfer.new reply.now }
{
    skipnadur::replies::skp_tag_next(state, transfer, reply, lent, out)
}

#[unsafe(no_mangle)]
pub extern "C" fn skp_tag_new(state: &mut [u8], mark: usize) -> u64
    ensures { (result ≡ new_step state.old) × (state.new ≡ new_state state.old mark) }
{
    skipnadur::replies::skp_tag_new(state, mark)
}

#[unsafe(no_mangle)]
pub extern "C" fn skp_tag_dirty(state: &[u8]) -> u64
    ensures { result ≡ dirty_step state.now }
{
    skipnadur::replies::skp_tag_dirty(state)
}
