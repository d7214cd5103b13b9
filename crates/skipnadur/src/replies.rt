// The session's replies: the open call's next transfer, a reply to it, the mark, and a new session.
ghost use Rattle.std.specs.Prelude.{◌≡◌};
ghost use Rattle.telling.specs.Left.{Leaves, reply_left, next_left, new_step, new_state, dirty_step};

// A reply: 0 for refused, any other number for acknowledged.
pub fn skp_tag_reply(
    state: &mut [u8],
    transfer: &mut [u8],
    reply: &mut [u8],
    lent: &[u8],
    out: &[u8],
    ack: u32,
) -> u64
    ensures { Leaves (reply_left state.old transfer.old reply.old lent.now out.now ack) result state.new transfer.new reply.new }
{
    replying::reply(state, transfer, reply, lent, out, ack)
}

// The open call's transfer once more; nothing else changes.
pub fn skp_tag_next(state: &[u8], transfer: &mut [u8], reply: &[u8], lent: &[u8], out: &[u8]) -> u64
    ensures { Leaves (next_left state.now transfer.old reply.now lent.now out.now) result state.now transfer.new reply.now }
{
    asking::next(state, transfer, reply, lent, out)
}

// A session whose mark is the smaller of `mark` and 8,192. Only a wrong length is refused.
pub fn skp_tag_new(state: &mut [u8], mark: usize) -> u64
    ensures { (result ≡ new_step state.old) × (state.new ≡ new_state state.old mark) }
{
    marks::new(state, mark)
}

// The end of everything that may be non-zero; answered inside an open call too.
pub fn skp_tag_dirty(state: &[u8]) -> u64
    ensures { result ≡ dirty_step state.now }
{
    marks::dirty(state)
}
