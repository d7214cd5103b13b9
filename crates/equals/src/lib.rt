// Bytes that are the same as others. They are tested without leaving early, so that a block is tested at once.
#![tactic(auto)]

ghost use Rattle.std.specs.Prelude.{◌≡◌, length};
ghost use Rattle.scan.specs.Zeros.{alike};

// Whether `a` and `b`, which are of one length, hold the same bytes. A loop and no `==`, so that one token of it can be wrong and all else right.
pub fn same(a: &[u8], b: &[u8]) -> bool
    requires { length a.now ≡ length b.now }
    ensures { result ≡ alike a.now b.now }
{
    let mut ok = true;
    for i in 0..a.len() {
        ok = ok & (a[i] == b[i]);
    }
    ok
}
