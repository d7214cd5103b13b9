// Cutting bytes into rows of the memory.
#![tactic(auto)]

ghost use Rattle.std.specs.Prelude.{◌≡◌, ◌≤◌};
ghost use Rattle.scan.specs.Rows.{row_len, row_count};

// How many of `left` bytes at `at` lie in the row of `at`.
#[tactic(auto, unfolding(scan::specs::Rows::row_len))]
pub fn row_len(at: usize, left: usize) -> usize
    ensures { result ≡ row_len at left }
{
    (16 - at % 16).min(left)
}

// How many rows `len` bytes at `at` touch.
pub fn row_count(at: usize, len: usize) -> usize
    requires { len ≤ 8192 }
    ensures { result ≡ row_count at len }
{
    if len == 0 {
        return 0;
    }
    (at % 16 + len + 15) / 16
}
