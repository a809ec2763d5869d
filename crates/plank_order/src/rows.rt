// Relations of numbers below 32 as rows of bits: what `Preorder` and `Partition` share.
ghost use Rattle.std.specs.Prelude.{◌≡◌, ℕ, ◌<◌, ◌≤◌, ◌==◌, ◌&&◌, ◌||◌, length};
ghost use Rattle.plank_order.specs.Rows.{is_set, relates};

fn bit_is_set(row: u32, b: u32) -> bool
    requires { b < 32 }
    ensures { result ≡ is_set row b }
{
    row & (1 << b) != 0
}

// The row with more numbers, if it has a.
fn row_with(row: u32, through: u32, a: u32, more: u32) -> u32
    requires { a < 32 }
    ensures { (y : ℕ) → is_set result y ≡ (is_set row y || (is_set through a && is_set more y)) }
{
    if bit_is_set(through, a) {
        row | more
    } else {
        row
    }
}

pub(crate) fn relates(rows: &[u32], a: u32, b: u32) -> bool
    requires row { a < length rows.now }
    requires bit { b < 32 }
    ensures { result ≡ relates rows.now a b }
{
    bit_is_set(rows[a as usize], b)
}

// Relates each number to itself alone.
pub(crate) fn make_diagonal(rows: &mut [u32])
    requires { length rows.old ≤ 32 }
    ensures { (x y : ℕ) → x < length rows.new → relates rows.new x y ≡ (x == y) }
{
    for x in 0..rows.len() {
        rows[x] = 1 << x;
    }
}

// Relates each x that is related to a by `through` to more numbers.
pub(crate) fn extend(rows: &mut [u32], through: &[u32], a: u32, more: u32)
    requires rows { length rows.old ≡ length through.now }
    requires bit { a < 32 }
    ensures { (x y : ℕ) → relates rows.new x y ≡
        (relates rows.old x y || (relates through.now x a && is_set more y)) }
{
    for x in 0..rows.len() {
        rows[x] = row_with(rows[x], through[x], a, more);
    }
}
