// Arrays made of fewer items.
ghost use Rattle.std.specs.Prelude.{◌≡◌, ◌-◌, ◌≤◌, ◌++◌, length, replicate};

// The items, and `rest` in the places behind them.
pub(crate) fn padded<T: Copy, const N: usize>(items: &[T], rest: T) -> [T; N]
    requires { length items.now ≤ N }
    ensures { result ≡ items.now ++ replicate (N - length items.now) rest }
{
    let mut all = [rest; N];
    all[..items.len()].copy_from_slice(items);
    all
}
