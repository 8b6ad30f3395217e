//! Blocks of ones.
ghost use Rattle.std.specs.Prelude.{◌≡◌, ◌+◌, ◌≤◌};
ghost use Rattle.engines.specs.Blocks.{block};

/// The word with `count` ones, at the places from `from` on.
pub(crate) fn ones(from: u32, count: u32) -> u64
    requires { from + count ≤ 64 }
    ensures { result ≡ block from count }
{
    (((1u128 << count) - 1) << from) as u64
}
