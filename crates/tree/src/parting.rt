// Where a tree is parted: its left part has the largest power of two below its number of leaves.
ghost use Rattle.std.specs.Prelude.{◌≡◌, ◌<◌, ◌≤◌, IfSome, IfNone};
ghost use Rattle.tree.specs.Answers.{split_answer};
ghost use Rattle.tree.specs.Laws.{SplitLaw};
ghost use Rattle.tree.specs.Split.{split};

// The leaves of the left part of a tree over n leaves; below two leaves there are no parts.
pub(crate) fn left_part(n: usize) -> Option<usize>
    ensures value { result ≡ split_answer n }
    ensures parts { IfSome result (λ k. (2 ≤ n) × (k ≡ split n) × (1 ≤ k) × (k < n)) }
    ensures none { IfNone result (n < 2) }
    ensures law { SplitLaw }
{
    let last = n.checked_sub(1)?;
    Some(1 << last.checked_ilog2()?)
}

// The same for trees of fewer than 2 ^ 32 leaves.
pub fn split(n: u32) -> Option<u32>
    ensures value { result ≡ split_answer n }
    ensures law { SplitLaw }
{
    left_part(n as usize).map(|left| left as u32)
}
