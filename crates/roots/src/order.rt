// Seconds in their order.
ghost use Rattle.std.specs.Prelude.{◌≡◌, ℕ, map};
ghost use Rattle.roots.specs.Entries.{rising};

// No second of a calendar reaches this one.
const END: u32 = 0x8000_0000;

// What has a second.
pub(crate) trait Dated {
    ghost dated: { Self → ℕ };

    fn second(&self) -> u32
        ensures { result ≡ dated self.now };
}

// Whether the seconds rise strictly, and stay within a calendar.
pub(crate) fn rises<T: Dated>(items: &[T]) -> bool
    ensures { result ≡ rising 0 (map T.Dated.dated items.now) }
{
    let mut low = 0;
    for item in items {
        let second = item.second();
        if second < low || second >= END {
            return false;
        }
        low = second + 1;
    }
    true
}
