// Where the bundles of a command list lie.
ghost use Rattle.std.specs.Prelude.{◌≡◌, ◌≤◌, ◌<◌, ◌^◌};
ghost use Rattle.spec.specs.Bundles.{address_of};

use types::Layout;
use words::command::BUNDLE_LENGTH;

// The bundles of a list, from the layout's base on. There is one at least, and they end at or before 2 ^ 32.
#[derive(Clone, Copy)]
pub struct Extent {
    pub layout: Layout,
    pub bundles: usize,
    ghost some: { 0 < bundles },
    ghost ends: { address_of layout bundles ≤ 2 ^ 32 },
}

impl Extent {
    // The address after the list's last command.
    pub fn end(self) -> u64
        ensures { result ≡ address_of self.layout self.bundles }
    {
        u64::from(self.layout.base) + BUNDLE_LENGTH * self.bundles as u64
    }
}
