// A layout, lent to a run.
ghost use Rattle.std.specs.Prelude.{◌≡◌};

use types::Layout;

// The ceilings are lent apart, because they are indexed by an order's number. The compiler then keeps the other numbers as locals of the loop.
#[derive(Clone, Copy)]
pub struct Plan<'a> {
    pub layout: &'a Layout,
    pub ceilings: &'a [u32; Layout::CEILINGS],
    ghost same: { ceilings.now ≡ layout.now.ceilings },
}
