// Tests one bit of a set that is stored as a number.
#![tactic(auto)]

ghost use Rattle.std.specs.Prelude.{◌≡◌, ◌<◌};
ghost use Rattle.types.specs.Names.{events};
ghost use Rattle.policy_spec.specs.maps.Maps.{bit};

#[tactic(auto, unfolding(policy_spec::specs::maps::Maps::bit))]
pub fn has_bit(map: usize, k: usize) -> bool
    requires { k < events }
    ensures { result ≡ bit map k }
{
    (map >> k) % 2 == 1
}
