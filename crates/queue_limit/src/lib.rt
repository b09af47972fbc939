// The packet limit of a tree, 1 to 256.
#![tactic(auto)]

ghost use Rattle.std.specs.Prelude.{◌≡◌};
ghost use Rattle.refusal.specs.Numbers.{number_of};
ghost use Rattle.queue_limit.specs.Limit.{limit_fault};

use refusal::Refusal;

// Tests a packet limit.
pub fn check_limit(limit: usize) -> Result<(), Refusal>
    ensures { number_of result ≡ limit_fault limit }
{
    if (1..=256).contains(&limit) {
        Ok(())
    } else {
        Err(Refusal::Limit)
    }
}
