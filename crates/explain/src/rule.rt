// The rule that makes the test.
ghost use Rattle.std.specs.Prelude.{◌≡◌};
ghost use Rattle.explain.specs.Why.{reason_rule};

use crate::why::Reason;
use basis::Test;
use explain_tests::rule_of;

// The number of the rule, 0 where nothing is refused.
pub fn reason_rule(reason: Reason) -> u8
    ensures { result ≡ reason_rule reason }
{
    match reason {
        Reason::Accepted => 0,
        Reason::OfSize(failed) => rule_of(Test::Size(failed.test)),
        Reason::OfPair(failed) => rule_of(Test::Pair(failed.test)),
        Reason::OfByte(failed) => rule_of(Test::Byte(failed.test)),
    }
}
