// The rule versions: 1 the first rules, 2 with runs that flip. A call that names no version goes by the newest.
ghost use Rattle.std.specs.Prelude.{◌≡◌};
ghost use Rattle.profile.specs.Versions.{ruleset_of, newest_rules};

use crate::Ruleset;

pub const NEWEST: u16 = 2;

// The rules of a version.
pub fn ruleset_of(version: u16) -> Ruleset
    ensures { result ≡ ruleset_of version }
{
    Ruleset { version }
}

pub fn newest_rules() -> Ruleset
    ensures { result ≡ newest_rules }
{
    ruleset_of(NEWEST)
}
