//! What a line means for every run under the policy. This function does nothing.
ghost use Rattle.meaning_text.specs.Laws.{PairsNeverMeet};

use policy_meaning::laws::kept_apart_never_meet;

/// Two processes of which a line says that they never hold each other's data do not: after no
/// legal run one of them holds data of the other's home, directly or through others.
pub fn pairs_never_meet()
    ensures { PairsNeverMeet }
{
    kept_apart_never_meet();
}
