//! Worked scripts whose replies the definitions alone give: computed, with no code. What the pieces spell is a premise, and
//! that no stored text has more bytes than a script may have. The program gives the same replies.

ghost use Rattle.std.specs.Prelude.{◌≡◌, [], ℕ, List as Sequence};
ghost use Rattle.ebr_script.specs.Pieces.{pieces_of};
ghost use Rattle.ebr_servertests.specs.WorkedScripts.{Gives, CallsGive, UpgradeGives};

use crate::scripts::{FIRST_CALLS, FIRST_REPLIES, UPGRADE, UPGRADE_REPLIES};
use ebr_trial::prints;
use std::test::Fail;

fn definitions_alone_give_the_replies()
    ensures nothing { (script : Sequence ℕ) → pieces_of script ≡ [] → Gives script [] }
    ensures calls { CallsGive FIRST_REPLIES.now }
    ensures upgrade { UpgradeGives UPGRADE_REPLIES.now }
{}

#[test]
fn the_program_gives_the_same_replies(rt: HostRuntime) -> Result<(), Fail> {
    assert!(rt; prints(rt.alloc(), FIRST_CALLS, FIRST_REPLIES)?);
    assert!(rt; prints(rt.alloc(), UPGRADE, UPGRADE_REPLIES)?);
    Ok(())
}
